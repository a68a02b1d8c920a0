//! What is left of a list while lists are merged.
ghost use Rattle.std.specs.Prelude.{◌≡◌, ◌<◌, List, drop, take, length, slice_get};
ghost use Rattle.class_rows.specs.Merge.{has};
ghost use Rattle.py_base.specs.declared.ids.ClassId.{ClassId};

use py_base::ClassId;
use std::marker::Model;

/// The classes of a list that aren't taken yet, in order. A contract sees it as the list of these.
#[derive(Drop)]
pub(crate) struct Remainder {
    classes: Vec<ClassId>,
    taken: usize,
}

impl Model for Remainder {
    ghost use Rattle.std.specs.Prelude.{List, vec_len, drop, ◌≤◌};
    ghost use Rattle.py_base.specs.declared.ids.ClassId.{ClassId};

    ghost Value = { List ClassId };

    ghost view = { λ list. drop list.taken list.classes.items };

    ghost invariant = { λ list. list.taken ≤ vec_len list.classes };
}

impl Remainder {
    /// A list of which nothing is taken yet.
    pub(crate) fn new(classes: Vec<ClassId>) -> Remainder
        ensures { result ≡ classes.items }
    {
        Remainder { classes, taken: 0 }
    }

    /// All classes, also those that are taken.
    pub(crate) fn all(&self) -> &[ClassId] {
        self.classes.as_slice()
    }

    /// The classes that aren't taken yet.
    pub(crate) fn rest(&self) -> &[ClassId]
        ensures { result.now ≡ self.now }
    {
        &self.classes.as_slice()[self.taken..]
    }

    /// The first class that isn't taken yet.
    pub(crate) fn head(&self) -> Option<ClassId>
        ensures { result ≡ slice_get self.now 0 }
    {
        self.rest().first().copied()
    }

    /// Whether the class is the first one that isn't taken yet.
    pub(crate) fn begins_with(&self, class: ClassId) -> bool
        ensures { result ≡ has class (take 1 self.now) }
    {
        match self.head() {
            Some(head) => head == class,
            None => false,
        }
    }

    /// The classes behind the first one that aren't taken yet.
    pub(crate) fn tail(&self) -> &[ClassId]
        ensures { result.now ≡ drop 1 self.now }
    {
        match self.rest().split_first() {
            Some((_, tail)) => tail,
            None => &[],
        }
    }

    /// Takes the first class.
    pub(crate) fn take_head(&mut self)
        requires { 0 < length self.old }
        ensures { self.new ≡ drop 1 self.old }
    {
        self.taken += 1;
    }
}
