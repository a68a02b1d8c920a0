//! The rows of the classes, and what they answer.
ghost use Rattle.std.specs.Prelude.{◌≡◌, ◌<◌, ◌^◌, ◌↔◌, length, Contains, MatchOption, IfOk, IsTrue};
ghost use Rattle.class_rows.specs.Classes.{BasesAreEarlier};
ghost use Rattle.class_rows.specs.Rows.{IsClass, IsRows, no_row, row_at, order_of, is_sub_of, is_open_of, has_keyword_of, own_member_of, member_of};
ghost use Rattle.class_rows.specs.Table.{IsSound};

use crate::build::rows_of;
use crate::head::ClassHead;
use crate::row::Row;
use py_base::{ClassId, List, NameId, NoMemory, SymId};
use std::alloc::Global;
use std::marker::Model;

/// For each builtin class and each class of a file its order and its members. A contract sees it
/// as the list of the rows by class number: `order_of` is the order of a class, `row_at` its row.
///
/// The builtin classes have the first numbers and the classes of the file those behind them, in the
/// order of the heads. The calls after `build` take no memory. They answer for every class number: one
/// that no class has has the empty order and no members.
#[derive(Drop)]
pub struct ClassRows {
    rows: List<Row>,
}

impl Model for ClassRows {
    ghost use Rattle.std.specs.Prelude.{List};
    ghost use Rattle.class_rows.specs.Rows.{ClassRow};
    ghost use Rattle.class_rows.specs.Table.{IsTable};

    ghost Value = { List ClassRow };

    ghost view = { λ classes. classes.rows };

    ghost invariant = { λ classes. IsTable classes.rows };
}

impl ClassRows {
    /// The rows of the builtin classes and of those of the heads.
    ///
    /// A class has an order where the rule of C3 gives it one and none of its bases is `bool`.
    /// Where it has none, its order is itself and `object`, and a class below it goes by that. An
    /// Unknown base counts as if it were not written; a class without other bases is under `object`.
    /// From the Python language reference, class definitions, and "The Python 2.3 Method Resolution
    /// Order".
    ///
    /// Asks that there are fewer than 2^30 heads, and that each Known base is a builtin class or that
    /// of an earlier head, which `bases_are_earlier` tells. `NoMemory` where the rows could not be
    /// stored.
    pub fn build(alloc: Global, heads: &[ClassHead]) -> Result<ClassRows, NoMemory>
        requires few { length heads.now < 2 ^ 30 }
        requires earlier { BasesAreEarlier heads.now }
        ensures { IfOk result (IsRows heads.now) }
    {
        let rows = rows_of(alloc, heads)?;
        Ok(ClassRows { rows })
    }

    /// Whether a class has this number.
    pub fn has_class(&self, class: ClassId) -> bool
        ensures { IsTrue result ↔ IsClass self.now class }
    {
        (class.0 as usize) < self.rows.len()
    }

    /// The row of a class.
    #[tactic(auto, using(crate::proofs::Growing::row_past))]
    fn row(&self, class: ClassId) -> Option<&Row>
        ensures { MatchOption result (row_at self.now class ≡ no_row) (λ row. row.now ≡ row_at self.now class) }
    {
        if (class.0 as usize) < self.rows.len() {
            Some(&self.rows.as_slice()[class.0 as usize])
        } else {
            None
        }
    }

    /// The order of a class that has a row.
    fn order(&self, class: ClassId) -> &[ClassId]
        requires { IsClass self.now class }
        ensures order { result.now ≡ order_of self.now class }
        ensures sound { IsSound (length self.now) class result.now }
    {
        self.rows.as_slice()[class.0 as usize].order()
    }

    /// The order of a class. It begins with the class, and no class comes twice.
    pub fn mro(&self, class: ClassId) -> &[ClassId]
        ensures order { result.now ≡ order_of self.now class }
        ensures sound { IsClass self.now class → IsSound (length self.now) class result.now }
    {
        if self.has_class(class) {
            self.order(class)
        } else {
            &[]
        }
    }

    /// Whether the bases of the class give an order, so that `mro` is not a makeshift.
    pub fn has_order(&self, class: ClassId) -> bool
        ensures { result ≡ (row_at self.now class).ordered }
    {
        match self.row(class) {
            Some(row) => row.is_ordered(),
            None => false,
        }
    }

    /// Whether `high` is in the order of `low`: whether it is the same class or stands above.
    pub fn is_sub(&self, low: ClassId, high: ClassId) -> bool
        ensures sub { IsTrue result ↔ Contains (order_of self.now low) high }
        ensures value { result ≡ is_sub_of self.now low high }
    {
        self.mro(low).contains(&high)
    }

    /// Whether the class itself has an Unknown base.
    pub fn has_unknown_base(&self, class: ClassId) -> bool
        ensures { result ≡ (row_at self.now class).unknown_base }
    {
        match self.row(class) {
            Some(row) => row.has_unknown_base(),
            None => false,
        }
    }

    /// Whether the class statement of the class has a keyword in its head.
    fn has_own_keyword(&self, class: ClassId) -> bool
        ensures { result ≡ (row_at self.now class).keyword }
    {
        match self.row(class) {
            Some(row) => row.has_keyword(),
            None => false,
        }
    }

    /// Whether a class of the order has an Unknown base, the class itself included.
    pub fn is_open(&self, class: ClassId) -> bool
        ensures { result ≡ is_open_of self.now class }
    {
        for above in self.mro(class) {
            if self.has_unknown_base(*above) {
                return true;
            }
        }
        false
    }

    /// Whether a class of the order has a keyword in its head, such as `metaclass=`, the class itself
    /// included.
    pub fn has_keyword(&self, class: ClassId) -> bool
        ensures { result ≡ has_keyword_of self.now class }
    {
        for above in self.mro(class) {
            if self.has_own_keyword(*above) {
                return true;
            }
        }
        false
    }

    /// The symbol of the class's own member of this name; `None` exactly where the class itself has
    /// none, whatever stands above it. Builtin classes have no members here.
    pub fn own_member(&self, class: ClassId, name: NameId) -> Option<SymId>
        ensures { result ≡ own_member_of self.now class name }
    {
        match self.row(class) {
            Some(row) => row.member(name),
            None => None,
        }
    }

    /// The symbol that the first class of the order with a member of this name has for it; `None`
    /// exactly where no class of the order has one.
    pub fn member(&self, class: ClassId, name: NameId) -> Option<SymId>
        ensures { result ≡ member_of self.now class name }
    {
        for owner in self.mro(class) {
            if let Some(symbol) = self.own_member(*owner, name) {
                return Some(symbol);
            }
        }
        None
    }
}
