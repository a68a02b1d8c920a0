//! By what an instance goes to a class besides the order of classes.
ghost use Rattle.std.specs.Prelude.{◌≡◌, List, IfOk, ◌↔◌, IsTrue};
ghost use Rattle.py_base.specs.declared.ids.ClassId.{ClassId};
ghost use Rattle.py_base.specs.declared.key.Key.{Key};
ghost use Rattle.type_terms.specs.Asked.{Cancels};
ghost use Rattle.type_terms.specs.declared.atom.Atom.{Atom};
ghost use Rattle.assign_rules.specs.Accepts.{SameTest};

use py_base::{ClassId, Stop};
use std::alloc::Global;
use type_terms::Atom;
use type_terms::view::Types;

/// A test by which an instance goes to a class that isn't over it, as to a protocol that it fits.
pub trait ClassGoes<T: Types> {
    /// Whether the instance goes to the class where the keys have these types.
    ghost test: { Self → (Key → List Atom) → Atom → ClassId → Type 0 };

    /// Whether the instance goes to the class. `Cancelled` comes only where the count of seen raises of `types` rose in this call.
    fn goes(
        &mut self,
        alloc: Global,
        low: &Atom,
        high: ClassId,
        types: &mut T,
    ) -> Result<bool, Stop>
        ensures value { IfOk result (λ r. IsTrue r ↔ test self.old (T.assignment types.old) low.now high) }
        ensures test { SameTest (test self.new) (test self.old) }
        ensures same { T.assignment types.new ≡ T.assignment types.old }
        ensures stays { T.stays types.old types.new }
        ensures cancels { Cancels (T.seen types.old) (T.seen types.new) result };
}

/// The order of classes alone: by nothing besides.
#[derive(Drop)]
pub struct OrderAlone;

impl<T: Types> ClassGoes<T> for OrderAlone {
    ghost test = { λ _ s low high. ⊥ };

    fn goes(
        &mut self,
        _alloc: Global,
        _low: &Atom,
        _high: ClassId,
        _types: &mut T,
    ) -> Result<bool, Stop> {
        Ok(false)
    }
}
