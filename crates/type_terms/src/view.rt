//! The types that an analysis has for its keys, and what the text of a type is taken from.
ghost use Rattle.std.specs.Prelude.{◌≡◌, ◌<◌, ℕ, [], ◌∷◌, Option, List, IfOk, OnOk, OnErr, length};
ghost use Rattle.py_base.specs.declared.key.Key.{Key};
ghost use Rattle.type_terms.specs.declared.atom.Atom.{Atom};
ghost use Rattle.type_terms.specs.Asked.{AsksJust, AsksSome, Cancels};
ghost use Rattle.type_terms.specs.View.{ViewTable};

use crate::facts::Facts;
use crate::types::Type;
use py_base::{ClassId, FuncId, Key, NameId, Stop};
use std::alloc::Global;

/// An assignment of types to keys.
pub trait Types {
    /// The type of each key.
    ghost assignment: { Self → Key → List Atom };

    /// How many raises of its flag it has seen.
    ghost seen: { Self → ℕ };

    /// The keys asked so far, where it tells them.
    ghost asked: { Self → Option (List Key) };

    /// What no answer changes, apart from the assignment.
    ghost stays: { Self → Self → Type 0 };

    /// What stays over a call stays over two of them, and where nothing is done.
    ghost keeps_itself: { (now : Self) → stays now now };

    ghost keeps_on: { (before between now : Self) → stays before between → stays between now → stays before now };

    /// The type of a key. `Cancelled` comes only where the count of seen raises rose in this call.
    fn get(&mut self, alloc: Global, key: Key) -> Result<Type, Stop>
        ensures value { IfOk result (λ ty. ty ≡ assignment self.old key) }
        ensures same { assignment self.new ≡ assignment self.old }
        ensures stays { stays self.old self.new }
        ensures asked { OnOk result (AsksJust (asked self.old) (key ∷ []) (asked self.new)) }
        ensures asked_before { OnErr result (asked self.new ≡ asked self.old) }
        ensures cancels { Cancels (seen self.old) (seen self.new) result };
}

/// What the text of a type is taken from.
pub trait View: Types + Facts {
    ghost view: { Self → ViewTable };

    /// The type of a parameter, by its place counted from 0.
    fn param(&mut self, alloc: Global, func: FuncId, place: u32) -> Result<Type, Stop>
        requires { place < length ((Self.facts self.old).func func).params }
        ensures value { IfOk result (λ ty. ty ≡ (view self.old).param func place) }
        ensures same { Self.assignment self.new ≡ Self.assignment self.old }
        ensures stays { Self.stays self.old self.new }
        ensures asked { AsksSome (Self.asked self.old) ((view self.old).param_keys func place) (Self.asked self.new) }
        ensures cancels { Cancels (Self.seen self.old) (Self.seen self.new) result };

    /// The text of a name, without memory.
    fn word(&self, name: NameId) -> &str
        ensures { result.now ≡ (view self.now).word name };

    /// The name of a class, without memory.
    fn class_word(&self, class: ClassId) -> &str
        ensures { result.now ≡ (view self.now).class_word class };

    /// The name of a builtin function or method, by its row, without memory.
    fn row_word(&self, row: u32) -> &str
        ensures { result.now ≡ (view self.now).row_word row };

    ghost keeps_names: { (before now : Self) → Self.stays before now → Self.names now ≡ Self.names before };

    ghost keeps_facts: { (before now : Self) → Self.stays before now → Self.facts now ≡ Self.facts before };

    ghost keeps_view: { (before now : Self) → Self.stays before now → view now ≡ view before };
}
