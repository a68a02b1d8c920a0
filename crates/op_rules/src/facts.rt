//! What the rules ask of the names and the member symbols of a text.
ghost use Rattle.std.specs.Prelude.{◌≡◌};
ghost use Rattle.op_rules.specs.World.{MemberTable};

use py_base::{NameId, SymId};
use type_terms::facts::Facts;

/// Whether the symbol of a class's member hides what stands behind it in the order of the class.
#[derive(Clone, Copy, PartialEq, Eq)]
pub enum Hiding {
    /// It joins what stands behind it: it has no declaration, and is bound by targets `p.name` alone, none of
    /// them a plain one of the first parameter of an `__init__`.
    Joins,
    /// It hides what stands behind it.
    Hides,
    /// It is declared, so that its declaration counts alone.
    Declares,
}

/// What is known of names and member symbols beside the facts of a text. No call takes memory.
pub trait MemberFacts: Facts {
    ghost members: { Self → MemberTable };

    /// Whether a name begins and ends with two underscores.
    fn is_dunder(&self, name: NameId) -> bool
        ensures { result ≡ (members self.now).is_dunder name };

    /// Whether the symbol of a member hides what stands behind it.
    fn hiding(&self, symbol: SymId) -> Hiding
        ensures { result ≡ (members self.now).hiding symbol };
}
