//! Tests that narrow a reference.
use crate::atom::Atom;
use crate::types::Type;
use py_base::{ClassId, List};
use sqlite_items::{Boxed, Items};

/// A test of a reference, as a condition or a pattern makes it. Each member of the reference's type is kept
/// or dropped, or becomes others, where the test holds, and likewise where it doesn't (Python typing
/// specification, "Type narrowing").
#[derive(Drop)]
pub enum Test {
    /// `x is None`, `x == None`.
    IsNone,
    /// `x is L`, for a bool literal or an enum member.
    IsLit(Atom),
    /// `x == L`, for a literal.
    EqualsLit(Atom),
    /// `isinstance(x, C)`, for one class or a tuple of them.
    Instance(List<ClassId>),
    /// `issubclass(x, C)`, likewise.
    Subclass(List<ClassId>),
    /// `type(x) is C`, `type(x) == C`.
    ExactClass(ClassId),
    /// `callable(x)`.
    CanCall,
    /// `f(x)`, for a def whose result is written `TypeGuard[T]`: it tells nothing where it is false.
    Guard(Type),
    /// `f(x)`, for a def whose result is written `TypeIs[T]`: it tells something on both sides.
    GuardBoth(Type),
    /// `x`, `bool(x)`.
    Truthy,
    /// `x in` a display of literals, None and enum members.
    Within(List<Atom>),
    /// The other test with its sides swapped: `not`, `is not`, `!=`, `not in`.
    Swapped(Boxed<Test>),
    /// A pattern that tells nothing: all members are kept on both sides.
    KeepBoth,
    /// `_` and a capture: all members are kept where it is true, and none where it is false.
    KeepTrue,
    /// A class pattern with parts: `isinstance` where it is true, and all members are kept where it is
    /// false.
    WithParts(ClassId),
    /// Patterns with `|` between them: the true sides together, and the false sides one after the other.
    Either(Items<Test>),
}
