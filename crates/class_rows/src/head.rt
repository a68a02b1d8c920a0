//! What class statements say.

use py_base::{ClassId, List, NameId, SymId};

/// A base of a class.
#[derive(Clone, Copy, PartialEq, Eq)]
pub enum Base {
    /// A builtin class or a class of the file.
    Known(ClassId),
    /// Anything else. It has no part in the order, and makes the class an open one.
    Unknown,
}

/// A class statement.
#[derive(Drop)]
pub struct ClassHead {
    pub name: NameId,
    /// The bases in the order of the text.
    pub bases: List<Base>,
    /// Whether a keyword argument stands in its head, as in `class C(metaclass=M)`.
    pub keyword: bool,
    /// The symbols of the members. Where a name comes twice, its first symbol counts.
    pub members: List<(NameId, SymId)>,
}
