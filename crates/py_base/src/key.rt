//! What the analysis asks for the type of.

use crate::ids::{FuncId, PointId, RefId, SiteId, SymId};

/// A question whose answer is a type.
#[derive(Clone, Copy, Debug, PartialEq, Eq, PartialOrd, Ord, Hash)]
pub enum Key {
    /// The type of a reference at a point of its graph.
    At(PointId, RefId),
    /// Whether the point is reached.
    Reach(PointId),
    /// What a def or a lambda returns.
    Ret(FuncId),
    /// The type of a symbol as other scopes see it.
    Sym(SymId),
    /// The type in a slot, counted from 0, of the value made at a site.
    Elem(SiteId, u32),
}
