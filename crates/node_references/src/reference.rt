//! What references begin with.

use py_base::{NodeId, SymId};

/// What a reference begins with.
#[derive(Clone, Copy, Debug, PartialEq, Eq, Hash)]
pub enum Root {
    /// A symbol, of this graph or of another.
    Symbol(SymId),
    /// The subject of a `match` statement: its hidden reference, which no name stands for.
    Subject(NodeId),
}
