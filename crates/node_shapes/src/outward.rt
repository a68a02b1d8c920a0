//! The way from a node outward.
use py_base::{NodeId, NodeKind};

/// Where a node stands: which part of which node around it.
#[derive(Clone, Copy)]
pub struct Step {
    /// The node around.
    pub around: NodeId,
    pub kind: NodeKind,
    /// Which of its parts leads in, counted from 0.
    pub part: usize,
    /// How many parts it has.
    pub parts: usize,
    /// The kind of the part that leads in.
    pub inner: NodeKind,
}
