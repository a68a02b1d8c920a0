//! Edges.

use crate::point::Point;
use py_base::NodeId;

/// What an edge says of those that take it, with the node whose exit it is.
#[derive(Clone, Copy, Debug, PartialEq, Eq, Hash)]
pub enum EdgeKind {
    /// Nothing: it is taken whatever came about.
    Plain,
    /// The value of the node is truthy.
    True(NodeId),
    /// The value of the node is falsy.
    False(NodeId),
    /// The call has a value.
    Call(NodeId),
    /// The case takes the subject.
    Case(NodeId),
    /// The case leaves the subject to those behind it.
    NotCase(NodeId),
    /// Something raised an exception, or may have.
    Handler,
    /// From a def or a lambda to the start of its graph.
    Start,
}

/// An edge of a code flow graph: what is at `to` may run next after `from`.
#[derive(Clone, Copy, Debug, PartialEq, Eq, Hash)]
pub struct Edge {
    pub from: Point,
    pub to: Point,
    pub kind: EdgeKind,
}
