//! What nodes are to references.
ghost use Rattle.std.specs.Prelude.{◌≡◌};
ghost use Rattle.node_references.specs.References.{shape};

use py_base::{NodeId, NodeKind};

/// What a node is to references.
#[derive(Clone, Copy, Debug, PartialEq, Eq)]
pub enum Shape {
    Name,
    /// An attribute of this part.
    Attribute(NodeId),
    /// Brackets around this one expression.
    Group(NodeId),
    /// A `match` statement.
    Match,
    Other,
}

/// What a node of this kind with these parts is to references.
pub fn shape_of(kind: NodeKind, parts: &[NodeId]) -> Shape
    ensures { result ≡ shape kind parts.now }
{
    match (kind, parts) {
        (NodeKind::Name, _) => Shape::Name,
        (NodeKind::Attribute, [part, ..]) => Shape::Attribute(*part),
        (NodeKind::Round, [part]) => Shape::Group(*part),
        (NodeKind::MatchStatement, _) => Shape::Match,
        _ => Shape::Other,
    }
}
