//! Targets.
ghost use Rattle.std.specs.Prelude.{◌≡◌};
ghost use Rattle.node_shapes.specs.Targets.{target};

use py_base::{NameId, NodeId, NodeKind, Tree, Word};

/// What is assigned to, deleted, or bound by `for` and `with` (Python 3.12 language reference, 7.2).
#[derive(Clone, Copy)]
pub enum Target {
    Name(NameId),
    /// The value before the dot, and the name behind it.
    Attribute(NodeId, NameId),
    /// What is subscripted, and the index.
    Subscript(NodeId, NodeId),
    /// `*target`.
    Starred(NodeId),
    /// One target in round brackets, without a comma.
    Group(NodeId),
    /// Targets by commas, in brackets or without, none included.
    List,
    /// What is no target.
    NoTarget,
}

/// What a target is; those of a list are its entries.
pub fn target_at(tree: &Tree, node: NodeId) -> Target
    ensures { result ≡ target tree.now.nodes node }
{
    match (tree.kind(node), tree.word(node), tree.parts(node)) {
        (NodeKind::Name, Word::Name(name), _) => Target::Name(*name),
        (NodeKind::Attribute, Word::Name(name), [value]) => Target::Attribute(*value, *name),
        (NodeKind::Subscript, _, [value, index]) => Target::Subscript(*value, *index),
        (NodeKind::Starred, _, [inner]) => Target::Starred(*inner),
        (NodeKind::Round, _, [inner]) => Target::Group(*inner),
        (NodeKind::Round | NodeKind::Square | NodeKind::Entries | NodeKind::Targets, _, _) => {
            Target::List
        }
        _ => Target::NoTarget,
    }
}
