//! The names of nodes, by numbers that need not be of the tree.
ghost use Rattle.std.specs.Prelude.{◌≡◌};
ghost use Rattle.py_scopes.specs.Occurrences.{name_of};

use py_base::{NameId, NodeId, Tree, Word};

/// The name that the word of a node is, `None` where it is none; a number that is no node's has no name.
pub fn name_of(tree: &Tree, node: NodeId) -> Option<NameId>
    ensures { result ≡ name_of tree.now node }
{
    match tree.get(node) {
        None => None,
        Some(node) => match node.word {
            Word::Name(name) => Some(name),
            _ => None,
        },
    }
}
