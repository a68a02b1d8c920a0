//! Nodes, as long as the tree has room for them.
ghost use Rattle.std.specs.Prelude.{◌≡◌, [], ◌∷◌, ◌++◌, length, IfOk, OnOk, OnErr};
ghost use Rattle.py_base.specs.Tree.{AreOlder, IsNamed};

use py_base::tree::TREE_ROOM;
use py_base::{NoMemory, Node, NodeId, Tree};

/// Adds the newest node. `NoMemory` also where the tree has no room for one more.
pub(crate) fn add(tree: &mut Tree, node: Node) -> Result<NodeId, NoMemory>
    requires parts { AreOlder (length tree.old.nodes) node.parts }
    requires name { IsNamed (length tree.old.names) node.word }
    ensures id { IfOk result (λ id. id.0 ≡ length tree.old.nodes) }
    ensures ok { OnOk result (tree.new ≡ record tree.old { nodes = tree.old.nodes ++ node ∷ [] }) }
    ensures err { OnErr result (tree.new ≡ tree.old) }
{
    if tree.node_count() + 1 >= TREE_ROOM {
        return Err(NoMemory);
    }
    tree.add(node)
}
