//! The names of a tree by the roles of their places.
ghost use Rattle.std.specs.Prelude.{◌≡◌, ◌<◌, ◌++◌, [], length, OnOk, IfOk, if◌then◌else◌};
ghost use Rattle.py_base.specs.Tree.{tree_of, said, IsNamed, IsLinked};
ghost use Rattle.py_blocks.specs.Roles.{found, is_name, names_in};

use crate::role::{Role, does_find, is_name, role_of_part};
use crate::walk::node_of;
use py_base::{List, NoMemory, Node, NodeId, Text, Tree, Word};
use std::alloc::Global;

// Adds what a word says where it is a name that the role finds.
fn add_found(
    alloc: Global,
    tree: &Tree,
    role: Role,
    word: &Word,
    names: &mut List<Text>,
) -> Result<(), NoMemory>
    requires { IsNamed (length tree.now.names) word.now }
    ensures { OnOk result (names.new ≡ names.old ++ found role (said tree.now.names word.now)) }
{
    let Word::Name(id) = word else {
        return Ok(());
    };
    let name = tree.name(*id);
    if !does_find(role, name) {
        return Ok(());
    }
    let name = Text::from_str(alloc, name)?;
    names.push(name)
}

fn add_own(
    alloc: Global,
    tree: &Tree,
    role: Role,
    node: &Node,
    names: &mut List<Text>,
) -> Result<(), NoMemory>
    requires { IsNamed (length tree.now.names) node.now.word }
    ensures { OnOk result (names.new ≡ names.old ++ (if is_name node.now.kind then found role (said tree.now.names node.now.word) else [])) }
{
    if is_name(node.kind) {
        add_found(alloc, tree, role, &node.word, names)
    } else {
        Ok(())
    }
}

// Adds the names of a tree in a role, in the order of the text.
fn add_names(
    alloc: Global,
    tree: &Tree,
    role: Role,
    id: NodeId,
    names: &mut List<Text>,
) -> Result<(), NoMemory>
    requires linked { IsLinked tree.now }
    requires within { id.0 < length tree.now.nodes }
    ensures { OnOk result (names.new ≡ names.old ++ names_in role (tree_of tree.now id)) }
{
    let node = node_of(tree, id);
    add_own(alloc, tree, role, node, names)?;
    let parts = node.parts.as_slice();
    for at in 0..parts.len() {
        let place = role_of_part(role, node.kind, at, at + 1 == parts.len());
        add_names(alloc, tree, place, parts[at], names)?;
    }
    Ok(())
}

/// The names of a tree in a role, in the order of the text. `NoMemory` where they could not be
/// stored.
pub fn names_in(alloc: Global, tree: &Tree, role: Role, id: NodeId) -> Result<List<Text>, NoMemory>
    requires linked { IsLinked tree.now }
    requires within { id.0 < length tree.now.nodes }
    ensures { IfOk result (λ names. names ≡ names_in role (tree_of tree.now id)) }
{
    let mut names = List::new(alloc);
    add_names(alloc, tree, role, id, &mut names)?;
    Ok(names)
}
