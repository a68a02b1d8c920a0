//! What imports bind to typing and to its `cast`.
ghost use Rattle.std.specs.Prelude.{◌≡◌, ℕ, [], ◌++◌, List, IfOk, length, slice_get, if◌then◌else◌};
ghost use Rattle.std.specs.List.{flat_map};
ghost use Rattle.std.specs.Option.{option_copied};
ghost use Rattle.py_base.specs.declared.ids.NodeId.{NodeId};
ghost use Rattle.py_scopes.specs.Occurrences.{text_of, word_name, leaf_name};
ghost use Rattle.py_base.specs.Nodes.{kind_at, parts_at};
ghost use Rattle.node_references.specs.declared.imports.Imported.TheVariants as imports;
ghost use Rattle.node_references.specs.Casts.{is_spelled, is_name_of, items, item, bound_if, bound_by_item, bound_by, imported_nodes};
ghost use Rattle.node_references.specs.Marks.{AreMarks};

use crate::marks::{mark, unmarked};
use py_base::{List, NameId, NoMemory, Node, NodeId, NodeKind, Tree, Word};
use std::alloc::Global;

/// What an import may bring.
#[derive(Clone, Copy, Debug, PartialEq, Eq)]
pub enum Imported {
    /// A module that has `cast`: `typing` or `typing_extensions`.
    Typing,
    /// `cast` of such a module.
    Cast,
}

/// An item of an import statement: the name that it imports, and the node that it binds.
#[derive(Clone, Copy, Debug, PartialEq, Eq)]
pub struct Item {
    pub imported: NodeId,
    pub bound: NodeId,
}

/// For each node whether an import binds it to such a module, and whether to `cast` of one.
#[derive(Drop)]
pub struct ImportMarks {
    pub typing: List<bool>,
    pub cast: List<bool>,
}

/// Whether what is imported is called so.
pub(crate) fn is_spelled(imported: Imported, text: &str) -> bool
    ensures { result ≡ is_spelled imported text.now }
{
    match imported {
        Imported::Typing => text == "typing" || text == "typing_extensions",
        Imported::Cast => text == "cast",
    }
}

/// The text of a name; nothing where the tree has no such name.
pub(crate) fn text_of(tree: &Tree, name: NameId) -> &str
    ensures { result.now ≡ text_of tree.now.names name }
{
    if (name.0 as usize) < tree.name_count() {
        tree.name(name)
    } else {
        ""
    }
}

// The name that a node is, if it is a name alone.
fn leaf_name(tree: &Tree, node: NodeId) -> Option<NameId>
    ensures { result ≡ leaf_name (slice_get tree.now.nodes node.0) }
{
    if (node.0 as usize) >= tree.node_count() {
        return None;
    }
    let node = tree.node(node);
    match (node.kind, &node.word) {
        (NodeKind::Name, Word::Name(name)) => Some(*name),
        _ => None,
    }
}

// Whether the node is the name alone of what is imported.
fn is_name_of(tree: &Tree, imported: Imported, node: NodeId) -> bool
    ensures { result ≡ is_name_of imported tree.now node }
{
    match leaf_name(tree, node) {
        None => false,
        Some(name) => is_spelled(imported, text_of(tree, name)),
    }
}

// The items behind a source, if that is a module that has `cast`.
fn items_from<'a>(tree: &Tree, source: NodeId, names: &'a [NodeId]) -> &'a [NodeId]
    ensures { result.now ≡ (if is_name_of imports.Typing tree.now source then names.now else []) }
{
    if is_name_of(tree, Imported::Typing, source) {
        names
    } else {
        &[]
    }
}

// The items of a statement of this kind that can bring it.
fn items<'a>(tree: &Tree, imported: Imported, kind: NodeKind, parts: &'a [NodeId]) -> &'a [NodeId]
    ensures { result.now ≡ items imported tree.now kind parts.now }
{
    match (imported, kind, parts) {
        (Imported::Typing, NodeKind::Import, _) => parts,
        (Imported::Cast, NodeKind::ImportFrom, [source, names @ ..]) => {
            items_from(tree, *source, names)
        }
        _ => &[],
    }
}

fn item_at(tree: &Tree, node: NodeId) -> Item
    ensures { result ≡ item node (kind_at tree.now.nodes node) (parts_at tree.now.nodes node) }
{
    match (tree.kind(node), tree.parts(node)) {
        (NodeKind::Alias, [name, other]) => Item {
            imported: *name,
            bound: *other,
        },
        _ => Item {
            imported: node,
            bound: node,
        },
    }
}

// Marks what an item binds, if it imports this.
fn mark_item(tree: &Tree, imported: Imported, node: NodeId, marks: &mut List<bool>)
    ensures { (nodes : List NodeId) (count : ℕ) → AreMarks nodes count marks.old → AreMarks (nodes ++ bound_by_item imported tree.now node) count marks.new }
{
    let item = item_at(tree, node);
    if is_name_of(tree, imported, item.imported) {
        mark(marks, item.bound);
    }
}

// Marks what the items bind, as far as they import this.
fn mark_items(tree: &Tree, imported: Imported, items: &[NodeId], marks: &mut List<bool>)
    ensures { (nodes : List NodeId) (count : ℕ) → AreMarks nodes count marks.old
        → AreMarks (nodes ++ flat_map (bound_by_item imported tree.now) items.now) count marks.new }
{
    for item in items {
        mark_item(tree, imported, *item, marks);
    }
}

// Marks what a node binds to this.
fn mark_bound(tree: &Tree, imported: Imported, node: &Node, marks: &mut List<bool>)
    ensures { (nodes : List NodeId) (count : ℕ) → AreMarks nodes count marks.old → AreMarks (nodes ++ bound_by imported tree.now node.now) count marks.new }
{
    let items = items(tree, imported, node.kind, node.parts.as_slice());
    mark_items(tree, imported, items, marks);
}

/// Which nodes imports bind to a module that has `cast`, and which to that. `NoMemory` where the marks could
/// not be stored.
pub(crate) fn import_marks(alloc: Global, tree: &Tree) -> Result<ImportMarks, NoMemory>
    ensures typing { IfOk result (λ marks. AreMarks (imported_nodes imports.Typing tree.now) (length tree.now.nodes) marks.typing) }
    ensures cast { IfOk result (λ marks. AreMarks (imported_nodes imports.Cast tree.now) (length tree.now.nodes) marks.cast) }
{
    let count = tree.node_count();
    let mut typing = unmarked(alloc, count)?;
    let mut cast = unmarked(alloc, count)?;
    for place in 0..count {
        let node = tree.node(NodeId(place as u32));
        mark_bound(tree, Imported::Typing, node, &mut typing);
        mark_bound(tree, Imported::Cast, node, &mut cast);
    }
    Ok(ImportMarks { typing, cast })
}
