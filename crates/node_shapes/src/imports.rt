//! Items and origins of imports.
ghost use Rattle.std.specs.Prelude.{◌≡◌};
ghost use Rattle.node_shapes.specs.Imports.{import_item, import_items, import_origin};

use crate::parts::without_comma;
use py_base::{NodeId, NodeKind, Tree};

/// An item of an import (Python 3.12 language reference, 7.11).
#[derive(Clone, Copy)]
pub struct ImportItem {
    /// The module of `import`, a `Name` or a `DottedName`; the name that `from` takes out of its origin.
    pub imported: NodeId,
    /// The `Name` that is bound: the one behind `as`, else the first name of what is imported.
    pub bound: NodeId,
    /// Whether `as` stands there.
    pub renamed: bool,
}

/// What an item of an import is: `import a.b` binds the first name, `as` the name behind it; `None` exactly for another node.
pub fn import_item(tree: &Tree, node: NodeId) -> Option<ImportItem>
    ensures { result ≡ import_item tree.now.nodes node }
{
    match (tree.kind(node), tree.parts(node)) {
        (NodeKind::Alias, [imported, bound]) => Some(ImportItem {
            imported: *imported,
            bound: *bound,
            renamed: true,
        }),
        (NodeKind::DottedName, [bound, ..]) => Some(ImportItem {
            imported: node,
            bound: *bound,
            renamed: false,
        }),
        (NodeKind::Name, _) => Some(ImportItem {
            imported: node,
            bound: node,
            renamed: false,
        }),
        _ => None,
    }
}

/// The items of `import`, and those of `from` without the comma behind the last, in the order of the text; none of another node.
pub fn import_items(tree: &Tree, node: NodeId) -> &[NodeId]
    ensures { result.now ≡ import_items tree.now.nodes node }
{
    match (tree.kind(node), tree.parts(node)) {
        (NodeKind::Import, items) => items,
        (NodeKind::ImportFrom, [_, items @ ..]) => without_comma(tree, items),
        _ => &[],
    }
}

/// The module that `from` names at its origin, a `Name` or a `DottedName`; `None` exactly where dots stand before it, and for another
/// node.
pub fn import_origin(tree: &Tree, node: NodeId) -> Option<NodeId>
    ensures { result ≡ import_origin tree.now.nodes node }
{
    match tree.kind(node) {
        NodeKind::Name | NodeKind::DottedName => Some(node),
        _ => None,
    }
}
