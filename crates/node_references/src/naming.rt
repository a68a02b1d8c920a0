//! Which nodes name `cast` of typing.
ghost use Rattle.std.specs.Prelude.{◌≡◌, List, IfOk, length, slice_get};
ghost use Rattle.std.specs.Option.{option_map};
ghost use Rattle.py_base.specs.declared.ids.NodeId.{NodeId};
ghost use Rattle.py_base.specs.Tree.{Arena};
ghost use Rattle.py_scopes.specs.declared.owner.Owner.{Owner};
ghost use Rattle.node_references.specs.Reference.{lent};
ghost use Rattle.node_references.specs.References.{reference_of};
ghost use Rattle.node_references.specs.Numbers.{AreNodeReferences};
ghost use Rattle.node_references.specs.declared.imports.Imported.TheVariants as imports;
ghost use Rattle.node_references.specs.Casts.{imported_nodes, is_only_of, is_root_of, is_cast_chain, names_cast, casts_of};
ghost use Rattle.node_references.specs.Marks.{AreMarks};

use crate::imports::{ImportMarks, Imported, import_marks, is_spelled, text_of};
use crate::{NodeReferences, Root, at, is_marked};
use py_base::{List, NameId, NoMemory, NodeId, SymId, Tree};
use py_scopes::Scopes;
use std::alloc::Global;

// Whether a symbol has just one binding, and that is marked.
fn is_only_marked(scopes: &Scopes, symbol: SymId, marks: &[bool]) -> bool
    ensures { (nodes : List NodeId) → AreMarks nodes (length scopes.now.owners) marks.now → result ≡ is_only_of nodes (slice_get scopes.now.bound symbol.0) }
{
    if symbol.0 >= scopes.symbols() {
        return false;
    }
    match scopes.bindings(symbol) {
        [binding] => is_marked(marks, *binding),
        _ => false,
    }
}

// Whether it is a symbol whose only binding is marked.
fn is_root_marked(scopes: &Scopes, root: Root, marks: &[bool]) -> bool
    ensures { (nodes : List NodeId) → AreMarks nodes (length scopes.now.owners) marks.now → result ≡ is_root_of nodes scopes.now root }
{
    match root {
        Root::Symbol(symbol) => is_only_marked(scopes, symbol, marks),
        Root::Subject(_) => false,
    }
}

// Whether a reference is `cast` of typing.
fn is_cast(tree: &Tree, scopes: &Scopes, marks: &ImportMarks, root: Root, names: &[NameId]) -> bool
    requires typing { AreMarks (imported_nodes imports.Typing tree.now) (length scopes.now.owners) marks.now.typing }
    requires cast { AreMarks (imported_nodes imports.Cast tree.now) (length scopes.now.owners) marks.now.cast }
    ensures { result ≡ is_cast_chain tree.now scopes.now root names.now }
{
    match names {
        [] => is_root_marked(scopes, root, marks.cast.as_slice()),
        [name] => {
            is_spelled(Imported::Cast, text_of(tree, *name))
                && is_root_marked(scopes, root, marks.typing.as_slice())
        }
        _ => false,
    }
}

// The reference that a node stands for, if it stands for one.
fn reference_at(nodes: &NodeReferences, node: NodeId) -> Option<(Root, &[NameId])>
    ensures { (a : Arena) (owners : List Owner) → AreNodeReferences a owners nodes.now → option_map lent result ≡ reference_of a owners node }
{
    let number = at(nodes.numbers.as_slice(), node.0)?;
    nodes.list.get(number)
}

// Whether a node names `cast` of typing.
fn names_cast(
    tree: &Tree,
    scopes: &Scopes,
    nodes: &NodeReferences,
    marks: &ImportMarks,
    node: NodeId,
) -> bool
    requires references { AreNodeReferences tree.now scopes.now.owners nodes.now }
    requires typing { AreMarks (imported_nodes imports.Typing tree.now) (length scopes.now.owners) marks.now.typing }
    requires cast { AreMarks (imported_nodes imports.Cast tree.now) (length scopes.now.owners) marks.now.cast }
    ensures { result ≡ names_cast tree.now scopes.now node }
{
    match reference_at(nodes, node) {
        None => false,
        Some((root, names)) => is_cast(tree, scopes, marks, root, names),
    }
}

/// For each node of the tree whether it names `cast` of typing. The scopes and the references are those of the
/// tree. `NoMemory` where the answers or the marks of imports could not be stored.
pub fn casts(
    alloc: Global,
    tree: &Tree,
    scopes: &Scopes,
    nodes: &NodeReferences,
) -> Result<List<bool>, NoMemory>
    requires owned { length scopes.now.owners ≡ length tree.now.nodes }
    requires references { AreNodeReferences tree.now scopes.now.owners nodes.now }
    ensures { IfOk result (λ list. list ≡ casts_of tree.now scopes.now) }
{
    let marks = import_marks(alloc, tree)?;
    let mut list = List::new(alloc);
    for place in 0..tree.node_count() {
        let node = NodeId(place as u32);
        list.push(names_cast(tree, scopes, nodes, &marks, node))?;
    }
    Ok(list)
}
