//! Which nodes are bound.
ghost use Rattle.std.specs.Prelude.{◌≡◌, ◌-◌, [], ◌∷◌, ◌++◌, IfOk, OnOk, length};
ghost use Rattle.flow_forms.specs.Forms.{forms_of};
ghost use Rattle.flow_forms.specs.Patterns.{gather};
ghost use Rattle.flow_graph.specs.Targets.{is_place, holds_targets, held, targets, first_in, first_name, bound_part, bound_from, bound_by, captured_by, captured_of, bound_nodes};

use flow_forms::TREE_HEIGHT;
use flow_rows::Form;
use py_base::{List, NoMemory, NodeId, NodeKind, Tree};
use py_scopes::does_bind;
use std::alloc::Global;

/// Whether it is the kind of a name or of an attribute.
pub(crate) fn is_place(kind: NodeKind) -> bool
    ensures { result ≡ is_place kind }
{
    matches!(kind, NodeKind::Name | NodeKind::Attribute)
}

fn does_hold_targets(kind: NodeKind) -> bool
    ensures { result ≡ holds_targets kind }
{
    matches!(
        kind,
        NodeKind::Entries
            | NodeKind::Targets
            | NodeKind::Round
            | NodeKind::Square
            | NodeKind::Starred
    )
}

// The parts of a node of this kind that hold targets.
fn inner_targets(kind: NodeKind, parts: &[NodeId]) -> &[NodeId]
    ensures { result.now ≡ held kind parts.now }
{
    if does_hold_targets(kind) { parts } else { &[] }
}

// Adds the targets in what is assigned to, down to a depth. After `NoMemory` some of them may stand.
fn add_targets(
    tree: &Tree,
    node: NodeId,
    left: u32,
    list: &mut List<NodeId>,
) -> Result<(), NoMemory>
    ensures { OnOk result (list.new ≡ list.old ++ targets left tree.now.nodes node) }
{
    if left == 0 {
        return Ok(());
    }
    let kind = tree.kind(node);
    if is_place(kind) {
        return list.push(node);
    }
    for part in inner_targets(kind, tree.parts(node)) {
        add_targets(tree, *part, left - 1, list)?;
    }
    Ok(())
}

// Adds the name that a part of an `import` binds.
fn add_first_name(
    node: NodeId,
    kind: NodeKind,
    parts: &[NodeId],
    list: &mut List<NodeId>,
) -> Result<(), NoMemory>
    ensures { OnOk result (list.new ≡ list.old ++ first_in node kind parts.now) }
{
    match (kind, parts) {
        (NodeKind::Name, _) => list.push(node),
        (NodeKind::DottedName, [name, ..]) => list.push(*name),
        _ => Ok(()),
    }
}

// Adds the targets in a part, where a node of this kind with so many parts binds the one of this number.
fn add_bound_part(
    tree: &Tree,
    kind: NodeKind,
    parts: usize,
    place: usize,
    part: NodeId,
    list: &mut List<NodeId>,
) -> Result<(), NoMemory>
    ensures { OnOk result (list.new ≡ list.old ++ bound_part tree.now.nodes kind parts place part) }
{
    if does_bind(kind, place, parts) {
        add_targets(tree, part, TREE_HEIGHT, list)
    } else {
        Ok(())
    }
}

// Adds the targets in the parts that a node of this kind binds. After `NoMemory` some of them may stand.
fn add_bound_parts(
    tree: &Tree,
    kind: NodeKind,
    parts: &[NodeId],
    list: &mut List<NodeId>,
) -> Result<(), NoMemory>
    ensures { OnOk result (list.new ≡ list.old ++ bound_from tree.now.nodes kind (length parts.now) 0 parts.now) }
{
    for (place, part) in parts.iter().enumerate() {
        add_bound_part(tree, kind, parts.len(), place, *part, list)?;
    }
    Ok(())
}

fn add_first_names(tree: &Tree, parts: &[NodeId], list: &mut List<NodeId>) -> Result<(), NoMemory>
    ensures { OnOk result (list.new ≡ list.old ++ gather (first_name tree.now.nodes) parts.now) }
{
    for part in parts {
        add_first_name(*part, tree.kind(*part), tree.parts(*part), list)?;
    }
    Ok(())
}

// Adds what a node of this kind binds.
fn add_bound(
    tree: &Tree,
    kind: NodeKind,
    parts: &[NodeId],
    list: &mut List<NodeId>,
) -> Result<(), NoMemory>
    ensures { OnOk result (list.new ≡ list.old ++ bound_by tree.now.nodes kind parts.now) }
{
    match kind {
        NodeKind::AugmentedAssign | NodeKind::Case => Ok(()),
        NodeKind::Import => add_first_names(tree, parts, list),
        _ => add_bound_parts(tree, kind, parts, list),
    }
}

// Adds what a case captures.
fn add_captured(form: &Form, list: &mut List<NodeId>) -> Result<(), NoMemory>
    ensures { OnOk result (list.new ≡ list.old ++ captured_by form.now) }
{
    match form {
        Form::Case(case) => add_each(case.captures.as_slice(), list),
        _ => Ok(()),
    }
}

// Adds nodes.
fn add_each(nodes: &[NodeId], list: &mut List<NodeId>) -> Result<(), NoMemory>
    ensures { OnOk result (list.new ≡ list.old ++ nodes.now) }
{
    for node in nodes {
        list.push(*node)?;
    }
    Ok(())
}

// Adds what all cases capture.
fn add_all_captured(forms: &[Form], list: &mut List<NodeId>) -> Result<(), NoMemory>
    ensures { OnOk result (list.new ≡ list.old ++ captured_of forms.now) }
{
    for form in forms {
        add_captured(form, list)?;
    }
    Ok(())
}

/// All nodes that are bound, where these are the forms of the tree. `NoMemory` where they could not be stored.
pub(crate) fn bound_nodes(
    alloc: Global,
    tree: &Tree,
    forms: &[Form],
) -> Result<List<NodeId>, NoMemory>
    requires { forms.now ≡ forms_of tree.now }
    ensures { IfOk result (λ list. list ≡ bound_nodes tree.now) }
{
    let mut list = List::new(alloc);
    for place in 0..tree.node_count() {
        let node = tree.node(NodeId(place as u32));
        add_bound(tree, node.kind, node.parts.as_slice(), &mut list)?;
    }
    add_all_captured(forms, &mut list)?;
    Ok(list)
}
