//! What is read at nodes, and what points bind.
ghost use Rattle.std.specs.Prelude.{◌≡◌, ℕ, ◌<◌, ◌^◌, ◌++◌, IfOk, OnOk, slice_get, length};
ghost use Rattle.py_base.specs.Nodes.{kind_at, parts_at};
ghost use Rattle.flow_graph.specs.Bindings.{run_at, run_nodes, binds_itself, subject_of, own_binder, end_binder, binder_by};
ghost use Rattle.flow_graph.specs.Numbering.{run_of, is_read_by, read_by, id_of, binding_id, IsTable};

use crate::targets::is_place;
use flow_forms::first_else;
use flow_rows::{Point, Role};
use node_references::{at, is_marked};
use point_graph::PointGraph;
use py_base::{List, NoMemory, NodeId, NodeKind, PointId, RefId, Tree};
use std::alloc::Global;

/// What stands for the reference that is bound, and the node that says to what.
#[derive(Clone, Copy, Debug, PartialEq, Eq)]
pub struct Binder {
    pub target: NodeId,
    pub node: NodeId,
}

// Adds the node of a point that is the node's own.
fn add_run(point: Point, list: &mut List<NodeId>) -> Result<(), NoMemory>
    ensures { OnOk result (list.new ≡ list.old ++ run_at point.role point.node) }
{
    match point.role {
        Role::Own => list.push(point.node),
        _ => Ok(()),
    }
}

// Adds the node of the point of a number, where that is the node's own.
fn add_run_at(graph: &PointGraph, id: PointId, list: &mut List<NodeId>) -> Result<(), NoMemory>
    ensures { OnOk result (list.new ≡ list.old ++ run_of (slice_get graph.now.points id.0)) }
{
    match graph.place(id) {
        None => Ok(()),
        Some(point) => add_run(point, list),
    }
}

/// The nodes that run themselves. `NoMemory` where they could not be stored.
pub(crate) fn run_nodes(alloc: Global, graph: &PointGraph) -> Result<List<NodeId>, NoMemory>
    requires { length graph.now.points < 2 ^ 32 }
    ensures { IfOk result (λ list. list ≡ run_nodes graph.now.points) }
{
    let mut list = List::new(alloc);
    for place in 0..graph.len() {
        add_run_at(graph, PointId(place as u32), &mut list)?;
    }
    Ok(list)
}

/// Whether a name or an attribute is read at a node that runs.
pub(crate) fn is_read(tree: &Tree, bound: &[bool], node: NodeId) -> bool
    ensures { result ≡ is_read_by tree.now.nodes bound.now node }
{
    is_place(tree.kind(node)) && !is_marked(bound, node)
}

// The subject of a `match` statement.
fn subject_of(tree: &Tree, node: NodeId) -> NodeId
    ensures { result ≡ subject_of tree.now.nodes node }
{
    let header = first_else(node, tree.parts(node));
    first_else(node, tree.parts(header))
}

fn binds_itself(bound: bool, node: NodeId) -> Option<Binder>
    ensures { result ≡ binds_itself bound node }
{
    if bound {
        Some(Binder { target: node, node })
    } else {
        None
    }
}

// What is bound at the point of a node itself.
fn own_binder(
    tree: &Tree,
    bound: bool,
    node: NodeId,
    kind: NodeKind,
    parts: &[NodeId],
) -> Option<Binder>
    ensures { result ≡ own_binder tree.now.nodes bound node kind parts.now }
{
    match (kind, parts) {
        (NodeKind::Name | NodeKind::Attribute, _) => binds_itself(bound, node),
        (NodeKind::AugmentedAssign, [target, ..]) => Some(Binder {
            target: *target,
            node: *target,
        }),
        (NodeKind::MatchStatement, _) => Some(Binder {
            target: node,
            node: subject_of(tree, node),
        }),
        _ => None,
    }
}

// What is bound at the label behind a node.
fn end_binder(node: NodeId, kind: NodeKind, parts: &[NodeId]) -> Option<Binder>
    ensures { result ≡ end_binder node kind parts.now }
{
    match (kind, parts) {
        (NodeKind::Except | NodeKind::ExceptStar, [_, name, _]) => Some(Binder {
            target: *name,
            node,
        }),
        _ => None,
    }
}

/// What is bound at a point, whose node is a target or isn't.
pub(crate) fn binder_at(tree: &Tree, bound: bool, point: Point) -> Option<Binder>
    ensures { result ≡ binder_by tree.now.nodes bound point.node (kind_at tree.now.nodes point.node) (parts_at tree.now.nodes point.node) point.role }
{
    let kind = tree.kind(point.node);
    let parts = tree.parts(point.node);
    match point.role {
        Role::Own => own_binder(tree, bound, point.node, kind, parts),
        Role::Behind => end_binder(point.node, kind, parts),
        _ => None,
    }
}

// What is bound by the numbers of the references that nodes stand for.
fn bound_id(binder: Option<Binder>, table: &[Option<RefId>]) -> Option<(RefId, NodeId)>
    ensures { result ≡ id_of table.now binder }
{
    let binder = binder?;
    let id = at(table, binder.target.0)?;
    Some((id, binder.node))
}

// What is bound at the point of a number.
fn binding_at(
    tree: &Tree,
    graph: &PointGraph,
    bound: &[bool],
    table: &[Option<RefId>],
    id: PointId,
) -> Option<(RefId, NodeId)>
    ensures { result ≡ binding_id tree.now.nodes bound.now table.now (slice_get graph.now.points id.0) }
{
    let point = graph.place(id)?;
    bound_id(binder_at(tree, is_marked(bound, point.node), point), table)
}

/// What is bound at each point. `NoMemory` where that could not be stored.
pub(crate) fn bindings(
    alloc: Global,
    tree: &Tree,
    graph: &PointGraph,
    bound: &[bool],
    table: &[Option<RefId>],
) -> Result<List<Option<(RefId, NodeId)>>, NoMemory>
    requires { length graph.now.points < 2 ^ 32 }
    ensures { IfOk result (λ list. IsTable (λ i. binding_id tree.now.nodes bound.now table.now (slice_get graph.now.points i)) (length graph.now.points) list) }
{
    let mut list = List::new(alloc);
    for place in 0..graph.len() {
        list.push(binding_at(tree, graph, bound, table, PointId(place as u32)))?;
    }
    Ok(list)
}

/// Marks of the nodes of a tree.
#[derive(Drop)]
pub(crate) struct NodeMarks {
    pub run: List<bool>,
    pub bound: List<bool>,
}

// What is read at a node.
fn read_at_node(
    tree: &Tree,
    marks: &NodeMarks,
    table: &[Option<RefId>],
    node: NodeId,
) -> Option<RefId>
    ensures { result ≡ read_by tree.now.nodes marks.now.run marks.now.bound table.now node }
{
    let runs = is_marked(marks.run.as_slice(), node);
    if runs && is_read(tree, marks.bound.as_slice(), node) {
        at(table, node.0)
    } else {
        None
    }
}

/// What is read at each node. `NoMemory` where that could not be stored.
pub(crate) fn reads(
    alloc: Global,
    tree: &Tree,
    marks: &NodeMarks,
    table: &[Option<RefId>],
) -> Result<List<Option<RefId>>, NoMemory>
    ensures { IfOk result (λ list. IsTable (λ (i : ℕ). read_by tree.now.nodes marks.now.run marks.now.bound table.now (record { 0 = i })) (length tree.now.nodes) list) }
{
    let mut list = List::new(alloc);
    for place in 0..tree.node_count() {
        list.push(read_at_node(tree, marks, table, NodeId(place as u32)))?;
    }
    Ok(list)
}
