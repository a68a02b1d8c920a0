//! Which references occur in each graph.
ghost use Rattle.std.specs.Prelude.{◌≡◌, ℕ, ◌<◌, ◌-◌, ◌*◌, ◌^◌, min, List, [], IfOk, OnOk, Some, slice_get, length, ◌⊎◌, ◌↔◌};
ghost use Rattle.py_base.specs.declared.ids.RefId.{RefId};
ghost use Rattle.flow_rows.specs.Flow.{Has};
ghost use Rattle.point_graph.specs.Graph.{points_or};
ghost use Rattle.point_graph.specs.Order.{added_once};
ghost use Rattle.node_references.specs.Numbers.{flat};
ghost use Rattle.flow_graph.specs.Table.{read_at, bound_id, OccursAt, AreOnce, AreOccurring, same_id, sizes, at_most_one, occurring_at};

use flow_rows::Role;
use indexmap::IndexSet;
use node_references::at;
use point_graph::PointGraph;
use py_base::{GraphId, List, NoMemory, NodeId, PointId, RefId};
use std::alloc::Global;

// Adds a reference, if there is one.
fn add_some(refs: &mut IndexSet<RefId>, found: Option<RefId>) -> Result<(), NoMemory>
    ensures exact { OnOk result ((r : RefId) → Has refs.new.keys r ↔ (Has refs.old.keys r ⊎ (found ≡ Some r))) }
    ensures once { OnOk result (AreOnce refs.old.keys → AreOnce refs.new.keys) }
    ensures listed { OnOk result (refs.new.keys ≡ added_once same_id refs.old.keys (at_most_one found)) }
{
    match found {
        None => Ok(()),
        Some(id) => {
            refs.insert(id)?;
            Ok(())
        }
    }
}

// What is read at a point.
fn read_at(graph: &PointGraph, reads: &[Option<RefId>], point: PointId) -> Option<RefId>
    ensures { result ≡ read_at reads.now (slice_get graph.now.points point.0) }
{
    let place = graph.place(point)?;
    match place.role {
        Role::Own => at(reads, place.node.0),
        _ => None,
    }
}

// What is bound at a point.
fn bound_at(bindings: &[Option<(RefId, NodeId)>], point: PointId) -> Option<RefId>
    ensures { result ≡ bound_id (flat (slice_get bindings.now point.0)) }
{
    let (id, _) = at(bindings, point.0)?;
    Some(id)
}

// Adds the references that occur at a point.
fn add_occurring(
    graph: &PointGraph,
    reads: &[Option<RefId>],
    bindings: &[Option<(RefId, NodeId)>],
    point: PointId,
    refs: &mut IndexSet<RefId>,
) -> Result<(), NoMemory>
    ensures exact { OnOk result ((r : RefId) → Has refs.new.keys r ↔ (Has refs.old.keys r ⊎ OccursAt graph.now.points reads.now bindings.now point r)) }
    ensures once { OnOk result (AreOnce refs.old.keys → AreOnce refs.new.keys) }
    ensures listed { OnOk result (refs.new.keys ≡ added_once same_id refs.old.keys (occurring_at graph.now.points reads.now bindings.now point)) }
{
    add_some(refs, read_at(graph, reads, point))?;
    add_some(refs, bound_at(bindings, point))?;
    Ok(())
}

// The references that occur at points, each once.
fn occurring(
    alloc: Global,
    graph: &PointGraph,
    reads: &[Option<RefId>],
    bindings: &[Option<(RefId, NodeId)>],
    points: &[PointId],
) -> Result<List<RefId>, NoMemory>
    ensures { IfOk result (λ refs. AreOccurring graph.now.points reads.now bindings.now points.now refs) }
{
    let mut refs = IndexSet::new(alloc);
    for point in points {
        add_occurring(graph, reads, bindings, *point, &mut refs)?;
    }
    let list = listed(alloc, &refs)?;
    Ok(list)
}

// The references of a set, in their order.
fn listed(alloc: Global, refs: &IndexSet<RefId>) -> Result<List<RefId>, NoMemory>
    ensures { IfOk result (λ list. list ≡ refs.now.keys) }
{
    let items = Vec::from_slice(alloc, refs.as_slice())?;
    Ok(List::from_vec(items))
}

/// The references of the graph of each node, none for a node that has no graph. `NoMemory` where they could
/// not be stored.
pub(crate) fn all_graphs(
    alloc: Global,
    graph: &PointGraph,
    reads: &[Option<RefId>],
    bindings: &[Option<(RefId, NodeId)>],
    count: usize,
) -> Result<List<List<RefId>>, NoMemory>
    requires { count < 2 ^ 32 }
    ensures count { IfOk result (λ graphs. length graphs ≡ count) }
    ensures graphs { IfOk result (λ graphs. (n : ℕ) (refs : List RefId) → slice_get graphs n ≡ Some refs → AreOccurring graph.now.points reads.now bindings.now (points_or (slice_get graph.now.graphs n)) refs) }
{
    let mut graphs = List::new(alloc);
    for place in 0..count {
        let points = graph.points(GraphId(place as u32));
        let refs = occurring(alloc, graph, reads, bindings, points)?;
        graphs.push(refs)?;
    }
    Ok(graphs)
}

// Points times references of a graph, at most what the type holds.
fn size_of(points: usize, references: usize) -> u64
    ensures { result ≡ min (points * references) (2 ^ 64 - 1) }
{
    (points as u64).saturating_mul(references as u64)
}

/// Points times references, summed over the graphs, and at most what the type holds.
pub(crate) fn size(graph: &PointGraph, graphs: &[List<RefId>]) -> u64
    requires { length graphs.now < 2 ^ 32 }
    ensures { result ≡ min (sizes graph.now 0 graphs.now) (2 ^ 64 - 1) }
{
    let mut size = 0u64;
    for (place, references) in graphs.iter().enumerate() {
        let points = graph.points(GraphId(place as u32));
        size = size.saturating_add(size_of(points.len(), references.len()));
    }
    size
}
