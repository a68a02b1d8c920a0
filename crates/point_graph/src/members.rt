//! The points of each graph, and the edges within it.
ghost use Rattle.std.specs.Prelude.{◌≡◌, ℕ, ◌<◌, ◌^◌, [], IfOk, OnOk, Some, slice_get, length};
ghost use Rattle.py_base.specs.declared.ids.GraphId.{GraphId};
ghost use Rattle.flow_rows.specs.Flow.{run_at};
ghost use Rattle.point_graph.specs.Building.{IsNumbering, Adds, AddsAt, IsDraft};

use crate::homes::{Numbering, enter, enter_edges};
use crate::numbers::Step;
use flow_rows::{Ends, Form, Point, edges_of, end_of_graph, has_graph};
use py_base::{GraphId, List, NoMemory, NodeId, PointId};
use std::alloc::Global;

/// The points of a graph, each once, the start first, and its end.
#[derive(Debug, Drop)]
pub struct Members {
    pub points: List<PointId>,
    pub end: PointId,
}

// Adds the points of the graph of a node and the edges within it.
fn add_graph(
    alloc: Global,
    forms: &[Form],
    ends: &[Ends],
    root: NodeId,
    numbering: &mut Numbering,
    steps: &mut List<Step>,
) -> Result<Members, NoMemory>
    requires numbering { IsNumbering numbering.old.points.keys numbering.old.homes }
    requires new { (i : ℕ) → slice_get numbering.old.homes i ≡ Some (record { 0 = root.0 }) → ⊥ }
    ensures { IfOk result (λ m. Adds forms.now ends.now root numbering.old.points.keys numbering.new.points.keys
        numbering.old.homes numbering.new.homes steps.old steps.new m) }
{
    let graph = GraphId(root.0);
    let edges = edges_of(alloc, forms, ends, root)?;
    let last = end_of_graph(forms, ends, root);
    let mut points = List::new(alloc);
    let _start = enter(numbering, &mut points, graph, Point::start(root))?;
    let end = enter(numbering, &mut points, graph, last)?;
    enter_edges(numbering, &mut points, graph, edges.as_slice(), steps)?;
    Ok(Members { points, end })
}

// The same, where the node has a graph.
fn graph_at(
    alloc: Global,
    forms: &[Form],
    ends: &[Ends],
    root: NodeId,
    numbering: &mut Numbering,
    steps: &mut List<Step>,
) -> Result<Option<Members>, NoMemory>
    requires numbering { IsNumbering numbering.old.points.keys numbering.old.homes }
    requires new { (i : ℕ) → slice_get numbering.old.homes i ≡ Some (record { 0 = root.0 }) → ⊥ }
    ensures { IfOk result (λ m. AddsAt forms.now ends.now root numbering.old.points.keys numbering.new.points.keys
        numbering.old.homes numbering.new.homes steps.old steps.new m) }
{
    if has_graph(forms, root) {
        let members = add_graph(alloc, forms, ends, root, numbering, steps)?;
        Ok(Some(members))
    } else {
        Ok(None)
    }
}

/// The graph of each node, for those that have one, with the numbers of their points, and the edges
/// within them as steps.
pub fn all_graphs(
    alloc: Global,
    forms: &[Form],
    ends: &[Ends],
    numbering: &mut Numbering,
    steps: &mut List<Step>,
) -> Result<List<Option<Members>>, NoMemory>
    requires few { length forms.now < 2 ^ 32 }
    requires points { numbering.old.points.keys ≡ [] }
    requires homes { numbering.old.homes ≡ [] }
    requires steps { steps.old ≡ [] }
    ensures { IfOk result (λ graphs. IsDraft forms.now ends.now (length forms.now) numbering.new.points.keys numbering.new.homes steps.new graphs) }
{
    let mut graphs = List::new(alloc);
    for at in 0..forms.len() {
        let graph = graph_at(alloc, forms, ends, NodeId(at as u32), numbering, steps)?;
        graphs.push(graph)?;
    }
    Ok(graphs)
}
