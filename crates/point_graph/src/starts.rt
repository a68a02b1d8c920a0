//! The edges to the starts of graphs.
ghost use Rattle.std.specs.Prelude.{ℕ, ◌<◌, ◌^◌, OnOk, length};
ghost use Rattle.py_base.specs.declared.ids.NodeId.{NodeId};
ghost use Rattle.flow_rows.specs.Points.{start};
ghost use Rattle.flow_rows.specs.Flow.{Has, HasGraph};
ghost use Rattle.point_graph.specs.Building.{IsStartOf, IsStartBelow, AreMore, Continues, start_at};
ghost use Rattle.point_graph.specs.Order.{roots_below, start_edge};
ghost use Rattle.std.specs.List.{flat_map};

use crate::numbers::{Step, find};
use flow_rows::{EdgeKind, Form, Point, has_graph};
use indexmap::IndexSet;
use py_base::{List, NoMemory, NodeId};

// Adds the edge to the start of the graph of a node, where the node's own point is there.
fn add_start(
    forms: &[Form],
    points: &IndexSet<Point>,
    root: NodeId,
    steps: &mut List<Step>,
) -> Result<(), NoMemory>
    requires few { length points.now.keys < 2 ^ 32 }
    requires starts { HasGraph forms.now root → Has points.now.keys (start root) }
    ensures steps { OnOk result (AreMore points.now.keys (IsStartOf forms.now points.now.keys root) steps.old steps.new) }
    ensures listed { OnOk result (Continues points.now.keys (start_at forms.now points.now.keys root) steps.old steps.new) }
{
    if !has_graph(forms, root) {
        return Ok(());
    }
    let Some(from) = find(points, Point::own(root, 0)) else {
        return Ok(());
    };
    let Some(to) = find(points, Point::start(root)) else {
        return Ok(());
    };
    steps.push(Step {
        from,
        to,
        kind: EdgeKind::Start,
    })?;
    Ok(())
}

/// Adds the edges to the starts of graphs.
pub fn add_starts(
    forms: &[Form],
    points: &IndexSet<Point>,
    steps: &mut List<Step>,
) -> Result<(), NoMemory>
    requires few { length forms.now < 2 ^ 32 }
    requires room { length points.now.keys < 2 ^ 32 }
    requires starts { (root : NodeId) → HasGraph forms.now root → Has points.now.keys (start root) }
    ensures steps { OnOk result (AreMore points.now.keys (IsStartBelow forms.now points.now.keys (length forms.now)) steps.old steps.new) }
    ensures listed { OnOk result (Continues points.now.keys (flat_map (start_edge points.now.keys) (roots_below forms.now (length forms.now))) steps.old steps.new) }
{
    for at in 0..forms.len() {
        add_start(forms, points, NodeId(at as u32), steps)?;
    }
    Ok(())
}
