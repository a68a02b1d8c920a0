//! Points come to graphs.
ghost use Rattle.std.specs.Prelude.{◌≡◌, ℕ, ◌<◌, ◌≤◌, [], ◌∷◌, IfOk, OnOk, IsTrue, Some, slice_get, length, ◌⊎◌, ◌↔◌};
ghost use Rattle.py_base.specs.declared.ids.PointId.{PointId};
ghost use Rattle.flow_rows.specs.declared.point.Point.{Point};
ghost use Rattle.flow_rows.specs.Flow.{Has};
ghost use Rattle.point_graph.specs.Numbers.{Keeps, IsNumber, same_number};
ghost use Rattle.std.specs.List.{flat_map};
ghost use Rattle.flow_rows.specs.Edges.{both_ends};
ghost use Rattle.point_graph.specs.Order.{added_once};
ghost use Rattle.point_graph.specs.Building.{GrowsTo, IsListOf, TakesAlone, IsNumbering, Enters, Joins, AreMore, Comes, Continues};

use crate::numbers::{Step, number};
use flow_rows::{Edge, Point};
use indexmap::IndexSet;
use py_base::{GraphId, List, NoMemory, PointId};

/// The points that have numbers, and for each number the graph that took its point last.
#[derive(Drop)]
pub struct Numbering {
    pub points: IndexSet<Point>,
    pub homes: List<GraphId>,
}

fn is_home(homes: &[GraphId], id: PointId, graph: GraphId) -> bool
    ensures { IsTrue result ↔ (slice_get homes.now id.0 ≡ Some graph) }
{
    match homes.get(id.0 as usize) {
        None => false,
        Some(home) => home.0 == graph.0,
    }
}

fn set_home(homes: &mut List<GraphId>, id: PointId, graph: GraphId) -> Result<(), NoMemory>
    requires { id.0 ≤ length homes.old }
    ensures here { OnOk result (slice_get homes.new id.0 ≡ Some graph) }
    ensures elsewhere { OnOk result ((i : ℕ) → (i ≡ id.0 → ⊥) → slice_get homes.new i ≡ slice_get homes.old i) }
    ensures grows { OnOk result (GrowsTo (length homes.old) (length homes.new) id.0) }
{
    if (id.0 as usize) < homes.len() {
        homes.set(id.0 as usize, graph);
        Ok(())
    } else {
        homes.push(graph)
    }
}

// A graph takes a point, unless it has it.
fn mark(
    homes: &mut List<GraphId>,
    list: &mut List<PointId>,
    id: PointId,
    graph: GraphId,
) -> Result<(), NoMemory>
    requires within { id.0 ≤ length homes.old }
    requires of { IsListOf homes.old graph list.old }
    ensures of { OnOk result (IsListOf homes.new graph list.new) }
    ensures alone { OnOk result (TakesAlone graph homes.old homes.new) }
    ensures list { OnOk result ((x : PointId) → Has list.new x ↔ (Has list.old x ⊎ (id ≡ x))) }
    ensures listed { OnOk result (list.new ≡ added_once same_number list.old (id ∷ [])) }
    ensures keeps { OnOk result (Keeps list.old list.new) }
    ensures grows { OnOk result (GrowsTo (length homes.old) (length homes.new) id.0) }
{
    if is_home(homes.as_slice(), id, graph) {
        return Ok(());
    }
    set_home(homes, id, graph)?;
    list.push(id)?;
    Ok(())
}

/// A graph takes a point, which gets the next number if it has none. Gives its number.
pub fn enter(
    numbering: &mut Numbering,
    list: &mut List<PointId>,
    graph: GraphId,
    point: Point,
) -> Result<PointId, NoMemory>
    requires numbering { IsNumbering numbering.old.points.keys numbering.old.homes }
    requires of { IsListOf numbering.old.homes graph list.old }
    ensures at { IfOk result (λ id. IsNumber numbering.new.points.keys id point) }
    ensures enters { OnOk result (Enters graph (λ p. point ≡ p) numbering.old.points.keys numbering.new.points.keys
        numbering.old.homes numbering.new.homes list.old list.new) }
    ensures comes { OnOk result (Comes (point ∷ []) numbering.old.points.keys numbering.new.points.keys list.old list.new) }
{
    let id = number(&mut numbering.points, point)?;
    mark(&mut numbering.homes, list, id, graph)?;
    Ok(id)
}

/// A graph takes the points that edges join, and the edges come to the steps by the numbers of their
/// points.
pub fn enter_edges(
    numbering: &mut Numbering,
    list: &mut List<PointId>,
    graph: GraphId,
    edges: &[Edge],
    steps: &mut List<Step>,
) -> Result<(), NoMemory>
    requires numbering { IsNumbering numbering.old.points.keys numbering.old.homes }
    requires of { IsListOf numbering.old.homes graph list.old }
    ensures enters { OnOk result (Enters graph (Joins edges.now) numbering.old.points.keys numbering.new.points.keys
        numbering.old.homes numbering.new.homes list.old list.new) }
    ensures steps { OnOk result (AreMore numbering.new.points.keys (Has edges.now) steps.old steps.new) }
    ensures comes { OnOk result (Comes (flat_map both_ends edges.now) numbering.old.points.keys numbering.new.points.keys list.old list.new) }
    ensures listed { OnOk result (Continues numbering.new.points.keys edges.now steps.old steps.new) }
{
    for edge in edges {
        let from = enter(numbering, list, graph, edge.from)?;
        let to = enter(numbering, list, graph, edge.to)?;
        steps.push(Step {
            from,
            to,
            kind: edge.kind,
        })?;
    }
    Ok(())
}
