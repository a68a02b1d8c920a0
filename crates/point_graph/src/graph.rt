//! The graphs of a tree, by numbers.
ghost use Rattle.std.specs.Prelude.{◌≡◌, ℕ, ◌<◌, ◌^◌, [], IfOk, length};
ghost use Rattle.flow_forms.specs.Forms.{forms_of};
ghost use Rattle.point_graph.specs.Graph.{IsGraph, AreNumbered, is_call, call_source};
ghost use Rattle.std.specs.List.{position};

use crate::annotations::forms_that_run;
use crate::homes::Numbering;
use crate::incoming::grouped;
use crate::members::{Members, all_graphs};
use crate::numbers::find;
use crate::operands::operands;
use crate::runs::{Run, Runs, laid_out};
use crate::starts::add_starts;
use flow_rows::{EdgeKind, Ends, Form, Point, ends_of_forms, first};
use indexmap::IndexSet;
use py_base::{GraphId, List, NoMemory, NodeId, PointId, Tree};
use std::alloc::Global;
use std::marker::Model;

/// The code flow graphs of a tree: one for the module, each def and each lambda. A point has one number.
///
/// A contract sees the points by their numbers, for each number where the edges to it come from, and their
/// kinds, the points of the graph of each node, the graph of each point, and of each node the operand that is
/// evaluated first and the first and the last point. The number of a graph is that of its node. Each number of a point that a call gives
/// is below `len`.
#[derive(Drop)]
pub struct PointGraph {
    points: IndexSet<Point>,
    sources: List<PointId>,
    labels: List<EdgeKind>,
    runs: List<Run>,
    graphs: List<Option<Members>>,
    homes: List<GraphId>,
    operands: List<Option<NodeId>>,
    ends: List<Ends>,
}

impl Model for PointGraph {
    ghost use Rattle.std.specs.Prelude.{◌≡◌, length};
    ghost use Rattle.point_graph.specs.Graph.{Numbered, IsClosed};
    ghost use Rattle.point_graph.specs.Runs.{parts, AreRuns};

    ghost Value = { Numbered };

    ghost view = { λ g. record { points = g.points.keys; antecedents = parts g.sources g.runs; kinds = parts g.labels g.runs; graphs = g.graphs; homes = g.homes; operands = g.operands; ends = g.ends } };

    ghost invariant = { λ g. IsClosed (record { points = g.points.keys; antecedents = parts g.sources g.runs; kinds = parts g.labels g.runs; graphs = g.graphs; homes = g.homes; operands = g.operands; ends = g.ends })
        × AreRuns (length g.sources) g.runs × (length g.labels ≡ length g.sources) };
}

impl PointGraph {
    ghost use Rattle.std.specs.Prelude.{◌≡◌, ◌<◌, ◌^◌, Some, IfSome, IsNone, slice_get, length};
    ghost use Rattle.flow_rows.specs.declared.point.Point.{Point};
    ghost use Rattle.point_graph.specs.declared.members.Members.{Members};
    ghost use Rattle.flow_rows.specs.Flow.{Has};
    ghost use Rattle.flow_rows.specs.Ends.{first_of};
    ghost use Rattle.point_graph.specs.Graph.{IsClosed, call_source, listed_or, graph_id, points_or, end_or, home_or};
    ghost use Rattle.point_graph.specs.Numbers.{IsNumber, AreWithin};
    ghost use Rattle.point_graph.specs.Operands.{IsPointAt};
    ghost use Rattle.std.specs.Option.{option_copied};

    /// The points from which edges lead to a point, none for a number that no point has.
    pub fn antecedents(&self, point: PointId) -> &[PointId]
        ensures value { result.now ≡ listed_or (slice_get self.now.antecedents point.0) }
        ensures within { AreWithin (length self.now.points) result.now }
    {
        let sources = self.sources.as_slice();
        match self.runs.get(point.0 as usize) {
            None => &[],
            Some(run) => &sources[run.from..run.to],
        }
    }

    /// The kinds of these edges, place by place.
    pub fn kinds(&self, point: PointId) -> &[EdgeKind]
        ensures value { result.now ≡ listed_or (slice_get self.now.kinds point.0) }
        ensures long { length result.now ≡ length (listed_or (slice_get self.now.antecedents point.0)) }
    {
        let labels = self.labels.as_slice();
        match self.runs.get(point.0 as usize) {
            None => &[],
            Some(run) => &labels[run.from..run.to],
        }
    }

    /// The graph of a module, a def or a lambda; `None` exactly where the node is none of these.
    pub fn of(&self, node: NodeId) -> Option<GraphId>
        ensures { result ≡ graph_id node (slice_get self.now.graphs node.0) }
    {
        match self.graphs.get(node.0 as usize) {
            Some(Some(_)) => Some(GraphId(node.0)),
            _ => None,
        }
    }

    /// The graph of a point, and number 0 for a number that no point has.
    pub fn graph(&self, point: PointId) -> GraphId
        ensures value { result ≡ home_or (slice_get self.now.homes point.0) }
        ensures long { length self.now.homes ≡ length self.now.points }
    {
        match self.homes.get(point.0 as usize) {
            None => GraphId(0),
            Some(graph) => *graph,
        }
    }

    /// The points of a graph, each once, the start first; none for a number that no graph has.
    pub fn points(&self, graph: GraphId) -> &[PointId]
        ensures value { result.now ≡ points_or (slice_get self.now.graphs graph.0) }
        ensures within { AreWithin (length self.now.points) result.now }
    {
        match self.graphs.get(graph.0 as usize) {
            Some(Some(members)) => members.points.as_slice(),
            _ => &[],
        }
    }

    /// The point behind the last statement of a graph, or behind its expression, and where nothing stands
    /// in it its start. Behind a `return` it is a point that nothing reaches. Number 0 for a number that
    /// no graph has.
    pub fn end(&self, graph: GraphId) -> PointId
        ensures value { result ≡ end_or (slice_get self.now.graphs graph.0) }
        ensures within { (m : Members) → slice_get self.now.graphs graph.0 ≡ Some (Some m) → result.0 < length self.now.points }
    {
        match self.graphs.get(graph.0 as usize) {
            Some(Some(members)) => members.end,
            _ => PointId(0),
        }
    }

    /// The point of a node in a copy of the `finally` blocks around it, of which copy 0 is the checked one;
    /// `None` exactly where the node has no point in that copy. Under a condition the point of `and`, `or`,
    /// `not`, brackets and the conditional expression is that of the operand that is evaluated first; a
    /// pattern in brackets has that of the pattern in them.
    pub fn point(&self, node: NodeId, copy: u32) -> Option<PointId>
        ensures some { IfSome result (λ id. (p : Point) × IsNumber self.now.points id p × IsPointAt self.now.points self.now.operands node copy p) }
        ensures none { IsNone result → (p : Point) → IsPointAt self.now.points self.now.operands node copy p → ⊥ }
        ensures within { IfSome result (λ id. id.0 < length self.now.points) }
    {
        match find(&self.points, Point::own(node, copy)) {
            Some(id) => Some(id),
            None => match self.operand(node) {
                None => None,
                Some(operand) => self.point(operand, copy),
            },
        }
    }

    // The operand of a node that is evaluated first, which is an older node.
    fn operand(&self, node: NodeId) -> Option<NodeId>
        ensures some { IfSome result (λ a. (slice_get self.now.operands node.0 ≡ Some (Some a)) × (a.0 < node.0)) }
        ensures none { IsNone result → (a : NodeId) → slice_get self.now.operands node.0 ≡ Some (Some a) → a.0 < node.0 → ⊥ }
    {
        match self.operands.get(node.0 as usize) {
            Some(Some(operand)) if operand.0 < node.0 => Some(*operand),
            _ => None,
        }
    }

    /// The first point of a node in a copy: where what leads into the node leads to, as the first operand of an
    /// expression or the label of a loop; `None` exactly where that is no point.
    pub fn first(&self, node: NodeId, copy: u32) -> Option<PointId>
        ensures some { IfSome result (λ id. IsNumber self.now.points id (first_of self.now.ends node copy)) }
        ensures none { IsNone result → Has self.now.points (first_of self.now.ends node copy) → ⊥ }
    {
        find(&self.points, first(self.ends.as_slice(), node, copy))
    }

    /// The point before a call, given the point of the call, where the last argument has its value: that from which its edge of
    /// kind `Call` leads; `None` exactly where no such edge leads to the point.
    pub fn before_call(&self, point: PointId) -> Option<PointId>
        ensures { result ≡ call_source (listed_or (slice_get self.now.antecedents point.0)) (listed_or (slice_get self.now.kinds point.0)) }
    {
        source_of_call(self.antecedents(point), self.kinds(point))
    }

    /// How many points have numbers.
    pub fn len(&self) -> usize
        ensures value { result ≡ length self.now.points }
        ensures few { result < 2 ^ 32 }
        ensures closed { IsClosed self.now }
    {
        self.points.len()
    }

    /// The point of a number; `None` exactly where no point has it.
    pub fn place(&self, point: PointId) -> Option<Point>
        ensures { result ≡ slice_get self.now.points point.0 }
    {
        self.points.get_index(point.0 as usize).copied()
    }
}

fn is_call(kind: &EdgeKind) -> bool
    ensures { result ≡ is_call kind.now }
{
    matches!(kind, EdgeKind::Call(_))
}

fn place_of_call(kinds: &[EdgeKind]) -> Option<usize>
    ensures { result ≡ position is_call kinds.now }
{
    kinds.iter().position(|kind| is_call(kind))
}

// Where the call edge among edges comes from.
fn source_of_call(sources: &[PointId], kinds: &[EdgeKind]) -> Option<PointId>
    ensures { result ≡ call_source sources.now kinds.now }
{
    let place = place_of_call(kinds)?;
    sources.get(place).copied()
}

// The graphs by the forms of a tree's nodes.
fn build_from(alloc: Global, forms: &[Form], ends: List<Ends>) -> Result<PointGraph, NoMemory>
    requires { length forms.now < 2 ^ 32 }
    ensures { IfOk result (λ g. AreNumbered forms.now ends g) }
{
    let mut numbering = Numbering {
        points: IndexSet::new(alloc),
        homes: List::new(alloc),
    };
    let mut steps = List::new(alloc);
    let graphs = all_graphs(alloc, forms, ends.as_slice(), &mut numbering, &mut steps)?;
    let Numbering { points, homes } = numbering;
    add_starts(forms, &points, &mut steps)?;
    let ways = grouped(alloc, steps.as_slice(), points.len())?;
    let Runs {
        sources,
        labels,
        runs,
    } = laid_out(alloc, ways.as_slice())?;
    let operands = operands(alloc, forms)?;
    Ok(PointGraph {
        points,
        sources,
        labels,
        runs,
        graphs,
        homes,
        operands,
        ends,
    })
}

/// The code flow graphs of a tree with these forms. `casts` says for each node, by its number, whether it names `cast` of
/// `typing`: the first argument of a call of such a node is an annotation, if it is a plain one, and has no
/// points. A node behind the end of `casts` doesn't name it. `NoMemory` where the graphs could not be stored
/// or numbered.
pub fn build(
    alloc: Global,
    tree: &Tree,
    forms: List<Form>,
    casts: &[bool],
) -> Result<PointGraph, NoMemory>
    requires { forms ≡ forms_of tree.now }
    ensures { IfOk result (λ g. IsGraph tree.now casts.now g) }
{
    // Brings what always holds of a tree, that its nodes are few, into the proof.
    let _count = tree.node_count();
    let forms = forms_that_run(alloc, tree, forms, casts)?;
    let ends = ends_of_forms(alloc, forms.as_slice())?;
    build_from(alloc, forms.as_slice(), ends)
}
