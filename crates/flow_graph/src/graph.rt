//! The graphs of a tree, with the references at their points.
ghost use Rattle.std.specs.Prelude.{◌≡◌, length, IfOk};
ghost use Rattle.flow_graph.specs.Graph.{IsFlow};

use crate::condition::TestForm;
use crate::filling::{form_facts, references};
use crate::table::References;
use flow_forms::forms;
use flow_rows::{EdgeKind, Point};
use node_references::{Root, at, casts, node_references};
use point_graph::PointGraph;
use py_base::{GraphId, NameId, NoMemory, NodeId, PointId, RefId, SymId, Tree};
use py_scopes::Scopes;
use std::alloc::Global;
use std::marker::Model;

/// The code flow graphs of a tree: one for the module, each def and each lambda; and the references that
/// are read, bound and tested in them. A point has one number, and so has a reference; the number of a graph
/// is that of its node. No call takes memory.
///
/// A contract sees the points with their edges, and the references.
#[derive(Drop)]
pub struct Graph {
    points: PointGraph,
    references: References,
}

impl Model for Graph {
    ghost use Rattle.flow_graph.specs.Graph.{Flow};
    ghost use Rattle.flow_graph.specs.Table.{IsClosed};

    ghost Value = { Flow };

    ghost view = { λ g. record { points = g.points; references = g.references } };

    ghost invariant = { λ g. IsClosed g.references };
}

impl Graph {
    ghost use Rattle.std.specs.Prelude.{◌≡◌, ◌<◌, ◌^◌, Some, IfSome, IsNone, slice_get, length};
    ghost use Rattle.flow_rows.specs.declared.point.Point.{Point};
    ghost use Rattle.point_graph.specs.declared.members.Members.{Members};
    ghost use Rattle.flow_rows.specs.Flow.{Has};
    ghost use Rattle.flow_rows.specs.Ends.{first_of};
    ghost use Rattle.point_graph.specs.Graph.{IsClosed, call_source, listed_or, graph_id, points_or, end_or, home_or};
    ghost use Rattle.point_graph.specs.Numbers.{IsNumber, AreWithin};
    ghost use Rattle.point_graph.specs.Operands.{IsPointAt};
    ghost use Rattle.node_references.specs.Reference.{Reference};
    ghost use Rattle.node_references.specs.Numbers.{flat, symbol_of, IsPrefixOf};
    ghost use Rattle.flow_graph.specs.Table.{AreBelow, condition_of, mirrored_of, reference_in, IsClosed as AreIds};

    /// The points from which edges lead to a point, none for a number that no point has.
    pub fn antecedents(&self, point: PointId) -> &[PointId]
        ensures value { result.now ≡ listed_or (slice_get self.now.points.antecedents point.0) }
        ensures within { AreWithin (length self.now.points.points) result.now }
    {
        self.points.antecedents(point)
    }

    /// The kinds of these edges, place by place.
    pub fn kinds(&self, point: PointId) -> &[EdgeKind]
        ensures value { result.now ≡ listed_or (slice_get self.now.points.kinds point.0) }
        ensures long { length result.now ≡ length (listed_or (slice_get self.now.points.antecedents point.0)) }
    {
        self.points.kinds(point)
    }

    /// The graph of a module, a def or a lambda; `None` exactly where the node is none of these.
    pub fn of(&self, node: NodeId) -> Option<GraphId>
        ensures { result ≡ graph_id node (slice_get self.now.points.graphs node.0) }
    {
        self.points.of(node)
    }

    /// The graph of a point, and number 0 for a number that no point has.
    pub fn graph(&self, point: PointId) -> GraphId
        ensures value { result ≡ home_or (slice_get self.now.points.homes point.0) }
        ensures long { length self.now.points.homes ≡ length self.now.points.points }
    {
        self.points.graph(point)
    }

    /// The points of a graph, each once, the start first; none for a number that no graph has.
    pub fn points(&self, graph: GraphId) -> &[PointId]
        ensures value { result.now ≡ points_or (slice_get self.now.points.graphs graph.0) }
        ensures within { AreWithin (length self.now.points.points) result.now }
    {
        self.points.points(graph)
    }

    /// The point behind the last statement of a graph, or behind its expression, and where nothing stands
    /// in it its start. Behind a `return` it is a point that nothing reaches. Number 0 for a number that
    /// no graph has.
    pub fn end(&self, graph: GraphId) -> PointId
        ensures value { result ≡ end_or (slice_get self.now.points.graphs graph.0) }
        ensures within { (m : Members) → slice_get self.now.points.graphs graph.0 ≡ Some (Some m) → result.0 < length self.now.points.points }
    {
        self.points.end(graph)
    }

    /// The point of a node in a copy of the `finally` blocks around it, of which copy 0 is the checked one;
    /// `None` exactly where the node has no point in that copy. Under a condition the point of `and`, `or`,
    /// `not`, brackets and the conditional expression is that of the operand that is evaluated first; a
    /// pattern in brackets has that of the pattern in them.
    pub fn point(&self, node: NodeId, copy: u32) -> Option<PointId>
        ensures some { IfSome result (λ id. (p : Point) × IsNumber self.now.points.points id p × IsPointAt self.now.points.points self.now.points.operands node copy p) }
        ensures none { IsNone result → (p : Point) → IsPointAt self.now.points.points self.now.points.operands node copy p → ⊥ }
        ensures within { IfSome result (λ id. id.0 < length self.now.points.points) }
    {
        self.points.point(node, copy)
    }

    /// The first point of a node in a copy: where what leads into the node leads to, as the first operand of an
    /// expression or the label of a loop; `None` exactly where that is no point.
    pub fn first(&self, node: NodeId, copy: u32) -> Option<PointId>
        ensures some { IfSome result (λ id. IsNumber self.now.points.points id (first_of self.now.points.ends node copy)) }
        ensures none { IsNone result → Has self.now.points.points (first_of self.now.points.ends node copy) → ⊥ }
    {
        self.points.first(node, copy)
    }

    /// The point before a call, by the point of the call: that from which its edge of kind `Call` leads; `None`
    /// exactly where no such edge leads to the point.
    pub fn before_call(&self, point: PointId) -> Option<PointId>
        ensures { result ≡ call_source (listed_or (slice_get self.now.points.antecedents point.0)) (listed_or (slice_get self.now.points.kinds point.0)) }
    {
        self.points.before_call(point)
    }

    /// How many points have numbers.
    pub fn len(&self) -> usize
        ensures value { result ≡ length self.now.points.points }
        ensures few { result < 2 ^ 32 }
        ensures closed { IsClosed self.now.points }
    {
        self.points.len()
    }

    /// The point of a number; `None` exactly where no point has it.
    pub fn place(&self, point: PointId) -> Option<Point>
        ensures { result ≡ slice_get self.now.points.points point.0 }
    {
        self.points.place(point)
    }

    /// The references that occur in a graph, each once; none for a number that no graph has.
    pub fn references(&self, graph: GraphId) -> &[RefId]
        ensures value { result.now ≡ listed_or (slice_get self.now.references.graphs graph.0) }
        ensures within { AreBelow (length self.now.references.list) result.now }
    {
        match self.references.graphs.get(graph.0 as usize) {
            None => &[],
            Some(list) => list.as_slice(),
        }
    }

    /// Points times references, summed over the graphs, and at most 2^64 - 1.
    pub fn size(&self) -> u64
        ensures { result ≡ self.now.references.size }
    {
        self.references.size
    }

    /// The reference that a point binds, and the node that says to what: the name or the attribute that is
    /// bound, for the hidden reference of a `match` its subject, and at the end of an `except` clause, where
    /// its name is unbound, the header of the clause. `None` exactly where the point binds no reference.
    pub fn binding(&self, point: PointId) -> Option<(RefId, NodeId)>
        ensures value { result ≡ flat (slice_get self.now.references.bindings point.0) }
        ensures within { IfSome result (λ b. b.0.0 < length self.now.references.list) }
    {
        at(self.references.bindings.as_slice(), point.0)
    }

    /// How many references have numbers.
    pub fn reference_count(&self) -> usize
        ensures value { result ≡ length self.now.references.list }
        ensures closed { AreIds self.now.references }
    {
        self.references.list.len()
    }

    /// The symbol of a reference, `None` exactly for the hidden one of a `match`, and the names behind it.
    pub fn reference(&self, reference: RefId) -> (Option<SymId>, &[NameId])
        requires { reference.0 < length self.now.references.list }
        ensures { (r : Reference) × (slice_get self.now.references.list reference.0 ≡ Some r) × (result.0 ≡ symbol_of r.root) × (result.1.now ≡ r.names) }
    {
        let (root, names) = self.references.list.reference(reference);
        let symbol = match root {
            Root::Symbol(symbol) => Some(symbol),
            Root::Subject(_) => None,
        };
        (symbol, names)
    }

    /// The reference before the last name of a reference, and that name; `None` exactly where no name stands in
    /// it behind what it begins with.
    pub fn prefix(&self, reference: RefId) -> Option<(RefId, NameId)>
        requires { reference.0 < length self.now.references.list }
        ensures { (r : Reference) → slice_get self.now.references.list reference.0 ≡ Some r → IsPrefixOf self.now.references.list result r }
    {
        at(self.references.prefixes.as_slice(), reference.0)
    }

    /// The reference that the name or the chain at a node reads, `None` exactly where it reads none.
    pub fn read(&self, node: NodeId) -> Option<RefId>
        ensures value { result ≡ flat (slice_get self.now.references.reads node.0) }
        ensures within { IfSome result (λ r. r.0 < length self.now.references.list) }
    {
        at(self.references.reads.as_slice(), node.0)
    }

    /// The reference that stands in place of `x` where the node has the form of a test, as `x is None` or
    /// `isinstance(x, C)`, and for a case the subject of its `match` where that is a reference; `None`
    /// exactly where there is none of these. A node that doesn't run tests nothing, and isn't tested, as the
    /// first argument of `cast`. What the names of classes and functions in it stand for isn't looked at: where
    /// both sides of `==` are chains, as in `C.M == a.x`, it is the left one, and `mirrored` gives the other.
    pub fn tested(&self, node: NodeId) -> Option<RefId>
        ensures value { result ≡ reference_in (condition_of (slice_get self.now.references.tests node.0)) }
        ensures within { IfSome result (λ r. r.0 < length self.now.references.list) }
    {
        let (reference, _) = self.condition(node)?;
        Some(reference)
    }

    /// The reference that `tested` gives, with the form of the test.
    pub fn condition(&self, node: NodeId) -> Option<(RefId, TestForm)>
        ensures value { result ≡ condition_of (slice_get self.now.references.tests node.0) }
        ensures within { IfSome result (λ c. c.0.0 < length self.now.references.list) }
    {
        let tested = self.references.tests.get(node.0 as usize)?;
        tested.condition
    }

    /// The reference on the right side of `L == x` or `L != x`, with the form of that test, where `tested` gives the
    /// one on the left; `None` exactly where it doesn't, or where the right side is none.
    pub fn mirrored(&self, node: NodeId) -> Option<(RefId, TestForm)>
        ensures value { result ≡ mirrored_of (slice_get self.now.references.tests node.0) }
        ensures within { IfSome result (λ c. c.0.0 < length self.now.references.list) }
    {
        let tested = self.references.tests.get(node.0 as usize)?;
        tested.mirrored
    }
}

/// The code flow graphs of a tree, whose names have their owners and bindings by `scopes`. The first argument
/// of `cast` of typing, which its callee names by its only binding, is an annotation and has no point.
/// `NoMemory` where the graphs could not be stored or numbered.
pub fn build(alloc: Global, tree: &Tree, scopes: &Scopes) -> Result<Graph, NoMemory>
    // The scopes are those of the tree.
    requires { length scopes.now.owners ≡ length tree.now.nodes }
    ensures { IfOk result (λ g. IsFlow tree.now scopes.now g) }
{
    let nodes = node_references(alloc, tree, scopes)?;
    let casts = casts(alloc, tree, scopes, &nodes)?;
    let forms = forms(alloc, tree)?;
    let facts = form_facts(alloc, tree, forms.as_slice())?;
    let points = point_graph::build(alloc, tree, forms, casts.as_slice())?;
    let references = references(alloc, tree, scopes, nodes, &facts, &points)?;
    Ok(Graph { points, references })
}
