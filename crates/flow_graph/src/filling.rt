//! The making of the table.
ghost use Rattle.std.specs.Prelude.{◌≡◌, ◌<◌, ◌^◌, length, IfOk};
ghost use Rattle.node_references.specs.Numbers.{AreNodeReferences};
ghost use Rattle.flow_forms.specs.Forms.{forms_of};
ghost use Rattle.flow_graph.specs.Targets.{bound_nodes};
ghost use Rattle.flow_graph.specs.Numbering.{AreSubjects};
ghost use Rattle.flow_graph.specs.Bindings.{run_nodes};
ghost use Rattle.node_references.specs.Marks.{AreMarks};
ghost use Rattle.flow_graph.specs.Table.{AreReferences, IsClosed};

use crate::binding::{NodeMarks, bindings, reads, run_nodes};
use crate::graphs::{all_graphs, size};
use crate::subjects::{running, subjects, tests_of};
use crate::table::References;
use crate::targets::bound_nodes;
use flow_rows::Form;
use node_references::{NodeReferences, marked};
use point_graph::PointGraph;
use py_base::{List, NoMemory, NodeId, Tree};
use py_scopes::Scopes;
use std::alloc::Global;

/// What the forms of a tree say beside its edges: which nodes are bound, and of each case the subject.
#[derive(Drop)]
pub(crate) struct FormFacts {
    pub bound: List<NodeId>,
    pub subjects: List<Option<NodeId>>,
}

/// What these forms of a tree say beside its edges. `NoMemory` where that could not be stored.
pub(crate) fn form_facts(alloc: Global, tree: &Tree, forms: &[Form]) -> Result<FormFacts, NoMemory>
    requires { forms.now ≡ forms_of tree.now }
    ensures bound { IfOk result (λ f. f.bound ≡ bound_nodes tree.now) }
    ensures subjects { IfOk result (λ f. AreSubjects (forms_of tree.now) (length tree.now.nodes) f.subjects) }
{
    Ok(FormFacts {
        bound: bound_nodes(alloc, tree, forms)?,
        subjects: subjects(alloc, forms, tree.node_count())?,
    })
}

// Marks of nodes that run and that are bound.
fn marks_of(
    alloc: Global,
    tree: &Tree,
    graph: &PointGraph,
    bound: &[NodeId],
) -> Result<NodeMarks, NoMemory>
    requires { length graph.now.points < 2 ^ 32 }
    ensures run { IfOk result (λ m. AreMarks (run_nodes graph.now.points) (length tree.now.nodes) m.run) }
    ensures bound { IfOk result (λ m. AreMarks bound.now (length tree.now.nodes) m.bound) }
{
    let count = tree.node_count();
    let run = run_nodes(alloc, graph)?;
    Ok(NodeMarks {
        run: marked(alloc, run.as_slice(), count)?,
        bound: marked(alloc, bound, count)?,
    })
}

/// The references of the graphs of a tree, by the numbers that they have among those of its nodes. The scopes,
/// the references of nodes, what the forms say and the graphs are those of the tree. The references of a graph
/// come in the order of its points. `NoMemory` where they could not be stored.
pub(crate) fn references(
    alloc: Global,
    tree: &Tree,
    scopes: &Scopes,
    nodes: NodeReferences,
    facts: &FormFacts,
    graph: &PointGraph,
) -> Result<References, NoMemory>
    requires numbers { AreNodeReferences tree.now scopes.now.owners nodes }
    requires bound { facts.now.bound ≡ bound_nodes tree.now }
    requires subjects { AreSubjects (forms_of tree.now) (length tree.now.nodes) facts.now.subjects }
    ensures right { IfOk result (λ t. AreReferences tree.now scopes.now.owners graph.now t) }
    ensures closed { IfOk result IsClosed }
{
    if graph.len() > u32::MAX as usize {
        return Err(NoMemory);
    }
    let table = nodes.numbers.as_slice();
    let marks = marks_of(alloc, tree, graph, facts.bound.as_slice())?;
    let reads = reads(alloc, tree, &marks, table)?;
    let bindings = bindings(alloc, tree, graph, marks.bound.as_slice(), table)?;
    let running = running(alloc, tree, marks.run.as_slice(), table)?;
    let tests = tests_of(
        alloc,
        tree,
        &marks,
        facts.subjects.as_slice(),
        running.as_slice(),
    )?;
    let graphs = all_graphs(
        alloc,
        graph,
        reads.as_slice(),
        bindings.as_slice(),
        tree.node_count(),
    )?;
    let size = size(graph, graphs.as_slice());
    Ok(References {
        list: nodes.list,
        prefixes: nodes.prefixes,
        reads,
        bindings,
        tests,
        graphs,
        size,
    })
}
