//! The subjects of cases, and what each node tests.
ghost use Rattle.std.specs.Prelude.{◌≡◌, ℕ, [], ◌∷◌, length, IfOk};
ghost use Rattle.flow_graph.specs.Tests.{subject_in};
ghost use Rattle.flow_graph.specs.Numbering.{AreSubjects, IsPut, IsPutBy, running_by, tests_by, test_by, IsTable};

use crate::binding::{NodeMarks, is_read};
use crate::condition::{Tested, Tests, resolved};
use crate::tested::node_tests;
use flow_rows::Form;
use node_references::{at, is_marked};
use py_base::{List, NoMemory, NodeId, RefId, Tree};
use std::alloc::Global;

// A table without subjects.
fn nothing(alloc: Global, count: usize) -> Result<List<Option<NodeId>>, NoMemory>
    ensures { IfOk result (λ table. AreSubjects [] count table) }
{
    let mut table = List::new(alloc);
    for _ in 0..count {
        table.push(None)?;
    }
    Ok(table)
}

// Puts the subject of a case, where none stands yet.
fn put(table: &mut List<Option<NodeId>>, case: NodeId, subject: NodeId)
    ensures { IsPut (case ∷ []) subject table.old table.new }
{
    let place = case.0 as usize;
    if place >= table.len() {
        return;
    }
    if at(table.as_slice(), case.0).is_some() {
        return;
    }
    table.set(place, Some(subject));
}

// Puts the subject of cases.
fn put_all(table: &mut List<Option<NodeId>>, cases: &[NodeId], subject: NodeId)
    ensures { IsPut cases.now subject table.old table.new }
{
    for case in cases {
        put(table, *case, subject);
    }
}

// Puts the subject of the cases of a form.
fn put_form(table: &mut List<Option<NodeId>>, form: &Form)
    ensures { IsPutBy form.now table.old table.new }
{
    match form {
        Form::Match(form) => put_all(table, form.cases.as_slice(), form.subject),
        _ => (),
    }
}

/// The subject of each node that is a case. `NoMemory` where that could not be stored.
pub(crate) fn subjects(
    alloc: Global,
    forms: &[Form],
    count: usize,
) -> Result<List<Option<NodeId>>, NoMemory>
    ensures { IfOk result (λ table. AreSubjects forms.now count table) }
{
    let mut table = nothing(alloc, count)?;
    for form in forms {
        put_form(&mut table, form);
    }
    Ok(table)
}

// The number of the reference of a node that runs.
fn running_at(run: &[bool], table: &[Option<RefId>], node: NodeId) -> Option<RefId>
    ensures { result ≡ running_by run.now table.now node.0 }
{
    if is_marked(run, node) {
        at(table, node.0)
    } else {
        None
    }
}

/// For each node that runs the number of its reference. `NoMemory` where that could not be stored.
pub(crate) fn running(
    alloc: Global,
    tree: &Tree,
    run: &[bool],
    table: &[Option<RefId>],
) -> Result<List<Option<RefId>>, NoMemory>
    ensures { IfOk result (λ list. IsTable (running_by run.now table.now) (length tree.now.nodes) list) }
{
    let mut list = List::new(alloc);
    for place in 0..tree.node_count() {
        list.push(running_at(run, table, NodeId(place as u32)))?;
    }
    Ok(list)
}

// The tests of a node that runs.
fn tests_at(tree: &Tree, marks: &NodeMarks, subjects: &[Option<NodeId>], node: NodeId) -> Tests
    ensures { result ≡ tests_by tree.now marks.now.run marks.now.bound subjects.now node }
{
    if is_marked(marks.run.as_slice(), node) {
        let read = is_read(tree, marks.bound.as_slice(), node);
        node_tests(tree, read, at(subjects, node.0), node)
    } else {
        Tests {
            written: None,
            mirrored: None,
        }
    }
}

/// What each node tests, by the numbers of nodes that run. `NoMemory` where that could not be stored.
pub(crate) fn tests_of(
    alloc: Global,
    tree: &Tree,
    marks: &NodeMarks,
    subjects: &[Option<NodeId>],
    table: &[Option<RefId>],
) -> Result<List<Tested>, NoMemory>
    ensures { IfOk result (λ list. IsTable (λ (i : ℕ). test_by tree.now marks.now.run marks.now.bound subjects.now table.now (record { 0 = i })) (length tree.now.nodes) list) }
{
    let mut list = List::new(alloc);
    for place in 0..tree.node_count() {
        let tests = tests_at(tree, marks, subjects, NodeId(place as u32));
        list.push(resolved(table, tests))?;
    }
    Ok(list)
}
