//! The forms of brackets, comprehensions and calls.
ghost use Rattle.std.specs.Prelude.{◌≡◌, [], ◌∷◌, ◌++◌, IfOk, OnOk, drop};
ghost use Rattle.flow_forms.specs.Forms.{is_for, is_comprehension, comprehension_clause, comprehension_clauses_of, display_form, round_form, call_form};

use crate::clauses::running_parts;
use flow_rows::{ComprehensionClause, Form};
use py_base::{List, NoMemory, NodeId, NodeKind, Tree};
use std::alloc::Global;

fn begins_clauses(kind: NodeKind) -> bool
    ensures { result ≡ is_for kind }
{
    matches!(
        kind,
        NodeKind::ComprehensionFor | NodeKind::AsyncComprehensionFor
    )
}

// Whether parts are an element and then clauses.
fn has_clauses(tree: &Tree, parts: &[NodeId]) -> bool
    ensures { result ≡ is_comprehension tree.now.nodes parts.now }
{
    match parts {
        [_, clause, ..] => begins_clauses(tree.kind(*clause)),
        _ => false,
    }
}

// Adds what a clause of a comprehension is.
fn add_clause(
    node: NodeId,
    kind: NodeKind,
    parts: &[NodeId],
    clauses: &mut List<ComprehensionClause>,
) -> Result<(), NoMemory>
    ensures { OnOk result (clauses.new ≡ clauses.old ++ comprehension_clause node kind parts.now) }
{
    match (kind, parts) {
        (NodeKind::ComprehensionFor, [targets, iterable, ..]) => {
            clauses.push(ComprehensionClause::For(node, *targets, *iterable))
        }
        (NodeKind::AsyncComprehensionFor, [targets, iterable, ..]) => {
            clauses.push(ComprehensionClause::For(node, *targets, *iterable))
        }
        (NodeKind::ComprehensionIf, [test, ..]) => {
            clauses.push(ComprehensionClause::If(node, *test))
        }
        _ => Ok(()),
    }
}

// The clauses of a comprehension.
fn clauses_in(
    alloc: Global,
    tree: &Tree,
    parts: &[NodeId],
) -> Result<List<ComprehensionClause>, NoMemory>
    ensures { IfOk result (λ clauses. clauses ≡ comprehension_clauses_of tree.now.nodes parts.now) }
{
    let mut clauses = List::new(alloc);
    for part in parts {
        add_clause(*part, tree.kind(*part), tree.parts(*part), &mut clauses)?;
    }
    Ok(clauses)
}

/// Entries in brackets.
pub fn form_of_display(alloc: Global, tree: &Tree, parts: &[NodeId]) -> Result<Form, NoMemory>
    ensures { IfOk result (λ f. f ≡ display_form tree.now.nodes parts.now) }
{
    if !has_clauses(tree, parts) {
        return Ok(Form::Steps(running_parts(alloc, tree, parts)?));
    }
    match parts {
        [] => Ok(Form::Silent),
        [element, more @ ..] => Ok(Form::Comprehension(*element, clauses_in(alloc, tree, more)?)),
    }
}

/// Round brackets.
pub fn form_of_round(alloc: Global, tree: &Tree, parts: &[NodeId]) -> Result<Form, NoMemory>
    ensures { IfOk result (λ f. f ≡ round_form tree.now.nodes parts.now) }
{
    match parts {
        [part] => Ok(Form::Group(*part)),
        [] => form_of_display(alloc, tree, parts),
        [_, _, ..] => form_of_display(alloc, tree, parts),
    }
}

/// A call.
pub fn form_of_call(alloc: Global, tree: &Tree, parts: &[NodeId]) -> Result<Form, NoMemory>
    ensures { IfOk result (λ f. f ≡ call_form tree.now.nodes parts.now) }
{
    match parts {
        [] => Ok(Form::Silent),
        [callee, arguments @ ..] => {
            Ok(Form::Call(*callee, running_parts(alloc, tree, arguments)?))
        }
    }
}
