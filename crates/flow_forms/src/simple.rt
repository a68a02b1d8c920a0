//! The forms of simple statements and of the expressions with two or three parts.
ghost use Rattle.std.specs.Prelude.{◌≡◌, [], ◌∷◌, ◌++◌, IfOk, OnOk, drop, take};
ghost use Rattle.flow_forms.specs.Patterns.{gather};
ghost use Rattle.flow_forms.specs.Forms.{but_last, assign_form, annotated_form, imported_in, imported, assert_form, not_form, conditional_form, named_form};

use crate::clauses::{last_else, running_parts};
use flow_rows::{Choice, Form};
use py_base::{List, NoMemory, NodeId, NodeKind, Tree};
use std::alloc::Global;

// Adds all parts but the last.
fn add_but_last(part: NodeId, more: &[NodeId], list: &mut List<NodeId>) -> Result<(), NoMemory>
    ensures { OnOk result (list.new ≡ list.old ++ but_last part more.now) }
{
    let mut before = part;
    for next in more {
        list.push(before)?;
        before = *next;
    }
    Ok(())
}

/// An assignment: the value, and then the targets.
pub fn form_of_assign(alloc: Global, parts: &[NodeId]) -> Result<Form, NoMemory>
    ensures { IfOk result (λ f. f ≡ assign_form parts.now) }
{
    match parts {
        [] => Ok(Form::Silent),
        [part, more @ ..] => {
            let mut steps = List::from_vec(vec![in alloc; last_else(*part, more)]?);
            add_but_last(*part, more, &mut steps)?;
            Ok(Form::Steps(steps))
        }
    }
}

/// An annotated name, with a value or without.
pub fn form_of_annotated(alloc: Global, tree: &Tree, parts: &[NodeId]) -> Result<Form, NoMemory>
    ensures { IfOk result (λ f. f ≡ annotated_form tree.now.nodes parts.now) }
{
    match parts {
        [] => Ok(Form::Silent),
        [_] => Ok(Form::Silent),
        [target, _] => Ok(Form::Steps(running_parts(alloc, tree, tree.parts(*target))?)),
        [target, _, value, ..] => Ok(Form::Steps(List::from_vec(vec![in alloc; *value, *target]?))),
    }
}

// Adds the name that an import binds.
fn add_imported(
    node: NodeId,
    kind: NodeKind,
    parts: &[NodeId],
    list: &mut List<NodeId>,
) -> Result<(), NoMemory>
    ensures { OnOk result (list.new ≡ list.old ++ imported_in node kind parts.now) }
{
    match kind {
        NodeKind::DottedName => match parts {
            [] => Ok(()),
            [name, ..] => list.push(*name),
        },
        NodeKind::Alias => match parts {
            [] => Ok(()),
            [_] => Ok(()),
            [_, name, ..] => list.push(*name),
        },
        NodeKind::LastComma => Ok(()),
        _ => list.push(node),
    }
}

/// The names that an import binds, in order.
pub fn form_of_import(alloc: Global, tree: &Tree, parts: &[NodeId]) -> Result<Form, NoMemory>
    ensures { IfOk result (λ f. f ≡ Form.Steps (gather (imported tree.now.nodes) parts.now)) }
{
    let mut steps = List::new(alloc);
    for part in parts {
        add_imported(*part, tree.kind(*part), tree.parts(*part), &mut steps)?;
    }
    Ok(Form::Steps(steps))
}

/// An `assert` statement.
pub fn form_of_assert(parts: &[NodeId]) -> Form
    ensures { result ≡ assert_form parts.now }
{
    match parts {
        [] => Form::Silent,
        [test] => Form::Assert(*test, None),
        [test, message, ..] => Form::Assert(*test, Some(*message)),
    }
}

/// `not`.
pub fn form_of_not(parts: &[NodeId]) -> Form
    ensures { result ≡ not_form parts.now }
{
    match parts {
        [] => Form::Silent,
        [part, ..] => Form::Not(*part),
    }
}

/// A conditional expression.
pub fn form_of_conditional(parts: &[NodeId]) -> Form
    ensures { result ≡ conditional_form parts.now }
{
    match parts {
        [value, test, other, ..] => Form::Conditional(Choice {
            value: *value,
            test: *test,
            other: *other,
        }),
        _ => Form::Silent,
    }
}

/// A named expression: the value, and then the name.
pub fn form_of_named(alloc: Global, parts: &[NodeId]) -> Result<Form, NoMemory>
    ensures { IfOk result (λ f. f ≡ named_form parts.now) }
{
    match parts {
        [name, value, ..] => Ok(Form::Steps(List::from_vec(vec![in alloc; *value, *name]?))),
        _ => Ok(Form::Silent),
    }
}
