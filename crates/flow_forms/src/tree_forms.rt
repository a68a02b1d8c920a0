//! The form of a node by its kind.
ghost use Rattle.std.specs.Prelude.{◌≡◌, [], ◌∷◌, ◌++◌, IfOk, OnOk, drop};
ghost use Rattle.flow_forms.specs.Forms.{pair_form, is_atom, is_operation, is_listing, is_stepped, is_sequence, plain_form, form_with, compound_form, statement_form, form, forms_of};
ghost use Rattle.flow_forms.specs.Clauses.{running, clauses_of};

use crate::clauses::{Clause, behind_first, read_clauses, running_parts};
use crate::compounds::{
    form_of_case, form_of_for, form_of_if, form_of_match, form_of_try, form_of_while, form_of_with,
};
use crate::displays::{form_of_call, form_of_display, form_of_round};
use crate::functions::{form_of_alias, form_of_class, form_of_def, form_of_lambda};
use crate::simple::{
    form_of_annotated, form_of_assert, form_of_assign, form_of_conditional, form_of_import,
    form_of_named, form_of_not,
};
use flow_rows::{Channel, Form};
use py_base::{List, NoMemory, NodeId, NodeKind, Tree};
use std::alloc::Global;

fn is_leaf(kind: NodeKind) -> bool
    ensures { result ≡ is_atom kind }
{
    matches!(
        kind,
        NodeKind::Name
            | NodeKind::Int
            | NodeKind::Float
            | NodeKind::Imaginary
            | NodeKind::Strings
            | NodeKind::BytesStrings
            | NodeKind::NoneValue
            | NodeKind::TrueValue
            | NodeKind::FalseValue
            | NodeKind::Ellipsis
    )
}

fn operates(kind: NodeKind) -> bool
    ensures { result ≡ is_operation kind }
{
    matches!(
        kind,
        NodeKind::Comparison
            | NodeKind::Binary
            | NodeKind::Unary
            | NodeKind::Await
            | NodeKind::Attribute
            | NodeKind::Subscript
            | NodeKind::Slice
            | NodeKind::Field
            | NodeKind::Format
    )
}

fn lists(kind: NodeKind) -> bool
    ensures { result ≡ is_listing kind }
{
    matches!(
        kind,
        NodeKind::Entries
            | NodeKind::Starred
            | NodeKind::DoubleStarred
            | NodeKind::Item
            | NodeKind::Targets
            | NodeKind::Yield
            | NodeKind::YieldFrom
            | NodeKind::AugmentedAssign
            | NodeKind::Pass
            | NodeKind::Del
    )
}

// Whether the parts run in order and then the node.
fn takes_steps(kind: NodeKind) -> bool
    ensures { result ≡ is_stepped kind }
{
    is_leaf(kind) || operates(kind) || lists(kind)
}

fn is_in_order(kind: NodeKind) -> bool
    ensures { result ≡ is_sequence kind }
{
    matches!(
        kind,
        NodeKind::Statements | NodeKind::Suite | NodeKind::Block | NodeKind::WithItem
    )
}

// A node without a form of its own.
fn form_of_other(
    alloc: Global,
    tree: &Tree,
    kind: NodeKind,
    parts: &[NodeId],
) -> Result<Form, NoMemory>
    ensures { IfOk result (λ f. f ≡ plain_form tree.now.nodes kind parts.now) }
{
    if takes_steps(kind) {
        Ok(Form::Steps(running_parts(alloc, tree, parts)?))
    } else if is_in_order(kind) {
        Ok(Form::Sequence(running_parts(alloc, tree, parts)?))
    } else {
        Ok(Form::Silent)
    }
}

// A statement that leaves by a channel.
fn form_of_jump(
    alloc: Global,
    tree: &Tree,
    channel: Channel,
    parts: &[NodeId],
) -> Result<Form, NoMemory>
    ensures { IfOk result (λ f. f ≡ Form.Jump channel (running tree.now.nodes parts.now)) }
{
    Ok(Form::Jump(channel, running_parts(alloc, tree, parts)?))
}

// A node of two operands.
fn form_of_and(parts: &[NodeId]) -> Form
    ensures { result ≡ pair_form Form.And parts.now }
{
    match parts {
        [first, second, ..] => Form::And(*first, *second),
        _ => Form::Silent,
    }
}

fn form_of_or(parts: &[NodeId]) -> Form
    ensures { result ≡ pair_form Form.Or parts.now }
{
    match parts {
        [first, second, ..] => Form::Or(*first, *second),
        _ => Form::Silent,
    }
}

// The parts behind the first, of which each runs.
fn form_behind_first(alloc: Global, parts: &[NodeId]) -> Result<Form, NoMemory>
    ensures { IfOk result (λ f. f ≡ Form.Steps (drop 1 parts.now)) }
{
    let steps = Vec::from_slice(alloc, behind_first(parts))?;
    Ok(Form::Steps(List::from_vec(steps)))
}

// A compound statement, or a node without a form of its own.
fn form_of_compound(
    alloc: Global,
    tree: &Tree,
    kind: NodeKind,
    parts: &[NodeId],
) -> Result<Form, NoMemory>
    ensures { IfOk result (λ f. f ≡ compound_form tree.now kind parts.now) }
{
    let clauses = match kind {
        NodeKind::IfStatement
        | NodeKind::WhileStatement
        | NodeKind::ForStatement
        | NodeKind::TryStatement
        | NodeKind::WithStatement
        | NodeKind::DefStatement
        | NodeKind::ClassStatement
        | NodeKind::MatchStatement
        | NodeKind::CaseStatement => read_clauses(alloc, tree, parts)?,
        _ => return form_of_other(alloc, tree, kind, parts),
    };
    form_by_clauses(alloc, tree, kind, parts, clauses.as_slice())
}

// A statement with these clauses.
fn form_by_clauses(
    alloc: Global,
    tree: &Tree,
    kind: NodeKind,
    parts: &[NodeId],
    clauses: &[Clause],
) -> Result<Form, NoMemory>
    ensures { IfOk result (λ f. f ≡ form_with tree.now kind parts.now clauses.now) }
{
    match kind {
        NodeKind::IfStatement => form_of_if(alloc, clauses),
        NodeKind::WhileStatement => Ok(form_of_while(clauses)),
        NodeKind::ForStatement => Ok(form_of_for(clauses)),
        NodeKind::TryStatement => form_of_try(alloc, clauses),
        NodeKind::WithStatement => form_of_with(alloc, clauses),
        NodeKind::DefStatement => form_of_def(alloc, tree, parts, clauses),
        NodeKind::ClassStatement => form_of_class(alloc, tree, parts, clauses),
        NodeKind::MatchStatement => form_of_match(alloc, tree, clauses),
        NodeKind::CaseStatement => form_of_case(alloc, tree, clauses),
        _ => Ok(Form::Silent),
    }
}

// A simple statement or a module, or another node.
fn form_of_statement(
    alloc: Global,
    tree: &Tree,
    kind: NodeKind,
    parts: &[NodeId],
) -> Result<Form, NoMemory>
    ensures { IfOk result (λ f. f ≡ statement_form tree.now kind parts.now) }
{
    match kind {
        NodeKind::Assign => form_of_assign(alloc, parts),
        NodeKind::AnnotatedAssign => form_of_annotated(alloc, tree, parts),
        NodeKind::Global | NodeKind::Nonlocal | NodeKind::ImportAll | NodeKind::Fault => {
            Ok(Form::Steps(List::new(alloc)))
        }
        NodeKind::Import => form_of_import(alloc, tree, parts),
        NodeKind::ImportFrom => form_of_import(alloc, tree, behind_first(parts)),
        NodeKind::TypeAlias => form_of_alias(alloc, tree, parts),
        NodeKind::Assert => Ok(form_of_assert(parts)),
        NodeKind::Break => form_of_jump(alloc, tree, Channel::Break, parts),
        NodeKind::Continue => form_of_jump(alloc, tree, Channel::Continue, parts),
        NodeKind::Return => form_of_jump(alloc, tree, Channel::Return, parts),
        NodeKind::Raise => form_of_jump(alloc, tree, Channel::Raise, parts),
        NodeKind::Module => Ok(Form::Module(running_parts(alloc, tree, parts)?)),
        _ => form_of_compound(alloc, tree, kind, parts),
    }
}

// The form of a node by its kind and its parts.
fn form_of(alloc: Global, tree: &Tree, kind: NodeKind, parts: &[NodeId]) -> Result<Form, NoMemory>
    ensures { IfOk result (λ f. f ≡ form tree.now kind parts.now) }
{
    match kind {
        NodeKind::Round => form_of_round(alloc, tree, parts),
        NodeKind::Square | NodeKind::Curly => form_of_display(alloc, tree, parts),
        NodeKind::Call => form_of_call(alloc, tree, parts),
        NodeKind::And => Ok(form_of_and(parts)),
        NodeKind::Or => Ok(form_of_or(parts)),
        NodeKind::Not => Ok(form_of_not(parts)),
        NodeKind::Conditional => Ok(form_of_conditional(parts)),
        NodeKind::Lambda => form_of_lambda(alloc, tree, parts),
        NodeKind::Named => form_of_named(alloc, parts),
        NodeKind::Keyword => form_behind_first(alloc, parts),
        _ => form_of_statement(alloc, tree, kind, parts),
    }
}

/// The form of each node of a tree, in the order of their numbers. `NoMemory` where they could not be
/// stored.
pub fn forms(alloc: Global, tree: &Tree) -> Result<List<Form>, NoMemory>
    ensures { IfOk result (λ list. list ≡ forms_of tree.now) }
{
    let mut list = List::new(alloc);
    for at in 0..tree.node_count() {
        let node = tree.node(NodeId(at as u32));
        let form = form_of(alloc, tree, node.kind, node.parts.as_slice())?;
        list.push(form)?;
    }
    Ok(list)
}
