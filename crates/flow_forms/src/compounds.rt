//! The forms of compound statements, by their clauses.
ghost use Rattle.std.specs.Prelude.{◌≡◌, [], ◌∷◌, ◌++◌, IfOk, OnOk, drop, map};
ghost use Rattle.flow_forms.specs.Forms.{test_of, branch_of, if_form, else_or, else_of, finally_or, finally_of, while_form, for_form, handler_of, handler_in, handlers_of, try_form, with_form, is_case, cases_among, match_form, case_form};
ghost use Rattle.flow_forms.specs.Patterns.{captures, values};

use crate::clauses::{Clause, first_else, second_else};
use crate::patterns::{TREE_HEIGHT, add_captures, add_values};
use flow_rows::{Branch, CaseForm, ForForm, Form, Handler, MatchForm, TryForm, WhileForm};
use py_base::{List, NoMemory, NodeId, NodeKind, Tree};
use std::alloc::Global;

// The first of parts, if there is one.
fn first_part(parts: &[NodeId]) -> Option<NodeId>
    ensures { result ≡ test_of parts.now }
{
    match parts {
        [] => None,
        [part, ..] => Some(*part),
    }
}

fn branch(clause: &Clause) -> Branch
    ensures { result ≡ branch_of clause.now }
{
    Branch {
        test: first_part(clause.parts.as_slice()),
        body: clause.body,
    }
}

/// An `if` statement.
pub fn form_of_if(alloc: Global, clauses: &[Clause]) -> Result<Form, NoMemory>
    ensures { IfOk result (λ f. f ≡ if_form clauses.now) }
{
    match clauses {
        [] => Ok(Form::Silent),
        [clause, more @ ..] => {
            let mut branches = List::new(alloc);
            add_branches(more, &mut branches)?;
            Ok(Form::Branches(branch(clause), branches))
        }
    }
}

// Adds the branches of clauses.
fn add_branches(clauses: &[Clause], branches: &mut List<Branch>) -> Result<(), NoMemory>
    ensures { OnOk result (branches.new ≡ branches.old ++ map branch_of clauses.now) }
{
    for clause in clauses {
        branches.push(branch(clause))?;
    }
    Ok(())
}

// The body of `else`, if there is one.
fn else_body(clauses: &[Clause]) -> Option<NodeId>
    ensures { result ≡ else_of clauses.now }
{
    for clause in clauses {
        match clause.kind {
            NodeKind::Else => return Some(clause.body),
            _ => {}
        }
    }
    None
}

// The body of `finally`, if there is one.
fn finally_body(clauses: &[Clause]) -> Option<NodeId>
    ensures { result ≡ finally_of clauses.now }
{
    for clause in clauses {
        match clause.kind {
            NodeKind::Finally => return Some(clause.body),
            _ => {}
        }
    }
    None
}

/// A `while` statement.
pub fn form_of_while(clauses: &[Clause]) -> Form
    ensures { result ≡ while_form clauses.now }
{
    match clauses {
        [] => Form::Silent,
        [clause, more @ ..] => Form::While(WhileForm {
            test: first_else(clause.header, clause.parts.as_slice()),
            body: clause.body,
            otherwise: else_body(more),
        }),
    }
}

/// A `for` statement.
pub fn form_of_for(clauses: &[Clause]) -> Form
    ensures { result ≡ for_form clauses.now }
{
    match clauses {
        [] => Form::Silent,
        [clause, more @ ..] => Form::For(ForForm {
            targets: first_else(clause.header, clause.parts.as_slice()),
            iterable: second_else(clause.header, clause.parts.as_slice()),
            body: clause.body,
            otherwise: else_body(more),
        }),
    }
}

// The parts of a clause and its body.
fn parts_and_body(alloc: Global, clause: &Clause) -> Result<List<NodeId>, NoMemory>
    ensures { IfOk result (λ steps. steps ≡ clause.now.parts ++ clause.now.body ∷ []) }
{
    let mut steps = clause.parts.copy(alloc)?;
    steps.push(clause.body)?;
    Ok(steps)
}

// Adds a clause, if it is a handler.
fn add_handler(alloc: Global, clause: &Clause, handlers: &mut List<Handler>) -> Result<(), NoMemory>
    ensures { OnOk result (handlers.new ≡ handlers.old ++ handler_in clause.now.kind clause.now) }
{
    match clause.kind {
        NodeKind::Except | NodeKind::ExceptStar => {
            let steps = parts_and_body(alloc, clause)?;
            handlers.push(Handler {
                header: clause.header,
                steps,
            })
        }
        _ => Ok(()),
    }
}

// The handlers among clauses.
fn handlers_in(alloc: Global, clauses: &[Clause]) -> Result<List<Handler>, NoMemory>
    ensures { IfOk result (λ handlers. handlers ≡ handlers_of clauses.now) }
{
    let mut handlers = List::new(alloc);
    for clause in clauses {
        add_handler(alloc, clause, &mut handlers)?;
    }
    Ok(handlers)
}

/// A `try` statement.
pub fn form_of_try(alloc: Global, clauses: &[Clause]) -> Result<Form, NoMemory>
    ensures { IfOk result (λ f. f ≡ try_form clauses.now) }
{
    match clauses {
        [] => Ok(Form::Silent),
        [clause, more @ ..] => Ok(Form::Try(TryForm {
            body: clause.body,
            handlers: handlers_in(alloc, more)?,
            otherwise: else_body(more),
            cleanup: finally_body(more),
        })),
    }
}

/// A `with` statement.
pub fn form_of_with(alloc: Global, clauses: &[Clause]) -> Result<Form, NoMemory>
    ensures { IfOk result (λ f. f ≡ with_form clauses.now) }
{
    match clauses {
        [] => Ok(Form::Silent),
        [clause, ..] => Ok(Form::Steps(parts_and_body(alloc, clause)?)),
    }
}

fn is_a_case(kind: NodeKind) -> bool
    ensures { result ≡ is_case kind }
{
    matches!(kind, NodeKind::CaseStatement)
}

// The cases among the parts of a block.
fn cases_in(alloc: Global, tree: &Tree, parts: &[NodeId]) -> Result<List<NodeId>, NoMemory>
    ensures { IfOk result (λ cases. cases ≡ cases_among tree.now.nodes parts.now) }
{
    let mut cases = List::new(alloc);
    for part in parts {
        if is_a_case(tree.kind(*part)) {
            cases.push(*part)?;
        }
    }
    Ok(cases)
}

/// A `match` statement.
pub fn form_of_match(alloc: Global, tree: &Tree, clauses: &[Clause]) -> Result<Form, NoMemory>
    ensures { IfOk result (λ f. f ≡ match_form tree.now.nodes clauses.now) }
{
    match clauses {
        [] => Ok(Form::Silent),
        [clause, ..] => Ok(Form::Match(MatchForm {
            subject: first_else(clause.header, clause.parts.as_slice()),
            cases: cases_in(alloc, tree, tree.parts(clause.body))?,
        })),
    }
}

// The guard of a case: what runs behind the pattern.
fn guard_of(parts: &[NodeId]) -> Option<NodeId>
    ensures { result ≡ test_of (drop 1 parts.now) }
{
    match parts {
        [] => None,
        [_, more @ ..] => first_part(more),
    }
}

/// A case.
pub fn form_of_case(alloc: Global, tree: &Tree, clauses: &[Clause]) -> Result<Form, NoMemory>
    ensures { IfOk result (λ f. f ≡ case_form tree.now clauses.now) }
{
    match clauses {
        [] => Ok(Form::Silent),
        [clause, ..] => {
            let pattern = first_else(clause.header, clause.parts.as_slice());
            let mut values = List::new(alloc);
            add_values(tree, pattern, TREE_HEIGHT, &mut values)?;
            let mut captures = List::new(alloc);
            add_captures(tree, pattern, TREE_HEIGHT, &mut captures)?;
            Ok(Form::Case(CaseForm {
                values,
                captures,
                guard: guard_of(clause.parts.as_slice()),
                body: clause.body,
            }))
        }
    }
}
