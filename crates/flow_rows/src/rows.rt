//! The row of a node by its form.
ghost use Rattle.std.specs.Prelude.{◌≡◌, ℕ, ◌<◌, [], ◌∷◌, ◌++◌, IfOk, OnOk};
ghost use Rattle.flow_rows.specs.Expressions.{steps_row, sequence_row, call_row, function_row, body_row};
ghost use Rattle.flow_rows.specs.Rows.{row, graph_row};

use crate::choices::{Operation, row_of_choice, row_of_group, row_of_operation};
use crate::comprehensions::row_of_comprehension;
use crate::ends::{Ends, last};
use crate::handlers::row_of_try;
use crate::matching::{row_of_case, row_of_match};
use crate::path::{add_chain, add_chain_to, add_kids, add_path, finished, nothing, whole};
use crate::statements::{row_of_assert, row_of_branches, row_of_for, row_of_jump, row_of_while};
use crate::{Channel, Edge, EdgeKind, Exit, Form, Function, Mode, Point, Route, Row};
use py_base::{List, NoMemory, NodeId};
use std::alloc::Global;

fn row_of_steps(
    alloc: Global,
    ends: &[Ends],
    node: NodeId,
    parts: &[NodeId],
    copy: u32,
    mode: Mode,
) -> Result<Row, NoMemory>
    ensures { IfOk result (λ r. r ≡ steps_row ends.now node parts.now copy mode) }
{
    let own = Point::own(node, copy);
    let mut arrows = List::new(alloc);
    add_chain_to(ends, copy, parts, own, EdgeKind::Plain, &mut arrows)?;
    let mut kids = List::new(alloc);
    add_kids(copy, Route::Through, parts, &mut kids)?;
    Ok(Row {
        arrows,
        exits: finished(alloc, node, copy, mode)?,
        kids,
    })
}

fn row_of_sequence(
    alloc: Global,
    ends: &[Ends],
    parts: &[NodeId],
    copy: u32,
) -> Result<Row, NoMemory>
    ensures { IfOk result (λ r. r ≡ sequence_row ends.now parts.now copy) }
{
    let mut arrows = List::new(alloc);
    add_chain(ends, copy, parts, &mut arrows)?;
    let mut kids = List::new(alloc);
    add_kids(copy, Route::Through, parts, &mut kids)?;
    Ok(Row {
        arrows,
        exits: List::new(alloc),
        kids,
    })
}

fn row_of_call(
    alloc: Global,
    ends: &[Ends],
    node: NodeId,
    callee: NodeId,
    arguments: &[NodeId],
    copy: u32,
    mode: Mode,
) -> Result<Row, NoMemory>
    ensures { IfOk result (λ r. r ≡ call_row ends.now node callee arguments.now copy mode) }
{
    let mut arrows = List::new(alloc);
    let from = last(ends, callee, copy);
    let before = add_path(ends, copy, from, EdgeKind::Plain, arguments, &mut arrows)?;
    arrows.push(Edge {
        from: before,
        to: Point::own(node, copy),
        kind: EdgeKind::Call(node),
    })?;
    let mut kids = List::from_vec(vec![in alloc; whole(callee, copy)]?);
    add_kids(copy, Route::Through, arguments, &mut kids)?;
    let mut exits = finished(alloc, node, copy, mode)?;
    exits.push(Exit {
        channel: Channel::Raise,
        from: before,
        kind: EdgeKind::Handler,
    })?;
    Ok(Row {
        arrows,
        exits,
        kids,
    })
}

fn row_of_function(
    alloc: Global,
    ends: &[Ends],
    node: NodeId,
    function: &Function,
    copy: u32,
    mode: Mode,
) -> Result<Row, NoMemory>
    ensures { IfOk result (λ r. r ≡ function_row ends.now node function.now copy mode) }
{
    let own = Point::own(node, copy);
    let before = function.before.as_slice();
    let mut arrows = List::new(alloc);
    add_chain_to(ends, copy, before, own, EdgeKind::Plain, &mut arrows)?;
    let mut kids = List::new(alloc);
    add_kids(copy, Route::Through, before, &mut kids)?;
    Ok(Row {
        arrows,
        exits: finished(alloc, node, copy, mode)?,
        kids,
    })
}

fn row_of_body(alloc: Global, ends: &[Ends], node: NodeId, run: &[NodeId]) -> Result<Row, NoMemory>
    ensures { IfOk result (λ r. r ≡ body_row ends.now node run.now) }
{
    let start = Point::start(node);
    let mut arrows = List::new(alloc);
    let _end = add_path(ends, 0, start, EdgeKind::Plain, run, &mut arrows)?;
    let mut kids = List::new(alloc);
    add_kids(0, Route::Through, run, &mut kids)?;
    Ok(Row {
        arrows,
        exits: List::new(alloc),
        kids,
    })
}

/// The row of the graph of a module, a def or a lambda; the empty one for another form. `NoMemory` where
/// it could not be stored.
pub fn row_of_graph(
    alloc: Global,
    ends: &[Ends],
    node: NodeId,
    form: &Form,
) -> Result<Row, NoMemory>
    ensures { IfOk result (λ r. r ≡ graph_row ends.now node form.now) }
{
    match form {
        Form::Function(function) => row_of_body(alloc, ends, node, function.run.as_slice()),
        Form::Module(statements) => row_of_body(alloc, ends, node, statements.as_slice()),
        _ => Ok(nothing(alloc)),
    }
}

/// The row of a node of a form where it stands, in a copy and a mode, by the table of first and last
/// points. `NoMemory` where it could not be stored.
pub fn row_of(
    alloc: Global,
    ends: &[Ends],
    node: NodeId,
    form: &Form,
    copy: u32,
    mode: Mode,
) -> Result<Row, NoMemory>
    requires { copy < 16 }
    ensures { IfOk result (λ r. r ≡ row ends.now node form.now copy mode) }
{
    match form {
        Form::Silent | Form::Module(_) => Ok(nothing(alloc)),
        Form::Steps(parts) => row_of_steps(alloc, ends, node, parts.as_slice(), copy, mode),
        Form::Sequence(parts) => row_of_sequence(alloc, ends, parts.as_slice(), copy),
        Form::Call(callee, arguments) => {
            row_of_call(alloc, ends, node, *callee, arguments.as_slice(), copy, mode)
        }
        Form::And(a, b) => {
            row_of_operation(alloc, ends, node, Operation::And(*a, *b), copy, mode)
        }
        Form::Or(a, b) => row_of_operation(alloc, ends, node, Operation::Or(*a, *b), copy, mode),
        Form::Not(a) => row_of_operation(alloc, ends, node, Operation::Not(*a), copy, mode),
        Form::Group(a) => row_of_group(alloc, ends, node, *a, copy, mode),
        Form::Conditional(choice) => row_of_choice(alloc, ends, node, *choice, copy, mode),
        Form::Comprehension(element, clauses) => {
            let clauses = clauses.as_slice();
            row_of_comprehension(alloc, ends, node, *element, clauses, copy, mode)
        }
        Form::Function(function) => row_of_function(alloc, ends, node, function, copy, mode),
        Form::Jump(channel, parts) => {
            row_of_jump(alloc, ends, node, *channel, parts.as_slice(), copy)
        }
        Form::Assert(test, message) => row_of_assert(alloc, ends, node, *test, *message, copy),
        Form::Branches(branch, more) => {
            row_of_branches(alloc, ends, node, *branch, more.as_slice(), copy)
        }
        Form::While(form) => row_of_while(alloc, ends, node, *form, copy),
        Form::For(form) => row_of_for(alloc, ends, node, *form, copy),
        Form::Try(form) => row_of_try(alloc, ends, node, form, copy),
        Form::Match(form) => row_of_match(alloc, ends, node, form, copy),
        Form::Case(form) => row_of_case(alloc, ends, node, form, copy),
    }
}
