//! The rows of expressions whose parts are conditions.
ghost use Rattle.std.specs.Prelude.{◌≡◌, ℕ, [], ◌∷◌, ◌++◌, IfOk, OnOk};
ghost use Rattle.flow_rows.specs.Paths.{plain_kid, test_kid, empty};
ghost use Rattle.flow_rows.specs.Expressions.{outcome, operation_row, group_row, choice_row};

use crate::ends::{Ends, first, last};
use crate::path::{nothing, plain, test, whole};
use crate::{Channel, Choice, Dest, Edge, Kid, Mode, Point, Row};
use py_base::{List, NoMemory, NodeId};
use std::alloc::Global;

// A row without exits of its own.
fn row_with(alloc: Global, arrows: Vec<Edge>, kids: Vec<Kid>) -> Row
    ensures arrows { result.arrows ≡ arrows.items }
    ensures exits { result.exits ≡ [] }
    ensures kids { result.kids ≡ kids.items }
{
    Row {
        arrows: List::from_vec(arrows),
        exits: List::new(alloc),
        kids: List::from_vec(kids),
    }
}

/// An operation on truth values.
#[derive(Clone, Copy, Debug)]
pub enum Operation {
    And(NodeId, NodeId),
    Or(NodeId, NodeId),
    Not(NodeId),
}

// Where an operation leads that is true or false: as a condition out by that exit, as a value to its own point.
fn outcome(node: NodeId, copy: u32, mode: Mode, channel: Channel) -> Dest
    ensures { result ≡ outcome node copy mode channel }
{
    match mode {
        Mode::Condition => Dest::Up(channel),
        Mode::Value | Mode::Body => Dest::To(Point::own(node, copy)),
    }
}

/// `and` goes on to its second operand at the true exit of the first, `or` at the false exit, and `not` swaps
/// the exits.
pub fn row_of_operation(
    alloc: Global,
    ends: &[Ends],
    node: NodeId,
    operation: Operation,
    copy: u32,
    mode: Mode,
) -> Result<Row, NoMemory>
    ensures { IfOk result (λ row. row ≡ operation_row ends.now node operation copy mode) }
{
    let yes = outcome(node, copy, mode, Channel::Yes);
    let no = outcome(node, copy, mode, Channel::No);
    match operation {
        Operation::And(a, b) => {
            let second = Dest::To(first(ends, b, copy));
            let kids = vec![in alloc; test(a, copy, second, no), test(b, copy, yes, no)]?;
            Ok(row_with(alloc, Vec::new(alloc), kids))
        }
        Operation::Or(a, b) => {
            let second = Dest::To(first(ends, b, copy));
            let kids = vec![in alloc; test(a, copy, yes, second), test(b, copy, yes, no)]?;
            Ok(row_with(alloc, Vec::new(alloc), kids))
        }
        Operation::Not(a) => {
            let kids = vec![in alloc; test(a, copy, no, yes)]?;
            Ok(row_with(alloc, Vec::new(alloc), kids))
        }
    }
}

/// Brackets around one expression.
pub fn row_of_group(
    alloc: Global,
    ends: &[Ends],
    node: NodeId,
    a: NodeId,
    copy: u32,
    mode: Mode,
) -> Result<Row, NoMemory>
    ensures { IfOk result (λ row. row ≡ group_row ends.now node a copy mode) }
{
    match mode {
        Mode::Value => {
            let arrows = vec![in alloc; plain(last(ends, a, copy), Point::own(node, copy))]?;
            let kids = vec![in alloc; whole(a, copy)]?;
            Ok(row_with(alloc, arrows, kids))
        }
        Mode::Condition => {
            let kids = vec![in alloc;
                test(a, copy, Dest::Up(Channel::Yes), Dest::Up(Channel::No)),
            ]?;
            Ok(row_with(alloc, Vec::new(alloc), kids))
        }
        Mode::Body => Ok(nothing(alloc)),
    }
}

/// `value if test else other`: the test comes first, though it is written second.
pub fn row_of_choice(
    alloc: Global,
    ends: &[Ends],
    node: NodeId,
    choice: Choice,
    copy: u32,
    mode: Mode,
) -> Result<Row, NoMemory>
    ensures { IfOk result (λ row. row ≡ choice_row ends.now node choice copy mode) }
{
    let Choice {
        value,
        test: condition,
        other,
    } = choice;
    let own = Point::own(node, copy);
    let first_kid = test(
        condition,
        copy,
        Dest::To(first(ends, value, copy)),
        Dest::To(first(ends, other, copy)),
    );
    match mode {
        Mode::Value => {
            let arrows = vec![in alloc;
                plain(last(ends, value, copy), own),
                plain(last(ends, other, copy), own),
            ]?;
            let kids = vec![in alloc; first_kid, whole(value, copy), whole(other, copy)]?;
            Ok(row_with(alloc, arrows, kids))
        }
        Mode::Condition => {
            let kids = vec![in alloc;
                first_kid,
                test(value, copy, Dest::Up(Channel::Yes), Dest::Up(Channel::No)),
                test(other, copy, Dest::Up(Channel::Yes), Dest::Up(Channel::No)),
            ]?;
            Ok(row_with(alloc, Vec::new(alloc), kids))
        }
        Mode::Body => Ok(nothing(alloc)),
    }
}
