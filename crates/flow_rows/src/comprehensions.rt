//! The rows of comprehensions.
ghost use Rattle.std.specs.Prelude.{◌≡◌, ℕ, [], ◌∷◌, ◌++◌, IfOk, OnOk, Option, None, Some};
ghost use Rattle.flow_rows.specs.declared.edge.EdgeKind.{EdgeKind};
ghost use Rattle.flow_rows.specs.Points.{edge, again};
ghost use Rattle.flow_rows.specs.Ends.{first_of, last_of};
ghost use Rattle.flow_rows.specs.Paths.{plain_kid, test_kid};
ghost use Rattle.flow_rows.specs.Expressions.{entered, loop_arrows, loop_kids, comprehension_row};

use crate::ends::{Ends, first, last};
use crate::path::{finished, plain, test, whole};
use crate::{ComprehensionClause, Dest, Edge, Kid, Mode, Point, Row};
use py_base::{List, NoMemory, NodeId};
use std::alloc::Global;

// Adds an edge from a point, where there is one.
fn enter(from: Option<Point>, to: Point, arrows: &mut List<Edge>) -> Result<(), NoMemory>
    ensures { OnOk result (arrows.new ≡ arrows.old ++ entered from to) }
{
    match from {
        None => Ok(()),
        Some(from) => arrows.push(plain(from, to)),
    }
}

// Adds the edges of a `for` clause within the loop around.
fn add_loop(
    ends: &[Ends],
    copy: u32,
    from: Option<Point>,
    around: Point,
    clause: (NodeId, NodeId, NodeId),
    arrows: &mut List<Edge>,
) -> Result<(), NoMemory>
    ensures { OnOk result (arrows.new ≡ arrows.old ++ entered from (first_of ends.now clause.2 copy)
        ++ edge (last_of ends.now clause.2 copy) (again clause.0 copy) EdgeKind.Plain ∷ edge (again clause.0 copy) (first_of ends.now clause.1 copy) EdgeKind.Plain
        ∷ edge (again clause.0 copy) around EdgeKind.Plain ∷ []) }
{
    let (node, targets, iterable) = clause;
    let label = Point::again(node, copy);
    enter(from, first(ends, iterable, copy), arrows)?;
    arrows.push(plain(last(ends, iterable, copy), label))?;
    arrows.push(plain(label, first(ends, targets, copy)))?;
    arrows.push(plain(label, around))
}

// Adds the edges of the clauses, each entered from the point before it, and of the element.
fn add_loops(
    ends: &[Ends],
    copy: u32,
    element: NodeId,
    start: Option<Point>,
    outside: Point,
    clauses: &[ComprehensionClause],
    arrows: &mut List<Edge>,
) -> Result<(), NoMemory>
    ensures { OnOk result (arrows.new ≡ arrows.old ++ loop_arrows ends.now copy element start outside clauses.now) }
{
    let mut from = start;
    let mut around = outside;
    for clause in clauses {
        match *clause {
            ComprehensionClause::For(node, targets, iterable) => {
                add_loop(ends, copy, from, around, (node, targets, iterable), arrows)?;
                from = Some(last(ends, targets, copy));
                around = Point::again(node, copy);
            }
            ComprehensionClause::If(node, condition) => {
                enter(from, first(ends, condition, copy), arrows)?;
                from = Some(Point::own(node, copy));
            }
        }
    }
    enter(from, first(ends, element, copy), arrows)?;
    arrows.push(plain(last(ends, element, copy), around))
}

// Adds the parts of the clauses and the element.
fn add_parts(
    copy: u32,
    element: NodeId,
    outside: Point,
    clauses: &[ComprehensionClause],
    kids: &mut List<Kid>,
) -> Result<(), NoMemory>
    ensures { OnOk result (kids.new ≡ kids.old ++ loop_kids copy element outside clauses.now) }
{
    let mut around = outside;
    for clause in clauses {
        match *clause {
            ComprehensionClause::For(node, targets, iterable) => {
                kids.push(whole(iterable, copy))?;
                kids.push(whole(targets, copy))?;
                around = Point::again(node, copy);
            }
            ComprehensionClause::If(node, condition) => {
                let kept = Dest::To(Point::own(node, copy));
                kids.push(test(condition, copy, kept, Dest::To(around)))?;
            }
        }
    }
    kids.push(whole(element, copy))
}

/// A comprehension.
pub fn row_of_comprehension(
    alloc: Global,
    ends: &[Ends],
    node: NodeId,
    element: NodeId,
    clauses: &[ComprehensionClause],
    copy: u32,
    mode: Mode,
) -> Result<Row, NoMemory>
    ensures { IfOk result (λ row. row ≡ comprehension_row ends.now node element clauses.now copy mode) }
{
    let own = Point::own(node, copy);
    let mut arrows = List::new(alloc);
    add_loops(ends, copy, element, None, own, clauses, &mut arrows)?;
    let mut kids = List::new(alloc);
    add_parts(copy, element, own, clauses, &mut kids)?;
    Ok(Row {
        arrows,
        exits: finished(alloc, node, copy, mode)?,
        kids,
    })
}
