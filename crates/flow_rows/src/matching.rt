//! The rows of `match` and `case`.
ghost use Rattle.std.specs.Prelude.{◌≡◌, ℕ, [], ◌∷◌, ◌++◌, IfOk, OnOk, map};
ghost use Rattle.flow_rows.specs.declared.route.Mode.TheVariants as modes;
ghost use Rattle.flow_rows.specs.Points.{edge};
ghost use Rattle.flow_rows.specs.Ends.{last_of};
ghost use Rattle.flow_rows.specs.Paths.{plain_kid, test_kid, kids_by, kid, path, chain_to};
ghost use Rattle.flow_rows.specs.Statements.{next_case, case_kids, match_row, guarded, guard_kids, case_row};

use crate::ends::{Ends, first, last};
use crate::path::{add_chain_to, add_kids, add_path, plain, routed, test, whole};
use crate::{CaseForm, Channel, Dest, Edge, EdgeKind, Exit, Kid, MatchForm, Point, Route, Row};
use py_base::{List, NoMemory, NodeId};
use std::alloc::Global;

// A case whose negative exit goes to a point.
fn case_kid(node: NodeId, copy: u32, next: Point) -> Kid
    ensures { result ≡ kid node copy modes.Value (Route.Test (Dest.Up Channel.Yes) (Dest.To next)) }
{
    routed(
        node,
        copy,
        Route::Test(Dest::Up(Channel::Yes), Dest::To(next)),
    )
}

// Where the first of some cases begins, and the end where there is none.
fn first_of_cases(ends: &[Ends], copy: u32, end: Point, cases: &[NodeId]) -> Point
    ensures { result ≡ next_case ends.now copy end cases.now }
{
    match cases {
        [] => end,
        [case, ..] => first(ends, *case, copy),
    }
}

// Adds a case and those behind it in order, of which the last goes to the end.
fn add_case_and_more(
    ends: &[Ends],
    copy: u32,
    end: Point,
    case: NodeId,
    more: &[NodeId],
    kids: &mut List<Kid>,
) -> Result<(), NoMemory>
    ensures { OnOk result (kids.new ≡ kids.old ++ case_kids ends.now copy end (case ∷ more.now)) }
{
    let mut before = case;
    for next in more {
        kids.push(case_kid(before, copy, first(ends, *next, copy)))?;
        before = *next;
    }
    kids.push(case_kid(before, copy, end))
}

// Adds the cases in order.
fn add_cases(
    ends: &[Ends],
    copy: u32,
    end: Point,
    cases: &[NodeId],
    kids: &mut List<Kid>,
) -> Result<(), NoMemory>
    ensures { OnOk result (kids.new ≡ kids.old ++ case_kids ends.now copy end cases.now) }
{
    match cases {
        [] => Ok(()),
        [case, more @ ..] => add_case_and_more(ends, copy, end, *case, more, kids),
    }
}

// Adds an edge from the end of each case.
fn add_case_ends(
    ends: &[Ends],
    copy: u32,
    end: Point,
    cases: &[NodeId],
    arrows: &mut List<Edge>,
) -> Result<(), NoMemory>
    ensures { OnOk result (arrows.new ≡ arrows.old ++ map (λ k. edge (last_of ends.now k copy) end EdgeKind.Plain) cases.now) }
{
    for case in cases {
        arrows.push(plain(last(ends, *case, copy), end))?;
    }
    Ok(())
}

/// A `match` statement.
pub fn row_of_match(
    alloc: Global,
    ends: &[Ends],
    node: NodeId,
    form: &MatchForm,
    copy: u32,
) -> Result<Row, NoMemory>
    ensures { IfOk result (λ row. row ≡ match_row ends.now node form.now copy) }
{
    let own = Point::own(node, copy);
    let behind = Point::behind(node, copy);
    let cases = form.cases.as_slice();
    let mut arrows = List::from_vec(vec![in alloc;
        plain(last(ends, form.subject, copy), own),
        plain(own, first_of_cases(ends, copy, behind, cases)),
    ]?);
    add_case_ends(ends, copy, behind, cases, &mut arrows)?;
    let mut kids = List::from_vec(vec![in alloc; whole(form.subject, copy)]?);
    add_cases(ends, copy, behind, cases, &mut kids)?;
    Ok(Row {
        arrows,
        exits: List::new(alloc),
        kids,
    })
}

// What comes behind the captures.
fn behind_captures(form: &CaseForm) -> NodeId
    ensures { result ≡ guarded form.now.body form.now.guard }
{
    match form.guard {
        None => form.body,
        Some(guard) => guard,
    }
}

// Adds the guard, if there is one.
fn add_guard(
    ends: &[Ends],
    copy: u32,
    body: NodeId,
    guard: Option<NodeId>,
    kids: &mut List<Kid>,
) -> Result<(), NoMemory>
    ensures { OnOk result (kids.new ≡ kids.old ++ guard_kids ends.now copy body guard) }
{
    match guard {
        None => Ok(()),
        Some(guard) => {
            let holds = Dest::To(first(ends, body, copy));
            kids.push(test(guard, copy, holds, Dest::Up(Channel::No)))
        }
    }
}

// The captures, and behind them the guard or the body.
fn taken(alloc: Global, form: &CaseForm) -> Result<List<NodeId>, NoMemory>
    ensures { IfOk result (λ parts. parts ≡ form.now.captures ++ guarded form.now.body form.now.guard ∷ []) }
{
    let mut parts = form.captures.copy(alloc)?;
    parts.push(behind_captures(form))?;
    Ok(parts)
}

/// A case.
pub fn row_of_case(
    alloc: Global,
    ends: &[Ends],
    node: NodeId,
    form: &CaseForm,
    copy: u32,
) -> Result<Row, NoMemory>
    ensures { IfOk result (λ row. row ≡ case_row ends.now node form.now copy) }
{
    let own = Point::own(node, copy);
    let values = form.values.as_slice();
    let parts = taken(alloc, form)?;
    let mut arrows = List::new(alloc);
    add_chain_to(ends, copy, values, own, EdgeKind::Plain, &mut arrows)?;
    let _end = add_path(
        ends,
        copy,
        own,
        EdgeKind::Case(node),
        parts.as_slice(),
        &mut arrows,
    )?;
    let mut kids = List::new(alloc);
    add_kids(copy, Route::Through, values, &mut kids)?;
    add_kids(copy, Route::Through, form.captures.as_slice(), &mut kids)?;
    add_guard(ends, copy, form.body, form.guard, &mut kids)?;
    kids.push(whole(form.body, copy))?;
    let exits = vec![in alloc;
        Exit {
            channel: Channel::No,
            from: own,
            kind: EdgeKind::NotCase(node)
        },
    ]?;
    Ok(Row {
        arrows,
        exits: List::from_vec(exits),
        kids,
    })
}
