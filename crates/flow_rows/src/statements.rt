//! The rows of simple statements, `if`, and loops.
ghost use Rattle.std.specs.Prelude.{◌≡◌, ℕ, [], ◌∷◌, ◌++◌, IfOk, OnOk, map};
ghost use Rattle.flow_rows.specs.Points.{edge};
ghost use Rattle.flow_rows.specs.Ends.{last_of};
ghost use Rattle.flow_rows.specs.Paths.{plain_kid, test_kid};
ghost use Rattle.flow_rows.specs.Statements.{jump_kind, jump_row, message_arrows, assert_row, branch_first, test_kids, branch_kids, branches_row, arrow_behind, while_row, for_row};

use crate::ends::{Ends, first, last};
use crate::path::{add_chain_to, add_kids, add_part, first_else, plain, routed, test, whole};
use crate::{
    Branch, Channel, Dest, Edge, EdgeKind, Exit, ForForm, Kid, Point, Route, Row, WhileForm,
};
use py_base::{List, NoMemory, NodeId};
use std::alloc::Global;

fn kind_of_jump(channel: Channel) -> EdgeKind
    ensures { result ≡ jump_kind channel }
{
    match channel {
        Channel::Raise => EdgeKind::Handler,
        _ => EdgeKind::Plain,
    }
}

/// A statement that leaves by a channel.
pub fn row_of_jump(
    alloc: Global,
    ends: &[Ends],
    node: NodeId,
    channel: Channel,
    parts: &[NodeId],
    copy: u32,
) -> Result<Row, NoMemory>
    ensures { IfOk result (λ row. row ≡ jump_row ends.now node channel parts.now copy) }
{
    let own = Point::own(node, copy);
    let mut arrows = List::new(alloc);
    add_chain_to(ends, copy, parts, own, EdgeKind::Plain, &mut arrows)?;
    let mut kids = List::new(alloc);
    add_kids(copy, Route::Through, parts, &mut kids)?;
    let kind = kind_of_jump(channel);
    let exits = vec![in alloc;
        Exit {
            channel,
            from: own,
            kind
        },
    ]?;
    Ok(Row {
        arrows,
        exits: List::from_vec(exits),
        kids,
    })
}

// Adds an edge from the end of a part that may be missing.
fn add_arrow_behind(
    ends: &[Ends],
    copy: u32,
    part: Option<NodeId>,
    to: Point,
    arrows: &mut List<Edge>,
) -> Result<(), NoMemory>
    ensures { OnOk result (arrows.new ≡ arrows.old ++ arrow_behind ends.now copy part to) }
{
    match part {
        None => Ok(()),
        Some(part) => arrows.push(plain(last(ends, part, copy), to)),
    }
}

// The edge behind the message of an assertion.
fn behind_message(
    alloc: Global,
    ends: &[Ends],
    node: NodeId,
    message: Option<NodeId>,
    copy: u32,
) -> Result<List<Edge>, NoMemory>
    ensures { IfOk result (λ arrows. arrows ≡ message_arrows ends.now node message copy) }
{
    match message {
        None => Ok(List::new(alloc)),
        Some(message) => {
            let fail = Point::fail(node, copy);
            Ok(List::from_vec(vec![in alloc; plain(last(ends, message, copy), fail)]?))
        }
    }
}

/// `assert`: the true exit goes on, the false exit goes to the message and fails.
pub fn row_of_assert(
    alloc: Global,
    ends: &[Ends],
    node: NodeId,
    condition: NodeId,
    message: Option<NodeId>,
    copy: u32,
) -> Result<Row, NoMemory>
    ensures { IfOk result (λ row. row ≡ assert_row ends.now node condition message copy) }
{
    let fail = Point::fail(node, copy);
    let holds = Dest::To(Point::own(node, copy));
    let breaks = Dest::To(first_else(ends, copy, fail, message));
    let mut kids = List::from_vec(vec![in alloc; test(condition, copy, holds, breaks)]?);
    add_part(copy, Route::Through, message, &mut kids)?;
    let exits = vec![in alloc;
        Exit {
            channel: Channel::Raise,
            from: fail,
            kind: EdgeKind::Handler
        },
    ]?;
    Ok(Row {
        arrows: behind_message(alloc, ends, node, message, copy)?,
        exits: List::from_vec(exits),
        kids,
    })
}

// Where a branch begins.
fn first_of_branch(ends: &[Ends], copy: u32, branch: Branch) -> Point
    ensures { result ≡ branch_first ends.now copy branch.test branch.body }
{
    match branch.test {
        None => first(ends, branch.body, copy),
        Some(condition) => first(ends, condition, copy),
    }
}

// Adds a branch whose false exit goes to a point.
fn add_branch(
    ends: &[Ends],
    copy: u32,
    branch: Branch,
    next: Point,
    kids: &mut List<Kid>,
) -> Result<(), NoMemory>
    ensures { OnOk result (kids.new ≡ kids.old ++ test_kids ends.now copy branch.test branch.body next ++ plain_kid copy branch.body ∷ []) }
{
    if let Some(condition) = branch.test {
        let body = Dest::To(first(ends, branch.body, copy));
        kids.push(test(condition, copy, body, Dest::To(next)))?;
    }
    kids.push(whole(branch.body, copy))
}

// Adds the branches in order, of which the last goes to the end.
fn add_branches(
    ends: &[Ends],
    copy: u32,
    end: Point,
    branch: Branch,
    more: &[Branch],
    kids: &mut List<Kid>,
) -> Result<(), NoMemory>
    ensures { OnOk result (kids.new ≡ kids.old ++ branch_kids ends.now copy end branch more.now) }
{
    let mut before = branch;
    for next in more {
        let entry = first_of_branch(ends, copy, *next);
        add_branch(ends, copy, before, entry, kids)?;
        before = *next;
    }
    add_branch(ends, copy, before, end, kids)
}

// Adds an edge from the end of each branch.
fn add_branch_ends(
    ends: &[Ends],
    copy: u32,
    end: Point,
    branches: &[Branch],
    arrows: &mut List<Edge>,
) -> Result<(), NoMemory>
    ensures { OnOk result (arrows.new ≡ arrows.old ++ map (λ b. edge (last_of ends.now b.body copy) end EdgeKind.Plain) branches.now) }
{
    for branch in branches {
        arrows.push(plain(last(ends, branch.body, copy), end))?;
    }
    Ok(())
}

/// An `if` statement.
pub fn row_of_branches(
    alloc: Global,
    ends: &[Ends],
    node: NodeId,
    branch: Branch,
    more: &[Branch],
    copy: u32,
) -> Result<Row, NoMemory>
    ensures { IfOk result (λ row. row ≡ branches_row ends.now node branch more.now copy) }
{
    let behind = Point::behind(node, copy);
    let first_end = plain(last(ends, branch.body, copy), behind);
    let mut arrows = List::from_vec(vec![in alloc; first_end]?);
    add_branch_ends(ends, copy, behind, more, &mut arrows)?;
    let mut kids = List::new(alloc);
    add_branches(ends, copy, behind, branch, more, &mut kids)?;
    Ok(Row {
        arrows,
        exits: List::new(alloc),
        kids,
    })
}

/// A `while` statement.
pub fn row_of_while(
    alloc: Global,
    ends: &[Ends],
    node: NodeId,
    form: WhileForm,
    copy: u32,
) -> Result<Row, NoMemory>
    ensures { IfOk result (λ row. row ≡ while_row ends.now node form copy) }
{
    let again = Point::again(node, copy);
    let behind = Point::behind(node, copy);
    let body = Dest::To(first(ends, form.body, copy));
    let done = Dest::To(first_else(ends, copy, behind, form.otherwise));
    let mut arrows = List::from_vec(vec![in alloc;
        plain(again, first(ends, form.test, copy)),
        plain(last(ends, form.body, copy), again),
    ]?);
    add_arrow_behind(ends, copy, form.otherwise, behind, &mut arrows)?;
    let mut kids = List::from_vec(vec![in alloc;
        test(form.test, copy, body, done),
        routed(form.body, copy, Route::Body(again, behind)),
    ]?);
    add_part(copy, Route::Through, form.otherwise, &mut kids)?;
    Ok(Row {
        arrows,
        exits: List::new(alloc),
        kids,
    })
}

/// A `for` statement.
pub fn row_of_for(
    alloc: Global,
    ends: &[Ends],
    node: NodeId,
    form: ForForm,
    copy: u32,
) -> Result<Row, NoMemory>
    ensures { IfOk result (λ row. row ≡ for_row ends.now node form copy) }
{
    let again = Point::again(node, copy);
    let behind = Point::behind(node, copy);
    let mut arrows = List::from_vec(vec![in alloc;
        plain(last(ends, form.iterable, copy), again),
        plain(again, first(ends, form.targets, copy)),
        plain(last(ends, form.targets, copy), first(ends, form.body, copy)),
        plain(last(ends, form.body, copy), again),
        plain(again, first_else(ends, copy, behind, form.otherwise)),
    ]?);
    add_arrow_behind(ends, copy, form.otherwise, behind, &mut arrows)?;
    let mut kids = List::from_vec(vec![in alloc;
        whole(form.iterable, copy),
        whole(form.targets, copy),
        routed(form.body, copy, Route::Body(again, behind)),
    ]?);
    add_part(copy, Route::Through, form.otherwise, &mut kids)?;
    Ok(Row {
        arrows,
        exits: List::new(alloc),
        kids,
    })
}
