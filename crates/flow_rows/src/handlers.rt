//! The row of `try`.
ghost use Rattle.std.specs.Prelude.{◌≡◌, ℕ, ◌<◌, [], ◌∷◌, ◌++◌, IfOk, OnOk};
ghost use Rattle.flow_rows.specs.Points.{edge, handlers, behind};
ghost use Rattle.flow_rows.specs.Routes.{arrows_to};
ghost use Rattle.flow_rows.specs.Paths.{path, path_end, kids_by, kid, listed_part};
ghost use Rattle.flow_rows.specs.Statements.{onward, handler_arrows, watch, handler_kids, body_route, start_arrows, start_exits, cleanup_arrows, cleanup_kids, try_row};

use crate::ends::{Ends, first, last};
use crate::path::{add_arrows, add_kids, add_part, add_path, plain, routed, whole};
use crate::{Channel, Edge, EdgeKind, Exit, Handler, Kid, Point, Route, Row, TryForm};
use py_base::{List, NoMemory, NodeId};
use std::alloc::Global;

// Where the normal ends go on.
fn onward_points(
    alloc: Global,
    ends: &[Ends],
    node: NodeId,
    copy: u32,
    cleanup: Option<NodeId>,
) -> Result<List<Point>, NoMemory>
    requires { copy < 16 }
    ensures { IfOk result (λ points. points ≡ onward ends.now node copy cleanup) }
{
    match cleanup {
        None => Ok(List::from_vec(vec![in alloc; Point::behind(node, copy)]?)),
        Some(cleanup) => {
            let checked = first(ends, cleanup, 2 * copy);
            let normal = first(ends, cleanup, 2 * copy + 1);
            Ok(List::from_vec(vec![in alloc; checked, normal]?))
        }
    }
}

// Adds the edges of a handler: its parts in order, the label behind it, and on from there.
fn add_handler(
    ends: &[Ends],
    node: NodeId,
    copy: u32,
    points: &[Point],
    handler: &Handler,
    arrows: &mut List<Edge>,
) -> Result<(), NoMemory>
    ensures { OnOk result (arrows.new ≡ arrows.old ++ path ends.now copy (handlers node copy) EdgeKind.Plain handler.now.steps
        ++ edge (path_end ends.now copy (handlers node copy) handler.now.steps) (behind handler.now.header copy) EdgeKind.Plain
        ∷ arrows_to (behind handler.now.header copy) EdgeKind.Plain points.now) }
{
    let label = Point::handlers(node, copy);
    let behind = Point::behind(handler.header, copy);
    let steps = handler.steps.as_slice();
    let end = add_path(ends, copy, label, EdgeKind::Plain, steps, arrows)?;
    arrows.push(plain(end, behind))?;
    add_arrows(behind, EdgeKind::Plain, points, arrows)
}

// Adds the edges of the handlers.
fn add_handlers(
    ends: &[Ends],
    node: NodeId,
    copy: u32,
    points: &[Point],
    handlers: &[Handler],
    arrows: &mut List<Edge>,
) -> Result<(), NoMemory>
    ensures { OnOk result (arrows.new ≡ arrows.old ++ handler_arrows ends.now node copy points.now handlers.now) }
{
    for handler in handlers {
        add_handler(ends, node, copy, points, handler, arrows)?;
    }
    Ok(())
}

// The route of handlers and `else`.
fn watched(ends: &[Ends], copy: u32, cleanup: Option<NodeId>) -> Route
    requires { copy < 16 }
    ensures { result ≡ watch ends.now copy cleanup }
{
    match cleanup {
        None => Route::Through,
        Some(cleanup) => Route::Watched(first(ends, cleanup, 2 * copy)),
    }
}

// Adds the parts of the handlers.
fn add_handler_kids(
    ends: &[Ends],
    copy: u32,
    cleanup: Option<NodeId>,
    handlers: &[Handler],
    kids: &mut List<Kid>,
) -> Result<(), NoMemory>
    requires { copy < 16 }
    ensures { OnOk result (kids.new ≡ kids.old ++ handler_kids ends.now copy cleanup handlers.now) }
{
    let route = watched(ends, copy, cleanup);
    for handler in handlers {
        add_kids(copy, route, handler.steps.as_slice(), kids)?;
    }
    Ok(())
}

// The route of the body.
fn route_of_body(
    ends: &[Ends],
    node: NodeId,
    copy: u32,
    handlers: &[Handler],
    cleanup: Option<NodeId>,
) -> Route
    requires { copy < 16 }
    ensures { result ≡ body_route ends.now node copy handlers.now cleanup }
{
    match (handlers, cleanup) {
        ([], _) => watched(ends, copy, cleanup),
        ([_, ..], None) => Route::Caught(Point::handlers(node, copy)),
        ([_, ..], Some(cleanup)) => Route::CaughtWatched(
            Point::handlers(node, copy),
            first(ends, cleanup, 2 * copy),
        ),
    }
}

// Adds the edges by which the start of the statement is an entry of its handlers and its checked copy, and the
// edge behind the normal copy.
fn add_entries(
    ends: &[Ends],
    node: NodeId,
    copy: u32,
    handlers: &[Handler],
    cleanup: Option<NodeId>,
    arrows: &mut List<Edge>,
) -> Result<(), NoMemory>
    requires { copy < 16 }
    ensures { OnOk result (arrows.new ≡ arrows.old ++ start_arrows ends.now node copy handlers.now ++ cleanup_arrows ends.now node copy cleanup) }
{
    let from = Point::own(node, copy);
    if !handlers.is_empty() {
        arrows.push(Edge {
            from,
            to: Point::handlers(node, copy),
            kind: EdgeKind::Handler,
        })?;
    }
    match cleanup {
        None => Ok(()),
        Some(cleanup) => {
            arrows.push(Edge {
                from,
                to: first(ends, cleanup, 2 * copy),
                kind: EdgeKind::Handler,
            })?;
            let end = last(ends, cleanup, 2 * copy + 1);
            arrows.push(plain(end, Point::behind(node, copy)))
        }
    }
}

// Without handlers the start of the statement is an entry of the next `try` around.
fn exits_of_start(
    alloc: Global,
    node: NodeId,
    copy: u32,
    handlers: &[Handler],
) -> Result<List<Exit>, NoMemory>
    ensures { IfOk result (λ exits. exits ≡ start_exits node copy handlers.now) }
{
    match handlers {
        [] => Ok(List::from_vec(vec![in alloc;
            Exit {
                channel: Channel::Raise,
                from: Point::own(node, copy),
                kind: EdgeKind::Handler
            },
        ]?)),
        [_, ..] => Ok(List::new(alloc)),
    }
}

// Adds both copies of the `finally` block.
fn add_cleanup(copy: u32, cleanup: Option<NodeId>, kids: &mut List<Kid>) -> Result<(), NoMemory>
    requires { copy < 16 }
    ensures { OnOk result (kids.new ≡ kids.old ++ cleanup_kids copy cleanup) }
{
    match cleanup {
        None => Ok(()),
        Some(cleanup) => {
            kids.push(whole(cleanup, 2 * copy))?;
            kids.push(whole(cleanup, 2 * copy + 1))
        }
    }
}

// The body and `else` in order.
fn body_and_else(alloc: Global, form: &TryForm) -> Result<List<NodeId>, NoMemory>
    ensures { IfOk result (λ parts. parts ≡ form.now.body ∷ listed_part form.now.otherwise) }
{
    let mut parts = List::from_vec(vec![in alloc; form.body]?);
    if let Some(otherwise) = form.otherwise {
        parts.push(otherwise)?;
    }
    Ok(parts)
}

// The edges of a `try` statement.
fn arrows_of_try(
    alloc: Global,
    ends: &[Ends],
    node: NodeId,
    form: &TryForm,
    copy: u32,
) -> Result<List<Edge>, NoMemory>
    requires { copy < 16 }
    ensures { IfOk result (λ arrows. arrows ≡ (try_row ends.now node form.now copy).arrows) }
{
    let handlers = form.handlers.as_slice();
    let points = onward_points(alloc, ends, node, copy, form.cleanup)?;
    let parts = body_and_else(alloc, form)?;
    let own = Point::own(node, copy);
    let mut arrows = List::new(alloc);
    add_entries(ends, node, copy, handlers, form.cleanup, &mut arrows)?;
    let end = add_path(
        ends,
        copy,
        own,
        EdgeKind::Plain,
        parts.as_slice(),
        &mut arrows,
    )?;
    add_arrows(end, EdgeKind::Plain, points.as_slice(), &mut arrows)?;
    add_handlers(ends, node, copy, points.as_slice(), handlers, &mut arrows)?;
    Ok(arrows)
}

// The parts of a `try` statement.
fn kids_of_try(
    alloc: Global,
    ends: &[Ends],
    node: NodeId,
    form: &TryForm,
    copy: u32,
) -> Result<List<Kid>, NoMemory>
    requires { copy < 16 }
    ensures { IfOk result (λ kids. kids ≡ (try_row ends.now node form.now copy).kids) }
{
    let handlers = form.handlers.as_slice();
    let body = route_of_body(ends, node, copy, handlers, form.cleanup);
    let mut kids = List::from_vec(vec![in alloc; routed(form.body, copy, body)]?);
    let rest = watched(ends, copy, form.cleanup);
    add_part(copy, rest, form.otherwise, &mut kids)?;
    add_handler_kids(ends, copy, form.cleanup, handlers, &mut kids)?;
    add_cleanup(copy, form.cleanup, &mut kids)?;
    Ok(kids)
}

/// A `try` statement.
pub fn row_of_try(
    alloc: Global,
    ends: &[Ends],
    node: NodeId,
    form: &TryForm,
    copy: u32,
) -> Result<Row, NoMemory>
    requires { copy < 16 }
    ensures { IfOk result (λ row. row ≡ try_row ends.now node form.now copy) }
{
    Ok(Row {
        arrows: arrows_of_try(alloc, ends, node, form, copy)?,
        exits: exits_of_start(alloc, node, copy, form.handlers.as_slice())?,
        kids: kids_of_try(alloc, ends, node, form, copy)?,
    })
}
