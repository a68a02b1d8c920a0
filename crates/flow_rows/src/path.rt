//! Parts in order, and the small pieces of rows.
ghost use Rattle.std.specs.Prelude.{◌≡◌, ℕ, [], ◌∷◌, ◌++◌, IfOk, OnOk};
ghost use Rattle.flow_rows.specs.Points.{edge};
ghost use Rattle.flow_rows.specs.Routes.{exit, arrows_to};
ghost use Rattle.flow_rows.specs.Paths.{path, path_end, chain, chain_to, plain_kid, test_kid, kids_by, kid, empty, finish, listed_part, first_or};

use crate::ends::{Ends, first, last};
use crate::{Channel, Dest, Edge, EdgeKind, Exit, Kid, Mode, Point, Route, Row};
use py_base::{List, NoMemory, NodeId};
use std::alloc::Global;

/// The plain edge between two points.
pub fn plain(from: Point, to: Point) -> Edge
    ensures { result ≡ edge from to EdgeKind.Plain }
{
    Edge {
        from,
        to,
        kind: EdgeKind::Plain,
    }
}

/// The row of what has no point.
pub fn nothing(alloc: Global) -> Row
    ensures { result ≡ empty }
{
    Row {
        arrows: List::new(alloc),
        exits: List::new(alloc),
        kids: List::new(alloc),
    }
}

/// A part that runs for its value, or as a statement.
pub fn whole(node: NodeId, copy: u32) -> Kid
    ensures { result ≡ plain_kid copy node }
{
    Kid {
        node,
        copy,
        mode: Mode::Value,
        route: Route::Through,
    }
}

/// A part under a route.
pub fn routed(node: NodeId, copy: u32, route: Route) -> Kid
    ensures { result ≡ kid node copy Mode.Value route }
{
    Kid {
        node,
        copy,
        mode: Mode::Value,
        route,
    }
}

/// A part that is a condition, and where its two exits lead.
pub fn test(node: NodeId, copy: u32, if_true: Dest, if_false: Dest) -> Kid
    ensures { result ≡ test_kid copy node if_true if_false }
{
    Kid {
        node,
        copy,
        mode: Mode::Condition,
        route: Route::Test(if_true, if_false),
    }
}

/// Adds the edges from a point through parts in order, the first by an edge of the kind that is told. Gives
/// the last point. After `NoMemory` some of them may stand.
pub fn add_path(
    ends: &[Ends],
    copy: u32,
    from: Point,
    kind: EdgeKind,
    parts: &[NodeId],
    arrows: &mut List<Edge>,
) -> Result<Point, NoMemory>
    ensures arrows { OnOk result (arrows.new ≡ arrows.old ++ path ends.now copy from kind parts.now) }
    ensures end { IfOk result (λ end. end ≡ path_end ends.now copy from parts.now) }
{
    let mut before = from;
    let mut how = kind;
    for part in parts {
        arrows.push(Edge {
            from: before,
            to: first(ends, *part, copy),
            kind: how,
        })?;
        before = last(ends, *part, copy);
        how = EdgeKind::Plain;
    }
    Ok(before)
}

/// The last point of a path.
pub fn end_of_path(ends: &[Ends], copy: u32, from: Point, parts: &[NodeId]) -> Point
    ensures { result ≡ path_end ends.now copy from parts.now }
{
    let mut before = from;
    for part in parts {
        before = last(ends, *part, copy);
    }
    before
}

/// Adds the edges through parts in order. After `NoMemory` some of them may stand.
pub fn add_chain(
    ends: &[Ends],
    copy: u32,
    parts: &[NodeId],
    arrows: &mut List<Edge>,
) -> Result<(), NoMemory>
    ensures { OnOk result (arrows.new ≡ arrows.old ++ chain ends.now copy parts.now) }
{
    match parts {
        [] => Ok(()),
        [part, more @ ..] => {
            let before = last(ends, *part, copy);
            let _end = add_path(ends, copy, before, EdgeKind::Plain, more, arrows)?;
            Ok(())
        }
    }
}

/// The same, and then to a point. Without parts there is no edge.
pub fn add_chain_to(
    ends: &[Ends],
    copy: u32,
    parts: &[NodeId],
    to: Point,
    kind: EdgeKind,
    arrows: &mut List<Edge>,
) -> Result<(), NoMemory>
    ensures { OnOk result (arrows.new ≡ arrows.old ++ chain_to ends.now copy parts.now to kind) }
{
    match parts {
        [] => Ok(()),
        [part, more @ ..] => {
            let before = last(ends, *part, copy);
            let from = add_path(ends, copy, before, EdgeKind::Plain, more, arrows)?;
            arrows.push(Edge { from, to, kind })
        }
    }
}

/// Adds an edge of a kind to each of the points. After `NoMemory` some of them may stand.
pub fn add_arrows(
    from: Point,
    kind: EdgeKind,
    points: &[Point],
    arrows: &mut List<Edge>,
) -> Result<(), NoMemory>
    ensures { OnOk result (arrows.new ≡ arrows.old ++ arrows_to from kind points.now) }
{
    for point in points {
        arrows.push(Edge {
            from,
            to: *point,
            kind,
        })?;
    }
    Ok(())
}

/// Adds parts that run for their values under one route. After `NoMemory` some of them may stand.
pub fn add_kids(
    copy: u32,
    route: Route,
    parts: &[NodeId],
    kids: &mut List<Kid>,
) -> Result<(), NoMemory>
    ensures { OnOk result (kids.new ≡ kids.old ++ kids_by copy route parts.now) }
{
    for part in parts {
        kids.push(routed(*part, copy, route))?;
    }
    Ok(())
}

/// Adds a part that may be missing.
pub fn add_part(
    copy: u32,
    route: Route,
    part: Option<NodeId>,
    kids: &mut List<Kid>,
) -> Result<(), NoMemory>
    ensures { OnOk result (kids.new ≡ kids.old ++ kids_by copy route (listed_part part)) }
{
    match part {
        None => Ok(()),
        Some(part) => kids.push(routed(part, copy, route)),
    }
}

/// The first point of a part, and where there is none a given point.
pub fn first_else(ends: &[Ends], copy: u32, here: Point, part: Option<NodeId>) -> Point
    ensures { result ≡ first_or ends.now copy here part }
{
    match part {
        None => here,
        Some(part) => first(ends, part, copy),
    }
}

/// The two exits of a condition at its own point, and none of a value.
pub fn finished(alloc: Global, node: NodeId, copy: u32, mode: Mode) -> Result<List<Exit>, NoMemory>
    ensures { IfOk result (λ exits. exits ≡ finish node copy mode) }
{
    let from = Point::own(node, copy);
    match mode {
        Mode::Value => Ok(List::new(alloc)),
        Mode::Body => Ok(List::new(alloc)),
        Mode::Condition => Ok(List::from_vec(vec![in alloc;
            Exit {
                channel: Channel::Yes,
                from,
                kind: EdgeKind::True(node)
            },
            Exit {
                channel: Channel::No,
                from,
                kind: EdgeKind::False(node)
            },
        ]?)),
    }
}
