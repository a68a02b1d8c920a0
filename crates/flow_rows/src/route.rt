//! Rows: the edges of a form's own, its exits, and its parts with the routes of their exits.
ghost use Rattle.std.specs.Prelude.{◌≡◌};
ghost use Rattle.flow_rows.specs.Routes.{leads, listed};

use crate::edge::{Edge, EdgeKind};
use crate::point::Point;
use py_base::{List, NodeId};

/// By what a node is left other than by its end.
#[derive(Clone, Copy, Debug, PartialEq, Eq)]
pub enum Channel {
    /// A condition that holds.
    Yes,
    /// A condition that doesn't.
    No,
    /// A `break`.
    Break,
    /// A `continue`.
    Continue,
    /// A `return`.
    Return,
    /// An exception: a `raise`, a failing `assert`, or a call that may raise.
    Raise,
}

/// A point from which a form is left by a channel, with the kind of the edge that this makes.
#[derive(Clone, Copy, Debug)]
pub struct Exit {
    pub channel: Channel,
    pub from: Point,
    pub kind: EdgeKind,
}

/// Where an exit of a part leads: to a point, or out of the form by a channel of the form's own.
#[derive(Clone, Copy, Debug)]
pub enum Dest {
    /// To a point of the form.
    To(Point),
    /// Out of the form.
    Up(Channel),
}

/// Where the exits of a part lead.
#[derive(Clone, Copy, Debug)]
pub enum Route {
    /// All out of the form, by the channels that they have.
    Through,
    /// A condition, with where its true and its false exits lead.
    Test(Dest, Dest),
    /// The body of a loop, with the loop's label and the label behind it.
    Body(Point, Point),
    /// What raises is caught at this label.
    Caught(Point),
    /// Whatever leaves enters the `finally` block at this point too.
    Watched(Point),
    /// Both: the label of the handlers, and the `finally` block.
    CaughtWatched(Point, Point),
}

/// How a node runs as a part.
#[derive(Clone, Copy, Debug, PartialEq, Eq)]
pub enum Mode {
    /// For its value, or as a statement.
    Value,
    /// As a condition with two exits.
    Condition,
    /// As a graph of its own: a module's statements, the body of a def or a lambda.
    Body,
}

/// A part as its form runs it: in which copy, how, and where its exits lead.
#[derive(Clone, Copy, Debug)]
pub struct Kid {
    pub node: NodeId,
    pub copy: u32,
    pub mode: Mode,
    pub route: Route,
}

/// How a form flows: the edges of its own, its exits, and its parts.
#[derive(Debug, Drop)]
pub struct Row {
    pub arrows: List<Edge>,
    pub exits: List<Exit>,
    pub kids: List<Kid>,
}

/// The one or two places to which an exit leads: where a `finally` block is entered on the way, that comes first.
#[derive(Clone, Copy, Debug)]
pub enum Leads {
    /// To this place alone.
    One(Dest),
    /// To this point, and to that place.
    Two(Point, Dest),
}

/// Where the exits on a channel lead by a route.
pub fn leads_by(route: Route, channel: Channel) -> Leads
    ensures { listed result ≡ leads route channel }
{
    match (route, channel) {
        (Route::Test(true_to, _), Channel::Yes) => Leads::One(true_to),
        (Route::Test(_, false_to), Channel::No) => Leads::One(false_to),
        (Route::Body(again, _), Channel::Continue) => Leads::One(Dest::To(again)),
        (Route::Body(_, behind), Channel::Break) => Leads::One(Dest::To(behind)),
        (Route::Caught(handlers), Channel::Raise) => Leads::One(Dest::To(handlers)),
        (
            Route::Watched(last),
            Channel::Break | Channel::Continue | Channel::Return | Channel::Raise,
        ) => Leads::Two(last, Dest::Up(channel)),
        (Route::CaughtWatched(handlers, last), Channel::Raise) => Leads::Two(
            handlers,
            Dest::To(last),
        ),
        (Route::CaughtWatched(_, last), Channel::Break | Channel::Continue | Channel::Return) =>
            Leads::Two(last, Dest::Up(channel)),
        _ => Leads::One(Dest::Up(channel)),
    }
}
