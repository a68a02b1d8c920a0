//! Points.
ghost use Rattle.std.specs.Prelude.{◌≡◌};
ghost use Rattle.flow_rows.specs.Points.{own, again, behind, fail, handlers, start};

use py_base::NodeId;

/// Which of a node's points.
#[derive(Clone, Copy, Debug, PartialEq, Eq, Hash)]
pub enum Role {
    /// The node itself: an expression has its value there, a bound name is bound there, and a
    /// statement is done there.
    Own,
    /// The label of a loop, to which each turn comes back.
    Again,
    /// The label behind a node.
    Behind,
    /// Where an assertion fails.
    Fail,
    /// The label through which the handlers of a `try` are entered.
    Handlers,
    /// The start of the graph of a module, a def or a lambda.
    Start,
}

/// A point of a code flow graph. A `finally` block in copy `c` is built as the copies `2 c`, the
/// checked one, and `2 c + 1`, the normal one; what no `finally` is around is in copy 0.
#[derive(Clone, Copy, Debug, PartialEq, Eq, Hash)]
pub struct Point {
    /// The node whose point it is.
    pub node: NodeId,
    /// Which of the node's points.
    pub role: Role,
    /// In which copy of the `finally` blocks around the node, from 0 to 15.
    pub copy: u32,
}

impl Point {
    /// The point of a node itself.
    pub fn own(node: NodeId, copy: u32) -> Point
        ensures { result ≡ own node copy }
    {
        Point {
            node,
            role: Role::Own,
            copy,
        }
    }

    /// The label of a loop.
    pub fn again(node: NodeId, copy: u32) -> Point
        ensures { result ≡ again node copy }
    {
        Point {
            node,
            role: Role::Again,
            copy,
        }
    }

    /// The label behind a node.
    pub fn behind(node: NodeId, copy: u32) -> Point
        ensures { result ≡ behind node copy }
    {
        Point {
            node,
            role: Role::Behind,
            copy,
        }
    }

    /// Where an assertion fails.
    pub fn fail(node: NodeId, copy: u32) -> Point
        ensures { result ≡ fail node copy }
    {
        Point {
            node,
            role: Role::Fail,
            copy,
        }
    }

    /// The label of the handlers of a `try`.
    pub fn handlers(node: NodeId, copy: u32) -> Point
        ensures { result ≡ handlers node copy }
    {
        Point {
            node,
            role: Role::Handlers,
            copy,
        }
    }

    /// The start of the graph of a module, a def or a lambda.
    pub fn start(node: NodeId) -> Point
        ensures { result ≡ start node }
    {
        Point {
            node,
            role: Role::Start,
            copy: 0,
        }
    }
}
