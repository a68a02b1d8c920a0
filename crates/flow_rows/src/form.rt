//! The forms in which a node runs, with the parts that run, each in its place.
//!
//! A form says which parts of a node run and what each is to it. The parts of parts, as the tests in the
//! headers of a statement, stand in it too, and what never runs, as an annotation, doesn't.

use crate::route::Channel;
use py_base::{List, NodeId};

/// How a node runs.
#[derive(Debug, Drop)]
pub enum Form {
    /// It has no point.
    Silent,
    /// Its parts in order, and then the node itself.
    Steps(List<NodeId>),
    /// Its parts in order, without a point of its own.
    Sequence(List<NodeId>),
    /// A call: callee, arguments, the call.
    Call(NodeId, List<NodeId>),
    /// `left and right`.
    And(NodeId, NodeId),
    /// `left or right`.
    Or(NodeId, NodeId),
    /// `not operand`.
    Not(NodeId),
    /// Brackets around one expression.
    Group(NodeId),
    /// `value if test else other`.
    Conditional(Choice),
    /// The element and the clauses.
    Comprehension(NodeId, List<ComprehensionClause>),
    /// A def or a lambda.
    Function(Function),
    /// A statement that leaves by a channel, with what it evaluates before.
    Jump(Channel, List<NodeId>),
    /// The test and, if there is one, the message.
    Assert(NodeId, Option<NodeId>),
    /// An `if` statement: its branches in order.
    Branches(Branch, List<Branch>),
    /// A `while` statement.
    While(WhileForm),
    /// A `for` statement.
    For(ForForm),
    /// A `try` statement.
    Try(TryForm),
    /// A `match` statement.
    Match(MatchForm),
    /// A `case` of one.
    Case(CaseForm),
    /// A module with its statements.
    Module(List<NodeId>),
}

/// A conditional expression, `value if test else other`.
#[derive(Clone, Copy, Debug)]
pub struct Choice {
    pub value: NodeId,
    pub test: NodeId,
    pub other: NodeId,
}

/// A clause of a comprehension.
#[derive(Clone, Copy, Debug)]
pub enum ComprehensionClause {
    /// The clause, its targets and its iterable.
    For(NodeId, NodeId, NodeId),
    /// The clause and its test.
    If(NodeId, NodeId),
}

/// A def or a lambda.
#[derive(Debug, Drop)]
pub struct Function {
    /// What runs where it stands: decorators, type parameters, defaults, and the name that it binds.
    pub before: List<NodeId>,
    /// What runs in its own graph: the parameters that are bound, and the body.
    pub run: List<NodeId>,
}

/// A branch of an `if` statement. `else` has no test.
#[derive(Clone, Copy, Debug)]
pub struct Branch {
    pub test: Option<NodeId>,
    pub body: NodeId,
}

/// A `while` statement. `otherwise` is its `else` block.
#[derive(Clone, Copy, Debug)]
pub struct WhileForm {
    pub test: NodeId,
    pub body: NodeId,
    pub otherwise: Option<NodeId>,
}

/// A `for` statement, without `async` or with. `otherwise` is its `else` block.
#[derive(Clone, Copy, Debug)]
pub struct ForForm {
    pub targets: NodeId,
    pub iterable: NodeId,
    pub body: NodeId,
    pub otherwise: Option<NodeId>,
}

/// An `except` clause: its header, and in order its class, the name that it binds, and its body, as far as
/// they are there.
#[derive(Debug, Drop)]
pub struct Handler {
    pub header: NodeId,
    pub steps: List<NodeId>,
}

/// A `try` statement. `otherwise` is its `else` block, and `cleanup` its `finally` block.
#[derive(Debug, Drop)]
pub struct TryForm {
    pub body: NodeId,
    pub handlers: List<Handler>,
    pub otherwise: Option<NodeId>,
    pub cleanup: Option<NodeId>,
}

/// A `match` statement: the subject, and its cases in order. A text without faults has one case at least.
#[derive(Debug, Drop)]
pub struct MatchForm {
    pub subject: NodeId,
    pub cases: List<NodeId>,
}

/// A `case`: the expressions that its pattern compares with, the names that it captures, its guard, if it
/// has one, and its body.
#[derive(Debug, Drop)]
pub struct CaseForm {
    pub values: List<NodeId>,
    pub captures: List<NodeId>,
    pub guard: Option<NodeId>,
    pub body: NodeId,
}
