//! Statements.
ghost use Rattle.std.specs.Prelude.{◌≡◌};
ghost use Rattle.py_base.specs.Nodes.{kind_at, parts_at};
ghost use Rattle.node_shapes.specs.Statements.{expression_statement, assignment, annotated_assignment, augmented_assignment, return_statement, raise_statement, assert_statement, type_statement, statement, assigned_targets, flat, listed_statements};

use crate::expressions::{Expression, expression_at};
use crate::parts::{but_last, last_or};
use py_base::{NodeId, NodeKind, Op, Tree, Word};
use std::slice;

/// A statement with its parts (Python 3.12 language reference, 7 and 8).
#[derive(Clone, Copy)]
pub enum Statement {
    /// An expression: the node itself.
    Expression,
    /// An assignment, by its value; its targets are `assigned_targets`.
    Assign(NodeId),
    AnnotatedAssign(AnnotatedAssignment),
    AugmentedAssign(AugmentedAssignment),
    Pass,
    Break,
    Continue,
    Return(Option<NodeId>),
    /// What is raised, and its cause.
    Raise(Option<NodeId>, Option<NodeId>),
    Global,
    Nonlocal,
    /// `del`, by its targets.
    Del(NodeId),
    /// Test and message.
    Assert(NodeId, Option<NodeId>),
    Import,
    /// `from`, by its origin.
    ImportFrom(NodeId),
    /// `from .. import *`, by its origin.
    ImportAll(NodeId),
    TypeAlias(TypeAlias),
    /// A compound statement, by its `clauses`.
    Compound,
    /// An error line.
    Fault,
    /// What is no statement.
    NoStatement,
}

/// `target: annotation = value`.
#[derive(Clone, Copy)]
pub struct AnnotatedAssignment {
    pub target: NodeId,
    pub annotation: NodeId,
    pub value: Option<NodeId>,
}

/// A target, the operator before `=`, and a value.
#[derive(Clone, Copy)]
pub struct AugmentedAssignment {
    pub op: Op,
    pub target: NodeId,
    pub value: NodeId,
}

/// `type name = value`.
#[derive(Clone, Copy)]
pub struct TypeAlias {
    pub name: NodeId,
    /// The list of type parameters.
    pub types: Option<NodeId>,
    pub value: NodeId,
}

fn expression_statement(expression: Expression) -> Statement
    ensures { result ≡ expression_statement expression }
{
    match expression {
        Expression::NoExpression => Statement::NoStatement,
        _ => Statement::Expression,
    }
}

fn assignment(parts: &[NodeId]) -> Statement
    ensures { result ≡ assignment parts.now }
{
    match parts {
        [_, first, more @ ..] => Statement::Assign(last_or(*first, more)),
        _ => Statement::NoStatement,
    }
}

fn annotated_assignment(parts: &[NodeId]) -> Statement
    ensures { result ≡ annotated_assignment parts.now }
{
    match parts {
        [target, annotation] => Statement::AnnotatedAssign(AnnotatedAssignment {
            target: *target,
            annotation: *annotation,
            value: None,
        }),
        [target, annotation, value] => Statement::AnnotatedAssign(AnnotatedAssignment {
            target: *target,
            annotation: *annotation,
            value: Some(*value),
        }),
        _ => Statement::NoStatement,
    }
}

fn augmented_assignment(word: &Word, parts: &[NodeId]) -> Statement
    ensures { result ≡ augmented_assignment word.now parts.now }
{
    match (word, parts) {
        (Word::Op(op), [target, value]) => Statement::AugmentedAssign(AugmentedAssignment {
            op: *op,
            target: *target,
            value: *value,
        }),
        _ => Statement::NoStatement,
    }
}

fn return_statement(parts: &[NodeId]) -> Statement
    ensures { result ≡ return_statement parts.now }
{
    match parts {
        [] => Statement::Return(None),
        [value] => Statement::Return(Some(*value)),
        _ => Statement::NoStatement,
    }
}

fn raise_statement(parts: &[NodeId]) -> Statement
    ensures { result ≡ raise_statement parts.now }
{
    match parts {
        [] => Statement::Raise(None, None),
        [value] => Statement::Raise(Some(*value), None),
        [value, cause] => Statement::Raise(Some(*value), Some(*cause)),
        _ => Statement::NoStatement,
    }
}

fn assert_statement(parts: &[NodeId]) -> Statement
    ensures { result ≡ assert_statement parts.now }
{
    match parts {
        [test] => Statement::Assert(*test, None),
        [test, message] => Statement::Assert(*test, Some(*message)),
        _ => Statement::NoStatement,
    }
}

fn type_statement(parts: &[NodeId]) -> Statement
    ensures { result ≡ type_statement parts.now }
{
    match parts {
        [_, name, value] => Statement::TypeAlias(TypeAlias {
            name: *name,
            types: None,
            value: *value,
        }),
        [_, name, types, value] => Statement::TypeAlias(TypeAlias {
            name: *name,
            types: Some(*types),
            value: *value,
        }),
        _ => Statement::NoStatement,
    }
}

/// What a statement is; `NoStatement` for any other node. What a compound one says is in its clauses, what an import brings in its items,
/// and the parts of `global` and `nonlocal` are the names.
pub fn statement_at(tree: &Tree, node: NodeId) -> Statement
    ensures { result ≡ statement tree.now.nodes node }
{
    let parts = tree.parts(node);
    match (tree.kind(node), parts) {
        (NodeKind::Assign, _) => assignment(parts),
        (NodeKind::AnnotatedAssign, _) => annotated_assignment(parts),
        (NodeKind::AugmentedAssign, _) => augmented_assignment(tree.word(node), parts),
        (NodeKind::Pass, _) => Statement::Pass,
        (NodeKind::Break, _) => Statement::Break,
        (NodeKind::Continue, _) => Statement::Continue,
        (NodeKind::Return, _) => return_statement(parts),
        (NodeKind::Raise, _) => raise_statement(parts),
        (NodeKind::Global, _) => Statement::Global,
        (NodeKind::Nonlocal, _) => Statement::Nonlocal,
        (NodeKind::Del, [targets]) => Statement::Del(*targets),
        (NodeKind::Assert, _) => assert_statement(parts),
        (NodeKind::Import, _) => Statement::Import,
        (NodeKind::ImportFrom, [origin, _, ..]) => Statement::ImportFrom(*origin),
        (NodeKind::ImportAll, [origin]) => Statement::ImportAll(*origin),
        (NodeKind::TypeAlias, _) => type_statement(parts),
        (
            NodeKind::IfStatement
            | NodeKind::WhileStatement
            | NodeKind::ForStatement
            | NodeKind::TryStatement
            | NodeKind::WithStatement
            | NodeKind::DefStatement
            | NodeKind::ClassStatement
            | NodeKind::MatchStatement,
            _,
        ) => Statement::Compound,
        (NodeKind::Fault, _) => Statement::Fault,
        (NodeKind::Del | NodeKind::ImportFrom | NodeKind::ImportAll, _) => Statement::NoStatement,
        _ => expression_statement(expression_at(tree, node)),
    }
}

/// The targets of an assignment, each before a `=`, in the order of the text; none of another node.
pub fn assigned_targets(tree: &Tree, node: NodeId) -> &[NodeId]
    ensures { result.now ≡ assigned_targets tree.now.nodes node }
{
    match tree.kind(node) {
        NodeKind::Assign => but_last(tree.parts(node)),
        _ => &[],
    }
}

/// The statements that a part of a module, a block or a header's line is: those side by side by `;`, or the part itself.
pub fn side_by_side<'a>(tree: &'a Tree, part: &'a NodeId) -> &'a [NodeId]
    ensures { result.now ≡ flat tree.now.nodes part.now }
{
    match tree.kind(*part) {
        NodeKind::Statements => tree.parts(*part),
        _ => slice::from_ref(part),
    }
}

/// The parts of a module, a block or a header's line, each of which is a statement or several of them side by side; none of another node.
pub fn statement_parts(tree: &Tree, node: NodeId) -> &[NodeId]
    ensures { result.now ≡ listed_statements (kind_at tree.now.nodes node) (parts_at tree.now.nodes node) }
{
    match tree.kind(node) {
        NodeKind::Module | NodeKind::Block | NodeKind::Suite => tree.parts(node),
        _ => &[],
    }
}
