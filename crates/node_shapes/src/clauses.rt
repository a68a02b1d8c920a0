//! The clauses of compound statements, each a header and its body.
ghost use Rattle.std.specs.Prelude.{◌≡◌};
ghost use Rattle.py_base.specs.Nodes.{kind_at, parts_at};
ghost use Rattle.node_shapes.specs.Kinds.{is_async, is_compound};
ghost use Rattle.node_shapes.specs.Parts.{part_of};
ghost use Rattle.node_shapes.specs.Clauses.{is_header, behind_async, is_filled, body_of, clause_of, clause_from, clause, is_types, is_parameters, is_arguments, is_result, within, def_header, class_header, except_by, header, with_entry, with_items};

use crate::parts::{but_last, last_or, without_comma};
use py_base::{NodeId, NodeKind, Tree};

/// A clause of a compound statement (Python 3.12 language reference, 8).
#[derive(Clone, Copy)]
pub struct Clause {
    /// The header, behind `async` if that stands there.
    pub header: NodeId,
    pub asynchronous: bool,
    /// The `Suite` with the statements in the header's line, or the `Block` behind it.
    pub body: NodeId,
}

/// What a header says before its colon.
#[derive(Clone, Copy)]
pub enum Header {
    /// `if`, by its test.
    If(NodeId),
    Elif(NodeId),
    Else,
    While(NodeId),
    /// Targets and iterable.
    For(NodeId, NodeId),
    Try,
    Except(ExceptHeader),
    Finally,
    /// `with`, by its `with_items`.
    With,
    Def(DefHeader),
    Class(ClassHeader),
    /// `match`, by its subject.
    Match(NodeId),
    /// Pattern and guard.
    Case(NodeId, Option<NodeId>),
    /// What is no header.
    NoHeader,
}

/// An item of a `with` header.
#[derive(Clone, Copy)]
pub struct WithEntry {
    pub value: NodeId,
    /// The target behind `as`.
    pub target: Option<NodeId>,
}

/// `except` or `except*`.
#[derive(Clone, Copy)]
pub struct ExceptHeader {
    pub starred: bool,
    pub class: Option<NodeId>,
    /// The `Name` behind `as`.
    pub name: Option<NodeId>,
}

/// `def`.
#[derive(Clone, Copy)]
pub struct DefHeader {
    pub name: NodeId,
    /// The list of type parameters.
    pub types: Option<NodeId>,
    /// The brackets with the parameters.
    pub parameters: Option<NodeId>,
    /// The annotation behind `->`.
    pub result: Option<NodeId>,
}

/// `class`.
#[derive(Clone, Copy)]
pub struct ClassHeader {
    pub name: NodeId,
    pub types: Option<NodeId>,
    /// The brackets with the bases and keywords.
    pub arguments: Option<NodeId>,
}

fn is_header(kind: NodeKind) -> bool
    ensures { result ≡ is_header kind }
{
    !matches!(
        kind,
        NodeKind::Decorator | NodeKind::Block | NodeKind::Fault
    )
}

fn is_async(kind: NodeKind) -> bool
    ensures { result ≡ is_async kind }
{
    matches!(kind, NodeKind::Async)
}

// The header that `async` stands before.
fn behind_async(tree: &Tree, node: NodeId) -> NodeId
    ensures { result ≡ behind_async tree.now.nodes node (kind_at tree.now.nodes node) (parts_at tree.now.nodes node) }
{
    match (tree.kind(node), tree.parts(node)) {
        (NodeKind::Async, [header]) => *header,
        _ => node,
    }
}

// Whether statements stand in the header's line.
fn is_filled(tree: &Tree, suite: NodeId) -> bool
    ensures { result ≡ is_filled (kind_at tree.now.nodes suite) (parts_at tree.now.nodes suite) }
{
    match (tree.kind(suite), tree.parts(suite)) {
        (NodeKind::Suite, [_, ..]) => true,
        _ => false,
    }
}

fn body_of(tree: &Tree, suite: NodeId, behind: Option<NodeId>) -> NodeId
    ensures { result ≡ body_of tree.now.nodes suite behind }
{
    match behind {
        None => suite,
        Some(behind) => {
            if is_filled(tree, suite) {
                suite
            } else {
                behind
            }
        }
    }
}

fn except_by(starred: bool, parts: &[NodeId]) -> Header
    ensures { result ≡ except_by starred parts.now }
{
    match parts {
        [_] => Header::Except(ExceptHeader {
            starred,
            class: None,
            name: None,
        }),
        [class, _] => Header::Except(ExceptHeader {
            starred,
            class: Some(*class),
            name: None,
        }),
        [class, name, _] => Header::Except(ExceptHeader {
            starred,
            class: Some(*class),
            name: Some(*name),
        }),
        _ => Header::NoHeader,
    }
}

fn is_compound(kind: NodeKind) -> bool
    ensures { result ≡ is_compound kind }
{
    matches!(
        kind,
        NodeKind::IfStatement
            | NodeKind::WhileStatement
            | NodeKind::ForStatement
            | NodeKind::TryStatement
            | NodeKind::WithStatement
            | NodeKind::DefStatement
            | NodeKind::ClassStatement
            | NodeKind::MatchStatement
            | NodeKind::CaseStatement
    )
}

fn clause_of(tree: &Tree, asynchronous: bool, header: NodeId, behind: Option<NodeId>) -> Clause
    ensures { result ≡ clause_of tree.now.nodes asynchronous header behind }
{
    Clause {
        header,
        asynchronous,
        body: body_of(tree, last_or(header, tree.parts(header)), behind),
    }
}

// The clause that a part begins, if it is a header.
fn clause_from(tree: &Tree, part: Option<NodeId>, behind: Option<NodeId>) -> Option<Clause>
    ensures { result ≡ clause_from tree.now.nodes part behind }
{
    match part {
        None => None,
        Some(part) => {
            let kind = tree.kind(part);
            if is_header(kind) {
                let header = behind_async(tree, part);
                Some(clause_of(tree, is_async(kind), header, behind))
            } else {
                None
            }
        }
    }
}

/// The clause of a compound statement or a case whose header is its part of this place, counted from 0; `None` exactly where that part is
/// no header (a decorator, a block, an error line, none at all), and for another node. All its clauses are those of its parts in turn.
pub fn clause_at(tree: &Tree, statement: NodeId, part: usize) -> Option<Clause>
    ensures { result ≡ clause tree.now.nodes statement part }
{
    let parts = tree.parts(statement);
    if is_compound(tree.kind(statement)) && part < parts.len() {
        clause_from(tree, parts.get(part).copied(), parts.get(part + 1).copied())
    } else {
        None
    }
}

fn is_types(kind: NodeKind) -> bool
    ensures { result ≡ is_types kind }
{
    matches!(kind, NodeKind::TypeParameters)
}

fn is_parameters(kind: NodeKind) -> bool
    ensures { result ≡ is_parameters kind }
{
    matches!(kind, NodeKind::Parameters)
}

fn is_arguments(kind: NodeKind) -> bool
    ensures { result ≡ is_arguments kind }
{
    matches!(kind, NodeKind::Arguments)
}

fn is_result(kind: NodeKind) -> bool
    ensures { result ≡ is_result kind }
{
    matches!(kind, NodeKind::Result)
}

fn types_of(tree: &Tree, header: NodeId) -> Option<NodeId>
    ensures { result ≡ part_of tree.now.nodes is_types header }
{
    tree.parts(header)
        .iter()
        .copied()
        .find(|part| is_types(tree.kind(*part)))
}

fn parameters_of(tree: &Tree, header: NodeId) -> Option<NodeId>
    ensures { result ≡ part_of tree.now.nodes is_parameters header }
{
    tree.parts(header)
        .iter()
        .copied()
        .find(|part| is_parameters(tree.kind(*part)))
}

fn arguments_of(tree: &Tree, header: NodeId) -> Option<NodeId>
    ensures { result ≡ part_of tree.now.nodes is_arguments header }
{
    tree.parts(header)
        .iter()
        .copied()
        .find(|part| is_arguments(tree.kind(*part)))
}

fn result_of(tree: &Tree, header: NodeId) -> Option<NodeId>
    ensures { result ≡ part_of tree.now.nodes is_result header }
{
    tree.parts(header)
        .iter()
        .copied()
        .find(|part| is_result(tree.kind(*part)))
}

// What stands in a part: the annotation behind `->`.
fn within(tree: &Tree, part: Option<NodeId>) -> Option<NodeId>
    ensures { result ≡ within tree.now.nodes part }
{
    match part {
        None => None,
        Some(part) => tree.parts(part).first().copied(),
    }
}

fn def_header(tree: &Tree, header: NodeId, name: NodeId) -> DefHeader
    ensures { result ≡ def_header tree.now.nodes header name }
{
    DefHeader {
        name,
        types: types_of(tree, header),
        parameters: parameters_of(tree, header),
        result: within(tree, result_of(tree, header)),
    }
}

fn class_header(tree: &Tree, header: NodeId, name: NodeId) -> ClassHeader
    ensures { result ≡ class_header tree.now.nodes header name }
{
    ClassHeader {
        name,
        types: types_of(tree, header),
        arguments: arguments_of(tree, header),
    }
}

/// What a header says; `NoHeader` for any other node.
pub fn header_at(tree: &Tree, node: NodeId) -> Header
    ensures { result ≡ header tree.now.nodes node }
{
    let parts = tree.parts(node);
    match (tree.kind(node), parts) {
        (NodeKind::If, [test, _]) => Header::If(*test),
        (NodeKind::Elif, [test, _]) => Header::Elif(*test),
        (NodeKind::Else, [_]) => Header::Else,
        (NodeKind::While, [test, _]) => Header::While(*test),
        (NodeKind::For, [targets, iterable, _]) => Header::For(*targets, *iterable),
        (NodeKind::Try, [_]) => Header::Try,
        (NodeKind::Except, _) => except_by(false, parts),
        (NodeKind::ExceptStar, _) => except_by(true, parts),
        (NodeKind::Finally, [_]) => Header::Finally,
        (NodeKind::With, [_, _, ..]) => Header::With,
        (NodeKind::Def, [name, ..]) => Header::Def(def_header(tree, node, *name)),
        (NodeKind::Class, [name, ..]) => Header::Class(class_header(tree, node, *name)),
        (NodeKind::Match, [subject, ..]) => Header::Match(*subject),
        (NodeKind::Case, [pattern, _]) => Header::Case(*pattern, None),
        (NodeKind::Case, [pattern, guard, _]) => Header::Case(*pattern, Some(*guard)),
        _ => Header::NoHeader,
    }
}

/// What an item of a `with` header is.
pub fn with_entry_at(tree: &Tree, node: NodeId) -> WithEntry
    ensures { result ≡ with_entry tree.now.nodes node }
{
    match (tree.kind(node), tree.parts(node)) {
        (NodeKind::WithItem, [value, target]) => WithEntry {
            value: *value,
            target: Some(*target),
        },
        _ => WithEntry {
            value: node,
            target: None,
        },
    }
}

/// The items of a `with` header, in the order of the text and without the comma behind the last; none of another node.
pub fn with_items(tree: &Tree, header: NodeId) -> &[NodeId]
    ensures { result.now ≡ with_items tree.now.nodes header }
{
    match tree.kind(header) {
        NodeKind::With => without_comma(tree, but_last(tree.parts(header))),
        _ => &[],
    }
}
