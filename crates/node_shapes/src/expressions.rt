//! Expressions.
ghost use Rattle.std.specs.Prelude.{◌≡◌, ◌<◌, length};
ghost use Rattle.py_base.specs.Nodes.{kind_at, word_at};
ghost use Rattle.py_base.specs.declared.node.Op.TheVariants as ops;
ghost use Rattle.node_shapes.specs.declared.expressions.Expression.TheVariants as form;
ghost use Rattle.node_shapes.specs.Expressions.{int_form, text_form, bytes_form, brackets_form, round_form, curly, binary_form, attribute_form, name_form, conditional_form, lambda_form, negative_or, unary_form, expression, operator_in, operator_at, compared, comparison, seen};

use crate::entries::is_comprehension;
use crate::parts::last_or;
use py_base::{NameId, NodeId, NodeKind, Op, Tree, Word};

/// An expression with its parts (Python 3.12 language reference, 6.2 to 6.14).
#[derive(Clone, Copy)]
pub enum Expression {
    Name(NameId),
    Literal(Literal),
    /// One expression in round brackets, without a comma.
    Group(NodeId),
    /// Entries in brackets, or by commas alone.
    Display(Container),
    /// An element and its clauses in brackets.
    Comprehension(Container, NodeId),
    /// The value before the dot, and the name behind it.
    Attribute(NodeId, NameId),
    /// A call, by its callee.
    Call(NodeId),
    /// What is subscripted, and the index: an entry, or a display of entries by commas.
    Subscript(NodeId, NodeId),
    Await(NodeId),
    Unary(Op, NodeId),
    Binary(Op, NodeId, NodeId),
    /// A chain of comparisons, by its first operand.
    Comparison(NodeId),
    Not(NodeId),
    And(NodeId, NodeId),
    Or(NodeId, NodeId),
    Conditional(Choice),
    /// A lambda, by its body.
    Lambda(NodeId),
    /// `name := value`.
    Named(NodeId, NodeId),
    Yield(Option<NodeId>),
    YieldFrom(NodeId),
    /// What is no expression.
    NoExpression,
}

/// The value of a literal, as far as the tree knows it (2.4). The value of strings and of bytes is lent by their node, as its word.
#[derive(Clone, Copy)]
pub enum Literal {
    None,
    Bool(bool),
    /// An integer, also one directly behind `-`.
    Int(i128),
    Float,
    Imaginary,
    /// Strings whose value is known.
    Str,
    /// Strings with fields, or with an escape that has no value.
    UnknownStr,
    Bytes,
    UnknownBytes,
    Ellipsis,
}

/// What a display or a comprehension makes (6.2.4 to 6.2.8).
#[derive(Clone, Copy)]
pub enum Container {
    Tuple,
    List,
    Set,
    Dict,
    Generator,
}

/// `value if test else other`.
#[derive(Clone, Copy)]
pub struct Choice {
    pub value: NodeId,
    pub test: NodeId,
    pub other: NodeId,
}

fn name_form(word: &Word) -> Expression
    ensures { result ≡ name_form word.now }
{
    match word {
        Word::Name(name) => Expression::Name(*name),
        _ => Expression::NoExpression,
    }
}

fn int_form(word: &Word) -> Expression
    ensures { result ≡ int_form word.now }
{
    match word {
        Word::Int(value) => Expression::Literal(Literal::Int(*value)),
        _ => Expression::NoExpression,
    }
}

fn text_form(word: &Word) -> Expression
    ensures { result ≡ text_form word.now }
{
    match word {
        Word::Chars(_) => Expression::Literal(Literal::Str),
        _ => Expression::Literal(Literal::UnknownStr),
    }
}

fn bytes_form(word: &Word) -> Expression
    ensures { result ≡ bytes_form word.now }
{
    match word {
        Word::Bytes(_) => Expression::Literal(Literal::Bytes),
        _ => Expression::Literal(Literal::UnknownBytes),
    }
}

fn binary_form(word: &Word, parts: &[NodeId]) -> Expression
    ensures { result ≡ binary_form word.now parts.now }
{
    match (word, parts) {
        (Word::Op(op), [left, right]) => Expression::Binary(*op, *left, *right),
        _ => Expression::NoExpression,
    }
}

fn attribute_form(word: &Word, parts: &[NodeId]) -> Expression
    ensures { result ≡ attribute_form word.now parts.now }
{
    match (word, parts) {
        (Word::Name(name), [value]) => Expression::Attribute(*value, *name),
        _ => Expression::NoExpression,
    }
}

fn conditional_form(parts: &[NodeId]) -> Expression
    ensures { result ≡ conditional_form parts.now }
{
    match parts {
        [value, test, other] => Expression::Conditional(Choice {
            value: *value,
            test: *test,
            other: *other,
        }),
        _ => Expression::NoExpression,
    }
}

// Entries in brackets, of which an element and clauses are a comprehension.
fn brackets_form(
    comprehended: Container,
    displayed: Container,
    tree: &Tree,
    parts: &[NodeId],
) -> Expression
    ensures { result ≡ brackets_form comprehended displayed tree.now.nodes parts.now }
{
    match parts {
        [] => Expression::Display(displayed),
        [element, ..] => {
            if is_comprehension(tree, parts) {
                Expression::Comprehension(comprehended, *element)
            } else {
                Expression::Display(displayed)
            }
        }
    }
}

// One expression without a comma is a group.
fn round_form(tree: &Tree, parts: &[NodeId]) -> Expression
    ensures { result ≡ round_form tree.now.nodes parts.now }
{
    match parts {
        [inner] => Expression::Group(*inner),
        _ => brackets_form(Container::Generator, Container::Tuple, tree, parts),
    }
}

// Curly brackets are a dict where they are empty or begin with an entry of one.
fn curly(tree: &Tree, parts: &[NodeId]) -> Container
    ensures { result ≡ curly tree.now.nodes parts.now }
{
    match parts {
        [] => Container::Dict,
        [first, ..] => match tree.kind(*first) {
            NodeKind::Item | NodeKind::DoubleStarred => Container::Dict,
            _ => Container::Set,
        },
    }
}

// An integer directly behind `-` is a literal.
fn negative_or(tree: &Tree, value: NodeId) -> Expression
    ensures { result ≡ negative_or (kind_at tree.now.nodes value) (word_at tree.now.nodes value) (form.Unary ops.Minus value) }
{
    match (tree.kind(value), tree.word(value)) {
        (NodeKind::Int, Word::Int(number)) => {
            if *number >= 0 {
                Expression::Literal(Literal::Int(-*number))
            } else {
                Expression::Unary(Op::Minus, value)
            }
        }
        _ => Expression::Unary(Op::Minus, value),
    }
}

fn unary_form(tree: &Tree, word: &Word, parts: &[NodeId]) -> Expression
    ensures { result ≡ unary_form tree.now.nodes word.now parts.now }
{
    match (word, parts) {
        (Word::Op(Op::Minus), [value]) => negative_or(tree, *value),
        (Word::Op(op), [value]) => Expression::Unary(*op, *value),
        _ => Expression::NoExpression,
    }
}

// A lambda, by its last part.
fn lambda_form(parts: &[NodeId]) -> Expression
    ensures { result ≡ lambda_form parts.now }
{
    match parts {
        [] => Expression::NoExpression,
        [first, more @ ..] => Expression::Lambda(last_or(*first, more)),
    }
}

/// What an expression is; `NoExpression` for any other node.
pub fn expression_at(tree: &Tree, node: NodeId) -> Expression
    ensures { result ≡ expression tree.now.nodes node }
{
    let word = tree.word(node);
    let parts = tree.parts(node);
    match (tree.kind(node), parts) {
        (NodeKind::Name, _) => name_form(word),
        (NodeKind::Int, _) => int_form(word),
        (NodeKind::Float, _) => Expression::Literal(Literal::Float),
        (NodeKind::Imaginary, _) => Expression::Literal(Literal::Imaginary),
        (NodeKind::Strings, _) => text_form(word),
        (NodeKind::BytesStrings, _) => bytes_form(word),
        (NodeKind::NoneValue, _) => Expression::Literal(Literal::None),
        (NodeKind::TrueValue, _) => Expression::Literal(Literal::Bool(true)),
        (NodeKind::FalseValue, _) => Expression::Literal(Literal::Bool(false)),
        (NodeKind::Ellipsis, _) => Expression::Literal(Literal::Ellipsis),
        (NodeKind::Round, _) => round_form(tree, parts),
        (NodeKind::Square, _) => brackets_form(Container::List, Container::List, tree, parts),
        (NodeKind::Curly, _) => {
            let container = curly(tree, parts);
            brackets_form(container, container, tree, parts)
        }
        (NodeKind::Entries, _) => Expression::Display(Container::Tuple),
        (NodeKind::Attribute, _) => attribute_form(word, parts),
        (NodeKind::Call, [callee, ..]) => Expression::Call(*callee),
        (NodeKind::Subscript, [value, index]) => Expression::Subscript(*value, *index),
        (NodeKind::Await, [value]) => Expression::Await(*value),
        (NodeKind::Unary, _) => unary_form(tree, word, parts),
        (NodeKind::Binary, _) => binary_form(word, parts),
        (NodeKind::Comparison, [first, ..]) => Expression::Comparison(*first),
        (NodeKind::Not, [value]) => Expression::Not(*value),
        (NodeKind::And, [left, right]) => Expression::And(*left, *right),
        (NodeKind::Or, [left, right]) => Expression::Or(*left, *right),
        (NodeKind::Conditional, _) => conditional_form(parts),
        (NodeKind::Lambda, _) => lambda_form(parts),
        (NodeKind::Named, [name, value]) => Expression::Named(*name, *value),
        (NodeKind::Yield, _) => Expression::Yield(parts.first().copied()),
        (NodeKind::YieldFrom, [value]) => Expression::YieldFrom(*value),
        _ => Expression::NoExpression,
    }
}

fn operator_in(word: &Word) -> Option<Op>
    ensures { result ≡ operator_in word.now }
{
    match word {
        Word::Op(op) => Some(*op),
        _ => None,
    }
}

// The operator of a comparison in a chain: the word of the chain, or that of the link before it.
fn operator_at(tree: &Tree, node: NodeId, parts: &[NodeId], index: usize) -> Option<Op>
    requires { index < length parts.now }
    ensures { result ≡ operator_at tree.now.nodes node parts.now index }
{
    if index == 0 {
        return operator_in(tree.word(node));
    }
    match parts.get(2 * index) {
        Some(link) => operator_in(tree.word(*link)),
        None => None,
    }
}

fn compared(op: Option<Op>, part: Option<NodeId>) -> Option<(Op, NodeId)>
    ensures { result ≡ compared op part }
{
    match (op, part) {
        (Some(op), Some(part)) => Some((op, part)),
        _ => None,
    }
}

/// The comparison of a chain at this place, counted from 0: its operator, and what it compares with. `None` exactly behind the last, and
/// for a node that is no chain.
pub fn comparison_at(tree: &Tree, node: NodeId, index: usize) -> Option<(Op, NodeId)>
    ensures { result ≡ comparison tree.now.nodes node index }
{
    let parts = tree.parts(node);
    match tree.kind(node) {
        NodeKind::Comparison => {
            if index < parts.len() {
                compared(
                    operator_at(tree, node, parts, index),
                    parts.get(2 * index + 1).copied(),
                )
            } else {
                None
            }
        }
        _ => None,
    }
}

/// What stands in brackets around one expression, seen through them; another node itself.
pub fn seen(tree: &Tree, node: NodeId) -> NodeId
    ensures { result ≡ seen tree.now.nodes node }
{
    let mut here = node;
    let mut left = node.0;
    while let Expression::Group(inner) = expression_at(tree, here) {
        here = inner;
        if left == 0 {
            return here;
        }
        left -= 1;
    }
    here
}
