//! What the reader has found: nodes with what is known of them, and the tokens between them.

use crate::words::Form;
use py_base::{NodeId, NodeKind, Span};
use py_tokens::Token;

/// A node of the tree with what is known of it, so that no node is looked at twice.
#[derive(Clone, Copy, Debug, PartialEq, Eq)]
pub struct Found {
    pub id: NodeId,
    pub form: Form,
    pub kind: NodeKind,
    pub span: Span,
    /// Its height, up to one above the limit.
    pub height: u16,
    /// Whether its tree is proper.
    pub proper: bool,
    /// Whether its tree can be bound.
    pub target: bool,
    /// Whether the `:` of a lambda stands in it outside all brackets.
    pub colon: bool,
    /// Whether it is a sign before an imaginary number.
    pub signed: bool,
    /// Whether something is added in it to an imaginary number that has a sign, outside the fields of
    /// strings.
    pub unreal: bool,
}

/// A token or a part of a node.
#[derive(Clone, Copy, Debug)]
pub enum Item<'a> {
    Word(&'a Token),
    Part(Found),
}
