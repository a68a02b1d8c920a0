//! Patterns of `case`.
ghost use Rattle.std.specs.Prelude.{◌≡◌, bytes_eq, codes};
ghost use Rattle.py_base.specs.Tree.{name_at};
ghost use Rattle.node_shapes.specs.Patterns.{named_pattern, pattern_by, pattern};

use py_base::{NameId, NodeId, NodeKind, Tree};

/// A pattern with its parts (Python 3.12 language reference, 8.6.4).
#[derive(Clone, Copy)]
pub enum Pattern {
    /// A name that captures.
    Capture,
    /// `_`.
    Wildcard,
    /// A number, strings, `None`, `True`, `False`.
    Literal,
    /// A dotted name.
    Value,
    /// One pattern in round brackets, without a comma.
    Group(NodeId),
    Sequence,
    Mapping,
    /// A class pattern, by the name of its class.
    Class(NodeId),
    /// Patterns joined by `|`.
    Or,
    /// `pattern as name`.
    As(NodeId, NodeId),
    /// `*name` in a sequence.
    Star(NodeId),
    /// `**name` in a mapping.
    DoubleStar(NodeId),
    /// `key: pattern` in a mapping.
    Item(NodeId, NodeId),
    /// `name = pattern` in a class pattern.
    Keyword(NodeId, NodeId),
    /// What is no pattern.
    NoPattern,
}

// Whether a name is `_`.
fn is_low_line(tree: &Tree, name: NameId) -> bool
    ensures { result ≡ bytes_eq (name_at tree.now.names name.0) (codes "_") }
{
    (name.0 as usize) < tree.name_count() && tree.name(name) == "_"
}

// A name as a pattern.
fn named_pattern(tree: &Tree, name: Option<NameId>) -> Pattern
    ensures { result ≡ named_pattern tree.now.names name }
{
    match name {
        None => Pattern::NoPattern,
        Some(name) => {
            if is_low_line(tree, name) {
                Pattern::Wildcard
            } else {
                Pattern::Capture
            }
        }
    }
}

fn pattern_by(kind: NodeKind, parts: &[NodeId], named: Pattern) -> Pattern
    ensures { result ≡ pattern_by kind parts.now named }
{
    match (kind, parts) {
        (NodeKind::Name, _) => named,
        (NodeKind::Attribute, _) => Pattern::Value,
        (
            NodeKind::Int
            | NodeKind::Float
            | NodeKind::Imaginary
            | NodeKind::Unary
            | NodeKind::Binary
            | NodeKind::Strings
            | NodeKind::BytesStrings
            | NodeKind::NoneValue
            | NodeKind::TrueValue
            | NodeKind::FalseValue,
            _,
        ) => Pattern::Literal,
        (NodeKind::Round, [inner]) => Pattern::Group(*inner),
        (NodeKind::Round | NodeKind::Square | NodeKind::Patterns, _) => Pattern::Sequence,
        (NodeKind::MappingPattern, _) => Pattern::Mapping,
        (NodeKind::ClassPattern, [class, ..]) => Pattern::Class(*class),
        (NodeKind::OrPattern, _) => Pattern::Or,
        (NodeKind::AsPattern, [inner, name]) => Pattern::As(*inner, *name),
        (NodeKind::StarPattern, [name]) => Pattern::Star(*name),
        (NodeKind::DoubleStarPattern, [name]) => Pattern::DoubleStar(*name),
        (NodeKind::PatternItem, [key, inner]) => Pattern::Item(*key, *inner),
        (NodeKind::KeywordPattern, [name, inner]) => Pattern::Keyword(*name, *inner),
        _ => Pattern::NoPattern,
    }
}

/// What a pattern is; those in a sequence, a mapping, a class pattern and `|` are its entries.
pub fn pattern_at(tree: &Tree, node: NodeId) -> Pattern
    ensures { result ≡ pattern tree.now node }
{
    pattern_by(
        tree.kind(node),
        tree.parts(node),
        named_pattern(tree, tree.name_of(node)),
    )
}
