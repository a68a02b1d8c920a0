//! The entries of displays and calls, and the clauses of comprehensions.
ghost use Rattle.std.specs.Prelude.{◌≡◌};
ghost use Rattle.node_shapes.specs.Entries.{is_for, is_comprehension, listed, entries_of, entry, clauses_of, comprehension_clause};

use crate::parts::without_comma;
use py_base::{NodeId, NodeKind, Tree};

/// An entry of a display or of an index, an argument of a call or of a class (Python 3.12 language reference, 6.2.5, 6.3.3 and 6.3.4).
#[derive(Clone, Copy)]
pub enum Entry {
    Plain(NodeId),
    /// `*value`.
    Starred(NodeId),
    /// `**value`.
    DoubleStarred(NodeId),
    /// `key: value`.
    Pair(NodeId, NodeId),
    /// `name = value`.
    Keyword(NodeId, NodeId),
    /// A slice in an index.
    Slice,
}

/// A clause of a comprehension.
#[derive(Clone, Copy)]
pub enum ComprehensionClause {
    /// Targets and iterable.
    For(NodeId, NodeId),
    AsyncFor(NodeId, NodeId),
    If(NodeId),
}

/// What an entry is.
pub fn entry_at(tree: &Tree, node: NodeId) -> Entry
    ensures { result ≡ entry tree.now.nodes node }
{
    match (tree.kind(node), tree.parts(node)) {
        (NodeKind::Starred, [value]) => Entry::Starred(*value),
        (NodeKind::DoubleStarred, [value]) => Entry::DoubleStarred(*value),
        (NodeKind::Item, [key, value]) => Entry::Pair(*key, *value),
        (NodeKind::Keyword, [name, value]) => Entry::Keyword(*name, *value),
        (NodeKind::Slice, _) => Entry::Slice,
        _ => Entry::Plain(node),
    }
}

/// What a clause of a comprehension is; `None` exactly for another node.
pub fn comprehension_clause(tree: &Tree, node: NodeId) -> Option<ComprehensionClause>
    ensures { result ≡ comprehension_clause tree.now.nodes node }
{
    match (tree.kind(node), tree.parts(node)) {
        (NodeKind::ComprehensionFor, [targets, iterable]) => {
            Some(ComprehensionClause::For(*targets, *iterable))
        }
        (NodeKind::AsyncComprehensionFor, [targets, iterable]) => {
            Some(ComprehensionClause::AsyncFor(*targets, *iterable))
        }
        (NodeKind::ComprehensionIf, [test]) => Some(ComprehensionClause::If(*test)),
        _ => None,
    }
}

fn is_for(kind: NodeKind) -> bool
    ensures { result ≡ is_for kind }
{
    matches!(
        kind,
        NodeKind::ComprehensionFor | NodeKind::AsyncComprehensionFor
    )
}

/// Whether these are an element and then clauses, the first of which is a `for`.
pub(crate) fn is_comprehension(tree: &Tree, parts: &[NodeId]) -> bool
    ensures { result ≡ is_comprehension tree.now.nodes parts.now }
{
    match parts {
        [_, clause, ..] => is_for(tree.kind(*clause)),
        _ => false,
    }
}

// The parts among which entries stand.
fn listed(kind: NodeKind, parts: &[NodeId]) -> &[NodeId]
    ensures { result.now ≡ listed kind parts.now }
{
    match (kind, parts) {
        (NodeKind::Call | NodeKind::ClassPattern, [_, behind @ ..]) => behind,
        (
            NodeKind::Arguments
            | NodeKind::Round
            | NodeKind::Square
            | NodeKind::Curly
            | NodeKind::Entries
            | NodeKind::Targets
            | NodeKind::Patterns
            | NodeKind::MappingPattern
            | NodeKind::OrPattern,
            _,
        ) => parts,
        _ => &[],
    }
}

/// The entries of a display, a call, the arguments of a class, or a list of targets or patterns, in the order of the text and
/// without the comma behind the last; of a comprehension its element. None of another node.
pub fn entries_of(tree: &Tree, node: NodeId) -> &[NodeId]
    ensures { result.now ≡ entries_of tree.now.nodes node }
{
    let parts = listed(tree.kind(node), tree.parts(node));
    if is_comprehension(tree, parts) {
        &parts[..1]
    } else {
        without_comma(tree, parts)
    }
}

/// The clauses of a comprehension, in the order of the text; none of another node.
pub fn comprehension_clauses(tree: &Tree, node: NodeId) -> &[NodeId]
    ensures { result.now ≡ clauses_of tree.now.nodes node }
{
    let parts = listed(tree.kind(node), tree.parts(node));
    if is_comprehension(tree, parts) {
        &parts[1..]
    } else {
        &[]
    }
}
