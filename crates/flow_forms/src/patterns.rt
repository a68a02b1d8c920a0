//! What a pattern evaluates and what it captures.
ghost use Rattle.std.specs.Prelude.{◌≡◌, drop, [], ◌∷◌, ◌++◌, IfOk, OnOk};
ghost use Rattle.flow_forms.specs.Patterns.{gather, is_underscore, is_wildcard, captured, inner, captures, evaluated, inner_values, values};

use crate::clauses::behind_first;
use py_base::{List, NameId, NoMemory, NodeId, NodeKind, Tree, Word};

/// How high the tree of a line is at most, so that what goes down to this depth sees all of it.
pub const TREE_HEIGHT: u32 = 256;

fn is_the_underscore(tree: &Tree, name: NameId) -> bool
    ensures { result ≡ is_underscore tree.now.names (Word.Name name) }
{
    (name.0 as usize) < tree.name_count() && tree.name(name) == "_"
}

// Whether a name is `_`, which captures nothing.
fn is_a_wildcard(tree: &Tree, node: NodeId) -> bool
    ensures { result ≡ is_wildcard tree.now node }
{
    match tree.get(node) {
        None => false,
        Some(node) => match node.word {
            Word::Name(name) => is_the_underscore(tree, name),
            _ => false,
        },
    }
}

// Adds a name that captures.
fn add_captured(
    tree: &Tree,
    node: NodeId,
    kind: NodeKind,
    list: &mut List<NodeId>,
) -> Result<(), NoMemory>
    ensures { OnOk result (list.new ≡ list.old ++ captured tree.now node kind) }
{
    match kind {
        NodeKind::Name => {
            if is_a_wildcard(tree, node) {
                Ok(())
            } else {
                list.push(node)
            }
        }
        _ => Ok(()),
    }
}

// The patterns in a pattern, and the names that it binds beside them.
fn inner_patterns(kind: NodeKind, parts: &[NodeId]) -> &[NodeId]
    ensures { result.now ≡ inner kind parts.now }
{
    match kind {
        NodeKind::Patterns
        | NodeKind::OrPattern
        | NodeKind::AsPattern
        | NodeKind::StarPattern
        | NodeKind::MappingPattern
        | NodeKind::DoubleStarPattern
        | NodeKind::Round
        | NodeKind::Square => parts,
        NodeKind::PatternItem | NodeKind::ClassPattern | NodeKind::KeywordPattern => {
            behind_first(parts)
        }
        _ => &[],
    }
}

/// Adds the names that a pattern captures, in order, down to a depth. After `NoMemory` some of them may
/// stand.
pub fn add_captures(
    tree: &Tree,
    node: NodeId,
    left: u32,
    list: &mut List<NodeId>,
) -> Result<(), NoMemory>
    ensures { OnOk result (list.new ≡ list.old ++ captures left tree.now node) }
{
    if left == 0 {
        return Ok(());
    }
    let kind = tree.kind(node);
    add_captured(tree, node, kind, list)?;
    for part in inner_patterns(kind, tree.parts(node)) {
        add_captures(tree, *part, left - 1, list)?;
    }
    Ok(())
}

// Adds an expression that a pattern evaluates itself.
fn add_evaluated(
    node: NodeId,
    kind: NodeKind,
    parts: &[NodeId],
    list: &mut List<NodeId>,
) -> Result<(), NoMemory>
    ensures { OnOk result (list.new ≡ list.old ++ evaluated node kind parts.now) }
{
    match (kind, parts) {
        (NodeKind::Attribute, _) => list.push(node),
        (NodeKind::ClassPattern, [class, ..]) => list.push(*class),
        _ => Ok(()),
    }
}

// The patterns in a pattern, and its keys.
fn inner_expressions(kind: NodeKind, parts: &[NodeId]) -> &[NodeId]
    ensures { result.now ≡ inner_values kind parts.now }
{
    match kind {
        NodeKind::PatternItem => parts,
        _ => inner_patterns(kind, parts),
    }
}

/// Adds the expressions that a pattern evaluates, in order, down to a depth. After `NoMemory` some of them
/// may stand.
pub fn add_values(
    tree: &Tree,
    node: NodeId,
    left: u32,
    list: &mut List<NodeId>,
) -> Result<(), NoMemory>
    ensures { OnOk result (list.new ≡ list.old ++ values left tree.now node) }
{
    if left == 0 {
        return Ok(());
    }
    let kind = tree.kind(node);
    let parts = tree.parts(node);
    add_evaluated(node, kind, parts, list)?;
    for part in inner_expressions(kind, parts) {
        add_values(tree, *part, left - 1, list)?;
    }
    Ok(())
}
