//! The rules within a line: its parameters and its captures.
ghost use Rattle.std.specs.Prelude.{◌≡◌, ◌<◌, ◌&&◌, ◌||◌, ◌++◌, [], length, List, Option, OnOk, IfOk, if◌then◌else◌};
ghost use Rattle.py_base.specs.Tree.{SyntaxTree, tree_of, trees, parts_at, AreOlder, IsLinked};
ghost use Rattle.py_blocks.specs.Facts.{are_distinct, are_alike, is_star, default_of, defaults, are_ordered, is_lambda, has_parameters, parameters_fit, captures, capture_alike, alternatives_fit, pattern_fits, is_or, is_case, node_fits, tree_fits};
ghost use Rattle.py_blocks.specs.Ordered.{seen_after, ordered_after};

use crate::name_lists::{are_alike, are_distinct};
use crate::names::names_in;
use crate::role::Role;
use crate::walk::node_of;
use py_base::{List, NoMemory, NodeId, NodeKind, Text, Tree};
use std::alloc::Global;

fn is_star(kind: NodeKind) -> bool
    ensures { result ≡ is_star kind }
{
    matches!(
        kind,
        NodeKind::BareStar | NodeKind::StarParameter | NodeKind::DoubleStarParameter
    )
}

// Whether a plain parameter has a default; of other parts nothing is told.
fn default_of(kind: NodeKind, parts: &[NodeId]) -> Option<bool>
    ensures { (ts : List SyntaxTree) → result ≡ default_of kind (parts_at ts parts.now) }
{
    match kind {
        NodeKind::Name => Some(false),
        NodeKind::Parameter => Some(true),
        NodeKind::AnnotatedParameter => Some(parts.len() > 2),
        _ => None,
    }
}

// Whether the plain parameters end before a part: a lambda's body, or what begins with `*`.
fn does_stop(lambda: bool, last: bool, kind: NodeKind) -> bool
    ensures { result ≡ (lambda && last || is_star kind) }
{
    (lambda && last) || is_star(kind)
}

// Whether a default has been seen behind one more parameter, and `None` where one was and this has
// none.
fn seen_after(seen: bool, default: Option<bool>) -> Option<bool>
    ensures { result ≡ seen_after seen default }
{
    match default {
        None => Some(seen),
        Some(true) => Some(true),
        Some(false) => { if seen { None } else { Some(false) } }
    }
}

// Whether none of the plain parameters without a default follows one with.
fn are_ordered(tree: &Tree, lambda: bool, parts: &[NodeId]) -> bool
    requires linked { IsLinked tree.now }
    requires within { AreOlder (length tree.now.nodes) parts.now }
    ensures { result ≡ are_ordered (defaults lambda (parts_at (trees tree.now) parts.now)) }
{
    let mut seen = false;
    for at in 0..parts.len() {
        let node = node_of(tree, parts[at]);
        let stops = does_stop(lambda, at + 1 == parts.len(), node.kind);
        if stops {
            return true;
        }
        let default = default_of(node.kind, node.parts.as_slice());
        match seen_after(seen, default) {
            Some(after) => seen = after,
            None => return false,
        }
    }
    true
}

fn is_lambda(kind: NodeKind) -> bool
    ensures { result ≡ is_lambda kind }
{
    matches!(kind, NodeKind::Lambda)
}

fn has_parameters(kind: NodeKind) -> bool
    ensures { result ≡ has_parameters kind }
{
    matches!(kind, NodeKind::Lambda | NodeKind::Parameters)
}

fn is_or(kind: NodeKind) -> bool
    ensures { result ≡ is_or kind }
{
    matches!(kind, NodeKind::OrPattern)
}

fn is_case(kind: NodeKind) -> bool
    ensures { result ≡ is_case kind }
{
    matches!(kind, NodeKind::Case)
}

fn parameters_fit(alloc: Global, tree: &Tree, id: NodeId) -> Result<bool, NoMemory>
    requires linked { IsLinked tree.now }
    requires within { id.0 < length tree.now.nodes }
    ensures { IfOk result (λ fits. fits ≡ parameters_fit (tree_of tree.now id)) }
{
    let names = names_in(alloc, tree, Role::Signature, id)?;
    let node = node_of(tree, id);
    let distinct = are_distinct(alloc, names.as_slice())?;
    let ordered = are_ordered(tree, is_lambda(node.kind), node.parts.as_slice());
    Ok(distinct && ordered)
}

fn captures_of(alloc: Global, tree: &Tree, id: NodeId) -> Result<List<Text>, NoMemory>
    requires linked { IsLinked tree.now }
    requires within { id.0 < length tree.now.nodes }
    ensures { IfOk result (λ names. names ≡ captures (tree_of tree.now id)) }
{
    let names = names_in(alloc, tree, Role::Captured, id)?;
    Ok(names)
}

// Whether a pattern captures just these names, each once.
fn captures_just(alloc: Global, tree: &Tree, wanted: &[Text], id: NodeId) -> Result<bool, NoMemory>
    requires linked { IsLinked tree.now }
    requires within { id.0 < length tree.now.nodes }
    ensures { IfOk result (λ alike. alike ≡ (are_alike wanted.now (captures (tree_of tree.now id)) && are_distinct (captures (tree_of tree.now id)))) }
{
    let names = captures_of(alloc, tree, id)?;
    let alike = are_alike(alloc, wanted, names.as_slice())?;
    let distinct = are_distinct(alloc, names.as_slice())?;
    Ok(alike && distinct)
}

fn capture_alike(
    alloc: Global,
    tree: &Tree,
    wanted: &[Text],
    parts: &[NodeId],
) -> Result<bool, NoMemory>
    requires linked { IsLinked tree.now }
    requires within { AreOlder (length tree.now.nodes) parts.now }
    ensures { IfOk result (λ alike. alike ≡ capture_alike wanted.now (parts_at (trees tree.now) parts.now)) }
{
    for part in parts {
        let alike = captures_just(alloc, tree, wanted, *part)?;
        if !alike {
            return Ok(false);
        }
    }
    Ok(true)
}

fn alternatives_fit(alloc: Global, tree: &Tree, parts: &[NodeId]) -> Result<bool, NoMemory>
    requires linked { IsLinked tree.now }
    requires within { AreOlder (length tree.now.nodes) parts.now }
    ensures { IfOk result (λ fits. fits ≡ alternatives_fit (parts_at (trees tree.now) parts.now)) }
{
    let Some((first, others)) = parts.split_first() else {
        return Ok(true);
    };
    let wanted = captures_of(alloc, tree, *first)?;
    let distinct = are_distinct(alloc, wanted.as_slice())?;
    if !distinct {
        return Ok(false);
    }
    let alike = capture_alike(alloc, tree, wanted.as_slice(), others)?;
    Ok(alike)
}

fn pattern_fits(alloc: Global, tree: &Tree, parts: &[NodeId]) -> Result<bool, NoMemory>
    requires linked { IsLinked tree.now }
    requires within { AreOlder (length tree.now.nodes) parts.now }
    ensures { IfOk result (λ fits. fits ≡ pattern_fits (parts_at (trees tree.now) parts.now)) }
{
    let Some((pattern, _)) = parts.split_first() else {
        return Ok(true);
    };
    let names = captures_of(alloc, tree, *pattern)?;
    let distinct = are_distinct(alloc, names.as_slice())?;
    Ok(distinct)
}

// Whether a node has its parameters, its alternatives or its pattern as they should be.
fn node_fits(alloc: Global, tree: &Tree, id: NodeId) -> Result<bool, NoMemory>
    requires linked { IsLinked tree.now }
    requires within { id.0 < length tree.now.nodes }
    ensures { IfOk result (λ fits. fits ≡ node_fits (tree_of tree.now id)) }
{
    let node = node_of(tree, id);
    if has_parameters(node.kind) {
        parameters_fit(alloc, tree, id)
    } else if is_or(node.kind) {
        alternatives_fit(alloc, tree, node.parts.as_slice())
    } else if is_case(node.kind) {
        pattern_fits(alloc, tree, node.parts.as_slice())
    } else {
        Ok(true)
    }
}

/// Whether each node of a tree has its parameters, its alternatives or its pattern as they should
/// be. `NoMemory` where the names of one could not be stored.
pub fn tree_fits(alloc: Global, tree: &Tree, id: NodeId) -> Result<bool, NoMemory>
    requires linked { IsLinked tree.now }
    requires within { id.0 < length tree.now.nodes }
    ensures { IfOk result (λ fits. fits ≡ tree_fits (tree_of tree.now id)) }
{
    let fits = node_fits(alloc, tree, id)?;
    if !fits {
        return Ok(false);
    }
    let node = node_of(tree, id);
    let parts = node.parts.as_slice();
    for part in parts {
        let fits = tree_fits(alloc, tree, *part)?;
        if !fits {
            return Ok(false);
        }
    }
    Ok(true)
}
