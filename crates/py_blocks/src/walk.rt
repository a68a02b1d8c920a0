//! Trees in an arena, read as the trees that their nodes stand for.
ghost use Rattle.std.specs.Prelude.{◌≡◌, ◌<◌, length, IfSome};
ghost use Rattle.py_base.specs.Tree.{Arena, node, tree_of, trees, parts_at, said, AreOlder, IsNamed, IsLinked};
ghost use Rattle.py_blocks.specs.Facts.{is_async, header, is_suite, is_match, is_bare, is_empty_suite, ends_in_colon, opens_block, is_bare_except, is_return, is_jump, is_word, has};

use py_base::{Node, NodeId, NodeKind, Tree};

/// A word that rules look for in a line.
#[derive(Clone, Copy, Debug, PartialEq, Eq)]
pub enum Sought {
    /// `return`.
    Return,
    /// `break` or `continue`.
    Jump,
}

/// A node of a tree.
pub fn node_of(tree: &Tree, id: NodeId) -> &Node
    requires linked { IsLinked tree.now }
    requires within { id.0 < length tree.now.nodes }
    ensures tree { tree_of tree.now id ≡ node result.now.kind result.now.span (said tree.now.names result.now.word) (parts_at (trees tree.now) result.now.parts) }
    ensures older { AreOlder id.0 result.now.parts }
    ensures named { IsNamed (length tree.now.names) result.now.word }
{
    tree.node(id)
}

fn is_return(kind: NodeKind) -> bool
    ensures { result ≡ is_return kind }
{
    matches!(kind, NodeKind::Return)
}

fn is_jump(kind: NodeKind) -> bool
    ensures { result ≡ is_jump kind }
{
    matches!(kind, NodeKind::Break | NodeKind::Continue)
}

fn is_word(word: Sought, kind: NodeKind) -> bool
    ensures { result ≡ is_word word kind }
{
    match word {
        Sought::Return => is_return(kind),
        Sought::Jump => is_jump(kind),
    }
}

/// Whether some node of a tree is such a word.
pub fn has_word(tree: &Tree, word: Sought, id: NodeId) -> bool
    requires linked { IsLinked tree.now }
    requires within { id.0 < length tree.now.nodes }
    ensures { result ≡ has word (tree_of tree.now id) }
{
    let node = node_of(tree, id);
    if is_word(word, node.kind) {
        return true;
    }
    let parts = node.parts.as_slice();
    for part in parts {
        if has_word(tree, word, *part) {
            return true;
        }
    }
    false
}

fn is_async(kind: NodeKind) -> bool
    ensures { result ≡ is_async kind }
{
    matches!(kind, NodeKind::Async)
}

/// The header behind `async`, and a node of another kind itself.
pub fn header_of(tree: &Tree, id: NodeId) -> NodeId
    requires linked { IsLinked tree.now }
    requires within { id.0 < length tree.now.nodes }
    ensures tree { tree_of tree.now result ≡ header (tree_of tree.now id) }
    ensures within { result.0 < length tree.now.nodes }
{
    let node = node_of(tree, id);
    if !is_async(node.kind) {
        return id;
    }
    match node.parts.as_slice() {
        [] => id,
        [header, ..] => *header,
    }
}

fn is_suite(kind: NodeKind) -> bool
    ensures { result ≡ is_suite kind }
{
    matches!(kind, NodeKind::Suite)
}

fn is_match(kind: NodeKind) -> bool
    ensures { result ≡ is_match kind }
{
    matches!(kind, NodeKind::Match)
}

fn is_bare(kind: NodeKind) -> bool
    ensures { result ≡ is_bare kind }
{
    matches!(kind, NodeKind::Except)
}

fn is_empty_suite(tree: &Tree, id: NodeId) -> bool
    requires linked { IsLinked tree.now }
    requires within { id.0 < length tree.now.nodes }
    ensures { result ≡ is_empty_suite (tree_of tree.now id) }
{
    let node = node_of(tree, id);
    is_suite(node.kind) && node.parts.as_slice().is_empty()
}

// Whether the last of the parts is an empty suite.
fn ends_in_colon(tree: &Tree, parts: &[NodeId]) -> bool
    requires linked { IsLinked tree.now }
    requires within { AreOlder (length tree.now.nodes) parts.now }
    ensures { result ≡ ends_in_colon (parts_at (trees tree.now) parts.now) }
{
    match parts {
        [] => false,
        [.., last] => is_empty_suite(tree, *last),
    }
}

/// Whether a header ends its line.
pub fn opens_block(tree: &Tree, id: NodeId) -> bool
    requires linked { IsLinked tree.now }
    requires within { id.0 < length tree.now.nodes }
    ensures { result ≡ opens_block (tree_of tree.now id) }
{
    let node = node_of(tree, id);
    is_match(node.kind) || ends_in_colon(tree, node.parts.as_slice())
}

/// Whether a header is an `except` without a class.
pub fn is_bare_except(tree: &Tree, id: NodeId) -> bool
    requires linked { IsLinked tree.now }
    requires within { id.0 < length tree.now.nodes }
    ensures { result ≡ is_bare_except (tree_of tree.now id) }
{
    let node = node_of(tree, id);
    is_bare(node.kind) && node.parts.len() == 1
}
