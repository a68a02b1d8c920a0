//! Lines by their keywords.
ghost use Rattle.std.specs.Prelude.{◌≡◌, ◌<◌, ◌*◌, List, length, IfOk, IfSome, IfNone, IsSomeAnd, OnErr};
ghost use Rattle.py_base.specs.Tree.{SyntaxTree, tree_of, Grows};
ghost use Rattle.py_base.specs.OneTree.{AddsOneTree};
ghost use Rattle.py_tokens.specs.declared.lines.Token.{Token};
ghost use Rattle.py_grammar.specs.Added.{AddsAtMost};
ghost use Rattle.py_stmts.specs.Line.{IsLineTree};

use py_base::{NoMemory, NodeId, Tree};
use py_grammar::{Need, read_whole};
use py_tokens::LogicalLine;
use std::alloc::Global;

/// The tree of a line: simple statements, a header or a decorator. A line with a soft keyword is
/// read with it as a keyword where that has a tree, and so are the items of a `with` in round
/// brackets.
///
/// `None` exactly where the tokens spell no such tree: one in which each part has the level that its
/// place asks, targets can be bound, arguments, parameters and patterns stand as they may, and which
/// is at most 256 high. It reads the tokens whatever the line's fault is: a caller asks for the
/// fault first. `NoMemory` where a node or a name could not be stored. After both the tree is as
/// before. What is added is at most three nodes and one name for each token. Time goes by the number of
/// tokens.
///
/// Python 3.12 language reference, sections 7 and 8.
pub fn line_tree(
    alloc: Global,
    line: &LogicalLine,
    tree: &mut Tree,
) -> Result<Option<NodeId>, NoMemory>
    // The older nodes and names stay.
    ensures older { Grows tree.old tree.new }
    // What is given is the tree of the line.
    ensures found { IfOk result (λ o. IfSome o (λ id. (id.0 < length tree.new.nodes) × IsLineTree line.now.tokens (tree_of tree.new id))) }
    // Each such tree is the one that is given, so that none is given only where there is none.
    ensures only { IfOk result (λ o. (t : SyntaxTree) → IsLineTree line.now.tokens t → IsSomeAnd o (λ id. tree_of tree.new id ≡ t)) }
    // What was added is this one tree: its root is the newest node, and no node is a part twice.
    ensures once { IfOk result (λ o. IfSome o (λ id. AddsOneTree tree.old tree.new id)) }
    // Each token adds at most three nodes and one name.
    ensures grows { AddsAtMost (3 * length line.now.tokens) (length line.now.tokens) tree.old tree.new }
    ensures none { IfOk result (λ o. IfNone o (tree.new ≡ tree.old)) }
    ensures err { OnErr result (tree.new ≡ tree.old) }
{
    let tokens = line.tokens.as_slice();
    match read_whole(alloc, tokens, Need::KeywordLine, tree)? {
        Some(id) => Ok(Some(id)),
        None => {
            let found = read_whole(alloc, tokens, Need::Line, tree)?;
            Ok(found)
        }
    }
}

/// No line has two trees.
pub fn one_line_tree()
    ensures { (tokens : List Token) (t u : SyntaxTree) → IsLineTree tokens t → IsLineTree tokens u → t ≡ u }
{
    py_grammar::one_tree();
}
