//! Expressions by their level.
ghost use Rattle.std.specs.Prelude.{◌≡◌, ◌<◌, ◌*◌, ℕ, List, length, IfOk, IfSome, IfNone, IsSomeAnd, OnErr};
ghost use Rattle.py_base.specs.Tree.{SyntaxTree, tree_of, Grows};
ghost use Rattle.py_base.specs.OneTree.{AddsOneTree};
ghost use Rattle.py_tokens.specs.declared.lines.Token.{Token};
ghost use Rattle.py_grammar.specs.Added.{AddsAtMost};
ghost use Rattle.py_grammar.specs.Levelled.{IsTreeOf};
ghost use Rattle.py_exprs.specs.Levels.{need_at};

use py_base::{NoMemory, NodeId, Tree};
use py_grammar::{Need, read_whole};
use py_tokens::Token;
use std::alloc::Global;

fn need_of(level: u8) -> Need
    ensures { result ≡ need_at level }
{
    match level {
        0 => Need::Expressions,
        1 => Need::Named,
        2 => Need::Expression,
        3 => Need::Disjunction,
        4 => Need::Conjunction,
        5 => Need::Inversion,
        6 => Need::Comparison,
        7 => Need::BitOr,
        8 => Need::BitXor,
        9 => Need::BitAnd,
        10 => Need::Shift,
        11 => Need::Sum,
        12 => Need::Term,
        13 => Need::Factor,
        14 => Need::Power,
        15 => Need::Await,
        16 => Need::Primary,
        17 => Need::Atom,
        _ => Need::Nothing,
    }
}

/// The tree of an expression. The level is the mark of the place where it stands: 0 takes entries
/// by commas and forms from level 2 on, any other number takes forms of at least that level.
///
/// `None` exactly where the tokens spell no such tree: one in which each part has the level that
/// its place asks, arguments, parameters, targets and the entries of brackets stand as they may,
/// and which is at most 256 high. `NoMemory` where a node or a name could not be stored. After
/// both the tree is as before. What is added is at most three nodes and one name for each token. Time
/// goes by the number of tokens.
///
/// Python 3.12 language reference, section 6, with its table of precedence in 6.17.
pub fn expression(
    alloc: Global,
    tokens: &[Token],
    level: u8,
    tree: &mut Tree,
) -> Result<Option<NodeId>, NoMemory>
    // The older nodes and names stay.
    ensures older { Grows tree.old tree.new }
    // What is given is a tree of the level that the tokens spell.
    ensures found { IfOk result (λ o. IfSome o (λ id. (id.0 < length tree.new.nodes) × IsTreeOf tokens.now (need_at level) (tree_of tree.new id))) }
    // Each such tree is the one that is given, so that none is given only where there is none.
    ensures only { IfOk result (λ o. (t : SyntaxTree) → IsTreeOf tokens.now (need_at level) t → IsSomeAnd o (λ id. tree_of tree.new id ≡ t)) }
    // What was added is this one tree: its root is the newest node, and no node is a part twice.
    ensures once { IfOk result (λ o. IfSome o (λ id. AddsOneTree tree.old tree.new id)) }
    // Each token adds at most three nodes and one name.
    ensures grows { AddsAtMost (3 * length tokens.now) (length tokens.now) tree.old tree.new }
    ensures none { IfOk result (λ o. IfNone o (tree.new ≡ tree.old)) }
    ensures err { OnErr result (tree.new ≡ tree.old) }
{
    read_whole(alloc, tokens, need_of(level), tree)
}

/// No tokens have two trees of a level.
pub fn one_tree()
    ensures { (tokens : List Token) (level : ℕ) (t u : SyntaxTree) → IsTreeOf tokens (need_at level) t → IsTreeOf tokens (need_at level) u → t ≡ u }
{
    py_grammar::one_tree();
}
