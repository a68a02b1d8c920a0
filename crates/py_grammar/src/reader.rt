//! The reader: from tokens to the one tree that they spell.

ghost use Rattle.std.specs.Prelude.{◌≡◌, ◌==◌, ◌&&◌, nat_le, ◌≤◌, ◌<◌, ◌+◌, ◌*◌, [], ◌∷◌, suc, length, IfOk, IfSome, IfNone, IsSomeAnd, OnErr};
ghost use Rattle.py_base.specs.Tree.{SyntaxTree, tree_of, IsLinked, Grows};
ghost use Rattle.py_grammar.specs.Parse.{peek, begins, goes_on, place_at, step_at, joint_at, opening_at, read_parts, read_begin, read};
ghost use Rattle.py_grammar.specs.Levelled.{IsTreeOf};
ghost use Rattle.py_grammar.specs.declared.found.Item.TheVariants as items;
ghost use Rattle.py_grammar.specs.Found.{AreKnown, pieces_at, FindsTree, FindsParts, Extends, item_words, item_ids, Keeps, IsNewest};
ghost use Rattle.py_grammar.specs.Added.{AddsAtMost, ArePaid};
ghost use Rattle.py_base.specs.OneTree.{AddsOneTree};

use crate::assemble::assemble;
use crate::found::{Found, Item};
use crate::step::Step;
use crate::table::{does_meet, does_reach, edge_of, joints, may_end, openings, places_of};
use crate::terminal::terminal_for;
use crate::words::{Form, Joint, Need, Opening, Place, State, Terminal};
use py_base::{List, NoMemory, NodeId, Tree};
use py_tokens::Token;
use std::alloc::Global;

/// How high a tree may be.
const MOST_HEIGHT: u16 = 256;

fn peek_of(tokens: &[Token]) -> Terminal
    ensures { result ≡ peek tokens.now }
{
    match tokens {
        [] => Terminal::End,
        [word, ..] => terminal_for(word),
    }
}

fn begins_with(need: Need, word: Terminal) -> Option<Opening>
    ensures { result ≡ begins need word }
{
    openings(word)
        .iter()
        .copied()
        .find(|o| does_reach(need, o.form))
}

fn goes_on_with(need: Need, word: Terminal) -> Option<Joint>
    ensures { result ≡ goes_on need word }
{
    joints(word)
        .iter()
        .copied()
        .find(|j| does_reach(need, j.form))
}

fn place_for(state: State, word: Terminal) -> Option<Place>
    ensures { result ≡ place_at state word }
{
    places_of(state)
        .iter()
        .copied()
        .find(|p| begins_with(p.need, word).is_some())
}

#[tactic(auto, unfolding(crate::specs::Parse::step_at))]
fn step_of(state: State, tokens: &[Token]) -> Step
    ensures { result ≡ step_at state tokens.now }
{
    let word = peek_of(tokens);
    if let Some(after) = edge_of(state, word) {
        return Step::Shift(after);
    }
    match place_for(state, word) {
        Some(place) => Step::Descend(place),
        None if may_end(state) => Step::Stop,
        None => Step::Fail,
    }
}

#[tactic(auto, unfolding(crate::specs::Parse::joint_at))]
fn joint_for(need: Need, form: Form, tokens: &[Token]) -> Option<Joint>
    ensures { result ≡ joint_at need form tokens.now }
{
    let joint = goes_on_with(need, peek_of(tokens))?;
    if does_meet(joint.left, form) {
        Some(joint)
    } else {
        None
    }
}

#[tactic(auto, unfolding(crate::specs::Parse::opening_at))]
fn opening_for(need: Need, word: Terminal) -> Option<Opening>
    ensures { result ≡ opening_at need word }
{
    begins_with(need, word)
}

// The items of a form that begins with a token.
fn begun_items<'a>(alloc: Global, word: &'a Token) -> Result<List<Item<'a>>, NoMemory>
    ensures { IfOk result (λ xs. xs ≡ items.Word word.entry ∷ []) }
{
    let mut items = List::new(alloc);
    items.push(Item::Word(word))?;
    Ok(items)
}

// The items of a form that begins with a part and then a token.
fn joined_items<'a>(alloc: Global, left: Found, word: &'a Token) -> Result<List<Item<'a>>, NoMemory>
    ensures { IfOk result (λ xs. xs ≡ items.Part left ∷ items.Word word.entry ∷ []) }
{
    let mut items = List::new(alloc);
    items.push(Item::Part(left))?;
    items.push(Item::Word(word))?;
    Ok(items)
}

// The items of a form from a state on, behind those that are given.
#[cycle(reader)]
fn parts_from<'a>(
    alloc: Global,
    tree: &mut Tree,
    depth: u16,
    state: State,
    first: List<Item<'a>>,
    tokens: &'a [Token],
) -> Result<Option<(List<Item<'a>>, &'a [Token])>, NoMemory>
    requires linked { IsLinked tree.old }
    requires known { AreKnown tree.old first }
    ensures older { Extends tree.old tree.new }
    ensures read { IfOk result (λ o. FindsParts (pieces_at tree.old first.entry) tree.new o (read_parts depth state tokens.now)) }
    ensures keeps { IfOk result (λ o. IfSome o (λ x. Keeps tree.old (item_ids first.entry) tree.new (item_ids x.0))) }
    ensures paid { IfOk result (λ o. IfSome o (λ x. (length (item_words first.entry) ≤ length (item_words x.0)) × ArePaid tree.old (length (item_words first.entry) + length tokens.now) tree.new (length (item_words x.0) + length x.1.now))) }
{
    let mut items = first;
    let mut state = state;
    let mut rest = tokens;
    'parts: loop {
        match step_of(state, rest) {
            Step::Shift(after) => {
                let Some((word, others)) = rest.split_first() else {
                    return Ok(None);
                };
                items.push(Item::Word(word))?;
                state = after;
                rest = others;
            }
            Step::Descend(place) => {
                let Some((found, others)) = tree_from(alloc, tree, depth, place.need, rest)? else {
                    return Ok(None);
                };
                items.push(Item::Part(found))?;
                state = place.after;
                rest = others;
            }
            Step::Stop => return Ok(Some((items, rest))),
            Step::Fail => return Ok(None),
        }
    }
}

// The node that the first token begins.
#[cycle(reader)]
fn begin_from<'a>(
    alloc: Global,
    tree: &mut Tree,
    depth: u16,
    need: Need,
    tokens: &'a [Token],
) -> Result<Option<(Found, &'a [Token])>, NoMemory>
    requires { IsLinked tree.old }
    ensures older { Extends tree.old tree.new }
    ensures read { IfOk result (λ o. FindsTree tree.new o (read_begin depth need tokens.now)) }
    ensures keeps { IfOk result (λ o. IfSome o (λ x. Keeps tree.old [] tree.new (x.0.id ∷ []) × IsNewest tree.old tree.new x.0.id)) }
    ensures paid { IfOk result (λ o. IfSome o (λ x. ArePaid tree.old (length tokens.now) tree.new (length x.1.now))) }
{
    let Some((word, others)) = tokens.split_first() else {
        return Ok(None);
    };
    let Some(opening) = opening_for(need, terminal_for(word)) else {
        return Ok(None);
    };
    let first = begun_items(alloc, word)?;
    let Some((items, rest)) = parts_from(alloc, tree, depth, opening.after, first, others)? else {
        return Ok(None);
    };
    let found = assemble(alloc, tree, opening.form, items.as_slice())?;
    Ok(Some((found, rest)))
}

// The longest tree at the front of the tokens that meets a need.
#[cycle(reader)]
fn tree_from<'a>(
    alloc: Global,
    tree: &mut Tree,
    depth: u16,
    need: Need,
    tokens: &'a [Token],
) -> Result<Option<(Found, &'a [Token])>, NoMemory>
    requires { IsLinked tree.old }
    ensures older { Extends tree.old tree.new }
    ensures read { IfOk result (λ o. FindsTree tree.new o (read depth need tokens.now)) }
    ensures keeps { IfOk result (λ o. IfSome o (λ x. Keeps tree.old [] tree.new (x.0.id ∷ []) × IsNewest tree.old tree.new x.0.id)) }
    ensures paid { IfOk result (λ o. IfSome o (λ x. ArePaid tree.old (length tokens.now) tree.new (length x.1.now))) }
{
    if depth == 0 {
        return Ok(None);
    }
    let Some((begun, behind)) = begin_from(alloc, tree, depth - 1, need, tokens)? else {
        return Ok(None);
    };
    let mut found = begun;
    let mut rest = behind;
    'joints: while let Some(joint) = joint_for(need, found.form, rest) {
        let Some((word, others)) = rest.split_first() else {
            return Ok(None);
        };
        let first = joined_items(alloc, found, word)?;
        let Some((items, others)) = parts_from(alloc, tree, depth - 1, joint.after, first, others)?
        else {
            return Ok(None);
        };
        let next = assemble(alloc, tree, joint.form, items.as_slice())?;
        found = next;
        rest = others;
    }
    if does_meet(need, found.form) {
        Ok(Some((found, rest)))
    } else {
        Ok(None)
    }
}

// Whether what was found is all of the tokens, not too high, and proper.
fn is_whole(found: Found, rest: &[Token]) -> bool
    ensures { result ≡ (((length rest.now == 0) && nat_le found.height 256) && found.proper) }
{
    rest.is_empty() && found.height <= MOST_HEIGHT && found.proper
}

// The tree that all of the tokens spell; where there is none, what was read stays in the arena.
fn whole_from(
    alloc: Global,
    tokens: &[Token],
    need: Need,
    tree: &mut Tree,
) -> Result<Option<NodeId>, NoMemory>
    requires { IsLinked tree.old }
    ensures older { Extends tree.old tree.new }
    ensures found { IfOk result (λ o. IfSome o (λ id. (id.0 < length tree.new.nodes) × IsTreeOf tokens.now need (tree_of tree.new id))) }
    ensures only { IfOk result (λ o. (t : SyntaxTree) → IsTreeOf tokens.now need t → IsSomeAnd o (λ id. tree_of tree.new id ≡ t)) }
    ensures once { IfOk result (λ o. IfSome o (λ id. AddsOneTree tree.old tree.new id)) }
    ensures grows { IfOk result (λ o. IfSome o (λ id. AddsAtMost (3 * length tokens.now) (length tokens.now) tree.old tree.new)) }
{
    let Some((found, rest)) = tree_from(alloc, tree, MOST_HEIGHT, need, tokens)? else {
        return Ok(None);
    };
    if is_whole(found, rest) {
        Ok(Some(found.id))
    } else {
        Ok(None)
    }
}

/// The one tree that the tokens spell and that meets the need: each part has the level that its
/// place asks, it is at most 256 high, and it is proper. `None` exactly where there is none;
/// `NoMemory` where a node or a name could not be stored. After both the tree is as before. What is
/// added is at most three nodes and one name for each token.
///
/// Proper says what the rows of the table can't:
/// - what a comprehension, `for`, `with`, `del` and `=` bind is a name, an attribute, a subscript, `*`
///   and such a target, or targets by commas, bare or in round or square brackets; what is assigned is
///   not one starred entry alone;
/// - outside of what is bound, no `*` stands directly behind `*`, and one starred entry in round
///   brackets has a comma behind it;
/// - behind `name = value` stands no plain argument, and behind `**` neither one nor `*`; `name = value`
///   is no element of a comprehension;
/// - there is one `/` at most, behind a parameter and before each `*` and `**`; there is one `*` at
///   most, directly before a parameter if it has no name; and `**` is the last parameter;
/// - the entries of curly brackets are those of a dict or those of a set;
/// - the value of a field has no lambda outside brackets and quotes, since the `:` would end the value;
/// - a sequence pattern has one `*` at most, the patterns of a class that have no name stand before
///   those by name, and in a pattern nothing is added to an imaginary number with a sign.
///
/// Strings side by side are all of bytes or all of characters. A token has no place in any tree where
/// it is an integer above 2 ^ 127 - 1, a bytes literal that isn't ASCII, or a word or an operator that
/// the language lacks.
///
/// Python 3.12 language reference, sections 6, 7 and 8.
pub fn read_whole(
    alloc: Global,
    tokens: &[Token],
    need: Need,
    tree: &mut Tree,
) -> Result<Option<NodeId>, NoMemory>
    // The older nodes and names stay.
    ensures older { Grows tree.old tree.new }
    // What is given is a tree of the tokens that meets the need.
    ensures found { IfOk result (λ o. IfSome o (λ id. (id.0 < length tree.new.nodes) × IsTreeOf tokens.now need (tree_of tree.new id))) }
    // Each such tree is the one that is given, so that none is given only where there is none.
    ensures only { IfOk result (λ o. (t : SyntaxTree) → IsTreeOf tokens.now need t → IsSomeAnd o (λ id. tree_of tree.new id ≡ t)) }
    // What was added is this one tree: its root is the newest node, and no node is a part twice.
    ensures once { IfOk result (λ o. IfSome o (λ id. AddsOneTree tree.old tree.new id)) }
    // Each token adds at most three nodes and one name.
    ensures grows { AddsAtMost (3 * length tokens.now) (length tokens.now) tree.old tree.new }
    ensures none { IfOk result (λ o. IfNone o (tree.new ≡ tree.old)) }
    ensures err { OnErr result (tree.new ≡ tree.old) }
{
    let nodes = tree.node_count();
    let names = tree.name_count();
    match whole_from(alloc, tokens, need, tree) {
        Ok(Some(id)) => Ok(Some(id)),
        Ok(None) => {
            tree.shrink(nodes, names);
            Ok(None)
        }
        Err(NoMemory) => {
            tree.shrink(nodes, names);
            Err(NoMemory)
        }
    }
}
