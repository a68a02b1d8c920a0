//! Nodes over what was read.
ghost use Rattle.std.specs.Prelude.{◌≡◌, ◌<◌, ◌∷◌, ◌++◌, ◌+◌, ◌*◌, ◌&&◌, [], suc, min, max, map, length, fold, IfOk, OnOk};
ghost use Rattle.std.specs.List.{list_all, list_any};
ghost use Rattle.py_grammar.specs.Proper.{begins_imaginary};
ghost use Rattle.py_base.specs.Tree.{Arena, said, node, tree_of, IsNamed, IsLinked, Grows};
ghost use Rattle.py_grammar.specs.Meaning.{kept_one, kept, listed, one_node, assembled, leaf_of, takes_name, is_name, is_clause, has_arguments, called};
ghost use Rattle.py_grammar.specs.Added.{AddsAtMost, one_if, unless};
ghost use Rattle.py_grammar.specs.Found.{IsKnown, AllKnown, AreKnown, piece_at, pieces_at, trees_at, is_part_next, one_assigned_over, assigned_over, parts_proper_over, begins_unreal_over, begins_signed_over, faulty_over, signed_over, unreal_over, proper_over, target_over, colon_over, highest, capped, Extends, item_words, item_ids, found_ids, is_clause_item, Keeps, IsNewest};
ghost use Rattle.py_grammar.specs.declared.found.Item.TheVariants as items;

use crate::found::{Found, Item};
use crate::order::{
    Binding, binding_of, does_enclose, does_fit, is_binary, is_case, is_field, is_lambda,
    is_name_like, is_of_targets, is_starred, is_strings, is_unary,
};
use crate::room::add;
use crate::table::plain_of;
use crate::terminal::terminal_for;
use crate::word::{is_part_first, kind_of, leaf_word, mark_of, span_over, word_for};
use crate::words::Form;
use py_base::{List, NoMemory, Node, NodeId, NodeKind, Span, Tree, Word};
use py_tokens::Token;
use std::alloc::Global;

fn are_all_proper(parts: &[Found]) -> bool
    ensures { result ≡ list_all (λ x. x.proper) parts.now }
{
    parts.iter().all(|part| part.proper)
}

fn are_all_targets(parts: &[Found]) -> bool
    ensures { result ≡ list_all (λ x. x.target) parts.now }
{
    parts.iter().all(|part| part.target)
}

fn have_colon(parts: &[Found]) -> bool
    ensures { result ≡ list_any (λ x. x.colon) parts.now }
{
    parts.iter().any(|part| part.colon)
}

fn does_begin_unreal(parts: &[Found]) -> bool
    ensures { result ≡ begins_unreal_over parts.now }
{
    match parts {
        [] => false,
        [first, ..] => first.unreal,
    }
}

fn does_begin_signed(parts: &[Found]) -> bool
    ensures { result ≡ begins_signed_over parts.now }
{
    match parts {
        [] => false,
        [first, ..] => first.signed,
    }
}

fn does_begin_imaginary(parts: &[Found]) -> bool
    ensures { result ≡ begins_imaginary (map (λ x. x.kind) parts.now) }
{
    match parts {
        [] => false,
        [first, ..] => matches!(first.kind, NodeKind::Imaginary),
    }
}

fn are_unreal(parts: &[Found]) -> bool
    ensures { result ≡ list_any (λ x. x.unreal) parts.now }
{
    parts.iter().any(|part| part.unreal)
}

// Whether it is a field whose value a `:` would end too soon, or a case whose pattern has a number of
// two imaginary parts.
fn is_faulty(kind: NodeKind, parts: &[Found]) -> bool
    ensures { result ≡ faulty_over kind parts.now }
{
    (is_field(kind) && have_colon(parts)) || (is_case(kind) && does_begin_unreal(parts))
}

fn is_signed_over(kind: NodeKind, parts: &[Found]) -> bool
    ensures { result ≡ signed_over kind parts.now }
{
    is_unary(kind) && does_begin_imaginary(parts)
}

fn is_unreal_over(kind: NodeKind, parts: &[Found]) -> bool
    ensures { result ≡ unreal_over kind parts.now }
{
    (is_binary(kind) && does_begin_signed(parts)) || (!is_strings(kind) && are_unreal(parts))
}

fn has_colon_over(kind: NodeKind, parts: &[Found]) -> bool
    ensures { result ≡ colon_over kind parts.now }
{
    is_lambda(kind) || (!does_enclose(kind) && have_colon(parts))
}

// Whether a part of an assignment before others is a target, or as the last what is assigned.
fn is_assigned(part: &Found, behind: &[Found]) -> bool
    ensures { result ≡ one_assigned_over part.now behind.now }
{
    match behind {
        [] => part.proper && !is_starred(part.kind),
        [_, ..] => part.target,
    }
}

// Whether all but the last are targets, and the last is what is assigned to them.
fn are_assigned(parts: &[Found]) -> bool
    ensures { result ≡ assigned_over parts.now }
{
    let mut rest = parts;
    'parts: while let Some((part, behind)) = rest.split_first() {
        if !is_assigned(part, behind) {
            return false;
        }
        rest = behind;
    }
    true
}

// Whether the parts are proper, those that are bound as targets.
fn are_parts_proper(binding: Binding, parts: &[Found]) -> bool
    ensures { result ≡ parts_proper_over binding parts.now }
{
    let Some((first, others)) = parts.split_first() else {
        return true;
    };
    match binding {
        Binding::Nothing => first.proper && are_all_proper(others),
        Binding::First => first.target && are_all_proper(others),
        Binding::AllButFirst => first.proper && are_all_targets(others),
        Binding::AllButLast => are_assigned(parts),
    }
}

fn is_proper_over(kind: NodeKind, parts: &[Found]) -> bool
    ensures { result ≡ proper_over kind parts.now }
{
    are_parts_proper(binding_of(kind), parts) && does_fit(kind, parts) && !is_faulty(kind, parts)
}

fn is_target_over(kind: NodeKind, parts: &[Found]) -> bool
    ensures { result ≡ target_over kind parts.now }
{
    (is_name_like(kind) && are_all_proper(parts)) || (is_of_targets(kind) && are_all_targets(parts))
}

// The greatest height of the parts, as far as it is told.
fn highest_of(parts: &[Found]) -> u16
    ensures { result ≡ fold (λ m x. max m x.height) 0 parts.now }
{
    parts
        .iter()
        .fold(0, |most: u16, part| most.max(part.height))
}

// The height of a node over parts, up to one above the limit.
fn height_over(parts: &[Found]) -> u16
    ensures { result ≡ min (min (fold (λ m x. max m x.height) 0 parts.now) 256 + 1) 257 }
{
    (highest_of(parts).min(256) + 1).min(257)
}

fn ids_of(alloc: Global, parts: &[Found]) -> Result<List<NodeId>, NoMemory>
    ensures { IfOk result (λ ids. ids ≡ map (λ x. x.id) parts.now) }
{
    let mut ids = List::new(alloc);
    for part in parts {
        ids.push(part.id)?;
    }
    Ok(ids)
}

// Adds a node over parts that are known.
fn add_node(
    alloc: Global,
    tree: &mut Tree,
    form: Form,
    kind: NodeKind,
    span: Span,
    word: Word,
    parts: &[Found],
) -> Result<Found, NoMemory>
    requires linked { IsLinked tree.old }
    requires known { AllKnown tree.old parts.now }
    requires named { IsNamed (length tree.old.names) word }
    ensures older { Extends tree.old tree.new }
    ensures node { IfOk result (λ x. IsKnown tree.new x × (x.form ≡ form) × (tree_of tree.new x.id ≡ node kind span (said tree.old.names word) (listed (trees_at tree.old parts.now)))) }
    ensures keeps { IfOk result (λ x. Keeps tree.old (found_ids parts.now) tree.new (x.id ∷ []) × IsNewest tree.old tree.new x.id) }
    ensures grows { OnOk result (AddsAtMost 1 0 tree.old tree.new) }
{
    let height = height_over(parts);
    let proper = is_proper_over(kind, parts);
    let target = is_target_over(kind, parts);
    let colon = has_colon_over(kind, parts);
    let signed = is_signed_over(kind, parts);
    let unreal = is_unreal_over(kind, parts);
    let ids = ids_of(alloc, parts)?;
    let id = add(
        tree,
        Node {
            kind,
            span,
            parts: ids,
            word,
        },
    )?;
    Ok(Found {
        id,
        form,
        kind,
        span,
        height,
        proper,
        target,
        colon,
        signed,
        unreal,
    })
}

// Adds the leaf that a token leaves.
fn add_leaf(
    alloc: Global,
    tree: &mut Tree,
    kind: NodeKind,
    token: &Token,
) -> Result<Found, NoMemory>
    requires { IsLinked tree.old }
    ensures older { Extends tree.old tree.new }
    ensures leaf { IfOk result (λ x. IsKnown tree.new x × (tree_of tree.new x.id ≡ leaf_of kind token.now)) }
    ensures keeps { IfOk result (λ x. Keeps tree.old [] tree.new (x.id ∷ [])) }
    ensures grows { OnOk result (AddsAtMost 1 (one_if (is_name kind)) tree.old tree.new) }
{
    let word = leaf_word(tree, kind, token)?;
    let leaf = add_node(alloc, tree, Form::Name, kind, token.span, word, &[])?;
    Ok(leaf)
}

// Adds what is kept of an item, before others, to the parts.
fn keep(
    alloc: Global,
    tree: &mut Tree,
    form: Form,
    item: &Item,
    behind: &[Item],
    parts: &mut List<Found>,
) -> Result<(), NoMemory>
    requires linked { IsLinked tree.old }
    requires known { AreKnown tree.old (item.now ∷ []) }
    requires kept { AllKnown tree.old parts.old }
    ensures older { Extends tree.old tree.new }
    ensures kept { OnOk result (AllKnown tree.new parts.new × (trees_at tree.new parts.new ≡ trees_at tree.old parts.old ++ kept_one form (piece_at tree.old item.now) (is_part_next behind.now))) }
    ensures keeps { OnOk result (Keeps tree.old (found_ids parts.old ++ item_ids (item.now ∷ [])) tree.new (found_ids parts.new)) }
    ensures grows { OnOk result (AddsAtMost (length (item_words (item.now ∷ []))) (unless (takes_name form) (length (item_words (item.now ∷ [])))) tree.old tree.new) }
{
    match *item {
        Item::Part(found) => {
            parts.push(found)?;
            Ok(())
        }
        Item::Word(token) => match mark_of(
            form,
            plain_of(terminal_for(token)),
            is_part_first(behind),
        ) {
            None => Ok(()),
            Some(kind) => {
                let leaf = add_leaf(alloc, tree, kind, token)?;
                parts.push(leaf)?;
                Ok(())
            }
        },
    }
}

// The parts of a node over these items.
fn kept_parts(
    alloc: Global,
    tree: &mut Tree,
    form: Form,
    items: &[Item],
) -> Result<List<Found>, NoMemory>
    requires linked { IsLinked tree.old }
    requires known { AreKnown tree.old items.now }
    ensures older { Extends tree.old tree.new }
    ensures kept { IfOk result (λ v. AllKnown tree.new v × (trees_at tree.new v ≡ kept form (pieces_at tree.old items.now))) }
    ensures keeps { IfOk result (λ v. Keeps tree.old (item_ids items.now) tree.new (found_ids v)) }
    ensures grows { OnOk result (AddsAtMost (length (item_words items.now)) (unless (takes_name form) (length (item_words items.now))) tree.old tree.new) }
{
    let mut parts = List::new(alloc);
    'items: for at in 0..items.len() {
        keep(alloc, tree, form, &items[at], &items[at + 1..], &mut parts)?;
    }
    Ok(parts)
}

// Adds the node of a form over its items as they stand.
fn add_form(alloc: Global, tree: &mut Tree, form: Form, items: &[Item]) -> Result<Found, NoMemory>
    requires linked { IsLinked tree.old }
    requires known { AreKnown tree.old items.now }
    ensures older { Extends tree.old tree.new }
    ensures node { IfOk result (λ x. IsKnown tree.new x × (x.form ≡ form) × (tree_of tree.new x.id ≡ one_node form (pieces_at tree.old items.now))) }
    ensures keeps { IfOk result (λ x. Keeps tree.old (item_ids items.now) tree.new (x.id ∷ []) × IsNewest tree.old tree.new x.id) }
    ensures grows { OnOk result (AddsAtMost (length (item_words items.now) + 1) (one_if (takes_name form) + unless (takes_name form) (length (item_words items.now))) tree.old tree.new) }
{
    let word = word_for(alloc, tree, form, items)?;
    let parts = kept_parts(alloc, tree, form, items)?;
    let kind = kind_of(form, items);
    let span = span_over(items);
    let found = add_node(alloc, tree, form, kind, span, word, parts.as_slice())?;
    Ok(found)
}

fn is_clause(kind: NodeKind) -> bool
    ensures { result ≡ is_clause kind }
{
    matches!(
        kind,
        NodeKind::ComprehensionFor | NodeKind::AsyncComprehensionFor
    )
}

fn is_clause_item(item: &Item) -> bool
    ensures { result ≡ is_clause_item item.now }
{
    match *item {
        Item::Word(_) => false,
        Item::Part(found) => is_clause(found.kind),
    }
}

fn has_arguments(form: Form) -> bool
    ensures { result ≡ has_arguments form }
{
    matches!(form, Form::Call | Form::Arguments)
}

fn has_clause(items: &[Item]) -> bool
    ensures { result ≡ list_any is_clause_item items.now }
{
    items.iter().any(|item| is_clause_item(item))
}

// Whether the items are arguments, and they are a comprehension alone.
fn is_comprehension(form: Form, items: &[Item]) -> bool
    ensures { result ≡ (has_arguments form && list_any is_clause_item items.now) }
{
    has_arguments(form) && has_clause(items)
}

// How many items stand before the brackets.
fn called(form: Form) -> usize
    ensures { result ≡ called form }
{
    match form {
        Form::Call => 1,
        _ => 0,
    }
}

fn with_part<'a>(alloc: Global, front: &[Item<'a>], part: Found) -> Result<List<Item<'a>>, NoMemory>
    ensures { IfOk result (λ xs. xs ≡ front.now ++ items.Part part ∷ []) }
{
    let mut longer = Vec::new(alloc);
    longer.extend_from_slice(front)?;
    longer.push(Item::Part(part))?;
    Ok(List::from_vec(longer))
}

/// Adds the node of a form over its items, and before it that of a comprehension which is its only
/// argument. `NoMemory` where they could not be stored.
pub fn assemble(
    alloc: Global,
    tree: &mut Tree,
    form: Form,
    items: &[Item],
) -> Result<Found, NoMemory>
    requires linked { IsLinked tree.old }
    requires known { AreKnown tree.old items.now }
    ensures older { Extends tree.old tree.new }
    ensures node { IfOk result (λ x. IsKnown tree.new x × (x.form ≡ form) × (tree_of tree.new x.id ≡ assembled form (pieces_at tree.old items.now))) }
    ensures keeps { IfOk result (λ x. Keeps tree.old (item_ids items.now) tree.new (x.id ∷ []) × IsNewest tree.old tree.new x.id) }
    ensures grows { OnOk result (0 < length (item_words items.now) → AddsAtMost (3 * length (item_words items.now)) (length (item_words items.now)) tree.old tree.new) }
{
    if !is_comprehension(form, items) {
        return add_form(alloc, tree, form, items);
    }
    let (front, brackets) = items.split_at(called(form));
    let part = add_form(alloc, tree, Form::Round, brackets)?;
    let whole = with_part(alloc, front, part)?;
    let found = add_form(alloc, tree, form, whole.as_slice())?;
    Ok(found)
}
