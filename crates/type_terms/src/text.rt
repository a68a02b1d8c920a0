//! The text of a type.
ghost use Rattle.std.specs.Prelude.{◌≡◌, ◌<◌, ◌^◌, ◌++◌, ◌∷◌, [], IfOk, codes, map, if◌then◌else◌};
ghost use Rattle.std.specs.List.{AllByRecursion, flat_map};
ghost use Rattle.type_terms.specs.Asked.{AsksSome, Cancels};
ghost use Rattle.type_terms.specs.Text as spec;
ghost use Rattle.type_terms.specs.View.{meaning_of};

use crate::atom::Atom;
use crate::copy::no_memory;
use crate::piece::Piece;
use crate::pieces::{atom_pieces, said};
use crate::show::Shown;
use crate::shown::{FirstMembers, first_members, shown_as};
use crate::types::Type;
use crate::view::View;
use crate::words::{push_distinct, push_text, with_bars};
use py_base::{NoMemory, Stop, Text};
use sqlite_items::Items;
use std::alloc::Global;

/// How many levels of a type are written.
const LEVELS: u32 = 4;

/// How many members are written at the outermost level, and at each deeper one.
const OUTERMOST: usize = 16;

const DEEPER: usize = 4;

/// The type that a piece stands for.
fn piece_type<V: View>(alloc: Global, piece: &Piece, view: &mut V) -> Result<Type, Stop>
    requires { spec.IsAskable (meaning_of (V.assignment view.old) (V.names view.old) (V.facts view.old) (V.view view.old)) piece.now }
    ensures value { IfOk result (λ ty. ty ≡ spec.piece_type (meaning_of (V.assignment view.old) (V.names view.old) (V.facts view.old) (V.view view.old)) piece.now) }
    ensures same { (meaning_of (V.assignment view.new) (V.names view.new) (V.facts view.new) (V.view view.new)) ≡ (meaning_of (V.assignment view.old) (V.names view.old) (V.facts view.old) (V.view view.old)) }
    ensures stays { V.stays view.old view.new }
    ensures asked { AsksSome (V.asked view.old) (spec.own_keys (meaning_of (V.assignment view.old) (V.names view.old) (V.facts view.old) (V.view view.old)) piece.now) (V.asked view.new) }
    ensures cancels { Cancels (V.seen view.old) (V.seen view.new) result }
{
    match piece {
        Piece::Word(_) => Ok(Type::empty(alloc)),
        Piece::Typed(ty) => Ok(ty.copy(alloc)?),
        Piece::OfKey(key) => view.get(alloc, *key),
        Piece::OfParam(func, place) => view.param(alloc, *func, *place),
    }
}

/// What is written for a member of a type, with so many levels below it.
fn member_pieces<V: View>(
    alloc: Global,
    levels: u32,
    ty: &Type,
    member: &Atom,
    view: &V,
) -> Result<Items<Piece>, NoMemory>
    ensures { IfOk result (λ pieces. pieces ≡ spec.member_pieces (meaning_of (V.assignment view.now) (V.names view.now) (V.facts view.now) (V.view view.now)) levels ty.now member.now) }
{
    match shown_as(ty, member, &mut None, view) {
        Shown::Dropped => Ok(Items::new(alloc)),
        Shown::Whole(class) => said(alloc, Text::from_str(alloc, view.class_word(class))?),
        Shown::Itself => atom_pieces(alloc, params_limit(levels), member, view),
    }
}

/// How many members of a type are written, with so many levels below it.
fn limit(levels: u32) -> usize
    ensures { result ≡ spec.limit levels }
{
    if levels == LEVELS - 1 {
        OUTERMOST
    } else {
        DEEPER
    }
}

/// How many parameters of a function are written, with so many levels below it.
fn params_limit(levels: u32) -> usize
    ensures value { result ≡ spec.params_limit levels }
    ensures few { result < 2 ^ 31 }
{
    if levels == LEVELS - 1 { 64 } else { 16 }
}

/// The text of the type that a piece stands for, with so many levels from it on.
#[cycle(text)]
fn typed_text<V: View>(
    alloc: Global,
    levels: u32,
    piece: &Piece,
    view: &mut V,
) -> Result<Text, Stop>
    requires { spec.IsAskable (meaning_of (V.assignment view.old) (V.names view.old) (V.facts view.old) (V.view view.old)) piece.now }
    ensures value { IfOk result (λ text. text ≡ spec.text (meaning_of (V.assignment view.old) (V.names view.old) (V.facts view.old) (V.view view.old)) levels (spec.piece_type (meaning_of (V.assignment view.old) (V.names view.old) (V.facts view.old) (V.view view.old)) piece.now)) }
    ensures same { (meaning_of (V.assignment view.new) (V.names view.new) (V.facts view.new) (V.view view.new)) ≡ (meaning_of (V.assignment view.old) (V.names view.old) (V.facts view.old) (V.view view.old)) }
    ensures stays { V.stays view.old view.new }
    ensures asked { AsksSome (V.asked view.old) (spec.own_keys (meaning_of (V.assignment view.old) (V.names view.old) (V.facts view.old) (V.view view.old)) piece.now ++ spec.text_keys (meaning_of (V.assignment view.old) (V.names view.old) (V.facts view.old) (V.view view.old)) levels (spec.piece_type (meaning_of (V.assignment view.old) (V.names view.old) (V.facts view.old) (V.view view.old)) piece.now)) (V.asked view.new) }
    ensures cancels { Cancels (V.seen view.old) (V.seen view.new) result }
{
    let ty = piece_type(alloc, piece, view)?;
    text_of(alloc, levels, &ty, view)
}

/// The text of a piece, with so many levels for the types in it.
#[cycle(text)]
fn piece_text<V: View>(
    alloc: Global,
    levels: u32,
    piece: &Piece,
    view: &mut V,
) -> Result<Text, Stop>
    requires { spec.IsAskable (meaning_of (V.assignment view.old) (V.names view.old) (V.facts view.old) (V.view view.old)) piece.now }
    ensures value { IfOk result (λ text. text ≡ spec.piece_text (meaning_of (V.assignment view.old) (V.names view.old) (V.facts view.old) (V.view view.old)) (spec.text (meaning_of (V.assignment view.old) (V.names view.old) (V.facts view.old) (V.view view.old)) levels) piece.now) }
    ensures same { (meaning_of (V.assignment view.new) (V.names view.new) (V.facts view.new) (V.view view.new)) ≡ (meaning_of (V.assignment view.old) (V.names view.old) (V.facts view.old) (V.view view.old)) }
    ensures stays { V.stays view.old view.new }
    ensures asked { AsksSome (V.asked view.old) (spec.piece_keys (meaning_of (V.assignment view.old) (V.names view.old) (V.facts view.old) (V.view view.old)) levels (spec.text_keys (meaning_of (V.assignment view.old) (V.names view.old) (V.facts view.old) (V.view view.old)) levels) piece.now) (V.asked view.new) }
    ensures cancels { Cancels (V.seen view.old) (V.seen view.new) result }
{
    if let Piece::Word(word) = piece {
        return Ok(Text::from_str(alloc, word.as_str())?);
    }
    if levels == 0 {
        return Ok(Text::from_str(alloc, "...")?);
    }
    typed_text(alloc, levels, piece, view)
}

/// The texts of pieces, one after another.
#[cycle(text)]
fn pieces_text<V: View>(
    alloc: Global,
    levels: u32,
    pieces: &[Piece],
    view: &mut V,
) -> Result<Text, Stop>
    requires { AllByRecursion (spec.IsAskable (meaning_of (V.assignment view.old) (V.names view.old) (V.facts view.old) (V.view view.old))) pieces.now }
    ensures value { IfOk result (λ text. text ≡ flat_map (spec.piece_text (meaning_of (V.assignment view.old) (V.names view.old) (V.facts view.old) (V.view view.old)) (spec.text (meaning_of (V.assignment view.old) (V.names view.old) (V.facts view.old) (V.view view.old)) levels)) pieces.now) }
    ensures same { (meaning_of (V.assignment view.new) (V.names view.new) (V.facts view.new) (V.view view.new)) ≡ (meaning_of (V.assignment view.old) (V.names view.old) (V.facts view.old) (V.view view.old)) }
    ensures stays { V.stays view.old view.new }
    ensures asked { AsksSome (V.asked view.old) (flat_map (spec.piece_keys (meaning_of (V.assignment view.old) (V.names view.old) (V.facts view.old) (V.view view.old)) levels (spec.text_keys (meaning_of (V.assignment view.old) (V.names view.old) (V.facts view.old) (V.view view.old)) levels)) pieces.now) (V.asked view.new) }
    ensures cancels { Cancels (V.seen view.old) (V.seen view.new) result }
{
    let mut all = String::new(alloc);
    for piece in pieces {
        let text = piece_text(alloc, levels, piece, view)?;
        push_text(&mut all, &text)?;
    }
    Ok(Text::from_string(all))
}

/// The text of a member of a type, with so many levels for the types in it.
#[cycle(text)]
fn member_text<V: View>(
    alloc: Global,
    levels: u32,
    ty: &Type,
    member: &Atom,
    view: &mut V,
) -> Result<Text, Stop>
    ensures value { IfOk result (λ text. text ≡ spec.member_text (meaning_of (V.assignment view.old) (V.names view.old) (V.facts view.old) (V.view view.old)) levels (spec.text (meaning_of (V.assignment view.old) (V.names view.old) (V.facts view.old) (V.view view.old)) levels) ty.now member.now) }
    ensures same { (meaning_of (V.assignment view.new) (V.names view.new) (V.facts view.new) (V.view view.new)) ≡ (meaning_of (V.assignment view.old) (V.names view.old) (V.facts view.old) (V.view view.old)) }
    ensures stays { V.stays view.old view.new }
    ensures asked { AsksSome (V.asked view.old) (spec.member_keys (meaning_of (V.assignment view.old) (V.names view.old) (V.facts view.old) (V.view view.old)) levels (spec.text_keys (meaning_of (V.assignment view.old) (V.names view.old) (V.facts view.old) (V.view view.old)) levels) ty.now member.now) (V.asked view.new) }
    ensures cancels { Cancels (V.seen view.old) (V.seen view.new) result }
{
    let pieces = member_pieces(alloc, levels, ty, member, view)?;
    pieces_text(alloc, levels, pieces.as_slice(), view)
}

/// The texts of members of a type, each once.
#[cycle(text)]
fn member_texts<V: View>(
    alloc: Global,
    levels: u32,
    ty: &Type,
    members: &[Atom],
    view: &mut V,
) -> Result<Items<Text>, Stop>
    ensures value { IfOk result (λ texts. texts ≡ spec.distinct (map (spec.member_text (meaning_of (V.assignment view.old) (V.names view.old) (V.facts view.old) (V.view view.old)) levels (spec.text (meaning_of (V.assignment view.old) (V.names view.old) (V.facts view.old) (V.view view.old)) levels) ty.now) members.now)) }
    ensures same { (meaning_of (V.assignment view.new) (V.names view.new) (V.facts view.new) (V.view view.new)) ≡ (meaning_of (V.assignment view.old) (V.names view.old) (V.facts view.old) (V.view view.old)) }
    ensures stays { V.stays view.old view.new }
    ensures asked { AsksSome (V.asked view.old) (flat_map (spec.member_keys (meaning_of (V.assignment view.old) (V.names view.old) (V.facts view.old) (V.view view.old)) levels (spec.text_keys (meaning_of (V.assignment view.old) (V.names view.old) (V.facts view.old) (V.view view.old)) levels) ty.now) members.now) (V.asked view.new) }
    ensures cancels { Cancels (V.seen view.old) (V.seen view.new) result }
{
    let mut texts = Items::new(alloc);
    for member in members {
        let text = member_text(alloc, levels, ty, member, view)?;
        push_distinct(&mut texts, text)?;
    }
    Ok(texts)
}

/// The texts of the members of a type with bars between, with so many levels for the types in them.
#[cycle(text)]
fn members_text<V: View>(alloc: Global, levels: u32, ty: &Type, view: &mut V) -> Result<Text, Stop>
    ensures value { IfOk result (λ text. text ≡ spec.members_text (meaning_of (V.assignment view.old) (V.names view.old) (V.facts view.old) (V.view view.old)) levels (spec.text (meaning_of (V.assignment view.old) (V.names view.old) (V.facts view.old) (V.view view.old)) levels) ty.now) }
    ensures same { (meaning_of (V.assignment view.new) (V.names view.new) (V.facts view.new) (V.view view.new)) ≡ (meaning_of (V.assignment view.old) (V.names view.old) (V.facts view.old) (V.view view.old)) }
    ensures stays { V.stays view.old view.new }
    ensures asked { AsksSome (V.asked view.old) (spec.members_keys (meaning_of (V.assignment view.old) (V.names view.old) (V.facts view.old) (V.view view.old)) levels (spec.text_keys (meaning_of (V.assignment view.old) (V.names view.old) (V.facts view.old) (V.view view.old)) levels) ty.now) (V.asked view.new) }
    ensures cancels { Cancels (V.seen view.old) (V.seen view.new) result }
{
    let FirstMembers { members, more } = first_members(alloc, limit(levels), ty, view)?;
    let texts = member_texts(alloc, levels, ty, members.as_slice(), view)?;
    Ok(all_texts(alloc, texts, more)?)
}

/// The text of a type, with so many levels from it on.
#[cycle(text)]
fn text_of<V: View>(alloc: Global, levels: u32, ty: &Type, view: &mut V) -> Result<Text, Stop>
    ensures value { IfOk result (λ text. text ≡ spec.text (meaning_of (V.assignment view.old) (V.names view.old) (V.facts view.old) (V.view view.old)) levels ty.now) }
    ensures same { (meaning_of (V.assignment view.new) (V.names view.new) (V.facts view.new) (V.view view.new)) ≡ (meaning_of (V.assignment view.old) (V.names view.old) (V.facts view.old) (V.view view.old)) }
    ensures stays { V.stays view.old view.new }
    ensures asked { AsksSome (V.asked view.old) (spec.text_keys (meaning_of (V.assignment view.old) (V.names view.old) (V.facts view.old) (V.view view.old)) levels ty.now) (V.asked view.new) }
    ensures cancels { Cancels (V.seen view.old) (V.seen view.new) result }
{
    if levels == 0 {
        return Ok(Text::from_str(alloc, "...")?);
    }
    members_text(alloc, levels - 1, ty, view)
}

/// Texts with a bar between, and dots behind them where there are more.
fn all_texts(alloc: Global, texts: Items<Text>, more: bool) -> Result<Text, NoMemory>
    ensures { IfOk result (λ text. text ≡ spec.barred (texts ++ (if more then codes "..." ∷ [] else []))) }
{
    let mut texts = texts;
    if more {
        texts
            .push(Text::from_str(alloc, "...")?)
            .map_err(no_memory)?;
    }
    with_bars(alloc, texts.as_slice())
}

/// The text of a type as diagnostics and hovers print it: at most 4 levels, 16 members at the outermost and
/// 4 at each deeper one, each text once; at most 16 slots, and 64 parameters at the outermost level and 16
/// at each deeper one. The view keeps what its own calls keep. `Cancelled` comes only where
/// the count of seen raises of the view rose in this call.
pub fn type_text<V: View>(alloc: Global, ty: &Type, view: &mut V) -> Result<Text, Stop>
    ensures value { IfOk result (λ text. text ≡ spec.text (meaning_of (V.assignment view.old) (V.names view.old) (V.facts view.old) (V.view view.old)) 4 ty.now) }
    ensures same { meaning_of (V.assignment view.new) (V.names view.new) (V.facts view.new) (V.view view.new) ≡ meaning_of (V.assignment view.old) (V.names view.old) (V.facts view.old) (V.view view.old) }
    ensures stays { V.stays view.old view.new }
    ensures asked { AsksSome (V.asked view.old) (spec.text_keys (meaning_of (V.assignment view.old) (V.names view.old) (V.facts view.old) (V.view view.old)) 4 ty.now) (V.asked view.new) }
    ensures cancels { Cancels (V.seen view.old) (V.seen view.new) result }
{
    text_of(alloc, LEVELS, ty, view)
}
