//! What is written for an atom: words, and types whose texts stand between them.
ghost use Rattle.std.specs.Prelude.{◌≡◌, ◌==◌, ◌++◌, ◌∷◌, ◌<◌, ◌+◌, ◌^◌, [], true, None, IfOk, OnOk, codes, drop, length};
ghost use Rattle.type_terms.specs.Pieces as text;
ghost use Rattle.type_terms.specs.Types.{type_of};
ghost use Rattle.type_terms.specs.View.{meaning_of};

use crate::atom::{Atom, Slots};
use crate::copy::no_memory;
use crate::facts::{FuncRow, Param, ParamKind, SiteSlots};
use crate::literal_text::literal_text;
use crate::piece::Piece;
use crate::types::Type;
use crate::view::View;
use crate::words::{first_few, three};
use py_base::{ClassId, FuncId, Key, NoMemory, SiteId, Text};
use sqlite_items::Items;
use std::alloc::Global;

/// How many slots of a generic are written.
const MOST_SLOTS: usize = 16;

fn push(pieces: &mut Items<Piece>, piece: Piece) -> Result<(), NoMemory>
    ensures { OnOk result (pieces.new ≡ pieces.old ++ piece ∷ []) }
{
    pieces.push(piece).map_err(no_memory)
}

fn push_word(alloc: Global, pieces: &mut Items<Piece>, word: &str) -> Result<(), NoMemory>
    ensures { OnOk result (pieces.new ≡ pieces.old ++ Piece.Word word.now ∷ []) }
{
    push(pieces, Piece::Word(Text::from_str(alloc, word)?))
}

/// One word.
pub(crate) fn said(alloc: Global, word: Text) -> Result<Items<Piece>, NoMemory>
    ensures { IfOk result (λ pieces. pieces ≡ text.said word) }
{
    let mut pieces = Items::new(alloc);
    push(&mut pieces, Piece::Word(word))?;
    Ok(pieces)
}

/// The type in a slot of a generic.
fn push_slot(
    alloc: Global,
    pieces: &mut Items<Piece>,
    members: &Items<Atom>,
) -> Result<(), NoMemory>
    ensures { OnOk result (pieces.new ≡ pieces.old ++ Piece.Typed (type_of members.now) ∷ []) }
{
    push(pieces, Piece::Typed(Type::of_slot(alloc, members)?))
}

/// What stands before all but the first of a list.
fn comma(first: bool) -> &'static str
    ensures { result.now ≡ text.comma first }
{
    if first { "" } else { ", " }
}

/// What stands for the rest of a list.
fn push_dots(alloc: Global, pieces: &mut Items<Piece>, more: bool) -> Result<(), NoMemory>
    ensures { OnOk result (pieces.new ≡ pieces.old ++ text.dots more) }
{
    if !more {
        return Ok(());
    }
    push_word(alloc, pieces, ", ...")
}

fn push_types(
    alloc: Global,
    pieces: &mut Items<Piece>,
    types: &[Items<Atom>],
) -> Result<(), NoMemory>
    ensures { OnOk result (pieces.new ≡ pieces.old ++ text.types_pieces true types.now) }
{
    for (place, members) in types.iter().enumerate() {
        push_word(alloc, pieces, comma(place == 0))?;
        push_slot(alloc, pieces, members)?;
    }
    Ok(())
}

/// The first so many types, and dots for the rest.
fn push_first_types(
    alloc: Global,
    pieces: &mut Items<Piece>,
    types: &[Items<Atom>],
    most: usize,
) -> Result<(), NoMemory>
    ensures { OnOk result (pieces.new ≡ pieces.old ++ text.first_types most types.now) }
{
    let (first, more) = first_few(types, most);
    push_types(alloc, pieces, first)?;
    push_dots(alloc, pieces, more)
}

/// The slots of a written generic, with at most so many parameters of a Callable.
fn push_slots(
    alloc: Global,
    pieces: &mut Items<Piece>,
    slots: &Slots<Items<Atom>>,
    most: usize,
) -> Result<(), NoMemory>
    ensures { OnOk result (pieces.new ≡ pieces.old ++ text.slots_pieces most slots.now) }
{
    match slots {
        Slots::Each(types) => {
            if types.is_empty() {
                return push_word(alloc, pieces, "()");
            }
            push_first_types(alloc, pieces, types.as_slice(), MOST_SLOTS)
        }
        Slots::Endless(members) => {
            push_slot(alloc, pieces, members)?;
            push_word(alloc, pieces, ", ...")
        }
        Slots::AnyArguments(members) => {
            push_word(alloc, pieces, "..., ")?;
            push_slot(alloc, pieces, members)
        }
        Slots::Arguments(types, members) => {
            push_word(alloc, pieces, "[")?;
            push_first_types(alloc, pieces, types.as_slice(), most)?;
            push_word(alloc, pieces, "], ")?;
            push_slot(alloc, pieces, members)
        }
    }
}

/// The class of a generic and the bracket behind it.
fn generic_head<V: View>(alloc: Global, class: ClassId, view: &V) -> Result<Items<Piece>, NoMemory>
    ensures { IfOk result (λ pieces. pieces ≡ text.said ((V.view view.now).class_word class ++ codes "[")) }
{
    said(alloc, three(alloc, view.class_word(class), "[", "")?)
}

/// A written generic.
fn generic<V: View>(
    alloc: Global,
    class: ClassId,
    slots: &Slots<Items<Atom>>,
    most: usize,
    view: &V,
) -> Result<Items<Piece>, NoMemory>
    ensures { IfOk result (λ pieces. pieces ≡ text.generic_pieces (meaning_of (V.assignment view.now) (V.names view.now) (V.facts view.now) (V.view view.now)) class (text.slots_pieces most slots.now)) }
{
    let mut pieces = generic_head(alloc, class, view)?;
    push_slots(alloc, &mut pieces, slots, most)?;
    push_word(alloc, &mut pieces, "]")?;
    Ok(pieces)
}

fn push_site_slots(
    alloc: Global,
    pieces: &mut Items<Piece>,
    site: SiteId,
    count: u32,
) -> Result<(), NoMemory>
    ensures { OnOk result (pieces.new ≡ pieces.old ++ text.site_slots_pieces site true 0 count) }
{
    for place in 0..count {
        push_word(alloc, pieces, comma(place == 0))?;
        push(pieces, Piece::OfKey(Key::Elem(site, place)))?;
    }
    Ok(())
}

/// The first slots of a site with dots for the rest, or empty brackets.
fn push_filled(
    alloc: Global,
    pieces: &mut Items<Piece>,
    site: SiteId,
    count: u32,
) -> Result<(), NoMemory>
    ensures { OnOk result (pieces.new ≡ pieces.old ++ text.made_pieces site (SiteSlots.Filled count)) }
{
    if count == 0 {
        return push_word(alloc, pieces, "()");
    }
    push_site_slots(alloc, pieces, site, count.min(MOST_SLOTS as u32))?;
    push_dots(alloc, pieces, count > MOST_SLOTS as u32)
}

/// The slots of a site.
fn push_made(
    alloc: Global,
    pieces: &mut Items<Piece>,
    site: SiteId,
    slots: SiteSlots,
) -> Result<(), NoMemory>
    ensures { OnOk result (pieces.new ≡ pieces.old ++ text.made_pieces site slots) }
{
    match slots {
        SiteSlots::Filled(count) => push_filled(alloc, pieces, site, count),
        SiteSlots::Repeated => {
            push(pieces, Piece::OfKey(Key::Elem(site, 0)))?;
            push_word(alloc, pieces, ", ...")
        }
    }
}

/// The value made at a site, as a generic.
fn site_pieces<V: View>(alloc: Global, site: SiteId, view: &V) -> Result<Items<Piece>, NoMemory>
    ensures { IfOk result (λ pieces. pieces ≡ text.site_pieces (meaning_of (V.assignment view.now) (V.names view.now) (V.facts view.now) (V.view view.now)) 0 site None) }
{
    let mut pieces = generic_head(alloc, site.class, view)?;
    push_made(alloc, &mut pieces, site, view.site_slots(site))?;
    push_word(alloc, &mut pieces, "]")?;
    Ok(pieces)
}

/// What stands before a parameter's name.
fn star(kind: ParamKind) -> &'static str
    ensures { result.now ≡ text.star kind }
{
    match kind {
        ParamKind::Star => "*",
        ParamKind::StarStar => "**",
        _ => "",
    }
}

/// A parameter up to its type.
fn param_word<V: View>(
    alloc: Global,
    first: bool,
    param: &Param,
    view: &V,
) -> Result<Text, NoMemory>
    ensures { IfOk result (λ word. word ≡ text.param_word (meaning_of (V.assignment view.now) (V.names view.now) (V.facts view.now) (V.view view.now)) first param.now) }
{
    let lead = three(alloc, comma(first), star(param.kind), view.word(param.name))?;
    three(alloc, lead.as_str(), ": ", "")
}

/// These parameters of a function behind the first so many.
fn push_params<V: View>(
    alloc: Global,
    pieces: &mut Items<Piece>,
    func: FuncId,
    params: &[Param],
    taken: usize,
    view: &V,
) -> Result<(), NoMemory>
    requires { length params.now < 2 ^ 32 }
    ensures { OnOk result (pieces.new ≡ pieces.old ++ text.param_pieces (meaning_of (V.assignment view.now) (V.names view.now) (V.facts view.now) (V.view view.now)) func true taken (drop taken params.now)) }
{
    for place in taken..params.len() {
        let word = param_word(alloc, place == taken, &params[place], view)?;
        push(pieces, Piece::Word(word))?;
        push(pieces, Piece::OfParam(func, place as u32))?;
    }
    Ok(())
}

/// The parameters of a function behind the first so many, up to an end, and dots for the rest.
fn push_first_params<V: View>(
    alloc: Global,
    pieces: &mut Items<Piece>,
    func: FuncId,
    taken: usize,
    end: usize,
    view: &V,
) -> Result<(), NoMemory>
    requires { end < 2 ^ 32 }
    ensures { OnOk result (pieces.new ≡ pieces.old ++ text.params_pieces (meaning_of (V.assignment view.now) (V.names view.now) (V.facts view.now) (V.view view.now)) func taken end ((V.facts view.now).func func).params) }
{
    let (params, more) = first_few(view.func(func).params.as_slice(), end);
    push_params(alloc, pieces, func, params, taken, view)?;
    push_dots(alloc, pieces, more)
}

/// What a call of the function gives by what is written, where that decides.
fn written_result(alloc: Global, row: &FuncRow) -> Result<Option<Type>, NoMemory>
    ensures { IfOk result (λ ty. ty ≡ text.written_result row.now) }
{
    if row.is_async || row.is_generator {
        return Ok(Some(Type::one(alloc, Atom::Unknown)?));
    }
    if row.guard {
        return Ok(Some(Type::bools(alloc)?));
    }
    match &row.result {
        Some(ty) => Ok(Some(ty.copy(alloc)?)),
        None => Ok(None),
    }
}

/// What a call of the function gives.
fn result_piece(alloc: Global, func: FuncId, row: &FuncRow) -> Result<Piece, NoMemory>
    ensures { IfOk result (λ piece. piece ≡ text.typed_or_returned func (text.written_result row.now)) }
{
    match written_result(alloc, row)? {
        Some(ty) => Ok(Piece::Typed(ty)),
        None => Ok(Piece::OfKey(Key::Ret(func))),
    }
}

/// A function without the first so many of its parameters, and at most so many of the others.
fn function_pieces<V: View>(
    alloc: Global,
    most: usize,
    func: FuncId,
    taken: usize,
    view: &V,
) -> Result<Items<Piece>, NoMemory>
    requires { taken + most < 2 ^ 32 }
    ensures { IfOk result (λ pieces. pieces ≡ text.function_pieces (meaning_of (V.assignment view.now) (V.names view.now) (V.facts view.now) (V.view view.now)) most func taken) }
{
    let mut pieces = Items::new(alloc);
    push_word(alloc, &mut pieces, "(")?;
    push_first_params(alloc, &mut pieces, func, taken, taken + most, view)?;
    push_word(alloc, &mut pieces, ") -> ")?;
    push(&mut pieces, result_piece(alloc, func, view.func(func))?)?;
    Ok(pieces)
}

/// The text of an atom that holds no types.
#[tactic(auto, using(crate::proofs::OutOf::outs), unfolding(crate::specs::Pieces::atom_word))]
fn atom_word<V: View>(alloc: Global, atom: &Atom, view: &V) -> Result<Text, NoMemory>
    ensures { IfOk result (λ word. word ≡ text.atom_word (meaning_of (V.assignment view.now) (V.names view.now) (V.facts view.now) (V.view view.now)) atom.now) }
{
    match atom {
        Atom::Lit(value) => literal_text(alloc, value, view),
        Atom::Inst(class) => Text::from_str(alloc, view.class_word(*class)),
        Atom::Class(class) => three(alloc, "type[", view.class_word(*class), "]"),
        Atom::BuiltMethod(row, _) => three(alloc, "def ", view.row_word(*row), ""),
        Atom::BuiltFunc(row) => three(alloc, "def ", view.row_word(*row), ""),
        Atom::Super(_) => Text::from_str(alloc, "super"),
        Atom::Mod(name) => three(alloc, "Module(\"", view.word(*name), "\")"),
        Atom::Special(name) => Text::from_str(alloc, view.word(*name)),
        Atom::Unknown => Text::from_str(alloc, "Unknown"),
        Atom::None => Text::from_str(alloc, "None"),
        _ => Text::from_str(alloc, ""),
    }
}

/// What is written for an atom, with at most so many parameters of a function.
#[tactic(auto, using(crate::proofs::OutOf::outs), unfolding(crate::specs::Pieces::atom_pieces, crate::specs::Pieces::atom_word))]
pub(crate) fn atom_pieces<V: View>(
    alloc: Global,
    most: usize,
    atom: &Atom,
    view: &V,
) -> Result<Items<Piece>, NoMemory>
    requires { most < 2 ^ 31 }
    ensures { IfOk result (λ pieces. pieces ≡ text.atom_pieces (meaning_of (V.assignment view.now) (V.names view.now) (V.facts view.now) (V.view view.now)) most atom.now) }
{
    match atom {
        Atom::Gen(class, slots) => generic(alloc, *class, slots, most, view),
        Atom::Site(site) => match view.func_at(site.node) {
            Some(func) => function_pieces(alloc, most, func, 0, view),
            None => site_pieces(alloc, *site, view),
        },
        Atom::Func(func) => function_pieces(alloc, most, *func, 0, view),
        Atom::Bound(func) => function_pieces(alloc, most, *func, 1, view),
        _ => said(alloc, atom_word(alloc, atom, view)?),
    }
}
