//! The slots of generics and of values made at a site.
ghost use Rattle.std.specs.Prelude.{◌≡◌, IfOk};
ghost use Rattle.op_rules.specs.Slots as slots;
ghost use Rattle.op_rules.specs.Steps.{IsValue, IsFlat};
ghost use Rattle.op_rules.specs.World.{World};

use crate::classes::is_class;
use crate::parts::{Parts, joined, made, nothing, of_slot, unknown};
use crate::rules::Program;
use py_base::{Builtin, NoMemory, SiteId};
use sqlite_items::Items;
use std::alloc::Global;
use type_terms::facts::SiteSlots;
use type_terms::{Atom, Slots};

/// A slot of a generic.
fn generic_slot(alloc: Global, all: &Slots<Items<Atom>>, place: usize) -> Result<Parts, NoMemory>
    ensures rule { IfOk result (λ parts. (w : World) → IsValue w parts (slots.generic_slot all.now place)) }
    ensures flat { IfOk result IsFlat }
{
    match all {
        Slots::Each(types) => match types.get(place) {
            Some(slot) => of_slot(alloc, slot),
            None => unknown(alloc),
        },
        Slots::Endless(slot) => of_slot(alloc, slot),
        _ => unknown(alloc),
    }
}

/// A slot of a value made at a site.
fn filled_slot(
    alloc: Global,
    site: SiteId,
    place: usize,
    filling: SiteSlots,
) -> Result<Parts, NoMemory>
    ensures rule { IfOk result (λ parts. (w : World) → IsValue w parts (slots.filled_slot site place filling)) }
    ensures flat { IfOk result IsFlat }
{
    match filling {
        SiteSlots::Filled(count) => {
            if place < count as usize {
                return made(alloc, site, place as u32);
            }
            unknown(alloc)
        }
        SiteSlots::Repeated => made(alloc, site, 0),
    }
}

/// The type in a slot of a member.
#[tactic(auto, using(crate::proofs::OutOf::outs), unfolding(crate::specs::Slots::slot))]
pub(crate) fn slot<P: Program>(
    alloc: Global,
    program: &P,
    atom: &Atom,
    place: usize,
) -> Result<Parts, NoMemory>
    ensures rule { IfOk result (λ parts. IsValue (P.world program.now) parts (slots.slot (P.world program.now) atom.now place)) }
    ensures flat { IfOk result IsFlat }
{
    match atom {
        Atom::Gen(_, all) => generic_slot(alloc, all, place),
        Atom::Site(site) => filled_slot(alloc, *site, place, program.site_slots(*site)),
        _ => unknown(alloc),
    }
}

/// How many entries a tuple of known length has.
fn entry_count(all: &Slots<Items<Atom>>) -> Option<usize>
    ensures { result ≡ slots.entry_count all.now }
{
    match all {
        Slots::Each(types) => Some(types.len()),
        _ => None,
    }
}

/// How many slots a value made at a site has.
fn filled_count(filling: SiteSlots) -> Option<usize>
    ensures { result ≡ slots.filled_count filling }
{
    match filling {
        SiteSlots::Filled(count) => Some(count as usize),
        SiteSlots::Repeated => None,
    }
}

/// How many entries a member has that is a tuple of known length.
#[tactic(auto, using(crate::proofs::OutOf::outs), unfolding(crate::specs::Slots::tuple_length))]
pub(crate) fn tuple_length<P: Program>(program: &P, atom: &Atom) -> Option<usize>
    ensures { result ≡ slots.tuple_length (P.world program.now) atom.now }
{
    match atom {
        Atom::Gen(class, all) => {
            if is_class(*class, Builtin::Tuple) {
                entry_count(all)
            } else {
                None
            }
        }
        Atom::Site(site) => {
            if is_class(site.class, Builtin::Tuple) {
                filled_count(program.site_slots(*site))
            } else {
                None
            }
        }
        _ => None,
    }
}

/// The types of the first so many entries of a tuple.
pub(crate) fn entries<P: Program>(
    alloc: Global,
    program: &P,
    atom: &Atom,
    count: usize,
) -> Result<Parts, NoMemory>
    ensures { IfOk result (λ parts. IsValue (P.world program.now) parts (slots.entries (P.world program.now) atom.now count)) }
{
    let mut parts = nothing(alloc);
    for place in 0..count {
        let more = slot(alloc, program, atom, place)?;
        parts = joined(parts, more)?;
    }
    Ok(parts)
}
