//! The instances of a class.
ghost use Rattle.std.specs.Prelude.{◌≡◌, ◌∷◌, [], IfOk};
ghost use Rattle.op_rules.specs.Instances as spec;
ghost use Rattle.op_rules.specs.Steps.{IsValue};
ghost use Rattle.type_terms.specs.Widen.{all_members};
ghost use Rattle.value_terms.specs.Term.{fixed};

use crate::classes::is_class;
use crate::parts::{Parts, given, given_alike, one};
use crate::rules::Program;
use py_base::{Builtin, ClassId, NoMemory};
use sqlite_items::Items;
use std::alloc::Global;
use type_terms::{Atom, Literal, Slots, Type};
use value_terms::laws::types_have_their_members;

/// A slot of which nothing is known.
fn unknown_slot(alloc: Global) -> Result<Items<Atom>, NoMemory>
    ensures { IfOk result (λ slot. slot ≡ spec.unknown_type) }
{
    let ty = Type::one(alloc, Atom::Unknown)?;
    Ok(ty.into_slot())
}

/// One such slot.
fn one_slot(alloc: Global) -> Result<Items<Items<Atom>>, NoMemory>
    ensures { IfOk result (λ slots. slots ≡ spec.unknown_type ∷ []) }
{
    let slot = unknown_slot(alloc)?;
    let mut slots = Items::new(alloc);
    slots.push(slot)?;
    Ok(slots)
}

/// Two such slots.
fn two_slots(alloc: Global) -> Result<Items<Items<Atom>>, NoMemory>
    ensures { IfOk result (λ slots. slots ≡ spec.unknown_type ∷ spec.unknown_type ∷ []) }
{
    let slot = unknown_slot(alloc)?;
    let mut slots = one_slot(alloc)?;
    slots.push(slot)?;
    Ok(slots)
}

fn has_one_slot(class: ClassId) -> bool
    ensures { result ≡ spec.has_one_slot class }
{
    is_class(class, Builtin::List)
        || is_class(class, Builtin::Set)
        || is_class(class, Builtin::Sequence)
        || is_class(class, Builtin::Iterable)
}

/// The instance of a class that is neither bool nor an enum with members.
fn plain_instance(alloc: Global, class: ClassId) -> Result<Atom, NoMemory>
    ensures { IfOk result (λ atom. atom ≡ spec.plain_instance class) }
{
    if is_class(class, Builtin::NoneType) {
        return Ok(Atom::None);
    }
    if has_one_slot(class) {
        let slots = one_slot(alloc)?;
        return Ok(Atom::Gen(class, Slots::Each(slots)));
    }
    if is_class(class, Builtin::Dict) {
        let slots = two_slots(alloc)?;
        return Ok(Atom::Gen(class, Slots::Each(slots)));
    }
    if is_class(class, Builtin::Tuple) {
        let slot = unknown_slot(alloc)?;
        return Ok(Atom::Gen(class, Slots::Endless(slot)));
    }
    if is_class(class, Builtin::Callable) {
        let slot = unknown_slot(alloc)?;
        return Ok(Atom::Gen(class, Slots::AnyArguments(slot)));
    }
    Ok(Atom::Inst(class))
}

/// All members of an enum.
pub(crate) fn enum_instances<P: Program>(
    alloc: Global,
    program: &P,
    class: ClassId,
) -> Result<Parts, NoMemory>
    ensures { IfOk result (λ parts. IsValue (P.world program.now) parts (fixed (all_members (P.world program.now).names class))) }
{
    let first = Type::one(alloc, Atom::Lit(Literal::Member(class, 0)))?;
    let all = program.widened(alloc, &first)?;
    types_have_their_members();
    let parts = given_alike(alloc, all)?;
    Ok(parts)
}

/// The instances of a class that isn't bool.
fn or_members<P: Program>(alloc: Global, program: &P, class: ClassId) -> Result<Parts, NoMemory>
    ensures { IfOk result (λ parts. IsValue (P.world program.now) parts (fixed (spec.or_members (P.world program.now) class ((P.world program.now).names.enum_members class)))) }
{
    match program.enum_members(class) {
        [] => {
            let atom = plain_instance(alloc, class)?;
            one(alloc, atom)
        }
        _ => enum_instances(alloc, program, class),
    }
}

/// The instances of a class.
#[tactic(auto, unfolding(crate::specs::Instances::instances))]
pub(crate) fn instances<P: Program>(
    alloc: Global,
    program: &P,
    class: ClassId,
) -> Result<Parts, NoMemory>
    ensures { IfOk result (λ parts. IsValue (P.world program.now) parts (fixed (spec.instances (P.world program.now) class))) }
{
    if is_class(class, Builtin::Bool) {
        let both = Type::bools(alloc)?;
        return given(alloc, both);
    }
    or_members(alloc, program, class)
}
