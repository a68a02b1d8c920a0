//! The parts of the simplest rules.
ghost use Rattle.std.specs.Prelude.{◌≡◌, ◌∷◌, ◌++◌, [], IfOk, List, Option};
ghost use Rattle.op_rules.specs.Instances as instances;
ghost use Rattle.op_rules.specs.Steps.{IsCall, IsFlat, IsOwn, IsOwnCall, IsRule, IsValue};
ghost use Rattle.op_rules.specs.World.{World, Value, unknown, refused, none_refused, or_fault, level_fault, with_faults, when};
ghost use Rattle.type_terms.specs.declared.atom.Atom.{out-Atom};
ghost use Rattle.type_terms.specs.declared.atom.Atom.{Atom};
ghost use Rattle.value_terms.specs.Told.{IsAlike};
ghost use Rattle.value_terms.specs.Outcome.{gives};
ghost use Rattle.value_terms.specs.Term.{fixed, read, join, never, member};
ghost use Rattle.value_terms.specs.declared.ask.Ask.TheVariants as ask;

use crate::step::Step;
use py_base::{Builtin, FuncId, Key, List, NoMemory, SiteId, SymId};
use sqlite_items::Items;
use std::alloc::Global;
use type_terms::{Atom, Type};
use value_terms::Part;
use value_terms::laws::types_have_their_members;

/// The parts of a rule, whose rows are chains of steps.
pub(crate) type Parts = List<Part<List<Step>>>;

/// A type.
#[tactic(auto, using(crate::proofs::RuleLemmas::is_members))]
pub(crate) fn given(alloc: Global, ty: Type) -> Result<Parts, NoMemory>
    ensures rule { IfOk result (λ parts. (w : World) → IsValue w parts (fixed ty)) }
    ensures flat { IfOk result IsFlat }
{
    let mut parts = List::new(alloc);
    parts.push(Part::Members(ty))?;
    Ok(parts)
}

/// A type that has the members of a list.
#[tactic(auto, using(crate::proofs::RuleLemmas::is_alike))]
pub(crate) fn given_alike(alloc: Global, ty: Type) -> Result<Parts, NoMemory>
    ensures rule { IfOk result (λ parts. (w : World) (xs : List Atom) → IsAlike ty xs → IsValue w parts (fixed xs)) }
    ensures flat { IfOk result IsFlat }
{
    let mut parts = List::new(alloc);
    parts.push(Part::Members(ty))?;
    Ok(parts)
}

/// One member.
pub(crate) fn one(alloc: Global, atom: Atom) -> Result<Parts, NoMemory>
    ensures rule { IfOk result (λ parts. (w : World) → IsValue w parts (member atom)) }
    ensures flat { IfOk result IsFlat }
{
    let ty = Type::one(alloc, atom)?;
    let parts = given(alloc, ty)?;
    Ok(parts)
}

/// A member that stays as it is.
pub(crate) fn same(alloc: Global, atom: &Atom) -> Result<Parts, NoMemory>
    ensures rule { IfOk result (λ parts. (w : World) → IsValue w parts (member atom.now)) }
    ensures flat { IfOk result IsFlat }
{
    let copy = atom.copy(alloc)?;
    let parts = one(alloc, copy)?;
    Ok(parts)
}

/// Unknown.
pub(crate) fn unknown(alloc: Global) -> Result<Parts, NoMemory>
    ensures rule { IfOk result (λ parts. (w : World) → IsValue w parts unknown) }
    ensures flat { IfOk result IsFlat }
{
    let parts = one(alloc, Atom::Unknown)?;
    Ok(parts)
}

/// An instance of a builtin class without slots.
pub(crate) fn instance(alloc: Global, class: Builtin) -> Result<Parts, NoMemory>
    ensures rule { IfOk result (λ parts. (w : World) → IsValue w parts (instances.instance class)) }
    ensures flat { IfOk result IsFlat }
{
    let parts = one(alloc, Atom::Inst(class.id()))?;
    Ok(parts)
}

/// Unknown and a fault.
#[tactic(auto, using(crate::proofs::RuleLemmas::is_refused))]
pub(crate) fn refused(alloc: Global) -> Result<Parts, NoMemory>
    ensures { IfOk result (λ parts. (w : World) → IsRule w parts refused) }
{
    let ty = Type::one(alloc, Atom::Unknown)?;
    let mut parts = List::new(alloc);
    parts.push(Part::Members(ty))?;
    parts.push(Part::Fault)?;
    Ok(parts)
}

/// Nothing and a fault.
#[tactic(auto, using(crate::proofs::RuleLemmas::is_none_refused))]
pub(crate) fn none_refused(alloc: Global) -> Result<Parts, NoMemory>
    ensures { IfOk result (λ parts. (w : World) → IsRule w parts none_refused) }
{
    let mut parts = List::new(alloc);
    parts.push(Part::Fault)?;
    Ok(parts)
}

/// What a function returns.
#[tactic(auto, using(crate::proofs::RuleLemmas::is_ret))]
pub(crate) fn returned(alloc: Global, func: FuncId) -> Result<Parts, NoMemory>
    ensures rule { IfOk result (λ parts. (w : World) → IsValue w parts (read (ask.Ret func))) }
    ensures flat { IfOk result IsFlat }
{
    let mut parts = List::new(alloc);
    parts.push(Part::Read(Key::Ret(func)))?;
    Ok(parts)
}

/// The type of a symbol as other scopes see it.
#[tactic(auto, using(crate::proofs::RuleLemmas::is_sym))]
pub(crate) fn seen_elsewhere(alloc: Global, symbol: SymId) -> Result<Parts, NoMemory>
    ensures rule { IfOk result (λ parts. (w : World) → IsValue w parts (read (ask.Sym symbol))) }
    ensures flat { IfOk result IsFlat }
{
    let mut parts = List::new(alloc);
    parts.push(Part::Read(Key::Sym(symbol)))?;
    Ok(parts)
}

/// The type in a slot of a value made at a site.
#[tactic(auto, using(crate::proofs::RuleLemmas::is_elem))]
pub(crate) fn made(alloc: Global, site: SiteId, place: u32) -> Result<Parts, NoMemory>
    ensures rule { IfOk result (λ parts. (w : World) → IsValue w parts (read (ask.Elem site place))) }
    ensures flat { IfOk result IsFlat }
{
    let mut parts = List::new(alloc);
    parts.push(Part::Read(Key::Elem(site, place)))?;
    Ok(parts)
}

/// A type from a slot of a generic.
#[tactic(auto, using(crate::proofs::RuleLemmas::is_slot))]
pub(crate) fn of_slot(alloc: Global, slot: &Items<Atom>) -> Result<Parts, NoMemory>
    ensures rule { IfOk result (λ parts. (w : World) → IsValue w parts (fixed slot.now)) }
    ensures flat { IfOk result IsFlat }
{
    types_have_their_members();
    let ty = Type::of_slot(alloc, slot)?;
    let mut parts = List::new(alloc);
    parts.push(Part::Members(ty))?;
    Ok(parts)
}

/// Nothing.
#[tactic(auto, using(crate::proofs::RuleLemmas::is_never))]
pub(crate) fn nothing(alloc: Global) -> Parts
    ensures rule { (w : World) → IsValue w result never }
    ensures flat { IsFlat result }
{
    List::new(alloc)
}

/// Nothing and a fault, where that is told.
fn none_refused_if(alloc: Global, told: bool) -> Result<Parts, NoMemory>
    ensures { IfOk result (λ parts. (w : World) → IsRule w parts (with_faults told none_refused)) }
{
    if told {
        none_refused(alloc)
    } else {
        Ok(nothing(alloc))
    }
}

/// Unknown and a fault, where that is told.
fn refused_if(alloc: Global, told: bool) -> Result<Parts, NoMemory>
    ensures { IfOk result (λ parts. (w : World) → IsRule w parts (with_faults told refused)) }
{
    if told { refused(alloc) } else { unknown(alloc) }
}

/// An operation that a member doesn't have.
#[tactic(auto, using(crate::proofs::OutOf::outs))]
fn fault(alloc: Global, atom: &Atom, told: bool) -> Result<Parts, NoMemory>
    ensures { IfOk result (λ parts. (w : World) → IsRule w parts (with_faults told (level_fault (out-Atom atom.now)))) }
{
    match atom {
        Atom::None => none_refused_if(alloc, told),
        _ => refused_if(alloc, told),
    }
}

/// Parts that are there, else a fault.
#[tactic(auto, using(crate::proofs::RuleLemmas::own_told, crate::proofs::RuleLemmas::none_told, crate::proofs::CallLemmas::own_call, crate::proofs::CallLemmas::none_call))]
pub(crate) fn or_fault(
    alloc: Global,
    own: Option<Parts>,
    atom: &Atom,
    told: bool,
) -> Result<Parts, NoMemory>
    ensures rule { IfOk result (λ parts. (w : World) (x : Option Value) → IsOwn w own x → IsRule w parts (with_faults told (or_fault atom.now x))) }
    ensures call { IfOk result (λ parts. (w : World) (args : List (List Atom)) (x : Option Value) → IsOwnCall w args own x → IsCall w args parts (with_faults told (or_fault atom.now x))) }
{
    match own {
        Some(parts) => Ok(parts),
        None => fault(alloc, atom, told),
    }
}

/// Unknown, where something holds.
pub(crate) fn unknown_where(alloc: Global, holds: bool) -> Result<Option<Parts>, NoMemory>
    ensures { IfOk result (λ own. (w : World) → IsOwn w own (when holds unknown)) }
{
    if holds {
        let parts = unknown(alloc)?;
        return Ok(Some(parts));
    }
    Ok(None)
}

/// Parts and a member besides.
#[tactic(auto, using(crate::proofs::RuleLemmas::is_with, crate::proofs::CallLemmas::is_call_with))]
pub(crate) fn with_member(alloc: Global, parts: Parts, atom: Atom) -> Result<Parts, NoMemory>
    ensures rule { IfOk result (λ all. (w : World) (x : Value) → IsValue w parts x → IsValue w all (join x (member atom))) }
    ensures flat { IfOk result (λ all. IsFlat parts → IsFlat all) }
    ensures call { IfOk result (λ all. (w : World) (args : List (List Atom)) (x : Value) → IsCall w args parts (gives x) → IsCall w args all (gives (join x (member atom)))) }
{
    let ty = Type::one(alloc, atom)?;
    let mut all = parts;
    all.push(Part::Members(ty))?;
    Ok(all)
}

/// Parts and others behind them.
#[tactic(auto, using(crate::proofs::RuleLemmas::is_join))]
pub(crate) fn joined(first: Parts, second: Parts) -> Result<Parts, NoMemory>
    ensures rule { IfOk result (λ all. (w : World) (x y : Value) → IsValue w first x → IsValue w second y → IsValue w all (join x y)) }
    ensures list { IfOk result (λ all. all ≡ first ++ second) }
{
    let mut all = first.into_vec();
    let mut more = second.into_vec();
    all.append(&mut more)?;
    Ok(List::from_vec(all))
}
