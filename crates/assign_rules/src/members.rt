//! The class of a member of a type, its slots, and what a call gives.
ghost use Rattle.std.specs.Prelude.{◌≡◌, ◌++◌, ◌∷◌, [], map, IfOk, OnOk};
ghost use Rattle.std.specs.List.{range_with_len};
ghost use Rattle.py_base.specs.Builtins.{id_of};
ghost use Rattle.py_base.specs.declared.builtin.Builtin.TheVariants as builtin;
ghost use Rattle.py_base.specs.declared.key.Key.TheVariants.{Elem};
ghost use Rattle.type_terms.specs.Asked.{Cancels};
ghost use Rattle.type_terms.specs.Pieces.{written_result};
ghost use Rattle.type_terms.specs.declared.atom.Atom.{out-Atom};
ghost use Rattle.assign_rules.specs.Members as spec;
ghost use Rattle.assign_rules.specs.Members.{table_of};

use crate::rules::Rules;
use py_base::{Builtin, ClassId, FuncId, Key, NoMemory, SiteId, Stop};
use sqlite_items::Items;
use std::alloc::Global;
use type_terms::facts::{Facts, FuncRow, SiteSlots};
use type_terms::view::Types;
use type_terms::{Atom, Literal, Slots, Type};

/// Whether a class is this builtin one.
pub(crate) fn is(class: ClassId, known: Builtin) -> bool
    ensures { result ≡ spec.is_class class (id_of known) }
{
    class.0 == known.id().0
}

/// Whether a class is a builtin one.
pub(crate) fn is_builtin(class: ClassId) -> bool
    ensures { result ≡ spec.is_builtin class }
{
    class.0 < Builtin::COUNT as u32
}

/// Whether the value of a lambda is made at this site.
pub(crate) fn is_lambda(site: SiteId) -> bool
    ensures { result ≡ spec.is_lambda site }
{
    is(site.class, Builtin::Function)
}

/// The class of a member. None, Unknown and marks have none.
#[tactic(auto, using(type_terms::proofs::OutOf::outs), unfolding(crate::specs::Members::class_of))]
pub(crate) fn class_of(atom: &Atom) -> Option<ClassId>
    ensures { result ≡ spec.class_of atom.now }
{
    match atom {
        Atom::Lit(value) => Some(value.class()),
        Atom::Inst(class) => Some(*class),
        Atom::Gen(class, _) => Some(*class),
        Atom::Site(site) => Some(site.class),
        Atom::Class(_) => Some(Builtin::Type.id()),
        Atom::Func(_) => Some(Builtin::Function.id()),
        Atom::Bound(_) => Some(Builtin::Function.id()),
        Atom::BuiltMethod(_, _) => Some(Builtin::Function.id()),
        Atom::BuiltFunc(_) => Some(Builtin::Function.id()),
        Atom::Super(_) => Some(Builtin::Object.id()),
        Atom::Mod(_) => Some(Builtin::Object.id()),
        Atom::Special(_) => Some(Builtin::Object.id()),
        Atom::Unknown => None,
        Atom::None => None,
        Atom::Unbound => None,
        Atom::Open => None,
        Atom::Here => None,
    }
}

/// Whether a member is an instance of a class, no function, class or module.
#[tactic(auto, using(type_terms::proofs::OutOf::outs), unfolding(crate::specs::Members::is_instance))]
pub(crate) fn is_instance(atom: &Atom) -> bool
    ensures { result ≡ spec.is_instance atom.now }
{
    match atom {
        Atom::Lit(_) => true,
        Atom::Inst(_) => true,
        Atom::Gen(_, _) => true,
        Atom::Site(site) => !is_lambda(*site),
        _ => false,
    }
}

/// Adds an item at the end.
pub(crate) fn push<T: Drop>(items: &mut Items<T>, item: T) -> Result<(), NoMemory>
    ensures { OnOk result (items.new ≡ items.old ++ item ∷ []) }
{
    Ok(items.push(item)?)
}

/// The types of the first slots of a site.
fn filled_slots<T: Types>(
    alloc: Global,
    site: SiteId,
    count: u32,
    types: &mut T,
) -> Result<Items<Items<Atom>>, Stop>
    ensures value { IfOk result (λ r. r ≡ map (λ place. T.assignment types.old (Elem site place)) (range_with_len 0 count)) }
    ensures same { T.assignment types.new ≡ T.assignment types.old }
    ensures stays { T.stays types.old types.new }
    ensures cancels { Cancels (T.seen types.old) (T.seen types.new) result }
{
    let mut slots = Items::new(alloc);
    for place in 0..count {
        let slot = types.get(alloc, Key::Elem(site, place))?;
        push(&mut slots, slot.into_slot())?;
    }
    Ok(slots)
}

/// The slots of the value that is made at a site.
fn made_slots<F: Facts, T: Types>(
    alloc: Global,
    rules: &Rules<F>,
    site: SiteId,
    types: &mut T,
) -> Result<Slots<Items<Atom>>, Stop>
    ensures value { IfOk result (λ r. r ≡ spec.made_slots (table_of rules.now.classes.now (F.names rules.now.facts.now) (F.facts rules.now.facts.now) (T.assignment types.old)) site ((F.facts rules.now.facts.now).site_slots site)) }
    ensures same { T.assignment types.new ≡ T.assignment types.old }
    ensures stays { T.stays types.old types.new }
    ensures cancels { Cancels (T.seen types.old) (T.seen types.new) result }
{
    match rules.facts.site_slots(site) {
        SiteSlots::Filled(count) => Ok(Slots::Each(filled_slots(alloc, site, count, types)?)),
        SiteSlots::Repeated => {
            let slot = types.get(alloc, Key::Elem(site, 0))?;
            Ok(Slots::Endless(slot.into_slot()))
        }
    }
}

/// The slots of a member: those that are written, or the types of the keys of the site. `None` where it has none.
#[tactic(auto, using(type_terms::proofs::OutOf::outs), unfolding(crate::specs::Members::slots_of))]
pub(crate) fn slots_of<F: Facts, T: Types>(
    alloc: Global,
    rules: &Rules<F>,
    atom: &Atom,
    types: &mut T,
) -> Result<Option<Slots<Items<Atom>>>, Stop>
    ensures value { IfOk result (λ r. r ≡ spec.slots_of (table_of rules.now.classes.now (F.names rules.now.facts.now) (F.facts rules.now.facts.now) (T.assignment types.old)) atom.now) }
    ensures same { T.assignment types.new ≡ T.assignment types.old }
    ensures stays { T.stays types.old types.new }
    ensures cancels { Cancels (T.seen types.old) (T.seen types.new) result }
{
    match atom {
        Atom::Gen(_, _) => Ok(written_slots(atom.copy(alloc)?)),
        Atom::Site(site) if is_lambda(*site) => Ok(None),
        Atom::Site(site) => Ok(Some(made_slots(alloc, rules, *site, types)?)),
        _ => Ok(None),
    }
}

/// The slots that are written for a member.
#[tactic(auto, using(type_terms::proofs::OutOf::outs))]
fn written_slots(atom: Atom) -> Option<Slots<Items<Atom>>>
    ensures { result ≡ spec.level_written (out-Atom atom) }
{
    match atom {
        Atom::Gen(_, slots) => Some(slots),
        _ => None,
    }
}

/// The members of a type without members but this one.
pub(crate) fn single(alloc: Global, atom: Atom) -> Result<Items<Atom>, NoMemory>
    ensures { IfOk result (λ members. members ≡ atom ∷ []) }
{
    Ok(Type::one(alloc, atom)?.into_slot())
}

/// What is written for the result of a call.
fn written_result(alloc: Global, row: &FuncRow) -> Result<Option<Items<Atom>>, NoMemory>
    ensures { IfOk result (λ r. r ≡ written_result row.now) }
{
    if row.is_async || row.is_generator {
        return Ok(Some(single(alloc, Atom::Unknown)?));
    }
    if row.guard {
        return Ok(Some(Type::bools(alloc)?.into_slot()));
    }
    match &row.result {
        Some(ty) => Ok(Some(ty.copy(alloc)?.into_slot())),
        None => Ok(None),
    }
}

/// What a call of a function gives: what is written, else what it returns.
pub(crate) fn call_result<F: Facts, T: Types>(
    alloc: Global,
    rules: &Rules<F>,
    func: FuncId,
    types: &mut T,
) -> Result<Items<Atom>, Stop>
    ensures value { IfOk result (λ r. r ≡ spec.call_result (table_of rules.now.classes.now (F.names rules.now.facts.now) (F.facts rules.now.facts.now) (T.assignment types.old)) func) }
    ensures same { T.assignment types.new ≡ T.assignment types.old }
    ensures stays { T.stays types.old types.new }
    ensures cancels { Cancels (T.seen types.old) (T.seen types.new) result }
{
    match written_result(alloc, rules.facts.func(func))? {
        Some(result) => Ok(result),
        None => Ok(types.get(alloc, Key::Ret(func))?.into_slot()),
    }
}

/// What a call of a class of the file gives: of an enum all its members, of another class its instance.
pub(crate) fn made_by_call<F: Facts>(
    alloc: Global,
    rules: &Rules<F>,
    class: ClassId,
) -> Result<Items<Atom>, NoMemory>
    ensures { IfOk result (λ r. r ≡ spec.made_by_call (F.names rules.now.facts.now) class) }
{
    let count = rules.facts.enum_members(class).len();
    if count == 0 {
        return single(alloc, Atom::Inst(class));
    }
    let mut members = Items::new(alloc);
    for place in 0..count {
        push(&mut members, Atom::Lit(Literal::Member(class, place)))?;
    }
    Ok(members)
}
