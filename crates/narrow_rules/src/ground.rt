//! The classes of members, and the instances of a class.
ghost use Rattle.std.specs.Prelude.{◌≡◌, ◌++◌, ◌∷◌, [], codes, IfOk, OnOk, OnErr};
ghost use Rattle.type_terms.specs.Widen.{members_from, all_members};
ghost use Rattle.type_terms.specs.Types.{both_bools};
ghost use Rattle.type_terms.specs.declared.atom.Atom.{out-Atom};
ghost use Rattle.narrow_rules.specs.Ground as spec;

use crate::sides::push;
use class_rows::ClassRows;
use py_base::{Builtin, ClassId, NameId, NoMemory};
use sqlite_items::Items;
use std::alloc::{AllocError, Global};
use type_terms::facts::Names;
use type_terms::{Atom, Literal, Slots, Type};

/// Want of memory in the words of this project.
fn no_memory(_error: AllocError) -> NoMemory {
    NoMemory
}

/// The names that narrowing asks classes for.
const BOOL: NameId = NameId(120);

const CALL: NameId = NameId(122);

const LEN: NameId = NameId(139);

/// Whether a class of the order has `__bool__`.
pub(crate) fn has_bool(class: ClassId, classes: &ClassRows) -> bool
    ensures { result ≡ spec.has_name classes.now class (codes "__bool__") }
{
    classes.member(class, BOOL).is_some()
}

/// Whether a class of the order has `__call__`.
pub(crate) fn has_call(class: ClassId, classes: &ClassRows) -> bool
    ensures { result ≡ spec.has_name classes.now class (codes "__call__") }
{
    classes.member(class, CALL).is_some()
}

/// Whether a class of the order has `__len__`.
pub(crate) fn has_len(class: ClassId, classes: &ClassRows) -> bool
    ensures { result ≡ spec.has_name classes.now class (codes "__len__") }
{
    classes.member(class, LEN).is_some()
}

/// The class of a member; `None` exactly for Unknown and the marks.
#[tactic(auto, using(crate::proofs::OutOf::outs), unfolding(crate::specs::Ground::class_of))]
pub(crate) fn class_of(atom: &Atom) -> Option<ClassId>
    ensures { result ≡ spec.class_of atom.now }
{
    match atom {
        Atom::Lit(value) => Some(value.class()),
        Atom::Inst(class) => Some(*class),
        Atom::Gen(class, _) => Some(*class),
        Atom::Site(site) => Some(site.class),
        Atom::Class(_) => Some(Builtin::Type.id()),
        Atom::Func(_) => Some(Builtin::Function.id()),
        Atom::Bound(_) => Some(Builtin::Function.id()),
        Atom::BuiltMethod(_, _) => Some(Builtin::Function.id()),
        Atom::BuiltFunc(_) => Some(Builtin::Function.id()),
        Atom::Super(_) => Some(Builtin::Object.id()),
        Atom::Mod(_) => Some(Builtin::Object.id()),
        Atom::Special(_) => Some(Builtin::Object.id()),
        Atom::None => Some(Builtin::NoneType.id()),
        Atom::Unknown => None,
        Atom::Unbound => None,
        Atom::Open => None,
        Atom::Here => None,
    }
}

/// Whether a class has a set of members: `bool`, and an enum with members.
pub(crate) fn is_set<N: Names>(class: ClassId, names: &N) -> bool
    ensures { result ≡ spec.is_set (N.names names.now) class }
{
    class == Builtin::Bool.id() || names.enum_members(class).len() > 0
}

/// Adds both literals of `bool`.
fn push_bools(atoms: &mut Vec<Atom>) -> Result<(), NoMemory>
    ensures { OnOk result (atoms.new.items ≡ atoms.old.items ++ both_bools) }
{
    push(atoms, Atom::Lit(Literal::Bool(false)))?;
    push(atoms, Atom::Lit(Literal::Bool(true)))
}

/// Adds the members of an enum, given how many there are.
fn push_enum(atoms: &mut Vec<Atom>, class: ClassId, count: usize) -> Result<(), NoMemory>
    ensures { OnOk result (atoms.new.items ≡ atoms.old.items ++ members_from class 0 count) }
{
    for place in 0..count {
        push(atoms, Atom::Lit(Literal::Member(class, place)))?;
    }
    Ok(())
}

/// The type of a slot that nothing is known of.
fn unknown(alloc: Global) -> Result<Items<Atom>, NoMemory>
    ensures { IfOk result (λ slot. slot ≡ spec.unknown) }
{
    Ok(Type::one(alloc, Atom::Unknown)?.into_slot())
}

/// One slot, or two, that nothing is known of.
fn unknown_each(alloc: Global, two: bool) -> Result<Slots<Items<Atom>>, NoMemory>
    ensures { IfOk result (λ slots. slots ≡ spec.unknown_each two) }
{
    let mut slots = Items::new(alloc);
    slots.push(unknown(alloc)?).map_err(no_memory)?;
    if two {
        slots.push(unknown(alloc)?).map_err(no_memory)?;
    }
    Ok(Slots::Each(slots))
}

/// Whether the class has one slot.
fn has_one_slot(class: ClassId) -> bool
    ensures { result ≡ spec.has_one_slot class }
{
    class == Builtin::List.id()
        || class == Builtin::Set.id()
        || class == Builtin::Sequence.id()
        || class == Builtin::Iterable.id()
}

/// The slots of an instance of a generic class of which nothing else is known; `None` exactly for a
/// class that isn't generic.
fn unknown_slots(alloc: Global, class: ClassId) -> Result<Option<Slots<Items<Atom>>>, NoMemory>
    ensures { IfOk result (λ slots. slots ≡ spec.unknown_slots class) }
{
    if class == Builtin::Dict.id() {
        return Ok(Some(unknown_each(alloc, true)?));
    }
    if class == Builtin::Tuple.id() {
        return Ok(Some(Slots::Endless(unknown(alloc)?)));
    }
    if class == Builtin::Callable.id() {
        return Ok(Some(Slots::AnyArguments(unknown(alloc)?)));
    }
    if has_one_slot(class) {
        return Ok(Some(unknown_each(alloc, false)?));
    }
    Ok(None)
}

/// The one instance that stands for a class without a set of members.
fn instance(alloc: Global, class: ClassId) -> Result<Atom, NoMemory>
    ensures { IfOk result (λ atom. atom ≡ spec.instance_by class (spec.unknown_slots class)) }
{
    match unknown_slots(alloc, class)? {
        Some(slots) => Ok(Atom::Gen(class, slots)),
        None if class == Builtin::NoneType.id() => Ok(Atom::None),
        None => Ok(Atom::Inst(class)),
    }
}

/// Adds the set of members of a class; nothing for a class that has none.
pub(crate) fn push_set<N: Names>(
    atoms: &mut Vec<Atom>,
    class: ClassId,
    names: &N,
) -> Result<(), NoMemory>
    ensures { OnOk result (atoms.new.items ≡ atoms.old.items ++ spec.set_members (N.names names.now) class) }
{
    if class == Builtin::Bool.id() {
        return push_bools(atoms);
    }
    push_enum(atoms, class, names.enum_members(class).len())
}

/// Adds the instances of a class.
pub(crate) fn push_instances<N: Names>(
    alloc: Global,
    atoms: &mut Vec<Atom>,
    class: ClassId,
    names: &N,
) -> Result<(), NoMemory>
    ensures { OnOk result (atoms.new.items ≡ atoms.old.items ++ spec.instances (N.names names.now) class) }
{
    if is_set(class, names) {
        return push_set(atoms, class, names);
    }
    push(atoms, instance(alloc, class)?)
}

/// Whether one class is below the other, where there are both.
fn are_under(low: Option<ClassId>, high: Option<ClassId>, classes: &ClassRows) -> bool
    ensures { result ≡ spec.are_under classes.now low high }
{
    match (low, high) {
        (Some(low), Some(high)) => classes.is_sub(low, high),
        _ => false,
    }
}

/// Whether one member is under another that isn't equal to it.
#[tactic(auto, using(crate::proofs::OutOf::outs))]
fn is_under_by_class(one: &Atom, other: &Atom, classes: &ClassRows) -> bool
    ensures { result ≡ spec.level_under classes.now one.now other.now (out-Atom other.now) }
{
    match (other, one) {
        (Atom::Lit(_), _) => false,
        (Atom::Class(high), Atom::Class(low)) => classes.is_sub(*low, *high),
        (Atom::Class(_), _) => false,
        _ => are_under(class_of(one), class_of(other), classes),
    }
}

/// Whether one member is under another, as one of a written type.
#[tactic(auto, using(crate::proofs::OutOf::outs), unfolding(crate::specs::Ground::is_under))]
pub(crate) fn is_under(one: &Atom, other: &Atom, classes: &ClassRows) -> bool
    ensures { result ≡ spec.is_under classes.now one.now other.now }
{
    one == other || is_under_by_class(one, other, classes)
}
