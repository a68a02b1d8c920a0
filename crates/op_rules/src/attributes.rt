//! Attributes.
ghost use Rattle.std.specs.Prelude.{◌≡◌, ℕ, slice_get, Option, IfOk};
ghost use Rattle.std.specs.Option.{option_copied};
ghost use Rattle.op_rules.specs.Attributes as spec;
ghost use Rattle.op_rules.specs.Members as members;
ghost use Rattle.op_rules.specs.Steps.{IsRule, IsValue, IsOwn};
ghost use Rattle.op_rules.specs.World.{World, Value, first_of, known};
ghost use Rattle.value_terms.specs.Outcome.{gives};

use crate::classes::{
    builtin_row, has_any, is_class, is_closed, is_of_file, is_open, is_under, lacks_others,
};
use crate::members::{members_seen, or_refused, seen_behind, through, unhidden};
use crate::names::{NAME, VALUE};
use crate::parts::{Parts, given, instance, none_refused, one, seen_elsewhere, unknown};
use crate::rules::Program;
use crate::step::Path;
use crate::steps::row_called;
use py_base::{Builtin, ClassId, NameId, NoMemory};
use sqlite_items::Boxed;
use std::alloc::Global;
use type_terms::{Atom, Literal, Type};

/// A builtin row as the attribute of a member: its method, or without a call its result.
fn row_attribute<P: Program>(
    alloc: Global,
    program: &P,
    atom: &Atom,
    row: u32,
) -> Result<Parts, NoMemory>
    ensures { IfOk result (λ parts. IsValue (P.world program.now) parts (spec.row_attribute (P.world program.now) atom.now row)) }
{
    if program.row(row).called {
        let copy = atom.copy(alloc)?;
        let receiver = Boxed::new(alloc, copy)?;
        return one(alloc, Atom::BuiltMethod(row, receiver));
    }
    row_called(alloc, program, row, atom)
}

/// Whether a class lacks each name that nothing gives.
fn lacks<P: Program>(program: &P, class: ClassId) -> bool
    ensures { result ≡ spec.lacks (P.world program.now) class }
{
    if is_of_file(class) {
        lacks_others(program, class)
    } else {
        is_closed(class)
    }
}

/// A name that nothing gives: Unknown, or nothing where it is a fault.
fn missing<P: Program>(
    alloc: Global,
    program: &P,
    class: ClassId,
    name: NameId,
) -> Result<Option<Parts>, NoMemory>
    ensures { IfOk result (λ own. IsOwn (P.world program.now) own (spec.missing (P.world program.now) class name)) }
{
    if has_any(program, class) || program.is_dunder(name) || !lacks(program, class) {
        let parts = unknown(alloc)?;
        return Ok(Some(parts));
    }
    Ok(None)
}

/// An enum without members, and then a name that nothing gives.
fn after_rows<P: Program>(
    alloc: Global,
    program: &P,
    class: ClassId,
    name: NameId,
) -> Result<Option<Parts>, NoMemory>
    ensures { IfOk result (λ own. IsOwn (P.world program.now) own (first_of (spec.on_bare_enum (P.world program.now) class name) (spec.missing (P.world program.now) class name))) }
{
    if is_under(program, class, Builtin::Enum) && is_of_file(class) {
        if name.0 == NAME.0 {
            let parts = instance(alloc, Builtin::Str)?;
            return Ok(Some(parts));
        }
        if name.0 == VALUE.0 {
            let parts = unknown(alloc)?;
            return Ok(Some(parts));
        }
    }
    missing(alloc, program, class, name)
}

/// What stands behind the member symbols of an instance.
#[tactic(auto, unfolding(crate::specs::Attributes::behind_symbols))]
fn behind_symbols<P: Program>(
    alloc: Global,
    program: &P,
    atom: &Atom,
    name: NameId,
    class: ClassId,
) -> Result<Option<Parts>, NoMemory>
    ensures { IfOk result (λ own. IsOwn (P.world program.now) own (spec.behind_symbols (P.world program.now) atom.now name class)) }
{
    match builtin_row(program, class, name) {
        Some(row) => {
            let parts = row_attribute(alloc, program, atom, row)?;
            Ok(Some(parts))
        }
        None => after_rows(alloc, program, class, name),
    }
}

/// An instance: the member symbol's type, else the builtin row, else Unknown or a fault.
#[tactic(auto, unfolding(crate::specs::Attributes::on_instance_of))]
fn on_instance_of<P: Program>(
    alloc: Global,
    program: &P,
    atom: &Atom,
    name: NameId,
    class: ClassId,
) -> Result<Parts, NoMemory>
    ensures { IfOk result (λ parts. IsRule (P.world program.now) parts (spec.on_instance_of (P.world program.now) atom.now name class)) }
{
    let seen = members_seen(alloc, program, class, name)?;
    if seen.hidden {
        return through(alloc, seen.symbols.as_slice(), Path::OnInstance);
    }
    let behind = behind_symbols(alloc, program, atom, name, class)?;
    let own = unhidden(alloc, seen.symbols.as_slice(), Path::OnInstance, behind)?;
    or_refused(alloc, own)
}

/// The name of the enum member at a place.
fn name_at(names: &[NameId], place: usize) -> Option<NameId>
    ensures { result ≡ slice_get names.now place }
{
    names.get(place).copied()
}

/// The value of the enum member of a name.
fn value_of<P: Program>(
    alloc: Global,
    program: &P,
    class: ClassId,
    own: Option<NameId>,
) -> Result<Parts, NoMemory>
    ensures { IfOk result (λ parts. IsValue (P.world program.now) parts (spec.value_of (P.world program.now) class own)) }
{
    let Some(own) = own else {
        return unknown(alloc);
    };
    match program.classes().own_member(class, own) {
        Some(symbol) => seen_elsewhere(alloc, symbol),
        None => unknown(alloc),
    }
}

/// What stands behind the member symbols of an enum member: `name`, `value`, and what an instance has.
fn behind_enum_symbols<P: Program>(
    alloc: Global,
    program: &P,
    atom: &Atom,
    name: NameId,
    class: ClassId,
    place: usize,
) -> Result<Option<Parts>, NoMemory>
    ensures { IfOk result (λ own. IsOwn (P.world program.now) own (first_of (spec.enum_value (P.world program.now) name class place) (spec.behind_symbols (P.world program.now) atom.now name class))) }
{
    if name.0 == NAME.0 {
        let parts = instance(alloc, Builtin::Str)?;
        return Ok(Some(parts));
    }
    if name.0 == VALUE.0 {
        let own = name_at(program.enum_members(class), place);
        let parts = value_of(alloc, program, class, own)?;
        return Ok(Some(parts));
    }
    behind_symbols(alloc, program, atom, name, class)
}

/// An enum member: as an instance, with `name` and `value` behind its member symbols.
#[tactic(auto, unfolding(crate::specs::Attributes::on_enum_member))]
fn on_enum_member<P: Program>(
    alloc: Global,
    program: &P,
    atom: &Atom,
    name: NameId,
    class: ClassId,
    place: usize,
) -> Result<Parts, NoMemory>
    ensures { IfOk result (λ parts. IsRule (P.world program.now) parts (spec.on_enum_member (P.world program.now) atom.now name class place)) }
{
    let seen = members_seen(alloc, program, class, name)?;
    if seen.hidden {
        return through(alloc, seen.symbols.as_slice(), Path::OnInstance);
    }
    let behind = behind_enum_symbols(alloc, program, atom, name, class, place)?;
    let own = unhidden(alloc, seen.symbols.as_slice(), Path::OnInstance, behind)?;
    or_refused(alloc, own)
}

/// A literal.
fn on_literal<P: Program>(
    alloc: Global,
    program: &P,
    atom: &Atom,
    name: NameId,
    value: &Literal,
) -> Result<Parts, NoMemory>
    ensures { IfOk result (λ parts. IsRule (P.world program.now) parts (spec.on_literal (P.world program.now) atom.now name value.now)) }
{
    match value {
        Literal::Member(class, place) => on_enum_member(alloc, program, atom, name, *class, *place),
        _ => on_instance_of(alloc, program, atom, name, value.class()),
    }
}

/// Whether a name that a class object lacks is a fault.
fn class_lacks<P: Program>(program: &P, class: ClassId, name: NameId) -> bool
    ensures { result ≡ spec.class_lacks (P.world program.now) class name }
{
    is_of_file(class)
        && lacks_others(program, class)
        && !is_open(program, class)
        && !program.classes().has_keyword(class)
        && !program.is_dunder(name)
        && !builtin_row(program, class, name).is_some()
}

/// A name that a class object lacks.
fn missing_on_class<P: Program>(
    alloc: Global,
    program: &P,
    class: ClassId,
    name: NameId,
) -> Result<Option<Parts>, NoMemory>
    ensures { IfOk result (λ own. IsOwn (P.world program.now) own (spec.missing_on_class (P.world program.now) class name)) }
{
    if class_lacks(program, class, name) {
        return Ok(None);
    }
    let parts = unknown(alloc)?;
    Ok(Some(parts))
}

/// A class object's member symbols, and then a name that it lacks.
fn after_members<P: Program>(
    alloc: Global,
    program: &P,
    name: NameId,
    class: ClassId,
) -> Result<Parts, NoMemory>
    ensures { IfOk result (λ parts. IsRule (P.world program.now) parts (spec.on_class_with (P.world program.now) name class (spec.missing_on_class (P.world program.now) class name))) }
{
    let seen = members_seen(alloc, program, class, name)?;
    if seen.hidden {
        return through(alloc, seen.symbols.as_slice(), Path::OnClass);
    }
    let behind = missing_on_class(alloc, program, class, name)?;
    let own = unhidden(alloc, seen.symbols.as_slice(), Path::OnClass, behind)?;
    or_refused(alloc, own)
}

/// The first class of an order that has a name of its own.
fn owner_in<P: Program>(program: &P, order: &[ClassId], name: NameId) -> Option<ClassId>
    ensures { result ≡ members.owner_in (P.world program.now) order.now name }
{
    for class in order {
        if program.classes().own_member(*class, name).is_some() {
            return Some(*class);
        }
    }
    None
}

/// The place of a name among the members of an enum.
fn place_of(name: NameId, names: &[NameId]) -> Option<usize>
    ensures { result ≡ members.place_of name names.now }
{
    names.iter().position(|other| name.0 == other.0)
}

/// The member of an enum at the place of its name.
fn literal_of(class: ClassId, place: Option<usize>) -> Option<Atom>
    ensures { result ≡ members.literal_of class place }
{
    match place {
        Some(place) => Some(Atom::Lit(Literal::Member(class, place))),
        None => None,
    }
}

/// The enum member that a name of a class is.
fn enum_member<P: Program>(program: &P, class: ClassId, name: NameId) -> Option<Atom>
    ensures { result ≡ members.enum_member (P.world program.now) class name }
{
    match owner_in(program, program.classes().mro(class), name) {
        Some(owner) => literal_of(owner, place_of(name, program.enum_members(owner))),
        None => None,
    }
}

/// A class: an enum member as its literal, else the member symbol's type, else Unknown or a fault.
#[tactic(auto, unfolding(crate::specs::Attributes::on_class))]
fn on_class<P: Program>(
    alloc: Global,
    program: &P,
    name: NameId,
    class: ClassId,
) -> Result<Parts, NoMemory>
    ensures { IfOk result (λ parts. IsRule (P.world program.now) parts (spec.on_class (P.world program.now) name class)) }
{
    match enum_member(program, class, name) {
        Some(member) => one(alloc, member),
        None => after_members(alloc, program, name, class),
    }
}

/// `super()`: what stands behind the class in its order.
#[tactic(auto, unfolding(crate::specs::Attributes::on_super))]
fn on_super<P: Program>(
    alloc: Global,
    program: &P,
    name: NameId,
    class: ClassId,
) -> Result<Parts, NoMemory>
    ensures { IfOk result (λ parts. IsRule (P.world program.now) parts (spec.on_super (P.world program.now) name class)) }
{
    let seen = seen_behind(alloc, program, class, name)?;
    if seen.hidden {
        return through(alloc, seen.symbols.as_slice(), Path::OnInstance);
    }
    let parts = unknown(alloc)?;
    let own = unhidden(
        alloc,
        seen.symbols.as_slice(),
        Path::OnInstance,
        Some(parts),
    )?;
    or_refused(alloc, own)
}

/// A module: its row.
fn on_module(alloc: Global, found: Option<&Type>) -> Result<Parts, NoMemory>
    ensures { IfOk result (λ parts. (w : World) → IsValue w parts (known (option_copied found.entry))) }
{
    match found {
        Some(ty) => {
            let copy = ty.copy(alloc)?;
            given(alloc, copy)
        }
        None => unknown(alloc),
    }
}

/// A value made at a site.
fn on_site<P: Program>(
    alloc: Global,
    program: &P,
    atom: &Atom,
    name: NameId,
    class: ClassId,
) -> Result<Parts, NoMemory>
    ensures { IfOk result (λ parts. IsRule (P.world program.now) parts (spec.on_site (P.world program.now) atom.now name class)) }
{
    if is_class(class, Builtin::Function) {
        return unknown(alloc);
    }
    on_instance_of(alloc, program, atom, name, class)
}

/// The parts of what an attribute of a member gives.
#[tactic(auto, using(crate::proofs::OutOf::outs), unfolding(crate::specs::Attributes::attribute))]
pub(crate) fn attribute_parts<P: Program>(
    alloc: Global,
    program: &P,
    atom: &Atom,
    name: NameId,
) -> Result<Parts, NoMemory>
    ensures { IfOk result (λ parts. IsRule (P.world program.now) parts (spec.attribute (P.world program.now) atom.now name)) }
{
    match atom {
        Atom::Lit(value) => on_literal(alloc, program, atom, name, value),
        Atom::Inst(class) => on_instance_of(alloc, program, atom, name, *class),
        Atom::Gen(class, _) => on_instance_of(alloc, program, atom, name, *class),
        Atom::Site(site) => on_site(alloc, program, atom, name, site.class),
        Atom::Class(class) => on_class(alloc, program, name, *class),
        Atom::Super(class) => on_super(alloc, program, name, *class),
        Atom::Mod(source) => on_module(alloc, program.module_name(*source, name)),
        Atom::None => none_refused(alloc),
        _ => unknown(alloc),
    }
}
