//! Subscripts.
ghost use Rattle.std.specs.Option.{option_copied};
ghost use Rattle.op_rules.specs.Instances as instances;
ghost use Rattle.op_rules.specs.Slots as slots;
ghost use Rattle.op_rules.specs.World.{World, unknown};
ghost use Rattle.py_base.specs.declared.builtin.Builtin.TheVariants as builtin;
ghost use Rattle.type_terms.specs.declared.atom.Atom.{out-Atom};
ghost use Rattle.value_terms.specs.Term.{member};
ghost use Rattle.std.specs.Prelude.{◌≡◌, ℕ, ℤ, pos, negsuc, Some, Option, IfOk};
ghost use Rattle.op_rules.specs.Steps.{IsRule, IsValue, IsOwn};
ghost use Rattle.op_rules.specs.Subscripts as spec;

use crate::classes::{is_class, is_under};
use crate::instances::instances;
use crate::methods::by_method;
use crate::names::GETITEM;
use crate::parts::{Parts, instance, or_fault, same, unknown, unknown_where};
use crate::rules::Program;
use crate::slots::{entries, slot, tuple_length};
use py_base::{Builtin, ClassId, NoMemory};
use std::alloc::Global;
use type_terms::{Atom, Literal};

/// The place of an index, which counts from the end where it is negative; `None` out of range.
fn place_at(index: i128, count: usize) -> Option<usize>
    ensures { result ≡ spec.place_at index count }
{
    if index < 0 {
        from_end((-1 - index) as u128, count)
    } else {
        from_start(index as u128, count)
    }
}

fn from_start(place: u128, count: usize) -> Option<usize>
    ensures { result ≡ spec.place_at (pos place) count }
{
    if place < count as u128 {
        return Some(place as usize);
    }
    None
}

fn from_end(behind: u128, count: usize) -> Option<usize>
    ensures { result ≡ spec.place_at (negsuc behind) count }
{
    if behind < count as u128 {
        return Some(count - 1 - behind as usize);
    }
    None
}

/// The slot at a place that is in range.
fn entry_at<P: Program>(
    alloc: Global,
    program: &P,
    atom: &Atom,
    place: Option<usize>,
) -> Result<Option<Parts>, NoMemory>
    ensures { IfOk result (λ own. IsOwn (P.world program.now) own (spec.entry_at (P.world program.now) atom.now place)) }
{
    match place {
        Some(place) => {
            let parts = slot(alloc, program, atom, place)?;
            Ok(Some(parts))
        }
        None => Ok(None),
    }
}

/// All entries of a tuple of known length.
fn any_entry<P: Program>(
    alloc: Global,
    program: &P,
    atom: &Atom,
    count: usize,
) -> Result<Option<Parts>, NoMemory>
    ensures { IfOk result (λ own. IsOwn (P.world program.now) own (Some (slots.entries (P.world program.now) atom.now count))) }
{
    let parts = entries(alloc, program, atom, count)?;
    Ok(Some(parts))
}

/// An entry of a tuple of known length by a literal.
fn literal_entry<P: Program>(
    alloc: Global,
    program: &P,
    atom: &Atom,
    count: usize,
    value: &Literal,
) -> Result<Option<Parts>, NoMemory>
    ensures { IfOk result (λ own. IsOwn (P.world program.now) own (spec.literal_entry (P.world program.now) atom.now count value.now)) }
{
    match value {
        Literal::Int(index) => entry_at(alloc, program, atom, place_at(*index, count)),
        _ => any_entry(alloc, program, atom, count),
    }
}

/// An entry of a tuple of known length by an index.
#[tactic(auto, using(crate::proofs::OutOf::outs))]
fn index_entry<P: Program>(
    alloc: Global,
    program: &P,
    atom: &Atom,
    count: usize,
    index: &Atom,
) -> Result<Option<Parts>, NoMemory>
    ensures { IfOk result (λ own. IsOwn (P.world program.now) own (spec.level_entry (P.world program.now) atom.now count (out-Atom index.now))) }
{
    match index {
        Atom::Lit(value) => literal_entry(alloc, program, atom, count, value),
        _ => any_entry(alloc, program, atom, count),
    }
}

/// A list and its kin: the slot, a slice itself.
fn sequence_entry<P: Program>(
    alloc: Global,
    program: &P,
    atom: &Atom,
    index: Option<&Atom>,
) -> Result<Option<Parts>, NoMemory>
    ensures { IfOk result (λ own. IsOwn (P.world program.now) own (Some (spec.sequence_entry (P.world program.now) atom.now (option_copied index.entry)))) }
{
    let parts = match index {
        Some(_) => slot(alloc, program, atom, 0)?,
        None => same(alloc, atom)?,
    };
    Ok(Some(parts))
}

/// A tuple.
fn tuple_subscript<P: Program>(
    alloc: Global,
    program: &P,
    atom: &Atom,
    index: Option<&Atom>,
) -> Result<Option<Parts>, NoMemory>
    ensures { IfOk result (λ own. IsOwn (P.world program.now) own (spec.tuple_subscript (P.world program.now) atom.now (option_copied index.entry) (slots.tuple_length (P.world program.now) atom.now))) }
{
    match tuple_length(program, atom) {
        Some(count) => match index {
            Some(index) => index_entry(alloc, program, atom, count, index),
            None => unknown_where(alloc, true),
        },
        None => sequence_entry(alloc, program, atom, index),
    }
}

/// A dict.
fn dict_entry<P: Program>(
    alloc: Global,
    program: &P,
    atom: &Atom,
) -> Result<Option<Parts>, NoMemory>
    ensures { IfOk result (λ own. IsOwn (P.world program.now) own (Some (slots.slot (P.world program.now) atom.now 1))) }
{
    let parts = slot(alloc, program, atom, 1)?;
    Ok(Some(parts))
}

/// A member with slots.
#[tactic(auto, unfolding(crate::specs::Subscripts::slots_subscript))]
fn slots_subscript<P: Program>(
    alloc: Global,
    program: &P,
    atom: &Atom,
    index: Option<&Atom>,
    class: ClassId,
) -> Result<Option<Parts>, NoMemory>
    ensures { IfOk result (λ own. IsOwn (P.world program.now) own (spec.slots_subscript (P.world program.now) atom.now (option_copied index.entry) class)) }
{
    if is_class(class, Builtin::List) || is_class(class, Builtin::Sequence) {
        return sequence_entry(alloc, program, atom, index);
    }
    if is_class(class, Builtin::Tuple) {
        return tuple_subscript(alloc, program, atom, index);
    }
    if is_class(class, Builtin::Dict) {
        return dict_entry(alloc, program, atom);
    }
    Ok(None)
}

/// int of an index, and an instance of the class of a slice.
fn whole_or_slice(
    alloc: Global,
    index: Option<&Atom>,
    class: Builtin,
) -> Result<Option<Parts>, NoMemory>
    ensures { IfOk result (λ own. (w : World) → IsOwn w own (Some (spec.indexed (option_copied index.entry) (instances.instance builtin.Int) (instances.instance class)))) }
{
    let parts = match index {
        Some(_) => instance(alloc, Builtin::Int)?,
        None => instance(alloc, class)?,
    };
    Ok(Some(parts))
}

/// Unknown of an index, and the member itself of a slice.
fn unknown_or_slice(
    alloc: Global,
    atom: &Atom,
    index: Option<&Atom>,
) -> Result<Option<Parts>, NoMemory>
    ensures { IfOk result (λ own. (w : World) → IsOwn w own (Some (spec.indexed (option_copied index.entry) unknown (member atom.now)))) }
{
    let parts = match index {
        Some(_) => unknown(alloc)?,
        None => same(alloc, atom)?,
    };
    Ok(Some(parts))
}

/// The rows of the builtin classes of an instance.
#[tactic(auto, unfolding(crate::specs::Subscripts::builtin_subscript))]
fn builtin_subscript<P: Program>(
    alloc: Global,
    program: &P,
    atom: &Atom,
    index: Option<&Atom>,
    class: ClassId,
) -> Result<Option<Parts>, NoMemory>
    ensures { IfOk result (λ own. IsOwn (P.world program.now) own (spec.builtin_subscript (P.world program.now) atom.now (option_copied index.entry) class)) }
{
    if is_under(program, class, Builtin::Str) {
        let parts = instance(alloc, Builtin::Str)?;
        return Ok(Some(parts));
    }
    if is_under(program, class, Builtin::Bytes) {
        return whole_or_slice(alloc, index, Builtin::Bytes);
    }
    if is_under(program, class, Builtin::Range) {
        return whole_or_slice(alloc, index, Builtin::Range);
    }
    if is_under(program, class, Builtin::Sequence) {
        return unknown_or_slice(alloc, atom, index);
    }
    unknown_where(alloc, is_under(program, class, Builtin::Dict))
}

/// An instance: its own method, then the rows of its builtin classes.
fn instance_subscript<P: Program>(
    alloc: Global,
    program: &P,
    atom: &Atom,
    index: Option<&Atom>,
    class: ClassId,
) -> Result<Option<Parts>, NoMemory>
    ensures { IfOk result (λ own. IsOwn (P.world program.now) own (spec.instance_subscript (P.world program.now) atom.now (option_copied index.entry) class)) }
{
    let rows = builtin_subscript(alloc, program, atom, index, class)?;
    by_method(alloc, program, GETITEM, atom, rows)
}

/// A class: an enum's members, another one itself.
#[tactic(auto, unfolding(crate::specs::Subscripts::class_subscript))]
fn class_subscript<P: Program>(
    alloc: Global,
    program: &P,
    atom: &Atom,
    class: ClassId,
) -> Result<Option<Parts>, NoMemory>
    ensures { IfOk result (λ own. IsOwn (P.world program.now) own (Some (spec.class_subscript (P.world program.now) atom.now class))) }
{
    if is_under(program, class, Builtin::Enum) {
        let parts = instances(alloc, program, class)?;
        return Ok(Some(parts));
    }
    let parts = same(alloc, atom)?;
    Ok(Some(parts))
}

/// What a subscript gives, where it isn't a fault.
#[tactic(auto, using(crate::proofs::OutOf::outs))]
fn subscripted<P: Program>(
    alloc: Global,
    program: &P,
    atom: &Atom,
    index: Option<&Atom>,
) -> Result<Option<Parts>, NoMemory>
    ensures { IfOk result (λ own. IsOwn (P.world program.now) own (spec.level_subscript (P.world program.now) atom.now (option_copied index.entry) (out-Atom atom.now))) }
{
    match atom {
        Atom::Lit(value) => instance_subscript(alloc, program, atom, index, value.class()),
        Atom::Inst(class) => instance_subscript(alloc, program, atom, index, *class),
        Atom::Gen(class, _) => slots_subscript(alloc, program, atom, index, *class),
        Atom::Site(site) => slots_subscript(alloc, program, atom, index, site.class),
        Atom::Class(class) => class_subscript(alloc, program, atom, *class),
        Atom::Special(_) => unknown_where(alloc, true),
        Atom::Unknown => unknown_where(alloc, true),
        _ => Ok(None),
    }
}

/// The parts of what a subscript of a member gives.
#[tactic(auto, unfolding(crate::specs::Subscripts::subscript))]
pub(crate) fn subscript_parts<P: Program>(
    alloc: Global,
    program: &P,
    atom: &Atom,
    index: Option<&Atom>,
) -> Result<Parts, NoMemory>
    ensures { IfOk result (λ parts. IsRule (P.world program.now) parts (spec.subscript (P.world program.now) atom.now (option_copied index.entry))) }
{
    let own = subscripted(alloc, program, atom, index)?;
    or_fault(alloc, own, atom, true)
}
