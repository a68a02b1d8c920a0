//! The evaluation of rules, the one way in which types are asked for.
ghost use Rattle.std.specs.Prelude.{◌≡◌, ◌++◌, IfOk, OnOk, OnErr};
ghost use Rattle.py_base.specs.declared.key.Key.{Key};
ghost use Rattle.type_terms.specs.Asked.{AsksJust, AsksSome, Cancels};
ghost use Rattle.type_terms.specs.Types.{type_of};
ghost use Rattle.type_terms.specs.declared.atom.Atom.{Atom};
ghost use Rattle.value_terms.specs.Outcome.{Outcome, named};
ghost use Rattle.value_terms.specs.Term.{eval};
ghost use Rattle.value_terms.specs.Told.{Says, told, part_told, parts_told, rows_told, has_some, gathered, Adds, IsAlike};

use crate::part::Part;
use crate::rows::Rows;
use py_base::{List, NoMemory, Stop};
use std::alloc::Global;
use type_terms::laws::{type_of_is_exact, types_are_their_members};
use type_terms::view::Types;
use type_terms::{Atom, Type};

/// What a rule gives, and whether it is a fault.
#[derive(Drop)]
pub struct Found {
    pub ty: Type,
    pub fails: bool,
}

/// Moves the members of a type to others, in whatever order.
fn add_members(ty: Type, atoms: &mut Vec<Atom>) -> Result<(), NoMemory>
    ensures { OnOk result (IsAlike (atoms.old.items ++ ty) atoms.new.items) }
{
    let mut members = ty.into_slot();
    while let Some(member) = members.pop() {
        atoms.push(member)?;
    }
    Ok(())
}

/// Adds what a part says.
#[cycle(evaluate)]
fn add_part<R: Rows, T: Types>(
    alloc: Global,
    rows: &R,
    part: Part<R::Row>,
    atoms: &mut Vec<Atom>,
    fault: &mut bool,
    types: &mut T,
) -> Result<(), Stop>
    ensures adds { OnOk result (Adds (part_told (R.rule rows.now) part (T.assignment types.old)) (gathered atoms.old.items fault.old (T.asked types.old)) (gathered atoms.new.items fault.new (T.asked types.new))) }
    ensures same { T.assignment types.new ≡ T.assignment types.old }
    ensures stays { T.stays types.old types.new }
    ensures asked { OnErr result (AsksSome (T.asked types.old) (part_told (R.rule rows.now) part (T.assignment types.old)).names (T.asked types.new)) }
    ensures cancels { Cancels (T.seen types.old) (T.seen types.new) result }
{
    match part {
        Part::Members(ty) => Ok(add_members(ty, atoms)?),
        Part::Fault => {
            *fault = true;
            Ok(())
        }
        Part::Read(key) => {
            let ty = types.get(alloc, key)?;
            Ok(add_members(ty, atoms)?)
        }
        Part::Each(key, row) => {
            let ty = types.get(alloc, key)?;
            add_rows(alloc, rows, &row, ty.members(), atoms, fault, types)
        }
    }
}

/// Adds what a row says of each of some members.
#[cycle(evaluate)]
fn add_rows<R: Rows, T: Types>(
    alloc: Global,
    rows: &R,
    row: &R::Row,
    members: &[Atom],
    atoms: &mut Vec<Atom>,
    fault: &mut bool,
    types: &mut T,
) -> Result<(), Stop>
    ensures adds { OnOk result (Adds (rows_told (R.rule rows.now) row.now members.now (T.assignment types.old)) (gathered atoms.old.items fault.old (T.asked types.old)) (gathered atoms.new.items fault.new (T.asked types.new))) }
    ensures same { T.assignment types.new ≡ T.assignment types.old }
    ensures stays { T.stays types.old types.new }
    ensures asked { OnErr result (AsksSome (T.asked types.old) (rows_told (R.rule rows.now) row.now members.now (T.assignment types.old)).names (T.asked types.new)) }
    ensures cancels { Cancels (T.seen types.old) (T.seen types.new) result }
{
    for member in members {
        add_row(alloc, rows, row, member, atoms, fault, types)?;
    }
    Ok(())
}

/// Adds what a row says of a member.
#[cycle(evaluate)]
fn add_row<R: Rows, T: Types>(
    alloc: Global,
    rows: &R,
    row: &R::Row,
    member: &Atom,
    atoms: &mut Vec<Atom>,
    fault: &mut bool,
    types: &mut T,
) -> Result<(), Stop>
    ensures adds { OnOk result (Adds (told (R.rule rows.now row.now member.now) (T.assignment types.old)) (gathered atoms.old.items fault.old (T.asked types.old)) (gathered atoms.new.items fault.new (T.asked types.new))) }
    ensures same { T.assignment types.new ≡ T.assignment types.old }
    ensures stays { T.stays types.old types.new }
    ensures asked { OnErr result (AsksSome (T.asked types.old) (told (R.rule rows.now row.now member.now) (T.assignment types.old)).names (T.asked types.new)) }
    ensures cancels { Cancels (T.seen types.old) (T.seen types.new) result }
{
    let parts = rows.parts(alloc, row, member)?;
    add_parts(alloc, rows, parts, atoms, fault, types)
}

/// Adds what parts say, the last one first: what they say is a set.
#[cycle(evaluate)]
fn add_parts<R: Rows, T: Types>(
    alloc: Global,
    rows: &R,
    parts: List<Part<R::Row>>,
    atoms: &mut Vec<Atom>,
    fault: &mut bool,
    types: &mut T,
) -> Result<(), Stop>
    ensures adds { OnOk result (Adds (parts_told (R.rule rows.now) parts (T.assignment types.old)) (gathered atoms.old.items fault.old (T.asked types.old)) (gathered atoms.new.items fault.new (T.asked types.new))) }
    ensures same { T.assignment types.new ≡ T.assignment types.old }
    ensures stays { T.stays types.old types.new }
    ensures asked { OnErr result (AsksSome (T.asked types.old) (parts_told (R.rule rows.now) parts (T.assignment types.old)).names (T.asked types.new)) }
    ensures cancels { Cancels (T.seen types.old) (T.seen types.new) result }
{
    let mut left = parts;
    while let Some(part) = left.pop() {
        add_part(alloc, rows, part, atoms, fault, types)?;
    }
    Ok(())
}

/// The type that an outcome gives, and whether it is a fault, by the types of just the keys that it names,
/// where the parts say what the outcome says. What a part or a key gives is moved and never copied.
pub fn evaluate<R: Rows, T: Types>(
    alloc: Global,
    rows: &R,
    parts: List<Part<R::Row>>,
    types: &mut T,
) -> Result<Found, Stop>
    ensures value { (o : Outcome Key Atom) → Says (R.rule rows.now) parts o → IfOk result (λ found. found.ty ≡ type_of (eval o.gives (T.assignment types.old))) }
    ensures fails { (o : Outcome Key Atom) → Says (R.rule rows.now) parts o → IfOk result (λ found. found.fails ≡ has_some (eval o.fails (T.assignment types.old))) }
    ensures same { T.assignment types.new ≡ T.assignment types.old }
    ensures stays { T.stays types.old types.new }
    ensures asked { (o : Outcome Key Atom) → Says (R.rule rows.now) parts o → OnOk result (AsksJust (T.asked types.old) (named o (T.assignment types.old)) (T.asked types.new)) }
    ensures asked_before { (o : Outcome Key Atom) → Says (R.rule rows.now) parts o → OnErr result (AsksSome (T.asked types.old) (named o (T.assignment types.old)) (T.asked types.new)) }
    ensures cancels { Cancels (T.seen types.old) (T.seen types.new) result }
{
    let mut atoms = Vec::new(alloc);
    let mut fails = false;
    add_parts(alloc, rows, parts, &mut atoms, &mut fails, types)?;
    type_of_is_exact();
    types_are_their_members();
    let ty = Type::of(atoms)?;
    Ok(Found { ty, fails })
}
