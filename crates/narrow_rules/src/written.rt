//! Tests by a written type: TypeGuard and TypeIs.
ghost use Rattle.std.specs.Prelude.{◌≡◌, filter, IfOk, OnErr};
ghost use Rattle.std.specs.List.{list_any};
ghost use Rattle.type_terms.specs.declared.atom.Atom.{out-Atom};
ghost use Rattle.narrow_rules.specs.Ground as ground;
ghost use Rattle.narrow_rules.specs.Keep as spec;

use crate::ground::is_under;
use crate::sides::{Kept, only_true, push};
use class_rows::ClassRows;
use py_base::NoMemory;
use std::alloc::Global;
use type_terms::laws::type_of_is_exact;
use type_terms::{Atom, Type};

/// The written type where the test is true, and the member itself where it is false.
pub(crate) fn guard_side(alloc: Global, positive: bool, ty: &Type) -> Result<Kept, NoMemory>
    ensures value { IfOk result (λ kept. kept ≡ spec.side positive (spec.becomes ty.now)) }
    ensures free { OnErr result (spec.IsOthers (spec.side positive (spec.becomes ty.now))) }
{
    if !positive {
        return Ok(Kept::Itself);
    }
    if ty.members().is_empty() {
        return Ok(Kept::Nothing);
    }
    type_of_is_exact();
    Ok(Kept::Others(ty.copy(alloc)?))
}

/// Whether the member is under one of these.
fn is_under_one(atom: &Atom, others: &[Atom], classes: &ClassRows) -> bool
    ensures { result ≡ list_any (ground.is_under classes.now atom.now) others.now }
{
    for other in others {
        if is_under(atom, other, classes) {
            return true;
        }
    }
    false
}

/// Those of the members that are under another one.
fn those_under(
    alloc: Global,
    members: &[Atom],
    atom: &Atom,
    classes: &ClassRows,
) -> Result<Kept, NoMemory>
    ensures value { IfOk result (λ kept. kept ≡ spec.instead_of (filter (λ member. ground.is_under classes.now member atom.now) members.now)) }
    ensures free { OnErr result (spec.IsOthers (spec.instead_of (filter (λ member. ground.is_under classes.now member atom.now) members.now))) }
{
    let mut atoms = Vec::new(alloc);
    for member in members {
        if is_under(member, atom, classes) {
            push(&mut atoms, member.copy(alloc)?)?;
        }
    }
    Kept::instead_of(atoms)
}

/// What a TypeIs keeps of a member that is known.
fn known_side(
    alloc: Global,
    positive: bool,
    ty: &Type,
    atom: &Atom,
    classes: &ClassRows,
) -> Result<Kept, NoMemory>
    ensures value { IfOk result (λ kept. kept ≡ spec.side positive (spec.known_row classes.now ty.now atom.now)) }
    ensures free { OnErr result (spec.IsOthers (spec.side positive (spec.known_row classes.now ty.now atom.now))) }
{
    if is_under_one(atom, ty.members(), classes) {
        return Ok(only_true(positive));
    }
    if !positive {
        return Ok(Kept::Itself);
    }
    those_under(alloc, ty.members(), atom, classes)
}

/// What a TypeIs keeps.
#[tactic(auto, using(crate::proofs::OutOf::outs))]
pub(crate) fn guard_both_side(
    alloc: Global,
    positive: bool,
    ty: &Type,
    atom: &Atom,
    classes: &ClassRows,
) -> Result<Kept, NoMemory>
    ensures value { IfOk result (λ kept. kept ≡ spec.side positive (spec.guard_both_level classes.now ty.now atom.now (out-Atom atom.now))) }
    ensures free { OnErr result (spec.IsOthers (spec.side positive (spec.guard_both_level classes.now ty.now atom.now (out-Atom atom.now)))) }
{
    match atom {
        Atom::Unknown => guard_side(alloc, positive, ty),
        _ => known_side(alloc, positive, ty, atom, classes),
    }
}
