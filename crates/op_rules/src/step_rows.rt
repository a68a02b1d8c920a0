//! What steps say that look at a member alone.
ghost use Rattle.std.specs.Prelude.{◌≡◌, IfOk};
ghost use Rattle.op_rules.specs.Results as spec;
ghost use Rattle.op_rules.specs.Steps.{IsValue, IsFlat};
ghost use Rattle.op_rules.specs.World.{World};
ghost use Rattle.type_terms.specs.Widen as widening;
ghost use Rattle.value_terms.specs.Term.{fixed};

use crate::classes::{class_of, is_instance_under};
use crate::parts::{Parts, given_alike, instance, one, unknown};
use crate::rules::Program;
use py_base::{Builtin, NoMemory};
use std::alloc::Global;
use type_terms::{Atom, Type};
use value_terms::laws::types_have_their_members;

/// A member, widened.
pub(crate) fn widened<P: Program>(
    alloc: Global,
    program: &P,
    member: &Atom,
) -> Result<Parts, NoMemory>
    ensures rule { IfOk result (λ parts. IsValue (P.world program.now) parts (fixed (widening.widened (P.world program.now).names member.now))) }
    ensures flat { IfOk result IsFlat }
{
    let copy = member.copy(alloc)?;
    let alone = Type::one(alloc, copy)?;
    let wide = program.widened(alloc, &alone)?;
    types_have_their_members();
    let parts = given_alike(alloc, wide)?;
    Ok(parts)
}

/// `abs`: int of int and bool, float of float, else Unknown.
#[tactic(auto, unfolding(crate::specs::Results::magnitude))]
pub(crate) fn magnitude<P: Program>(
    alloc: Global,
    program: &P,
    member: &Atom,
) -> Result<Parts, NoMemory>
    ensures rule { IfOk result (λ parts. IsValue (P.world program.now) parts (spec.magnitude (P.world program.now) member.now)) }
    ensures flat { IfOk result IsFlat }
{
    if is_instance_under(program, member, Builtin::Int) {
        return instance(alloc, Builtin::Int);
    }
    if is_instance_under(program, member, Builtin::Float) {
        return instance(alloc, Builtin::Float);
    }
    unknown(alloc)
}

/// `type(x)`: the class of a member.
#[tactic(auto, using(crate::proofs::OutOf::outs), unfolding(crate::specs::Results::type_of_member))]
pub(crate) fn class_of_member(alloc: Global, member: &Atom) -> Result<Parts, NoMemory>
    ensures rule { IfOk result (λ parts. (w : World) → IsValue w parts (spec.type_of_member member.now)) }
    ensures flat { IfOk result IsFlat }
{
    match member {
        Atom::Unknown => unknown(alloc),
        _ => one(alloc, Atom::Class(class_of(member))),
    }
}
