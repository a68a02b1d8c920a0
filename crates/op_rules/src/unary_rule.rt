//! Operators with one operand.
ghost use Rattle.std.specs.Prelude.{◌≡◌, IfOk};
ghost use Rattle.op_rules.specs.Steps.{IsRule, IsOwn};
ghost use Rattle.op_rules.specs.Unary as spec;
ghost use Rattle.op_rules.specs.World.{World};
ghost use Rattle.type_terms.specs.declared.atom.Atom.{out-Atom};

use crate::methods::{method_of, stands_in};
use crate::names::one_method;
use crate::parts::{Parts, none_refused, refused, unknown};
use crate::rules::Program;
use crate::tables::{instances_of, number, number_alone};
use py_base::{NoMemory, Op};
use std::alloc::Global;
use type_terms::Atom;

/// The operator's own method, and then numbers.
#[tactic(auto, using(crate::proofs::RuleLemmas::first_here, crate::proofs::RuleLemmas::first_behind))]
fn own<P: Program>(
    alloc: Global,
    program: &P,
    op: Op,
    atom: &Atom,
) -> Result<Option<Parts>, NoMemory>
    ensures { IfOk result (λ own. IsOwn (P.world program.now) own (spec.own_alone (P.world program.now) op atom.now)) }
{
    let own = method_of(alloc, program, atom, one_method(op))?;
    match own {
        Some(parts) => Ok(Some(parts)),
        None => instances_of(alloc, number_alone(op, number(program, atom))),
    }
}

#[tactic(auto, using(crate::proofs::OutOf::outs))]
fn without_method(alloc: Global, atom: &Atom) -> Result<Parts, NoMemory>
    ensures { IfOk result (λ parts. (w : World) → IsRule w parts (spec.level_without_row (out-Atom atom.now))) }
{
    match atom {
        Atom::Unknown => unknown(alloc),
        Atom::None => none_refused(alloc),
        _ => refused(alloc),
    }
}

/// A member without a row.
#[tactic(auto, unfolding(crate::specs::Unary::without_unary_row))]
fn without_row<P: Program>(
    alloc: Global,
    program: &P,
    op: Op,
    atom: &Atom,
) -> Result<Parts, NoMemory>
    ensures { IfOk result (λ parts. IsRule (P.world program.now) parts (spec.without_unary_row (P.world program.now) op atom.now)) }
{
    if stands_in(program, atom, one_method(op)) {
        return unknown(alloc);
    }
    without_method(alloc, atom)
}

/// The parts of what an operator with one operand gives.
#[tactic(auto, using(crate::proofs::RuleLemmas::own_first, crate::proofs::RuleLemmas::own_none), unfolding(crate::specs::Unary::unary))]
pub(crate) fn unary_parts<P: Program>(
    alloc: Global,
    program: &P,
    op: Op,
    atom: &Atom,
) -> Result<Parts, NoMemory>
    ensures { IfOk result (λ parts. IsRule (P.world program.now) parts (spec.unary (P.world program.now) op atom.now)) }
{
    let own = own(alloc, program, op, atom)?;
    match own {
        Some(parts) => Ok(parts),
        None => without_row(alloc, program, op, atom),
    }
}
