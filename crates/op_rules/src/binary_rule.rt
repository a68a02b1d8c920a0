//! Operators with two operands.
ghost use Rattle.std.specs.Prelude.{◌≡◌, ◌||◌, IfOk};
ghost use Rattle.op_rules.specs.Operators as spec;
ghost use Rattle.op_rules.specs.Steps.{IsRule, IsOwn};
ghost use Rattle.type_terms.specs.declared.atom.Atom.{out-Atom};

use crate::containers::containers;
use crate::methods::{method_of, stands_in};
use crate::names::{left_method, right_method};
use crate::parts::{Parts, none_refused, refused, unknown};
use crate::rules::Program;
use crate::tables::{numbers, texts};
use py_base::{NoMemory, Op};
use std::alloc::Global;
use type_terms::Atom;

/// The operator's own methods, the left one first.
#[tactic(auto, using(crate::proofs::RuleLemmas::first_here, crate::proofs::RuleLemmas::first_behind), unfolding(crate::specs::Operators::methods))]
fn methods<P: Program>(
    alloc: Global,
    program: &P,
    op: Op,
    left: &Atom,
    right: &Atom,
) -> Result<Option<Parts>, NoMemory>
    ensures { IfOk result (λ own. IsOwn (P.world program.now) own (spec.methods (P.world program.now) op left.now right.now)) }
{
    let own = method_of(alloc, program, left, left_method(op))?;
    match own {
        Some(parts) => Ok(Some(parts)),
        None => method_of(alloc, program, right, right_method(op)),
    }
}

/// Text, and then containers.
#[tactic(auto, using(crate::proofs::RuleLemmas::first_here, crate::proofs::RuleLemmas::first_behind))]
fn after_numbers<P: Program>(
    alloc: Global,
    program: &P,
    op: Op,
    left: &Atom,
    right: &Atom,
) -> Result<Option<Parts>, NoMemory>
    ensures { IfOk result (λ own. IsOwn (P.world program.now) own (spec.after_numbers (P.world program.now) op left.now right.now)) }
{
    let own = texts(alloc, program, op, left, right)?;
    match own {
        Some(parts) => Ok(Some(parts)),
        None => containers(alloc, program, op, left, right),
    }
}

/// The rows of the table.
#[tactic(auto, using(crate::proofs::RuleLemmas::first_here, crate::proofs::RuleLemmas::first_behind), unfolding(crate::specs::Operators::table_rows))]
fn rows<P: Program>(
    alloc: Global,
    program: &P,
    op: Op,
    left: &Atom,
    right: &Atom,
) -> Result<Option<Parts>, NoMemory>
    ensures { IfOk result (λ own. IsOwn (P.world program.now) own (spec.table_rows (P.world program.now) op left.now right.now)) }
{
    let own = numbers(alloc, program, op, left, right)?;
    match own {
        Some(parts) => Ok(Some(parts)),
        None => after_numbers(alloc, program, op, left, right),
    }
}

/// Methods, and then rows.
#[tactic(auto, using(crate::proofs::RuleLemmas::first_here, crate::proofs::RuleLemmas::first_behind))]
fn own<P: Program>(
    alloc: Global,
    program: &P,
    op: Op,
    left: &Atom,
    right: &Atom,
) -> Result<Option<Parts>, NoMemory>
    ensures { IfOk result (λ own. IsOwn (P.world program.now) own (spec.own_pair (P.world program.now) op left.now right.now)) }
{
    let own = methods(alloc, program, op, left, right)?;
    match own {
        Some(parts) => Ok(Some(parts)),
        None => rows(alloc, program, op, left, right),
    }
}

#[tactic(auto, using(crate::proofs::OutOf::outs))]
fn is_unknown(atom: &Atom) -> bool
    ensures { result ≡ spec.is_unknown (out-Atom atom.now) }
{
    match atom {
        Atom::Unknown => true,
        _ => false,
    }
}

#[tactic(auto, using(crate::proofs::OutOf::outs))]
fn is_none(atom: &Atom) -> bool
    ensures { result ≡ spec.is_none (out-Atom atom.now) }
{
    match atom {
        Atom::None => true,
        _ => false,
    }
}

/// Members without a row.
#[tactic(auto, unfolding(crate::specs::Operators::without_row))]
fn without_row<P: Program>(
    alloc: Global,
    program: &P,
    op: Op,
    left: &Atom,
    right: &Atom,
) -> Result<Parts, NoMemory>
    ensures { IfOk result (λ parts. IsRule (P.world program.now) parts (spec.without_row (P.world program.now) op left.now right.now)) }
{
    if stands_in(program, left, left_method(op))
        || stands_in(program, right, right_method(op))
        || (is_unknown(left) || is_unknown(right))
    {
        return unknown(alloc);
    }
    if is_none(left) || is_none(right) {
        return none_refused(alloc);
    }
    refused(alloc)
}

/// The parts of what an operator with two operands gives.
#[tactic(auto, using(crate::proofs::RuleLemmas::own_first, crate::proofs::RuleLemmas::own_none), unfolding(crate::specs::Operators::binary))]
pub(crate) fn binary_parts<P: Program>(
    alloc: Global,
    program: &P,
    op: Op,
    left: &Atom,
    right: &Atom,
) -> Result<Parts, NoMemory>
    ensures { IfOk result (λ parts. IsRule (P.world program.now) parts (spec.binary (P.world program.now) op left.now right.now)) }
{
    let own = own(alloc, program, op, left, right)?;
    match own {
        Some(parts) => Ok(parts),
        None => without_row(alloc, program, op, left, right),
    }
}
