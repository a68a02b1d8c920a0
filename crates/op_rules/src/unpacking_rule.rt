//! Unpacking.
ghost use Rattle.std.specs.Prelude.{◌≡◌, IfOk};
ghost use Rattle.op_rules.specs.Steps.{IsCall, IsValue};
ghost use Rattle.op_rules.specs.Unpacking as spec;
ghost use Rattle.value_terms.specs.Outcome.{gives};

use crate::iterations::iterate_parts;
use crate::parts::{Parts, unknown};
use crate::rules::Program;
use crate::slots::{slot, tuple_length};
use crate::steps::Ruled;
use py_base::NoMemory;
use std::alloc::Global;
use type_terms::Atom;

/// The slot of a tuple of known length.
fn tuple_part<P: Program>(
    alloc: Global,
    program: &P,
    atom: &Atom,
    targets: usize,
    place: usize,
    count: usize,
) -> Result<Parts, NoMemory>
    ensures { IfOk result (λ parts. IsValue (P.world program.now) parts (spec.tuple_part (P.world program.now) atom.now targets place count)) }
{
    if count == targets {
        return slot(alloc, program, atom, place);
    }
    unknown(alloc)
}

/// The parts of what a target takes.
#[tactic(auto, using(crate::proofs::RuleLemmas::any_arguments), unfolding(crate::specs::Unpacking::part))]
pub(crate) fn unpack_parts<'a, P: Program>(
    alloc: Global,
    ruled: &Ruled<'a, P>,
    atom: &Atom,
    targets: usize,
    place: usize,
) -> Result<Parts, NoMemory>
    ensures { IfOk result (λ parts. IsCall (P.world ruled.now.program.now) ruled.now.args.now parts (gives (spec.part (P.world ruled.now.program.now) atom.now targets place))) }
{
    match tuple_length(ruled.program, atom) {
        Some(count) => tuple_part(alloc, ruled.program, atom, targets, place, count),
        None => iterate_parts(alloc, ruled, atom, false),
    }
}
