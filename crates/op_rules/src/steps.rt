//! What the steps of rules say.
ghost use Rattle.std.specs.Prelude.{◌≡◌, IfOk, suc};
ghost use Rattle.std.specs.Option.{option_copied};
ghost use Rattle.op_rules.specs.Bindings as spec;
ghost use Rattle.op_rules.specs.Protocols as protocols;
ghost use Rattle.op_rules.specs.Steps.{IsRule, IsValue, IsFlat, step_says, step_weight};
ghost use Rattle.op_rules.specs.World.{World};
ghost use Rattle.value_terms.specs.Chain.{chain_rank};
ghost use Rattle.value_terms.specs.Ranks.{ReachAtMost};

use crate::iterations::iterator;
use crate::parts::{Parts, given, nothing, one, returned, same, unknown, with_member};
use crate::rules::Program;
use crate::slots::slot;
use crate::step::Step;
use crate::step_rows::{class_of_member, magnitude, widened};
use py_base::{FuncId, List, NoMemory};
use std::alloc::Global;
use type_terms::facts::FuncKind;
use type_terms::{Atom, RowResult, Type};
use value_terms::{Part, Steps};

/// An annotation, or what a function returns.
fn annotated(alloc: Global, found: Option<&Type>, func: FuncId) -> Result<Parts, NoMemory>
    ensures rule { IfOk result (λ parts. (w : World) → IsValue w parts (spec.annotated (option_copied found.entry) func)) }
    ensures flat { IfOk result IsFlat }
{
    match found {
        Some(ty) => {
            let copy = ty.copy(alloc)?;
            let parts = given(alloc, copy)?;
            Ok(parts)
        }
        None => {
            let parts = returned(alloc, func)?;
            Ok(parts)
        }
    }
}

/// What a call of a function of the file gives.
#[tactic(auto, unfolding(crate::specs::Bindings::call_of))]
pub(crate) fn call_of<P: Program>(
    alloc: Global,
    program: &P,
    func: FuncId,
) -> Result<Parts, NoMemory>
    ensures rule { IfOk result (λ parts. IsValue (P.world program.now) parts (spec.call_of (P.world program.now) func)) }
    ensures flat { IfOk result IsFlat }
{
    let row = program.func(func);
    if row.is_async || row.is_generator {
        return unknown(alloc);
    }
    if row.guard {
        let both = Type::bools(alloc)?;
        return given(alloc, both);
    }
    annotated(alloc, row.result.as_ref(), func)
}

/// A def seen through an instance.
fn func_on_instance<P: Program>(
    alloc: Global,
    program: &P,
    func: FuncId,
    kind: FuncKind,
) -> Result<Parts, NoMemory>
    ensures rule { IfOk result (λ parts. IsValue (P.world program.now) parts (spec.func_on_instance (P.world program.now) func kind)) }
    ensures flat { IfOk result IsFlat }
{
    match kind {
        FuncKind::Plain => one(alloc, Atom::Func(func)),
        FuncKind::Method => one(alloc, Atom::Bound(func)),
        FuncKind::Static => one(alloc, Atom::Func(func)),
        FuncKind::Class => one(alloc, Atom::Bound(func)),
        FuncKind::Property => call_of(alloc, program, func),
    }
}

/// A member of a symbol's type, seen through an instance.
#[tactic(auto, using(crate::proofs::OutOf::outs), unfolding(crate::specs::Bindings::bound_on_instance))]
fn bound_on_instance<P: Program>(
    alloc: Global,
    program: &P,
    member: &Atom,
) -> Result<Parts, NoMemory>
    ensures rule { IfOk result (λ parts. IsValue (P.world program.now) parts (spec.bound_on_instance (P.world program.now) member.now)) }
    ensures flat { IfOk result IsFlat }
{
    match member {
        Atom::Func(func) => {
            let kind = program.func(*func).kind;
            func_on_instance(alloc, program, *func, kind)
        }
        _ => same(alloc, member),
    }
}

/// A def seen through a class.
fn func_on_class(alloc: Global, func: FuncId, kind: FuncKind) -> Result<Parts, NoMemory>
    ensures rule { IfOk result (λ parts. (w : World) → IsValue w parts (spec.func_on_class func kind)) }
    ensures flat { IfOk result IsFlat }
{
    match kind {
        FuncKind::Class => one(alloc, Atom::Bound(func)),
        _ => one(alloc, Atom::Func(func)),
    }
}

/// A member of a symbol's type, seen through a class.
#[tactic(auto, using(crate::proofs::OutOf::outs), unfolding(crate::specs::Bindings::bound_on_class))]
fn bound_on_class<P: Program>(alloc: Global, program: &P, member: &Atom) -> Result<Parts, NoMemory>
    ensures rule { IfOk result (λ parts. IsValue (P.world program.now) parts (spec.bound_on_class (P.world program.now) member.now)) }
    ensures flat { IfOk result IsFlat }
{
    match member {
        Atom::Func(func) => {
            let kind = program.func(*func).kind;
            func_on_class(alloc, *func, kind)
        }
        _ => same(alloc, member),
    }
}

/// What a builtin method gives without arguments.
fn bare<P: Program>(
    alloc: Global,
    program: &P,
    form: &RowResult,
    receiver: &Atom,
) -> Result<Parts, NoMemory>
    ensures rule { IfOk result (λ parts. IsValue (P.world program.now) parts (protocols.bare_gives (P.world program.now) form.now receiver.now)) }
    ensures flat { IfOk result IsFlat }
{
    match form {
        RowResult::Fixed(ty) => {
            let copy = ty.copy(alloc)?;
            given(alloc, copy)
        }
        RowResult::Nothing => Ok(nothing(alloc)),
        RowResult::Receiver => same(alloc, receiver),
        RowResult::Slot(place) => slot(alloc, program, receiver, *place as usize),
        RowResult::SlotOrNone(place) => {
            let parts = slot(alloc, program, receiver, *place as usize)?;
            with_member(alloc, parts, Atom::None)
        }
        RowResult::SlotOrArgument(place) => slot(alloc, program, receiver, *place as usize),
        _ => unknown(alloc),
    }
}

/// A builtin row, called without arguments.
#[tactic(auto, unfolding(crate::specs::Protocols::row_called))]
pub(crate) fn row_called<P: Program>(
    alloc: Global,
    program: &P,
    row: u32,
    receiver: &Atom,
) -> Result<Parts, NoMemory>
    ensures rule { IfOk result (λ parts. IsValue (P.world program.now) parts (protocols.row_called (P.world program.now) row receiver.now)) }
    ensures flat { IfOk result IsFlat }
{
    bare(alloc, program, &program.row(row).result, receiver)
}

/// A member of a method's type, called.
#[tactic(auto, using(crate::proofs::OutOf::outs), unfolding(crate::specs::Protocols::called_once))]
fn called_once<P: Program>(alloc: Global, program: &P, member: &Atom) -> Result<Parts, NoMemory>
    ensures rule { IfOk result (λ parts. IsValue (P.world program.now) parts (protocols.called_once (P.world program.now) member.now)) }
    ensures flat { IfOk result IsFlat }
{
    match member {
        Atom::Func(func) => call_of(alloc, program, *func),
        Atom::Bound(func) => call_of(alloc, program, *func),
        Atom::BuiltMethod(row, receiver) => row_called(alloc, program, *row, receiver.get()),
        _ => unknown(alloc),
    }
}

/// What a step says of a member.
#[tactic(auto, using(crate::proofs::RuleLemmas::flat_reaches, crate::proofs::RuleLemmas::rule_reaches))]
fn step_parts<P: Program>(
    alloc: Global,
    program: &P,
    step: Step,
    member: &Atom,
) -> Result<Parts, NoMemory>
    ensures rule { IfOk result (λ parts. IsRule (P.world program.now) parts (step_says (P.world program.now) step member.now)) }
    ensures reach { IfOk result (ReachAtMost (chain_rank step_weight) (suc (step_weight step))) }
{
    match step {
        Step::OnInstance => bound_on_instance(alloc, program, member),
        Step::OnClass => bound_on_class(alloc, program, member),
        Step::Called => called_once(alloc, program, member),
        Step::Iterator(told) => iterator(alloc, program, member, told),
        Step::Widened => widened(alloc, program, member),
        Step::Magnitude => magnitude(alloc, program, member),
        Step::ClassOf => class_of_member(alloc, member),
    }
}

/// The steps over a program, where the arguments of the call have these types.
#[derive(Drop)]
pub(crate) struct Ruled<'a, P: Program> {
    pub program: &'a P,
    pub args: &'a [Type],
}

impl<'a, P: Program> Steps for Ruled<'a, P> {
    ghost use Rattle.op_rules.specs.Steps.{step_rule, step_weight};

    type Step = Step;

    ghost rule = { λ r. step_rule (P.world r.program.now) r.args.now };

    ghost weight = { λ r. step_weight };

    fn parts(
        &self,
        alloc: Global,
        step: Step,
        member: &Atom,
    ) -> Result<List<Part<List<Step>>>, NoMemory> {
        let parts = step_parts(alloc, self.program, step, member)?;
        Ok(parts)
    }
}
