//! What builtin functions, methods and class calls give, by the forms of their rows.
ghost use Rattle.op_rules.specs.Instances as instances;
ghost use Rattle.value_terms.specs.Asks.{or_unknown};
ghost use Rattle.value_terms.specs.declared.ask.Ask.TheVariants as ask;
ghost use Rattle.py_base.specs.declared.ids.NodeId.{NodeId};
ghost use Rattle.std.specs.Prelude.{◌≡◌, ℕ, List, Option, IfOk, length, slice_get};
ghost use Rattle.op_rules.specs.Classes as classes;
ghost use Rattle.op_rules.specs.Iterations.{iteration};
ghost use Rattle.op_rules.specs.Results as spec;
ghost use Rattle.op_rules.specs.Operations.{call_at};
ghost use Rattle.op_rules.specs.Slots as slots;
ghost use Rattle.op_rules.specs.Steps.{IsCall, IsValue, step_says};
ghost use Rattle.op_rules.specs.World.{World, Value, unknown};
ghost use Rattle.py_base.specs.Builtins.{id_of};
ghost use Rattle.py_base.specs.declared.builtin.Builtin.TheVariants as builtin;
ghost use Rattle.py_base.specs.declared.ids.InnerTuple.TheVariants as tuples;
ghost use Rattle.type_terms.specs.declared.atom.Atom.{Atom};
ghost use Rattle.type_terms.specs.declared.atom.Atom.TheVariants as atom;
ghost use Rattle.value_terms.specs.Outcome.{gives};
ghost use Rattle.value_terms.specs.Term.{each, fixed, join, member, never, read};

use crate::classes::class_of;
use crate::instances::enum_instances;
use crate::iterations::iterate_parts;
use crate::parts::{Parts, given, instance, joined, nothing, one, same, unknown, with_member};
use crate::rules::Program;
use crate::slots::slot;
use crate::step::Step;
use crate::steps::Ruled;
use py_base::{Builtin, ClassId, InnerTuple, List, NoMemory, NodeId, SiteId};
use std::alloc::Global;
use type_terms::{Atom, RowResult, Type};
use value_terms::{Part, go_on};

/// The value that a call makes at its node.
fn made_at(alloc: Global, node: NodeId, class: ClassId) -> Result<Parts, NoMemory>
    ensures { IfOk result (λ parts. (w : World) → IsValue w parts (spec.site_at node class tuples.None)) }
{
    let site = SiteId {
        node,
        class,
        inner: InnerTuple::None,
    };
    one(alloc, Atom::Site(site))
}

/// The type of an argument, Unknown where it isn't there.
fn argument_type(alloc: Global, args: &[Type], place: usize) -> Result<Type, NoMemory>
    ensures { IfOk result (λ ty. ty ≡ or_unknown (slice_get args.now place)) }
{
    match args.get(place) {
        Some(ty) => ty.copy(alloc),
        None => Type::one(alloc, Atom::Unknown),
    }
}

/// An argument.
pub(crate) fn argument<'a, P: Program>(
    alloc: Global,
    ruled: &Ruled<'a, P>,
    place: usize,
) -> Result<Parts, NoMemory>
    ensures { IfOk result (λ parts. IsCall (P.world ruled.now.program.now) ruled.now.args.now parts (gives (spec.argument (length ruled.now.args.now) place))) }
{
    let ty = argument_type(alloc, ruled.args, place)?;
    let mut parts = List::new(alloc);
    parts.push(Part::Members(ty))?;
    Ok(parts)
}

/// What a step says of each member of the first argument.
fn of_argument<'a, P: Program>(
    alloc: Global,
    ruled: &Ruled<'a, P>,
    step: Step,
) -> Result<Parts, NoMemory>
    ensures { IfOk result (λ parts. (f : Atom → Value) → ((a : Atom) → step_says (P.world ruled.now.program.now) step a ≡ gives (f a)) → IsCall (P.world ruled.now.program.now) ruled.now.args.now parts (gives (each (spec.argument (length ruled.now.args.now) 0) f))) }
{
    let parts = argument(alloc, ruled, 0)?;
    let all = go_on(alloc, ruled, parts.as_slice(), &[step])?;
    Ok(all)
}

/// The magnitudes of an argument.
fn magnitudes<'a, P: Program>(alloc: Global, ruled: &Ruled<'a, P>) -> Result<Parts, NoMemory>
    ensures { IfOk result (λ parts. IsCall (P.world ruled.now.program.now) ruled.now.args.now parts (gives (each (spec.argument (length ruled.now.args.now) 0) (spec.magnitude (P.world ruled.now.program.now))))) }
{
    let parts = of_argument(alloc, ruled, Step::Magnitude)?;
    Ok(parts)
}

/// An argument, widened.
fn widened_argument<'a, P: Program>(alloc: Global, ruled: &Ruled<'a, P>) -> Result<Parts, NoMemory>
    ensures { IfOk result (λ parts. IsCall (P.world ruled.now.program.now) ruled.now.args.now parts (gives (spec.widened_value (P.world ruled.now.program.now) (spec.argument (length ruled.now.args.now) 0)))) }
{
    let parts = of_argument(alloc, ruled, Step::Widened)?;
    Ok(parts)
}

/// The classes of an argument.
fn classes_of_argument<'a, P: Program>(
    alloc: Global,
    ruled: &Ruled<'a, P>,
) -> Result<Parts, NoMemory>
    ensures { IfOk result (λ parts. IsCall (P.world ruled.now.program.now) ruled.now.args.now parts (gives (each (spec.argument (length ruled.now.args.now) 0) spec.type_of_member))) }
{
    let parts = of_argument(alloc, ruled, Step::ClassOf)?;
    Ok(parts)
}

/// What each of some members iterates.
fn iterations<'a, P: Program>(
    alloc: Global,
    ruled: &Ruled<'a, P>,
    members: &[Atom],
) -> Result<Parts, NoMemory>
    ensures { IfOk result (λ parts. IsCall (P.world ruled.now.program.now) ruled.now.args.now parts (gives (each (fixed members.now) (iteration (P.world ruled.now.program.now))))) }
{
    let mut parts = List::new(alloc);
    for member in members {
        let more = iterate_parts(alloc, ruled, member, false)?;
        parts = joined(parts, more)?;
    }
    Ok(parts)
}

/// What the first argument iterates.
#[tactic(auto, using(crate::proofs::CallLemmas::each_argument))]
fn iterated_argument<'a, P: Program>(alloc: Global, ruled: &Ruled<'a, P>) -> Result<Parts, NoMemory>
    ensures { IfOk result (λ parts. IsCall (P.world ruled.now.program.now) ruled.now.args.now parts (gives (spec.iterated_argument (iteration (P.world ruled.now.program.now)) (length ruled.now.args.now) 0))) }
{
    let ty = argument_type(alloc, ruled.args, 0)?;
    let parts = iterations(alloc, ruled, ty.members())?;
    Ok(parts)
}

/// All arguments.
fn all_arguments(alloc: Global, args: &[Type]) -> Result<Parts, NoMemory>
    ensures { IfOk result (λ parts. (w : World) → IsCall w args.now parts (gives (spec.first_arguments (length args.now)))) }
{
    let mut parts = List::new(alloc);
    for ty in args {
        let copy = ty.copy(alloc)?;
        parts.push(Part::Members(copy))?;
    }
    Ok(parts)
}

/// `min`, `max`: what one argument iterates, else all of them.
fn extreme<'a, P: Program>(alloc: Global, ruled: &Ruled<'a, P>) -> Result<Parts, NoMemory>
    ensures { IfOk result (λ parts. IsCall (P.world ruled.now.program.now) ruled.now.args.now parts (gives (spec.extreme (iteration (P.world ruled.now.program.now)) (length ruled.now.args.now)))) }
{
    if ruled.args.len() < 2 {
        return iterated_argument(alloc, ruled);
    }
    all_arguments(alloc, ruled.args)
}

/// What the argument of `sum` iterates, widened.
fn widened_items<'a, P: Program>(alloc: Global, ruled: &Ruled<'a, P>) -> Result<Parts, NoMemory>
    ensures { IfOk result (λ parts. IsCall (P.world ruled.now.program.now) ruled.now.args.now parts (gives (spec.widened_value (P.world ruled.now.program.now) (spec.iterated_argument (iteration (P.world ruled.now.program.now)) (length ruled.now.args.now) 0)))) }
{
    let parts = iterated_argument(alloc, ruled)?;
    let all = go_on(alloc, ruled, parts.as_slice(), &[Step::Widened])?;
    Ok(all)
}

/// `sum`: what the argument iterates, widened, and int.
fn sum<'a, P: Program>(alloc: Global, ruled: &Ruled<'a, P>) -> Result<Parts, NoMemory>
    ensures { IfOk result (λ parts. IsCall (P.world ruled.now.program.now) ruled.now.args.now parts (gives (spec.summed (iteration (P.world ruled.now.program.now)) (P.world ruled.now.program.now) (length ruled.now.args.now)))) }
{
    let parts = widened_items(alloc, ruled)?;
    with_member(alloc, parts, Atom::Inst(Builtin::Int.id()))
}

/// `round`: int with one argument, else the first one, widened.
#[tactic(auto, using(crate::proofs::RuleLemmas::any_arguments))]
fn rounded<'a, P: Program>(alloc: Global, ruled: &Ruled<'a, P>) -> Result<Parts, NoMemory>
    ensures { IfOk result (λ parts. IsCall (P.world ruled.now.program.now) ruled.now.args.now parts (gives (spec.rounded (P.world ruled.now.program.now) (length ruled.now.args.now)))) }
{
    if ruled.args.len() == 1 {
        return instance(alloc, Builtin::Int);
    }
    widened_argument(alloc, ruled)
}

/// `super()`.
fn super_in(alloc: Global, around: Option<ClassId>) -> Result<Parts, NoMemory>
    ensures { IfOk result (λ parts. (w : World) → IsValue w parts (spec.super_in around)) }
{
    match around {
        Some(class) => one(alloc, Atom::Super(class)),
        None => unknown(alloc),
    }
}

/// `type`: the class of each member of the argument; with three arguments Unknown.
#[tactic(auto, using(crate::proofs::RuleLemmas::any_arguments))]
fn type_called<'a, P: Program>(alloc: Global, ruled: &Ruled<'a, P>) -> Result<Parts, NoMemory>
    ensures { IfOk result (λ parts. IsCall (P.world ruled.now.program.now) ruled.now.args.now parts (gives (spec.type_called (length ruled.now.args.now)))) }
{
    if ruled.args.len() == 3 {
        return unknown(alloc);
    }
    classes_of_argument(alloc, ruled)
}

/// Parts and an argument besides.
fn with_argument<'a, P: Program>(
    alloc: Global,
    ruled: &Ruled<'a, P>,
    parts: Parts,
    place: usize,
) -> Result<Parts, NoMemory>
    ensures { IfOk result (λ all. (x : Value) → IsValue (P.world ruled.now.program.now) parts x → IsCall (P.world ruled.now.program.now) ruled.now.args.now all (gives (join x (read (ask.Argument place))))) }
{
    let ty = argument_type(alloc, ruled.args, place)?;
    let mut all = parts;
    all.push(Part::Members(ty))?;
    Ok(all)
}

/// A slot of the receiver, and the second argument or, where it isn't there, None.
#[tactic(auto, using(crate::proofs::RuleLemmas::any_arguments))]
fn slot_or_none<'a, P: Program>(
    alloc: Global,
    ruled: &Ruled<'a, P>,
    receiver: &Atom,
    place: usize,
) -> Result<Parts, NoMemory>
    ensures { IfOk result (λ parts. IsCall (P.world ruled.now.program.now) ruled.now.args.now parts (gives (spec.slot_or (P.world ruled.now.program.now) receiver.now (member atom.None) place (length ruled.now.args.now)))) }
{
    let parts = slot(alloc, ruled.program, receiver, place)?;
    if 1 < ruled.args.len() {
        with_argument(alloc, ruled, parts, 1)
    } else {
        with_member(alloc, parts, Atom::None)
    }
}

/// A slot of the receiver, and the second argument where there is one.
#[tactic(auto, using(crate::proofs::CallLemmas::slot_alone))]
fn slot_or_argument<'a, P: Program>(
    alloc: Global,
    ruled: &Ruled<'a, P>,
    receiver: &Atom,
    place: usize,
) -> Result<Parts, NoMemory>
    ensures { IfOk result (λ parts. IsCall (P.world ruled.now.program.now) ruled.now.args.now parts (gives (spec.slot_or (P.world ruled.now.program.now) receiver.now never place (length ruled.now.args.now)))) }
{
    let parts = slot(alloc, ruled.program, receiver, place)?;
    if 1 < ruled.args.len() {
        with_argument(alloc, ruled, parts, 1)
    } else {
        Ok(parts)
    }
}

/// What a call of a row gives that looks at its receiver, or makes a value at its node.
#[tactic(auto, using(crate::proofs::RuleLemmas::any_arguments))]
fn other_result<'a, P: Program>(
    alloc: Global,
    ruled: &Ruled<'a, P>,
    form: &RowResult,
    receiver: &Atom,
    node: NodeId,
) -> Result<Parts, NoMemory>
    ensures { IfOk result (λ parts. IsCall (P.world ruled.now.program.now) ruled.now.args.now parts (gives (spec.other_gives (P.world ruled.now.program.now) form.now receiver.now (call_at node ruled.now.args.now)))) }
{
    match form {
        RowResult::Iterated(class, _) => made_at(alloc, node, *class),
        RowResult::Unfilled(class) => made_at(alloc, node, *class),
        RowResult::EnumMembers => enum_instances(alloc, ruled.program, class_of(receiver)),
        RowResult::Receiver => same(alloc, receiver),
        RowResult::Slot(place) => slot(alloc, ruled.program, receiver, *place as usize),
        RowResult::SlotOrNone(place) => slot_or_none(alloc, ruled, receiver, *place as usize),
        RowResult::SlotOrArgument(place) => slot_or_argument(
            alloc,
            ruled,
            receiver,
            *place as usize,
        ),
        _ => made_at(alloc, node, Builtin::Iterable.id()),
    }
}

/// What a call of a row gives.
#[tactic(auto, using(crate::proofs::RuleLemmas::any_arguments), unfolding(crate::specs::Results::row_gives))]
pub(crate) fn row_result<'a, P: Program>(
    alloc: Global,
    ruled: &Ruled<'a, P>,
    form: &RowResult,
    receiver: &Atom,
    node: NodeId,
) -> Result<Parts, NoMemory>
    ensures { IfOk result (λ parts. IsCall (P.world ruled.now.program.now) ruled.now.args.now parts (gives (spec.row_gives (iteration (P.world ruled.now.program.now)) (P.world ruled.now.program.now) form.now receiver.now (call_at node ruled.now.args.now)))) }
{
    match form {
        RowResult::Fixed(ty) => {
            let copy = ty.copy(alloc)?;
            given(alloc, copy)
        }
        RowResult::Nothing => Ok(nothing(alloc)),
        RowResult::Magnitude => magnitudes(alloc, ruled),
        RowResult::Extreme => extreme(alloc, ruled),
        RowResult::Sum => sum(alloc, ruled),
        RowResult::Rounded => rounded(alloc, ruled),
        RowResult::FirstArgument => argument(alloc, ruled, 0),
        RowResult::SuperAround => super_in(alloc, ruled.program.class_around(node)),
        RowResult::ClassOfEach => type_called(alloc, ruled),
        _ => other_result(alloc, ruled, form, receiver, node),
    }
}
