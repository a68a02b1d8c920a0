//! Calls.
ghost use Rattle.std.specs.Prelude.{◌≡◌, ℕ, Option, IfOk, length};
ghost use Rattle.op_rules.specs.Calls as spec;
ghost use Rattle.py_base.specs.declared.ids.NodeId.{NodeId};
ghost use Rattle.op_rules.specs.Operations.{call_at};
ghost use Rattle.op_rules.specs.Steps.{IsCall, IsOwn, IsOwnCall, IsValue};
ghost use Rattle.op_rules.specs.World.{World};
ghost use Rattle.type_terms.specs.declared.atom.Atom.{out-Atom};
ghost use Rattle.value_terms.specs.Outcome.{gives};

use crate::classes::{is_class, is_under};
use crate::instances::instances;
use crate::methods::by_method;
use crate::names::{ABSTRACTMETHOD, ASSERT_NEVER, CALL, CAST, FINAL, OVERRIDE, REVEAL_TYPE};
use crate::parts::{Parts, nothing, of_slot, or_fault, unknown, unknown_where};
use crate::results::{argument, row_result};
use crate::rules::Program;
use crate::steps::{Ruled, call_of};
use py_base::{Builtin, ClassId, FuncId, NameId, NoMemory, NodeId, SiteId};
use sqlite_items::Items;
use std::alloc::Global;
use type_terms::{Atom, Slots};

/// A builtin row.
#[tactic(auto, unfolding(crate::specs::Calls::row_call))]
fn row_call<'a, P: Program>(
    alloc: Global,
    ruled: &Ruled<'a, P>,
    row: u32,
    receiver: &Atom,
    node: NodeId,
) -> Result<Parts, NoMemory>
    ensures { IfOk result (λ parts. IsCall (P.world ruled.now.program.now) ruled.now.args.now parts (gives (spec.row_call (P.world ruled.now.program.now) row receiver.now (call_at node ruled.now.args.now)))) }
{
    row_result(alloc, ruled, &ruled.program.row(row).result, receiver, node)
}

/// A class: its instance, a builtin class by its row.
#[tactic(auto, using(crate::proofs::RuleLemmas::any_arguments), unfolding(crate::specs::Calls::class_call))]
fn class_call<'a, P: Program>(
    alloc: Global,
    ruled: &Ruled<'a, P>,
    atom: &Atom,
    class: ClassId,
    node: NodeId,
) -> Result<Parts, NoMemory>
    ensures { IfOk result (λ parts. IsCall (P.world ruled.now.program.now) ruled.now.args.now parts (gives (spec.class_call (P.world ruled.now.program.now) atom.now class (call_at node ruled.now.args.now)))) }
{
    match ruled.program.class_call(class) {
        Some(row) => row_call(alloc, ruled, row, atom, node),
        None => instances(alloc, ruled.program, class),
    }
}

/// Callable: its result.
fn slots_result(alloc: Global, all: &Slots<Items<Atom>>) -> Result<Option<Parts>, NoMemory>
    ensures { IfOk result (λ own. (w : World) → IsOwn w own (spec.slots_result all.now)) }
{
    match all {
        Slots::AnyArguments(slot) => {
            let parts = of_slot(alloc, slot)?;
            Ok(Some(parts))
        }
        Slots::Arguments(_, slot) => {
            let parts = of_slot(alloc, slot)?;
            Ok(Some(parts))
        }
        _ => Ok(None),
    }
}

/// A lambda: what it returns.
fn lambda_result<P: Program>(
    alloc: Global,
    program: &P,
    func: Option<FuncId>,
) -> Result<Parts, NoMemory>
    ensures { IfOk result (λ parts. IsValue (P.world program.now) parts (spec.lambda_result (P.world program.now) func)) }
{
    match func {
        Some(func) => call_of(alloc, program, func),
        None => unknown(alloc),
    }
}

/// The names of typing that give their first argument.
fn gives_argument(name: NameId) -> bool
    ensures { result ≡ spec.gives_argument name }
{
    name.0 == CAST.0
        || name.0 == REVEAL_TYPE.0
        || name.0 == OVERRIDE.0
        || name.0 == FINAL.0
        || name.0 == ABSTRACTMETHOD.0
}

/// A name of typing.
#[tactic(auto, using(crate::proofs::CallLemmas::call_nothing))]
fn special_call<'a, P: Program>(
    alloc: Global,
    ruled: &Ruled<'a, P>,
    name: NameId,
) -> Result<Option<Parts>, NoMemory>
    ensures { IfOk result (λ own. IsOwnCall (P.world ruled.now.program.now) ruled.now.args.now own (spec.special_call name (length ruled.now.args.now))) }
{
    if gives_argument(name) {
        let parts = argument(alloc, ruled, 0)?;
        return Ok(Some(parts));
    }
    if name.0 == ASSERT_NEVER.0 {
        return Ok(Some(nothing(alloc)));
    }
    Ok(None)
}

/// An instance: its `__call__`; one of `type` is Unknown.
fn instance_call<P: Program>(
    alloc: Global,
    program: &P,
    atom: &Atom,
    class: ClassId,
) -> Result<Option<Parts>, NoMemory>
    ensures { IfOk result (λ own. IsOwn (P.world program.now) own (spec.instance_call (P.world program.now) atom.now class)) }
{
    let rows = unknown_where(alloc, is_under(program, class, Builtin::Callable))?;
    by_method(alloc, program, CALL, atom, rows)
}

/// A value made at a site: a lambda, or an instance.
fn site_call<P: Program>(
    alloc: Global,
    program: &P,
    atom: &Atom,
    site: SiteId,
) -> Result<Option<Parts>, NoMemory>
    ensures { IfOk result (λ own. IsOwn (P.world program.now) own (spec.site_call (P.world program.now) atom.now site)) }
{
    if is_class(site.class, Builtin::Function) {
        let parts = lambda_result(alloc, program, program.func_at(site.node))?;
        return Ok(Some(parts));
    }
    instance_call(alloc, program, atom, site.class)
}

/// A generic: Callable, or an instance.
fn generic_call<P: Program>(
    alloc: Global,
    program: &P,
    atom: &Atom,
    class: ClassId,
    all: &Slots<Items<Atom>>,
) -> Result<Option<Parts>, NoMemory>
    ensures { IfOk result (λ own. IsOwn (P.world program.now) own (spec.generic_call (P.world program.now) atom.now class all.now)) }
{
    if is_class(class, Builtin::Callable) {
        return slots_result(alloc, all);
    }
    instance_call(alloc, program, atom, class)
}

/// What a call gives, where it isn't a fault.
#[tactic(auto, using(crate::proofs::OutOf::outs, crate::proofs::CallLemmas::any_own, crate::proofs::RuleLemmas::any_arguments))]
fn called<'a, P: Program>(
    alloc: Global,
    ruled: &Ruled<'a, P>,
    atom: &Atom,
    node: NodeId,
) -> Result<Option<Parts>, NoMemory>
    ensures { IfOk result (λ own. IsOwnCall (P.world ruled.now.program.now) ruled.now.args.now own (spec.level_call (P.world ruled.now.program.now) atom.now (call_at node ruled.now.args.now) (out-Atom atom.now))) }
{
    let program = ruled.program;
    match atom {
        Atom::Lit(value) => instance_call(alloc, program, atom, value.class()),
        Atom::Inst(class) => instance_call(alloc, program, atom, *class),
        Atom::Gen(class, all) => generic_call(alloc, program, atom, *class, all),
        Atom::Site(site) => site_call(alloc, program, atom, *site),
        Atom::Class(class) => {
            let parts = class_call(alloc, ruled, atom, *class, node)?;
            Ok(Some(parts))
        }
        Atom::Func(func) => {
            let parts = call_of(alloc, program, *func)?;
            Ok(Some(parts))
        }
        Atom::Bound(func) => {
            let parts = call_of(alloc, program, *func)?;
            Ok(Some(parts))
        }
        Atom::BuiltMethod(row, receiver) => {
            let parts = row_call(alloc, ruled, *row, receiver.get(), node)?;
            Ok(Some(parts))
        }
        Atom::BuiltFunc(row) => {
            let parts = row_call(alloc, ruled, *row, atom, node)?;
            Ok(Some(parts))
        }
        Atom::Special(name) => special_call(alloc, ruled, *name),
        Atom::Unknown => unknown_where(alloc, true),
        _ => Ok(None),
    }
}

/// The parts of what a call of a member gives.
#[tactic(auto, unfolding(crate::specs::Calls::called))]
pub(crate) fn call_parts<'a, P: Program>(
    alloc: Global,
    ruled: &Ruled<'a, P>,
    atom: &Atom,
    node: NodeId,
) -> Result<Parts, NoMemory>
    ensures { IfOk result (λ parts. IsCall (P.world ruled.now.program.now) ruled.now.args.now parts (spec.called (P.world ruled.now.program.now) atom.now (call_at node ruled.now.args.now))) }
{
    let own = called(alloc, ruled, atom, node)?;
    or_fault(alloc, own, atom, true)
}
