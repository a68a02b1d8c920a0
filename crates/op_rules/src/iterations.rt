//! Iteration.
ghost use Rattle.std.specs.Prelude.{◌≡◌, ◌||◌, Option, IfOk};
ghost use Rattle.op_rules.specs.Iterations as spec;
ghost use Rattle.op_rules.specs.Steps.{IsCall, IsRule, IsValue, IsOwn};
ghost use Rattle.op_rules.specs.World.{World, Value, with_faults};
ghost use Rattle.value_terms.specs.Outcome.{for_each};

use crate::classes::{file_class, has_any, is_class, is_under};
use crate::instances::instances;
use crate::methods::{by_method, own_method};
use crate::names::{ITER, NEXT};
use crate::parts::{Parts, instance, or_fault, unknown, unknown_where};
use crate::rules::Program;
use crate::slots::{entries, slot, tuple_length};
use crate::step::Step;
use crate::steps::Ruled;
use py_base::{Builtin, ClassId, NoMemory};
use std::alloc::Global;
use type_terms::Atom;
use value_terms::go_on;

/// The rows of the builtin classes.
#[tactic(auto, unfolding(crate::specs::Iterations::builtin_iteration))]
fn builtin_iteration<P: Program>(
    alloc: Global,
    program: &P,
    class: ClassId,
) -> Result<Option<Parts>, NoMemory>
    ensures { IfOk result (λ own. IsOwn (P.world program.now) own (spec.builtin_iteration (P.world program.now) class)) }
{
    if is_under(program, class, Builtin::Str) || is_under(program, class, Builtin::TextIo) {
        let parts = instance(alloc, Builtin::Str)?;
        return Ok(Some(parts));
    }
    if is_under(program, class, Builtin::Bytes) || is_under(program, class, Builtin::Range) {
        let parts = instance(alloc, Builtin::Int)?;
        return Ok(Some(parts));
    }
    unknown_where(alloc, is_under(program, class, Builtin::Iterable))
}

/// The slot of a list and its kin, the entries of a tuple.
#[tactic(auto, unfolding(crate::specs::Iterations::own_slots))]
fn own_slots<P: Program>(alloc: Global, program: &P, atom: &Atom) -> Result<Parts, NoMemory>
    ensures { IfOk result (λ parts. IsValue (P.world program.now) parts (spec.own_slots (P.world program.now) atom.now)) }
{
    match tuple_length(program, atom) {
        Some(count) => entries(alloc, program, atom, count),
        None => slot(alloc, program, atom, 0),
    }
}

/// A member with slots.
fn generic_iteration<P: Program>(
    alloc: Global,
    program: &P,
    atom: &Atom,
    class: ClassId,
) -> Result<Option<Parts>, NoMemory>
    ensures { IfOk result (λ own. IsOwn (P.world program.now) own (spec.generic_iteration (P.world program.now) atom.now class)) }
{
    if is_class(class, Builtin::Callable) || is_class(class, Builtin::Function) {
        return Ok(None);
    }
    let parts = own_slots(alloc, program, atom)?;
    Ok(Some(parts))
}

/// An enum class.
fn class_iteration<P: Program>(
    alloc: Global,
    program: &P,
    class: ClassId,
) -> Result<Option<Parts>, NoMemory>
    ensures { IfOk result (λ own. IsOwn (P.world program.now) own (spec.class_iteration (P.world program.now) class)) }
{
    if is_under(program, class, Builtin::Enum) {
        let parts = instances(alloc, program, class)?;
        return Ok(Some(parts));
    }
    Ok(None)
}

/// A member without methods of the file.
#[tactic(auto, using(crate::proofs::OutOf::outs), unfolding(crate::specs::Iterations::plain_iteration))]
fn plain_iteration<P: Program>(
    alloc: Global,
    program: &P,
    atom: &Atom,
) -> Result<Option<Parts>, NoMemory>
    ensures { IfOk result (λ own. IsOwn (P.world program.now) own (spec.plain_iteration (P.world program.now) atom.now)) }
{
    match atom {
        Atom::Lit(value) => builtin_iteration(alloc, program, value.class()),
        Atom::Inst(class) => builtin_iteration(alloc, program, *class),
        Atom::Gen(class, _) => generic_iteration(alloc, program, atom, *class),
        Atom::Site(site) => generic_iteration(alloc, program, atom, site.class),
        Atom::Class(class) => class_iteration(alloc, program, *class),
        Atom::Unknown => unknown_where(alloc, true),
        _ => Ok(None),
    }
}

/// What `__iter__` gave: `__next__` of an instance of the file, else its iteration.
fn iterator_of<P: Program>(
    alloc: Global,
    program: &P,
    atom: &Atom,
    file: Option<ClassId>,
) -> Result<Option<Parts>, NoMemory>
    ensures { IfOk result (λ own. IsOwn (P.world program.now) own (spec.iterator_of (P.world program.now) atom.now file)) }
{
    match file {
        Some(_) => by_method(alloc, program, NEXT, atom, None),
        None => plain_iteration(alloc, program, atom),
    }
}

/// The step that iterates what `__iter__` gave.
#[tactic(auto, unfolding(crate::specs::Iterations::iterator))]
pub(crate) fn iterator<P: Program>(
    alloc: Global,
    program: &P,
    atom: &Atom,
    told: bool,
) -> Result<Parts, NoMemory>
    ensures { IfOk result (λ parts. IsRule (P.world program.now) parts (with_faults told (spec.iterator (P.world program.now) atom.now))) }
{
    let own = iterator_of(alloc, program, atom, file_class(atom))?;
    or_fault(alloc, own, atom, told)
}

/// `__iter__` of an instance of the file.
fn own_iter<P: Program>(
    alloc: Global,
    program: &P,
    atom: &Atom,
    file: Option<ClassId>,
) -> Result<Option<Parts>, NoMemory>
    ensures { IfOk result (λ own. IsOwn (P.world program.now) own (spec.own_iter (P.world program.now) atom.now file)) }
{
    match file {
        Some(_) => own_method(alloc, program, ITER, atom),
        None => Ok(None),
    }
}

/// The rows of the builtin classes of an instance of the file, then `__getattr__` or an Unknown base.
fn behind_iter<P: Program>(
    alloc: Global,
    program: &P,
    class: ClassId,
) -> Result<Option<Parts>, NoMemory>
    ensures { IfOk result (λ own. (a : Atom) → IsOwn (P.world program.now) own (spec.without_iter (P.world program.now) a (Some class))) }
{
    let own = builtin_iteration(alloc, program, class)?;
    match own {
        Some(parts) => Ok(Some(parts)),
        None => unknown_where(alloc, has_any(program, class)),
    }
}

/// A member that has no `__iter__` of the file.
fn without_iter<P: Program>(
    alloc: Global,
    program: &P,
    atom: &Atom,
    file: Option<ClassId>,
) -> Result<Option<Parts>, NoMemory>
    ensures { IfOk result (λ own. IsOwn (P.world program.now) own (spec.without_iter (P.world program.now) atom.now file)) }
{
    match file {
        Some(class) => behind_iter(alloc, program, class),
        None => plain_iteration(alloc, program, atom),
    }
}

/// Iterates each member of what `__iter__` gave.
fn iterated<'a, P: Program>(
    alloc: Global,
    ruled: &Ruled<'a, P>,
    parts: Parts,
    told: bool,
) -> Result<Parts, NoMemory>
    ensures { IfOk result (λ all. (x : Value) → IsValue (P.world ruled.now.program.now) parts x → IsCall (P.world ruled.now.program.now) ruled.now.args.now all (with_faults told (for_each x (spec.iterator (P.world ruled.now.program.now))))) }
{
    let all = go_on(alloc, ruled, parts.as_slice(), &[Step::Iterator(told)])?;
    Ok(all)
}

/// The parts of what iterating a member gives, where it is told whether that is a fault or not.
#[tactic(auto, using(crate::proofs::CallLemmas::iter_some, crate::proofs::CallLemmas::iter_none), unfolding(crate::specs::Iterations::iterate))]
pub(crate) fn iterate_parts<'a, P: Program>(
    alloc: Global,
    ruled: &Ruled<'a, P>,
    atom: &Atom,
    told: bool,
) -> Result<Parts, NoMemory>
    ensures { IfOk result (λ parts. IsCall (P.world ruled.now.program.now) ruled.now.args.now parts (with_faults told (spec.iterate (P.world ruled.now.program.now) atom.now))) }
{
    let file = file_class(atom);
    let own = own_iter(alloc, ruled.program, atom, file)?;
    match own {
        Some(parts) => iterated(alloc, ruled, parts, told),
        None => {
            let other = without_iter(alloc, ruled.program, atom, file)?;
            or_fault(alloc, other, atom, told)
        }
    }
}
