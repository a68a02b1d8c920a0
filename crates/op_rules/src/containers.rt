//! Operators on lists, sets, dicts and tuples, and `|` of classes.
ghost use Rattle.std.specs.Prelude.{◌≡◌, IfOk};
ghost use Rattle.op_rules.specs.Containers as spec;
ghost use Rattle.op_rules.specs.Steps.{IsValue, IsOwn};
ghost use Rattle.op_rules.specs.World.{World};
ghost use Rattle.type_terms.specs.declared.atom.Atom.{out-Atom};
ghost use Rattle.value_terms.specs.Term.{member};

use crate::classes::is_instance_under;
use crate::parts::{Parts, same, unknown, with_member};
use crate::rules::Program;
use crate::tables::{are_both, is_repeated, is_whole};
use py_base::{Builtin, NoMemory, Op};
use std::alloc::Global;
use type_terms::Atom;

/// Both sides.
fn both_sides(alloc: Global, left: &Atom, right: &Atom) -> Result<Parts, NoMemory>
    ensures { IfOk result (λ parts. (w : World) → IsValue w parts (spec.both_sides left.now right.now)) }
{
    let parts = same(alloc, left)?;
    let copy = right.copy(alloc)?;
    with_member(alloc, parts, copy)
}

/// list `+` list both; tuple `+` tuple Unknown.
fn added<P: Program>(
    alloc: Global,
    program: &P,
    left: &Atom,
    right: &Atom,
) -> Result<Option<Parts>, NoMemory>
    ensures { IfOk result (λ own. IsOwn (P.world program.now) own (spec.added (P.world program.now) left.now right.now)) }
{
    if are_both(program, left, right, Builtin::List) {
        let parts = both_sides(alloc, left, right)?;
        return Ok(Some(parts));
    }
    if are_both(program, left, right, Builtin::Tuple) {
        let parts = unknown(alloc)?;
        return Ok(Some(parts));
    }
    Ok(None)
}

/// list and int by `*`, on either side, the list; tuple and int Unknown.
fn repeated<P: Program>(
    alloc: Global,
    program: &P,
    left: &Atom,
    right: &Atom,
) -> Result<Option<Parts>, NoMemory>
    ensures { IfOk result (λ own. IsOwn (P.world program.now) own (spec.repeated (P.world program.now) left.now right.now)) }
{
    if is_instance_under(program, left, Builtin::List) && is_whole(program, right) {
        let parts = same(alloc, left)?;
        return Ok(Some(parts));
    }
    if is_whole(program, left) && is_instance_under(program, right, Builtin::List) {
        let parts = same(alloc, right)?;
        return Ok(Some(parts));
    }
    if is_repeated(program, left, right, Builtin::Tuple) {
        let parts = unknown(alloc)?;
        return Ok(Some(parts));
    }
    Ok(None)
}

/// set `-` and `&`: the left one.
fn left_set<P: Program>(
    alloc: Global,
    program: &P,
    left: &Atom,
    right: &Atom,
) -> Result<Option<Parts>, NoMemory>
    ensures { IfOk result (λ own. IsOwn (P.world program.now) own (spec.on_sets (P.world program.now) left.now right.now (member left.now))) }
{
    if are_both(program, left, right, Builtin::Set) {
        let parts = same(alloc, left)?;
        return Ok(Some(parts));
    }
    Ok(None)
}

/// set `|` and `^`: both.
fn both_sets<P: Program>(
    alloc: Global,
    program: &P,
    left: &Atom,
    right: &Atom,
) -> Result<Option<Parts>, NoMemory>
    ensures { IfOk result (λ own. IsOwn (P.world program.now) own (spec.on_sets (P.world program.now) left.now right.now (spec.both_sides left.now right.now))) }
{
    if are_both(program, left, right, Builtin::Set) {
        let parts = both_sides(alloc, left, right)?;
        return Ok(Some(parts));
    }
    Ok(None)
}

#[tactic(auto, using(crate::proofs::OutOf::outs))]
fn is_class_object(atom: &Atom) -> bool
    ensures { result ≡ spec.is_class_object (out-Atom atom.now) }
{
    match atom {
        Atom::Class(_) => true,
        _ => false,
    }
}

#[tactic(auto, using(crate::proofs::OutOf::outs))]
fn is_union_part(atom: &Atom) -> bool
    ensures { result ≡ spec.is_union_part (out-Atom atom.now) }
{
    match atom {
        Atom::Class(_) => true,
        Atom::None => true,
        _ => false,
    }
}

#[tactic(auto, using(crate::proofs::OutOf::outs))]
fn is_special(atom: &Atom) -> bool
    ensures { result ≡ spec.is_special (out-Atom atom.now) }
{
    match atom {
        Atom::Special(_) => true,
        _ => false,
    }
}

fn is_written_union(left: &Atom, right: &Atom) -> bool
    ensures { result ≡ spec.is_written_union (out-Atom left.now) (out-Atom right.now) }
{
    (is_class_object(left) && is_union_part(right))
        || (is_union_part(left) && is_class_object(right))
        || is_special(left)
        || is_special(right)
}

/// `|`: sets and dicts both, class with class or None Unknown.
fn united<P: Program>(
    alloc: Global,
    program: &P,
    left: &Atom,
    right: &Atom,
) -> Result<Option<Parts>, NoMemory>
    ensures { IfOk result (λ own. IsOwn (P.world program.now) own (spec.united (P.world program.now) left.now right.now)) }
{
    if are_both(program, left, right, Builtin::Set) {
        let parts = both_sides(alloc, left, right)?;
        return Ok(Some(parts));
    }
    if are_both(program, left, right, Builtin::Dict) {
        let parts = both_sides(alloc, left, right)?;
        return Ok(Some(parts));
    }
    if is_written_union(left, right) {
        let parts = unknown(alloc)?;
        return Ok(Some(parts));
    }
    Ok(None)
}

/// The rows of containers.
#[tactic(auto, unfolding(crate::specs::Containers::containers))]
pub(crate) fn containers<P: Program>(
    alloc: Global,
    program: &P,
    op: Op,
    left: &Atom,
    right: &Atom,
) -> Result<Option<Parts>, NoMemory>
    ensures { IfOk result (λ own. IsOwn (P.world program.now) own (spec.containers (P.world program.now) op left.now right.now)) }
{
    match op {
        Op::Plus => added(alloc, program, left, right),
        Op::Star => repeated(alloc, program, left, right),
        Op::Minus => left_set(alloc, program, left, right),
        Op::BitAnd => left_set(alloc, program, left, right),
        Op::BitXor => both_sets(alloc, program, left, right),
        Op::BitOr => united(alloc, program, left, right),
        _ => Ok(None),
    }
}
