//! The methods that operations ask an instance for.
ghost use Rattle.std.specs.Prelude.{◌≡◌, Some, Option, IfOk};
ghost use Rattle.op_rules.specs.Classes as classes;
ghost use Rattle.op_rules.specs.Members as members;
ghost use Rattle.op_rules.specs.Operators as operators;
ghost use Rattle.op_rules.specs.Protocols as spec;
ghost use Rattle.op_rules.specs.Steps.{IsOwn};
ghost use Rattle.op_rules.specs.World.{Value};

use crate::classes::{builtin_row, has_any, instance_class};
use crate::members::{members_seen, through, with_behind};
use crate::parts::{Parts, unknown, unknown_where};
use crate::rules::Program;
use crate::step::Path;
use crate::steps::row_called;
use py_base::{ClassId, NameId, NoMemory, SymId};
use std::alloc::Global;
use type_terms::Atom;

/// A builtin row of a class that stands for a method.
fn own_row<P: Program>(
    alloc: Global,
    program: &P,
    name: NameId,
    atom: &Atom,
    class: ClassId,
) -> Result<Option<Parts>, NoMemory>
    ensures { IfOk result (λ own. IsOwn (P.world program.now) own (spec.by_row (P.world program.now) atom.now (classes.builtin_row (P.world program.now) class name))) }
{
    match builtin_row(program, class, name) {
        Some(row) => {
            let parts = row_called(alloc, program, row, atom)?;
            Ok(Some(parts))
        }
        None => Ok(None),
    }
}

/// What stands behind members that hide nothing: the row, else `__getattr__` or an Unknown base.
fn behind_method<P: Program>(
    alloc: Global,
    program: &P,
    class: ClassId,
    row: Option<Parts>,
) -> Result<Option<Parts>, NoMemory>
    ensures { IfOk result (λ own. (y : Option Value) → IsOwn (P.world program.now) row y → IsOwn (P.world program.now) own (spec.behind_method (P.world program.now) class y)) }
{
    match row {
        Some(parts) => Ok(Some(parts)),
        None => {
            if has_any(program, class) {
                let parts = unknown(alloc)?;
                return Ok(Some(parts));
            }
            Ok(None)
        }
    }
}

/// Members that hide nothing, and the row.
fn with_row<P: Program>(
    alloc: Global,
    program: &P,
    class: ClassId,
    symbols: &[SymId],
    row: Option<Parts>,
) -> Result<Option<Parts>, NoMemory>
    ensures { IfOk result (λ own. (y : Option Value) → IsOwn (P.world program.now) row y → IsOwn (P.world program.now) own (members.unhidden (spec.by_symbol (P.world program.now)) symbols.now (spec.behind_method (P.world program.now) class y) y)) }
{
    match symbols {
        [] => Ok(row),
        _ => {
            let behind = behind_method(alloc, program, class, row)?;
            let parts = through(alloc, symbols, Path::Called)?;
            let all = with_behind(parts, behind)?;
            Ok(Some(all))
        }
    }
}

/// A method that instances of a class have.
fn own_of<P: Program>(
    alloc: Global,
    program: &P,
    name: NameId,
    atom: &Atom,
    class: ClassId,
) -> Result<Option<Parts>, NoMemory>
    ensures { IfOk result (λ own. IsOwn (P.world program.now) own (spec.own_of (P.world program.now) name atom.now (Some class))) }
{
    let seen = members_seen(alloc, program, class, name)?;
    if seen.hidden {
        let parts = through(alloc, seen.symbols.as_slice(), Path::Called)?;
        return Ok(Some(parts));
    }
    let row = own_row(alloc, program, name, atom, class)?;
    with_row(alloc, program, class, seen.symbols.as_slice(), row)
}

/// The method of this name that a member has of its own, called.
#[tactic(auto, unfolding(crate::specs::Protocols::own_method))]
pub(crate) fn own_method<P: Program>(
    alloc: Global,
    program: &P,
    name: NameId,
    atom: &Atom,
) -> Result<Option<Parts>, NoMemory>
    ensures { IfOk result (λ own. IsOwn (P.world program.now) own (spec.own_method (P.world program.now) name atom.now)) }
{
    match instance_class(atom) {
        Some(class) => own_of(alloc, program, name, atom, class),
        None => Ok(None),
    }
}

/// The same for an operator that may have a method.
pub(crate) fn method_of<P: Program>(
    alloc: Global,
    program: &P,
    atom: &Atom,
    name: Option<NameId>,
) -> Result<Option<Parts>, NoMemory>
    ensures { IfOk result (λ own. IsOwn (P.world program.now) own (operators.method_of (P.world program.now) atom.now name)) }
{
    match name {
        Some(name) => own_method(alloc, program, name, atom),
        None => Ok(None),
    }
}

/// Behind a member's own method: the rows of its builtin class, else Unknown where `__getattr__` or an Unknown
/// base stands for it.
#[tactic(auto, using(crate::proofs::RuleLemmas::first_here, crate::proofs::RuleLemmas::first_behind))]
fn behind_own<P: Program>(
    alloc: Global,
    program: &P,
    atom: &Atom,
    rows: Option<Parts>,
) -> Result<Option<Parts>, NoMemory>
    ensures { IfOk result (λ own. (y : Option Value) → IsOwn (P.world program.now) rows y → IsOwn (P.world program.now) own (spec.behind_own (P.world program.now) atom.now y)) }
{
    match rows {
        Some(parts) => Ok(Some(parts)),
        None => unknown_where(alloc, has_any_method(program, atom)),
    }
}

/// An operation by the method of this name that a member has of its own, else by rows, else Unknown where
/// `__getattr__` or an Unknown base stands for it.
#[tactic(auto, using(crate::proofs::RuleLemmas::first_here, crate::proofs::RuleLemmas::first_behind), unfolding(crate::specs::Protocols::by_method))]
pub(crate) fn by_method<P: Program>(
    alloc: Global,
    program: &P,
    name: NameId,
    atom: &Atom,
    rows: Option<Parts>,
) -> Result<Option<Parts>, NoMemory>
    ensures { IfOk result (λ own. (y : Option Value) → IsOwn (P.world program.now) rows y → IsOwn (P.world program.now) own (spec.by_method (P.world program.now) name atom.now y)) }
{
    let own = own_method(alloc, program, name, atom)?;
    match own {
        Some(parts) => Ok(Some(parts)),
        None => behind_own(alloc, program, atom, rows),
    }
}

/// Whether `__getattr__` or an Unknown base stands for each method of a member.
fn has_any_method<P: Program>(program: &P, atom: &Atom) -> bool
    ensures { result ≡ spec.has_any_method (P.world program.now) atom.now }
{
    match instance_class(atom) {
        Some(class) => has_any(program, class),
        None => false,
    }
}

/// Whether it stands for the method of an operator.
pub(crate) fn stands_in<P: Program>(program: &P, atom: &Atom, name: Option<NameId>) -> bool
    ensures { result ≡ operators.stands_in (P.world program.now) atom.now name }
{
    name.is_some() && has_any_method(program, atom)
}
