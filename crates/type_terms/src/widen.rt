//! Widening: what is kept of a type that no annotation fixes, as of what is bound without one, of the
//! entries of a display and of the `value` of an enum member.
ghost use Rattle.std.specs.Prelude.{◌≡◌, ◌++◌, ◌∷◌, [], IfOk, OnOk};
ghost use Rattle.type_terms.specs.Types.{both_bools};
ghost use Rattle.type_terms.specs.Widen as spec;

use crate::atom::Atom;
use crate::copy::{copy_atom, lost};
use crate::facts::Facts;
use crate::literal::Literal;
use crate::types::Type;
use py_base::{Builtin, ClassId, NoMemory};
use std::alloc::Global;

fn push(atoms: &mut Vec<Atom>, atom: Atom) -> Result<(), NoMemory>
    ensures { OnOk result (atoms.new.items ≡ atoms.old.items ++ atom ∷ []) }
{
    atoms.push(atom).map_err(lost)
}

fn push_bools(atoms: &mut Vec<Atom>) -> Result<(), NoMemory>
    ensures { OnOk result (atoms.new.items ≡ atoms.old.items ++ both_bools) }
{
    push(atoms, Atom::Lit(Literal::Bool(false)))?;
    push(atoms, Atom::Lit(Literal::Bool(true)))
}

/// The members of an enum, given how many there are.
fn push_members(atoms: &mut Vec<Atom>, class: ClassId, count: usize) -> Result<(), NoMemory>
    ensures { OnOk result (atoms.new.items ≡ atoms.old.items ++ spec.members_from class 0 count) }
{
    for place in 0..count {
        push(atoms, Atom::Lit(Literal::Member(class, place)))?;
    }
    Ok(())
}

/// The members of an enum, unless it was the last one whose members were put there: they stand together
/// in a type, and each of them becomes all.
fn push_enum<F: Facts>(
    atoms: &mut Vec<Atom>,
    last: &mut Option<ClassId>,
    class: ClassId,
    facts: &F,
) -> Result<(), NoMemory>
    requires { spec.HasLast (F.names facts.now) last.old atoms.old.items }
    ensures alike { OnOk result (spec.IsAlike atoms.new.items (atoms.old.items ++ spec.all_members (F.names facts.now) class)) }
    ensures last { OnOk result (spec.HasLast (F.names facts.now) last.new atoms.new.items) }
{
    if let Some(seen) = *last {
        if seen == class {
            return Ok(());
        }
    }
    push_members(atoms, class, facts.enum_members(class).len())?;
    *last = Some(class);
    Ok(())
}

/// What a literal becomes.
fn push_literal<F: Facts>(
    atoms: &mut Vec<Atom>,
    last: &mut Option<ClassId>,
    value: &Literal,
    facts: &F,
) -> Result<(), NoMemory>
    requires { spec.HasLast (F.names facts.now) last.old atoms.old.items }
    ensures alike { OnOk result (spec.IsAlike atoms.new.items (atoms.old.items ++ spec.widened_literal (F.names facts.now) value.now)) }
    ensures last { OnOk result (spec.HasLast (F.names facts.now) last.new atoms.new.items) }
{
    match value {
        Literal::Int(_) => push(atoms, Atom::Inst(Builtin::Int.id())),
        Literal::Bool(_) => push_bools(atoms),
        Literal::Str(_) => push(atoms, Atom::Inst(Builtin::Str.id())),
        Literal::Bytes(_) => push(atoms, Atom::Inst(Builtin::Bytes.id())),
        Literal::Member(class, _) => push_enum(atoms, last, *class, facts),
    }
}

/// What an atom becomes.
#[tactic(auto, using(crate::proofs::OutOf::outs), unfolding(crate::specs::Widen::widened))]
fn push_widened<F: Facts>(
    alloc: Global,
    atoms: &mut Vec<Atom>,
    last: &mut Option<ClassId>,
    atom: &Atom,
    facts: &F,
) -> Result<(), NoMemory>
    requires { spec.HasLast (F.names facts.now) last.old atoms.old.items }
    ensures alike { OnOk result (spec.IsAlike atoms.new.items (atoms.old.items ++ spec.widened (F.names facts.now) atom.now)) }
    ensures last { OnOk result (spec.HasLast (F.names facts.now) last.new atoms.new.items) }
{
    match atom {
        Atom::Lit(value) => push_literal(atoms, last, value, facts),
        _ => push(atoms, copy_atom(alloc, atom)?),
    }
}

impl Type {
    /// The type with each int, str and bytes literal widened to its class, a bool literal to both, and a
    /// member of an enum to all its members. Every other atom stays. `NoMemory` where it could not be stored.
    pub fn widen<F: Facts>(&self, alloc: Global, facts: &F) -> Result<Type, NoMemory>
        ensures { IfOk result (λ wide. wide ≡ spec.widen (F.names facts.now) self.now) }
    {
        let mut atoms = Vec::new(alloc);
        let mut last = None;
        for atom in self.members() {
            push_widened(alloc, &mut atoms, &mut last, atom, facts)?;
        }
        Type::of(atoms)
    }
}
