//! What a test leaves of a member.
ghost use Rattle.std.specs.Prelude.{◌≡◌, ◌++◌, ◌∷◌, [], IfOk, OnOk, OnErr};
ghost use Rattle.narrow_rules.specs.Keep as spec;

use py_base::NoMemory;
use std::alloc::{AllocFailed, Global};
use type_terms::{Atom, Type};

/// What a test leaves of a member on one side.
#[derive(Drop)]
pub enum Kept {
    /// The member as it is.
    Itself,
    /// No value.
    Nothing,
    /// These in its place: none where a test behind has dropped them.
    Others(Type),
}

/// Want of memory, where the atom that was to be stored is let go.
fn lost(_failed: AllocFailed<Atom>) -> NoMemory {
    NoMemory
}

/// Adds an atom behind those that are there. `NoMemory` where it could not be stored.
pub(crate) fn push(atoms: &mut Vec<Atom>, atom: Atom) -> Result<(), NoMemory>
    ensures { OnOk result (atoms.new.items ≡ atoms.old.items ++ atom ∷ []) }
{
    atoms.push(atom).map_err(lost)
}

impl Kept {
    /// These atoms, in any order and more than once, in place of a member. `NoMemory` where they
    /// could not be sorted, and never where there are none.
    pub(crate) fn instead_of(atoms: Vec<Atom>) -> Result<Kept, NoMemory>
        ensures value { IfOk result (λ kept. kept ≡ spec.instead_of atoms.items) }
        ensures free { OnErr result (spec.IsOthers (spec.instead_of atoms.items)) }
    {
        if atoms.is_empty() {
            return Ok(Kept::Nothing);
        }
        Ok(Kept::Others(Type::of(atoms)?))
    }

    /// One atom in place of a member.
    pub(crate) fn one(alloc: Global, atom: &Atom) -> Result<Kept, NoMemory>
        ensures value { IfOk result (λ kept. kept ≡ spec.instead_of (atom.now ∷ [])) }
        ensures free { OnErr result (spec.IsOthers (spec.instead_of (atom.now ∷ []))) }
    {
        let mut atoms = Vec::new(alloc);
        push(&mut atoms, atom.copy(alloc)?)?;
        Kept::instead_of(atoms)
    }

    /// Adds what is left of a member behind those that are there. `NoMemory` where it could not be
    /// stored.
    pub(crate) fn push_members(
        &self,
        alloc: Global,
        atom: &Atom,
        atoms: &mut Vec<Atom>,
    ) -> Result<(), NoMemory>
        ensures { OnOk result (atoms.new.items ≡ atoms.old.items ++ spec.members self.now atom.now) }
    {
        match self {
            Kept::Itself => push(atoms, atom.copy(alloc)?),
            Kept::Nothing => Ok(()),
            Kept::Others(others) => push_copies(alloc, others.members(), atoms),
        }
    }

    /// What is left of a member, as a type. `NoMemory` where it could not be stored, and never where
    /// nothing is left.
    pub(crate) fn into_type(self, alloc: Global, atom: &Atom) -> Result<Type, NoMemory>
        ensures value { IfOk result (λ ty. ty ≡ spec.members self atom.now) }
        ensures free { OnErr result (spec.IsLeft self) }
    {
        match self {
            Kept::Itself => Type::one(alloc, atom.copy(alloc)?),
            Kept::Nothing => Ok(Type::empty(alloc)),
            Kept::Others(others) => Ok(others),
        }
    }

    /// What two tests together leave of a member. `NoMemory` where it could not be stored, and never
    /// where the member itself or nothing is left.
    pub(crate) fn both(self, alloc: Global, atom: &Atom, other: Kept) -> Result<Kept, NoMemory>
        ensures value { IfOk result (λ kept. kept ≡ spec.both atom.now self other) }
        ensures free { OnErr result (spec.IsOthers (spec.both atom.now self other)) }
    {
        match (self, other) {
            (Kept::Nothing, other) => Ok(other),
            (one, Kept::Nothing) => Ok(one),
            (Kept::Itself, Kept::Itself) => Ok(Kept::Itself),
            (one, other) => {
                let mut atoms = Vec::new(alloc);
                one.push_members(alloc, atom, &mut atoms)?;
                other.push_members(alloc, atom, &mut atoms)?;
                Ok(Kept::Others(Type::of(atoms)?))
            }
        }
    }
}

/// Adds copies of atoms behind those that are there. `NoMemory` where one could not be stored.
pub(crate) fn push_copies(
    alloc: Global,
    others: &[Atom],
    atoms: &mut Vec<Atom>,
) -> Result<(), NoMemory>
    ensures { OnOk result (atoms.new.items ≡ atoms.old.items ++ others.now) }
{
    for other in others {
        push(atoms, other.copy(alloc)?)?;
    }
    Ok(())
}

/// The side of a member that is kept where the test is true alone.
pub(crate) fn only_true(positive: bool) -> Kept
    ensures { result ≡ spec.side positive spec.only_true }
{
    if positive {
        Kept::Itself
    } else {
        Kept::Nothing
    }
}

/// The side of a member that is kept where the test is false alone.
pub(crate) fn only_false(positive: bool) -> Kept
    ensures { result ≡ spec.side positive spec.only_false }
{
    only_true(!positive)
}

/// The side of a member that becomes another one where the test is true.
pub(crate) fn becomes_one(alloc: Global, positive: bool, atom: &Atom) -> Result<Kept, NoMemory>
    ensures value { IfOk result (λ kept. kept ≡ spec.side positive (spec.becomes (atom.now ∷ []))) }
    ensures free { OnErr result (spec.IsOthers (spec.side positive (spec.becomes (atom.now ∷ [])))) }
{
    if positive {
        Kept::one(alloc, atom)
    } else {
        Ok(Kept::Itself)
    }
}
