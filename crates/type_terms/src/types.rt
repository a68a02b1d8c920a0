//! Types: finite sets of atoms.
ghost use Rattle.std.specs.Prelude.{◌≡◌, [], ◌∷◌, ◌++◌, IfOk, OnErr};
ghost use Rattle.type_terms.specs.Types.{IsType, has, type_of, union, both_bools};

use crate::atom::Atom;
use crate::copy::{copy_atoms, copy_members, no_memory};
use crate::literal::Literal;
use crate::union::merge;
use py_base::NoMemory;
use sqlite_items::Items;
use std::alloc::Global;
use std::marker::Model;

/// A finite set of atoms. A contract sees it as the list of its members in their order, each once.
/// The type without members is Never.
#[derive(Drop)]
pub struct Type {
    members: Items<Atom>,
}

impl Model for Type {
    ghost use Rattle.std.specs.Prelude.{List};
    ghost use Rattle.type_terms.specs.declared.atom.Atom.{Atom};
    ghost use Rattle.std.specs.Coded.{coded_list};
    ghost use Rattle.type_terms.specs.contracts.atom.Atom as atom;

    ghost Value = { List Atom };

    ghost coded = { coded_list atom.the_row.coded };

    ghost use Rattle.type_terms.specs.Types.{IsType};

    ghost view = { λ type. type.members };

    ghost invariant = { λ type. IsType type.members };
}

impl Type {
    /// Never, the type without members. Takes no memory.
    pub fn empty(alloc: Global) -> Type
        ensures { result ≡ [] }
    {
        Type {
            members: Items::new(alloc),
        }
    }

    /// The type with one member. `NoMemory` where it could not be stored.
    pub fn one(alloc: Global, atom: Atom) -> Result<Type, NoMemory>
        ensures { IfOk result (λ type. type ≡ atom ∷ []) }
    {
        let mut members = Items::new(alloc);
        members.push(atom).map_err(no_memory)?;
        Ok(Type { members })
    }

    /// `bool`, as the set of both its literals. `NoMemory` where it could not be stored.
    pub fn bools(alloc: Global) -> Result<Type, NoMemory>
        ensures { IfOk result (λ ty. ty ≡ both_bools) }
    {
        let mut members = Items::new(alloc);
        members
            .push(Atom::Lit(Literal::Bool(false)))
            .map_err(no_memory)?;
        members
            .push(Atom::Lit(Literal::Bool(true)))
            .map_err(no_memory)?;
        Ok(Type { members })
    }

    /// The type whose members are the atoms of a list, which may stand in any order and more than once.
    /// `NoMemory` where they could not be sorted.
    pub fn of(atoms: Vec<Atom>) -> Result<Type, NoMemory>
        ensures { IfOk result (λ type. type ≡ type_of atoms.items) }
    {
        let mut members = atoms;
        members.sort().map_err(no_memory)?;
        members.dedup();
        Ok(Type {
            members: Items::from_vec(members),
        })
    }

    /// The type in a slot of a generic, as a type of its own. `NoMemory` where it could not be stored.
    pub fn of_slot(alloc: Global, slot: &Items<Atom>) -> Result<Type, NoMemory>
        ensures { IfOk result (λ type. type ≡ type_of slot.now) }
    {
        Type::of(copy_atoms(alloc, slot.as_slice())?)
    }

    /// The members in their order, as a slot of a generic holds them, without memory.
    pub fn into_slot(self) -> Items<Atom>
        ensures value { result ≡ self }
        ensures rises { IsType self }
    {
        let Type { members } = self;
        members
    }

    /// The members in their order.
    pub fn members(&self) -> &[Atom]
        ensures value { result.now ≡ self.now }
        ensures rises { IsType self.now }
    {
        self.members.as_slice()
    }

    /// Whether an atom is a member.
    pub fn contains(&self, atom: &Atom) -> bool
        ensures { result ≡ has self.now atom.now }
    {
        self.members.as_slice().binary_search(atom).is_ok()
    }

    /// The type whose members are those of both, in one pass over both. `NoMemory` where it could not be stored.
    pub fn join(&self, alloc: Global, other: &Type) -> Result<Type, NoMemory>
        ensures { IfOk result (λ joined. joined ≡ union self.now other.now) }
    {
        let members = merge(alloc, self.members(), other.members())?;
        Ok(Type { members })
    }

    /// An equal type of its own. `NoMemory` where it could not be stored.
    pub fn copy(&self, alloc: Global) -> Result<Type, NoMemory>
        ensures { IfOk result (λ copy. copy ≡ self.now) }
    {
        let members = copy_members(alloc, &self.members)?;
        Ok(Type { members })
    }
}
