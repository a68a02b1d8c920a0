//! Copies of atoms.
ghost use Rattle.std.specs.Prelude.{◌≡◌, IfOk};

use crate::atom::{Atom, Slots};
use crate::literal::Literal;
use py_base::{List, NoMemory, Text};
use sqlite_items::{Boxed, Items};
use std::alloc::{AllocError, AllocFailed, Global};

/// Want of memory in the words of this project.
pub(crate) fn no_memory(_error: AllocError) -> NoMemory {
    NoMemory
}

/// Want of memory, where the value that was to be stored is let go.
pub(crate) fn lost<T: Drop>(_failed: AllocFailed<T>) -> NoMemory {
    NoMemory
}

impl Literal {
    /// An equal literal of its own. `NoMemory` where it could not be stored.
    pub fn copy(&self, alloc: Global) -> Result<Literal, NoMemory>
        ensures { IfOk result (λ copy. copy ≡ self.now) }
    {
        match self {
            Literal::Int(value) => Ok(Literal::Int(*value)),
            Literal::Bool(value) => Ok(Literal::Bool(*value)),
            Literal::Str(text) => Ok(Literal::Str(Text::from_str(alloc, text.as_str())?)),
            Literal::Bytes(bytes) => {
                let copy = Vec::from_slice(alloc, bytes.as_slice()).map_err(no_memory)?;
                Ok(Literal::Bytes(List::from_vec(copy)))
            }
            Literal::Member(class, place) => Ok(Literal::Member(*class, *place)),
        }
    }
}

impl Atom {
    /// An equal atom of its own. `NoMemory` where it could not be stored.
    pub fn copy(&self, alloc: Global) -> Result<Atom, NoMemory>
        ensures { IfOk result (λ copy. copy ≡ self.now) }
    {
        copy_atom(alloc, self)
    }
}

#[cycle(copy)]
pub(crate) fn copy_atom(alloc: Global, atom: &Atom) -> Result<Atom, NoMemory>
    ensures { IfOk result (λ copy. copy ≡ atom.now) }
{
    match atom {
        Atom::Lit(value) => Ok(Atom::Lit(value.copy(alloc)?)),
        Atom::Inst(class) => Ok(Atom::Inst(*class)),
        Atom::Gen(class, Slots::Each(types)) => {
            Ok(Atom::Gen(*class, Slots::Each(copy_types(alloc, types)?)))
        }
        Atom::Gen(class, Slots::Endless(members)) => {
            Ok(Atom::Gen(*class, Slots::Endless(copy_members(alloc, members)?)))
        }
        Atom::Gen(class, Slots::AnyArguments(members)) => {
            Ok(Atom::Gen(*class, Slots::AnyArguments(copy_members(alloc, members)?)))
        }
        Atom::Gen(class, Slots::Arguments(types, members)) => {
            let types = copy_types(alloc, types)?;
            let members = copy_members(alloc, members)?;
            Ok(Atom::Gen(*class, Slots::Arguments(types, members)))
        }
        Atom::Site(site) => Ok(Atom::Site(*site)),
        Atom::Class(class) => Ok(Atom::Class(*class)),
        Atom::Func(func) => Ok(Atom::Func(*func)),
        Atom::Bound(func) => Ok(Atom::Bound(*func)),
        Atom::BuiltMethod(row, receiver) => {
            let receiver = copy_atom(alloc, receiver.get())?;
            Ok(Atom::BuiltMethod(*row, Boxed::new(alloc, receiver).map_err(no_memory)?))
        }
        Atom::BuiltFunc(row) => Ok(Atom::BuiltFunc(*row)),
        Atom::Super(class) => Ok(Atom::Super(*class)),
        Atom::Mod(name) => Ok(Atom::Mod(*name)),
        Atom::Special(name) => Ok(Atom::Special(*name)),
        Atom::Unknown => Ok(Atom::Unknown),
        Atom::None => Ok(Atom::None),
        Atom::Unbound => Ok(Atom::Unbound),
        Atom::Open => Ok(Atom::Open),
        Atom::Here => Ok(Atom::Here),
    }
}

#[cycle(copy)]
fn copy_types(alloc: Global, types: &Items<Items<Atom>>) -> Result<Items<Items<Atom>>, NoMemory>
    ensures { IfOk result (λ copy. copy ≡ types.now) }
{
    let mut copy = Items::new(alloc);
    for members in types.as_slice() {
        copy.push(copy_members(alloc, members)?).map_err(no_memory)?;
    }
    Ok(copy)
}

#[cycle(copy)]
pub(crate) fn copy_members(alloc: Global, members: &Items<Atom>) -> Result<Items<Atom>, NoMemory>
    ensures { IfOk result (λ copy. copy ≡ members.now) }
{
    let mut copy = Items::new(alloc);
    for atom in members.as_slice() {
        copy.push(copy_atom(alloc, atom)?).map_err(no_memory)?;
    }
    Ok(copy)
}

/// Equal atoms of their own, in the same order.
pub(crate) fn copy_atoms(alloc: Global, atoms: &[Atom]) -> Result<Vec<Atom>, NoMemory>
    ensures { IfOk result (λ copy. copy.items ≡ atoms.now) }
{
    let mut copy = Vec::with_capacity(alloc, atoms.len()).map_err(no_memory)?;
    for atom in atoms {
        copy.push(copy_atom(alloc, atom)?).map_err(lost)?;
    }
    Ok(copy)
}
