//! The union of two types, in one pass over both.
ghost use Rattle.std.specs.Prelude.{◌≡◌, [], ◌∷◌, ◌++◌, IfOk, OnOk};
ghost use Rattle.type_terms.specs.Types.{IsType, union};

use crate::atom::Atom;
use crate::copy::{copy_atom, no_memory};
use crate::order::compare;
use py_base::NoMemory;
use sqlite_items::Items;
use std::alloc::Global;
use std::cmp::Ordering;

/// Adds a copy of an atom at the end.
pub(crate) fn push_copy(
    alloc: Global,
    members: &mut Items<Atom>,
    atom: &Atom,
) -> Result<(), NoMemory>
    ensures { OnOk result (members.new ≡ members.old ++ atom.now ∷ []) }
{
    let copy = copy_atom(alloc, atom)?;
    members.push(copy).map_err(no_memory)?;
    Ok(())
}

/// Adds copies of atoms at the end.
fn push_copies(alloc: Global, members: &mut Items<Atom>, atoms: &[Atom]) -> Result<(), NoMemory>
    ensures { OnOk result (members.new ≡ members.old ++ atoms.now) }
{
    for atom in atoms {
        push_copy(alloc, members, atom)?;
    }
    Ok(())
}

/// The members of both types. It passes over each member once.
pub(crate) fn merge(alloc: Global, left: &[Atom], right: &[Atom]) -> Result<Items<Atom>, NoMemory>
    requires left { IsType left.now }
    requires right { IsType right.now }
    ensures { IfOk result (λ members. members ≡ union left.now right.now) }
{
    let mut members = Items::new(alloc);
    let mut at_left = 0;
    let mut at_right = 0;
    while at_left < left.len() && at_right < right.len() {
        let first = &left[at_left];
        let second = &right[at_right];
        match compare(first, second) {
            Ordering::Less => {
                push_copy(alloc, &mut members, first)?;
                at_left += 1;
            }
            Ordering::Equal => {
                push_copy(alloc, &mut members, first)?;
                at_left += 1;
                at_right += 1;
            }
            Ordering::Greater => {
                push_copy(alloc, &mut members, second)?;
                at_right += 1;
            }
        }
    }
    push_copies(alloc, &mut members, &left[at_left..])?;
    push_copies(alloc, &mut members, &right[at_right..])?;
    Ok(members)
}
