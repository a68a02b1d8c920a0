//! The builtins as a table that is asked by numbers.
ghost use Rattle.std.specs.Prelude.{◌≡◌, slice_get};
ghost use Rattle.std.specs.Option.{option_copied};
ghost use Rattle.builtin_rows.specs.Kept.{flat};

use crate::held::{Held, Member, call_at, held_of, members_of, method_at, type_at};
use crate::result::rows_of;
use crate::table::ROWS;
use crate::types::types_of;
use py_base::language_names::LANGUAGE_NAMES;
use py_base::{Builtin, ClassId, List, NameId, NoMemory};
use std::alloc::Global;
use std::marker::Model;
use type_terms::{BuiltinTable, Row, RowResult, Type};

/// What the language brings along: the table of the builtins. All values of this type tell the same, and a
/// contract sees nothing of them but how many rows there are.
///
/// A name, a class or a row is given by its number, and each number has an answer. No call but `new` takes memory.
#[derive(Drop)]
pub struct Builtins {
    // The types of names, the rows of names and the modules of names, each by the number of the name.
    types: List<Option<Type>>,
    held: List<List<Held>>,
    members: List<List<Member>>,
    rows: List<Row>,
    // What is lent for a number that no row has.
    no_row: Row,
}

impl Model for Builtins {
    ghost use Rattle.std.specs.Prelude.{ℕ, ◌≡◌, length};
    ghost use Rattle.builtin_rows.specs.Kept.{AreKept};

    ghost Value = { ℕ };

    ghost view = { λ b. length b.rows };

    ghost invariant = { λ b. AreKept b.types b.held b.members b.rows b.no_row };
}

impl Builtins {
    ghost use Rattle.std.specs.Prelude.{◌≡◌, length, IfOk};
    ghost use Rattle.builtin_rows.specs.Table.{rows};

    /// The builtins. `NoMemory` where they could not be stored.
    pub fn new(alloc: Global) -> Result<Builtins, NoMemory>
        ensures { IfOk result (λ b. b ≡ length rows) }
    {
        Ok(Builtins {
            types: types_of(alloc, &LANGUAGE_NAMES)?,
            held: held_of(alloc, &LANGUAGE_NAMES)?,
            members: members_of(alloc, &LANGUAGE_NAMES)?,
            rows: rows_of(alloc, &ROWS)?,
            no_row: Row {
                least: 0,
                most: None,
                called: true,
                result: RowResult::Nothing,
            },
        })
    }
}

// The type of the name that has this place.
fn name_type_at(types: &List<Option<Type>>, place: usize) -> Option<&Type>
    ensures { option_copied result ≡ flat (slice_get types.now place) }
{
    match types.get(place) {
        Some(found) => found.as_ref(),
        None => None,
    }
}

impl BuiltinTable for Builtins {
    ghost use Rattle.builtin_rows.specs.Rows.{builtin_table};

    ghost rows = { λ _. builtin_table };

    fn name(&self, name: NameId) -> Option<&Type> {
        name_type_at(&self.types, name.0 as usize)
    }

    fn method(&self, class: ClassId, name: NameId) -> Option<u32> {
        method_at(&self.held, class, name.0 as usize)
    }

    fn module_name(&self, module: NameId, name: NameId) -> Option<&Type> {
        type_at(&self.members, module.0, name.0 as usize)
    }

    #[tactic(auto, using(crate::proofs::KeptLemmas::call_kept))]
    fn class_call(&self, class: ClassId) -> Option<u32> {
        if (class.0 as usize) < Builtin::COUNT {
            call_at(&self.held, class.0 as usize)
        } else {
            None
        }
    }

    fn row(&self, row: u32) -> &Row {
        match self.rows.get(row as usize) {
            Some(found) => found,
            None => &self.no_row,
        }
    }
}
