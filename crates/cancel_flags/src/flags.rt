//! The words that the ends share.
ghost use Rattle.std.specs.Prelude.{◌≡◌, ℕ, replicate, IfOk};
ghost use Rattle.cancel_flags.specs.Ends.{new_raising, new_polling};

use crate::raiser::Raiser;
use crate::slot::SLOTS;
use crate::view::{RaisedOnly, View};
use crate::watcher::Watcher;
use atomic_table::Table;
use py_base::{List, NoMemory};
use std::alloc::Global;
use std::marker::Model;

/// A word for each slot: 0, or the number of the job in the slot, which is to stop. A contract sees which flags they are; only the raiser
/// writes the words.
#[derive(Drop)]
pub struct Flags {
    pub(crate) table: Table<(), View, (), RaisedOnly, Global>,
}

impl Model for Flags {
    ghost use Rattle.std.specs.Prelude.{◌≡◌};
    ghost use Rattle.atomic_table.specs.Seated.{TableId};

    ghost Value = { TableId };

    ghost view = { λ f. f.table.shared.table_id };

    ghost invariant = { λ f. f.table.shared.table_id.words ≡ 320 };
}

impl Flags {
    /// Flags whose words are 0, their one raiser, for which all slots are free, and so many watchers. `NoMemory` where they could not be
    /// stored.
    pub fn new(alloc: Global, watchers: u32) -> Result<(Flags, Raiser, List<Watcher>), NoMemory>
        ensures raiser { IfOk result (λ made. made.1 ≡ new_raising made.0) }
        ensures watchers { IfOk result (λ made. made.2 ≡ replicate watchers (new_polling made.0)) }
    {
        let zeros = all_zero();
        let (table, seat) = Table::of_words(alloc, &zeros, &())?;
        let flags = Flags { table };
        let claimed = Vec::from_slice(alloc, &zeros)?;
        let mut raiser = Raiser { seat, claimed };
        let watchers = split_off(alloc, &flags, &mut raiser, watchers)?;
        Ok((flags, raiser, watchers))
    }
}

// 0 for each slot.
fn all_zero() -> [u64; SLOTS]
    ensures { result ≡ replicate 320 0 }
{
    [0; SLOTS]
}

// So many new watchers of the flags.
fn split_off(
    alloc: Global,
    flags: &Flags,
    raiser: &mut Raiser,
    count: u32,
) -> Result<List<Watcher>, NoMemory>
    requires { raiser.old.flags ≡ flags.now }
    ensures watchers { IfOk result (λ watchers. watchers ≡ replicate count (new_polling flags.now)) }
    ensures same { raiser.new ≡ raiser.old }
{
    let mut watchers = List::new(alloc);
    for _ in 0..count {
        watchers.push(raiser.split(flags))?;
    }
    Ok(watchers)
}
