//! The end that looks.
ghost use Rattle.std.specs.Prelude.{◌≡◌};
ghost use Rattle.cancel_flags.specs.Ends.{Polls};

use crate::flags::Flags;
use crate::slot::Slot;
use crate::view::{Poll, View};
use atomic_table::Seat;
use std::marker::Model;

/// An end that looks at the words. A contract sees it as a `Polling`: which flags it looks at, and what it found there.
#[derive(Drop)]
pub struct Watcher {
    pub(crate) seat: Seat<(), View>,
}

impl Model for Watcher {
    ghost use Rattle.std.specs.Prelude.{◌≡◌, []};
    ghost use Rattle.cancel_flags.specs.Ends.{Polling};

    ghost Value = { Polling };

    ghost view = { λ w. record { flags = w.seat.table_id; view = w.seat.me.0 } };

    ghost invariant = { λ w. w.seat.me.1 ≡ [] };
}

impl Watcher {
    /// Whether the flag of the job with this number is raised in the slot: true exactly where the number is above 0 and the word held it at
    /// this step. Takes no memory.
    pub fn poll(&mut self, flags: &Flags, slot: Slot, number: u64) -> bool
        requires { self.old.flags ≡ flags.now }
        ensures { Polls slot.number number result self.old self.new }
    {
        let found = flags
            .table
            .shared
            .load::<Poll>(&mut self.seat, slot.number as usize);
        found == number && number > 0
    }
}
