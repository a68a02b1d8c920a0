//! The end that raises.
ghost use Rattle.std.specs.Prelude.{◌≡◌, ◌<◌, ◌≢◌, All, Contains, length};
ghost use Rattle.std.specs.List.{position};
ghost use Rattle.cancel_flags.specs.Rule.{AreRaised};
ghost use Rattle.cancel_flags.specs.Ends.{is_free, IsClaimed, Claims, raised_in, released, joined, new_polling};

use crate::flags::Flags;
use crate::slot::{SLOTS, Slot};
use crate::view::{Clear, Raise, View, Watching};
use crate::watcher::Watcher;
use atomic_table::Seat;
use std::marker::Model;

/// The one end that writes the words. It gives jobs their slots. A contract sees it as a `Raising`.
#[derive(Drop)]
pub struct Raiser {
    pub(crate) seat: Seat<(), View>,
    /// The number of the job that has each slot, 0 where the slot is free.
    pub(crate) claimed: Vec<u64>,
}

impl Model for Raiser {
    ghost use Rattle.std.specs.Prelude.{◌≡◌, length};
    ghost use Rattle.cancel_flags.specs.Ends.{Raising};

    ghost Value = { Raising };

    ghost view = { λ r. record { flags = r.seat.table_id; claimed = r.claimed.items; view = r.seat.me.0 } };

    ghost invariant = { λ r. (r.seat.id ≡ 0) × (length r.claimed.items ≡ 320) };
}

// Where the first free slot is.
fn first_free(claimed: &[u64]) -> Option<usize>
    ensures { result ≡ position is_free claimed.now }
{
    claimed.iter().position(|number| *number == 0)
}

impl Raiser {
    /// The first free slot, which the job with this number then has. `None` exactly where all 320 slots are claimed. Takes no memory.
    /// A job has one slot at most, so no claimed slot has the number.
    pub fn claim(&mut self, number: u64) -> Option<Slot>
        requires positive { 0 < number }
        requires new { ¬ Contains self.old.claimed number }
        ensures { Claims number self.old result self.new }
    {
        let slot = first_free(self.claimed.as_slice())?;
        self.claimed[slot] = number;
        Some(Slot {
            number: slot as u32,
        })
    }

    /// Raises the flag of the job that has the slot: the word becomes its number. Takes no memory.
    ///
    /// What the watchers found that were joined before, this raiser had raised.
    pub fn raise(&mut self, flags: &Flags, slot: Slot)
        requires flags { self.old.flags ≡ flags.now }
        requires claimed { IsClaimed self.old slot.number }
        ensures word { self.new ≡ raised_in slot.number self.old }
        ensures told { AreRaised self.new.view.raised self.old.view.found }
    {
        let number = self.claimed[slot.number as usize];
        flags
            .table
            .shared
            .store::<Raise>(&mut self.seat, slot.number as usize, number);
    }

    /// Frees the slot for another job: its word becomes 0. Takes no memory.
    ///
    /// What the watchers found that were joined before, this raiser had raised.
    pub fn release(&mut self, flags: &Flags, slot: Slot)
        requires flags { self.old.flags ≡ flags.now }
        requires claimed { IsClaimed self.old slot.number }
        ensures word { self.new ≡ released slot.number self.old }
        ensures told { AreRaised self.new.view.raised self.old.view.found }
    {
        self.claimed[slot.number as usize] = 0;
        flags
            .table
            .shared
            .store::<Clear>(&mut self.seat, slot.number as usize, 0);
    }

    /// Takes in a watcher of the same flags, and notes what it found. Takes no memory.
    pub fn join(&mut self, flags: &Flags, watcher: Watcher)
        requires flags { self.old.flags ≡ flags.now }
        requires watcher { watcher.flags ≡ flags.now }
        ensures { self.new ≡ joined watcher self.old }
    {
        let Watcher { seat } = watcher;
        flags
            .table
            .shared
            .join_seat::<Watching>(&mut self.seat, seat);
    }

    // A new watcher.
    pub(crate) fn split(&mut self, flags: &Flags) -> Watcher
        requires { self.old.flags ≡ flags.now }
        ensures same { self.new ≡ self.old }
        ensures watcher { result ≡ new_polling flags.now }
    {
        let seat = flags.table.shared.split_seat::<Watching>(&mut self.seat);
        Watcher { seat }
    }
}
