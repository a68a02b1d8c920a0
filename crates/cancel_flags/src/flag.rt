//! What an analysis polls to learn whether it is to stop.
ghost use Rattle.std.specs.Prelude.{◌≡◌, ◌↔◌, ◌-◌, ℕ, IsTrue};
ghost use Rattle.cancel_flags.specs.Seen.{Sees, raises_found};

use crate::flags::Flags;
use crate::slot::Slot;
use crate::watcher::Watcher;

/// Whether a job is to stop.
pub trait Flag {
    /// How many raises it has seen.
    ghost seen: { Self → ℕ };

    /// Whether the flag is raised. The count of seen raises never falls, and the answer is true only where it rose in this call. A count
    /// that is kept in 64 bits has risen where it stands at its end.
    fn poll(&mut self) -> bool
        ensures { Sees (seen self.old) (seen self.new) result };
}

/// A flag that is never raised. Its count stands at 0, so each poll answers false.
#[derive(Clone, Copy, Debug)]
pub struct NeverFlag;

impl Flag for NeverFlag {
    ghost seen = { λ _. 0 };

    fn poll(&mut self) -> bool {
        false
    }
}

/// A flag that is raised from a poll on.
#[derive(Debug, Drop)]
pub struct FakeFlag {
    left: u64,
    seen: u64,
}

impl FakeFlag {
    /// A flag that answers true from poll number `at` on, counted from 0.
    pub fn new(at: u64) -> FakeFlag
        ensures left { result.left ≡ at }
        ensures seen { result.seen ≡ 0 }
    {
        FakeFlag { left: at, seen: 0 }
    }
}

impl Flag for FakeFlag {
    ghost seen = { λ f. f.seen };

    /// True exactly where no polls are left before the raise.
    fn poll(&mut self) -> bool
        ensures sees { Sees self.old.seen self.new.seen result }
        ensures raised { IsTrue result ↔ (self.old.left ≡ 0) }
        ensures left { self.new.left ≡ self.old.left - 1 }
    {
        if self.left > 0 {
            self.left -= 1;
            return false;
        }
        self.seen = self.seen.saturating_add(1);
        true
    }
}

/// The flag of the job with this number in a slot, polled by a watcher of the flags.
#[derive(Drop)]
pub struct SlotFlag<'a> {
    pub flags: &'a Flags,
    pub watcher: &'a mut Watcher,
    pub slot: Slot,
    pub number: u64,
    pub ghost of: { watcher.now.flags ≡ flags.now },
}

impl Flag for SlotFlag<'_> {
    ghost seen = { λ f. raises_found f.watcher.now.view.found };

    fn poll(&mut self) -> bool {
        self.watcher.poll(self.flags, self.slot, self.number)
    }
}
