//! What the seats of the flags know, and what each kind of atomic step does to it.
ghost use Rattle.std.specs.Prelude.{◌≡◌};
ghost use Rattle.cancel_flags.specs.Rule.{IsRuled, AreRaised, new_raiser, new_watcher, after_raise, after_clear, after_poll, after_join};

use atomic_table::{Join, Play, Split, TableRule};
use std::collections::LinkedList;

/// What the raiser or a watcher knows. It exists in proofs alone: no value of it is made.
pub struct View {
    /// What each word holds, as the raiser knows.
    pub words: LinkedList<u64>,
    /// The raises that the raiser made, the last one first: a slot and a number each.
    pub raised: LinkedList<(u32, u64)>,
    /// What polls found, the last one first: a slot and a number each.
    pub found: LinkedList<(u32, u64)>,
}

/// The rule of the flags.
pub struct RaisedOnly;

impl TableRule<(), View, ()> for RaisedOnly {
    ghost use Rattle.cancel_flags.specs.Rule.{IsRuled, new_raiser};

    ghost holds = { λ _. IsRuled };

    ghost first = { λ _. new_raiser };
}

// A new seat for a watcher.
pub(crate) struct Watching;

impl Split<View> for Watching {
    ghost use Rattle.cancel_flags.specs.Rule.{new_watcher};

    ghost left = { λ raiser. raiser };

    ghost right = { λ _. new_watcher };
}

// A watcher's seat comes back to the raiser's.
impl Join<View> for Watching {
    ghost use Rattle.cancel_flags.specs.Rule.{new_watcher, after_join};

    ghost both = { after_join };

    ghost spent = { new_watcher };
}

pub(crate) struct Raise;

impl Play<(), View> for Raise {
    ghost use Rattle.cancel_flags.specs.Rule.{AreRaised, after_raise};

    ghost then = { λ step old number new. (new ≡ (after_raise step.word number old.0, old.1)) × AreRaised new.0.raised old.0.found };
}

pub(crate) struct Clear;

impl Play<(), View> for Clear {
    ghost use Rattle.cancel_flags.specs.Rule.{AreRaised, after_clear};

    ghost then = { λ step old number new. (number ≡ 0) × (new ≡ (after_clear step.word old.0, old.1)) × AreRaised new.0.raised old.0.found };
}

pub(crate) struct Poll;

impl Play<(), View> for Poll {
    ghost use Rattle.cancel_flags.specs.Rule.{after_poll};

    ghost then = { λ step old number new. new ≡ (after_poll step.word number old.0, old.1) };
}
