//! Flags by which one thread tells others that a job is to stop.
//!
//! In one sentence: `Watcher::poll` is true exactly where its number is above 0 and its load of the slot's word found this number; and each
//! word is 0 or a number that the one `Raiser` raised in that slot. `IsRuled` in specs/Rule.antt states the second, and the steps there what
//! each kind of atomic step may do; specs/Ends.antt states what the calls of the two ends do.
//! Below stand `py_base`, for its list and its words on counts that rise, and the kit's `atomic_table`. No call takes a lock, waits or takes
//! memory but `Flags::new`.
#![tactic(auto)]

pub mod flag;
pub mod flags;
pub mod raiser;
pub mod slot;
pub mod view;
pub mod watcher;

pub use flag::{FakeFlag, Flag, NeverFlag, SlotFlag};
pub use flags::Flags;
pub use raiser::Raiser;
pub use slot::{SLOTS, Slot};
pub use watcher::Watcher;
