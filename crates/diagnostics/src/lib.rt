//! The table of diagnostics: each message with its rule and its text, and the list of those found.
//!
//! In one sentence: a message's diagnostic has the rule and the text of its row in
//! `specs/Messages.antt`, with the types in it as a view shows them, at the place that is given.
//! `sorted` gives the list of diagnostics by `specs/SortedList.antt`, in the order of `py_base`.
//!
//! Below stand `py_base` (places, rules, the order of diagnostics) and `type_terms` (texts of types).
#![tactic(auto)]

mod joined;
mod list;
mod message;
mod notice;
mod spelling;

pub use list::{one_sorted_list, sorted};
pub use message::Message;
pub use notice::{Notice, WHOLE_TEXT};
