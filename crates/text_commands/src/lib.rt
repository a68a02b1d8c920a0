//! The commands that look at one text: `check` writes the list of the text that the input is, `sample`
//! a summary of a module that it makes.
//!
//! In one sentence: with status 0 or 1 `check_once` has written the lines of the list of the bytes that it took
//! (`specs/CheckText.antt`, `specs/Checked.antt`), and with status 0 `sample` the summary of its module
//! (`specs/Sample.antt`, `specs/Sampled.antt`). Who makes a list is a `Worker`, as in a session.
//! Below stand `serial_server` (workers, statuses), `session_core` (what a worker is asked), `edge_io`
//! (bytes in and out) and `py_base`.
#![tactic(auto)]

mod check_text;
mod checking;
mod listing;
mod numbered;
mod output;
mod sample_module;
mod sampling;
mod summary;
mod whole;

pub use checking::check_once;
pub use sampling::sample;
