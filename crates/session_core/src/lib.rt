//! The session: which files are open, which requests wait, and what each line and each finished job does
//! to both.
//!
//! In one sentence: each call of a `Session` goes on by steps of the session machine, and each list and
//! each hover that it answers comes out of a finished job of the text that stands open (`specs/Machine.antt`,
//! `specs/Journal.antt`, `specs/Calls.antt`). A session is over an `Analyser`, which makes documents of texts
//! and says what their lists and hovers are. Below stand `wire_json` (messages and replies), `indexmap` (the
//! open files) and `py_base`.
#![tactic(auto)]

mod analyser;
mod answer;
mod entry;
mod file_name;
mod files;
mod fit;
mod job;
mod jobs;
pub mod laws;
mod open_file;
mod refusals;
mod request;
mod requests;
mod session;
mod state;
mod turn;

pub use analyser::Analyser;
pub use entry::Entry;
pub use job::{Done, Job, Outcome, Work};
pub use request::{Question, Request};
pub use session::Session;
pub use turn::Turn;
