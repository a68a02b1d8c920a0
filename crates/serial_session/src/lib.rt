//! The session of one thread, from bytes to bytes: lines are taken one after the other, and each is
//! answered before the next.
//!
//! In one sentence: the bytes that `run` writes are the session machine's text of its journal, and each
//! list in it is that of the text that stands open (`specs/Served.antt`, `specs/Machine.antt`).
//! Below stand `edge_io` (bytes in and out), `py_tokens` (logical lines), `type_terms` (types),
//! `diagnostics` (what is said, and how) and `py_base` (places, lists, texts). The modules here go the way
//! of a line: `command`, `message`, `session` with `listing`, `reply`, and `serve` with its loop; `run` is
//! the top call.
#![tactic(auto)]

mod antecedent;
mod command;
mod diagnostic;
mod entry;
mod form;
mod line_fault;
mod line_type;
mod listing;
mod message;
mod no_program;
mod reply;
pub mod run;
mod serve;
mod session;
mod status;
mod typing;
mod walk;

pub use entry::Entry;
pub use listing::list_text;
pub use serve::Served;
pub use status::Status;
