//! The session of one thread, from bytes to bytes: lines are taken one after the other, and each is
//! answered before the next.
//!
//! In one sentence: with status 0 the journal of `serve_serial` is the serial one of the lines of the bytes
//! taken, and the bytes written are its text (`specs/Served.antt`). Who makes lists and hovers is a `Worker`.
//! Below stand `edge_io` (bytes in and out), `wire_json` (lines and replies), `session_core` (the session)
//! and `py_base`.
#![tactic(auto)]

mod broken;
mod jobs;
mod lines;
mod replies;
mod serve;
mod status;
mod worker;

pub use serve::{INPUT_LIMIT, Served, serve_serial};
pub use status::Status;
pub use worker::Worker;
