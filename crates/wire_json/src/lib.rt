//! The wire of a session as lines of JSON: messages, refusals and replies as values, how a message is
//! read from a line, and how a reply is written.
//!
//! In one sentence: `read_line` gives the message or the refusal that `specs/Message.antt` states of the
//! bytes of a line, and `write_out` the bytes that `specs/Reply.antt` states of a reply. A session knows the
//! values alone. Below stand `edge_io` (lines of bytes), `serde_json` and `py_base` (places, lists, texts).
#![tactic(auto)]

mod message;
mod read;
mod reply;
mod write;

pub use message::{LineRefusal, Msg, Read, WireStep};
pub use read::read_line;
pub use reply::{By, Out, Refusal, SessionRefusal};
pub use write::write_out;
