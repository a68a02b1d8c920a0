//! What tests keep of the members of a type, and which test each pattern is.
//!
//! In one sentence: `kept` says of one member what a test leaves of it on one side, by the table of
//! `specs/Keep.antt`, which is read row by row; `keep` gives it as a type; and `lower` gives the test
//! that a pattern is of its subject and what its names bind, by `specs/Patterns.antt`. Each test is a
//! map of members, so what it keeps of a type is what it keeps of each of its members.
//! Below stand the tests and atoms of `type_terms`, the orders of `class_rows` and the forms of
//! patterns of `node_shapes`.
#![tactic(auto)]

mod classes;
mod ground;
pub mod laws;
mod literals;
pub mod patterns;
pub mod sides;
pub mod table;
mod truth;
mod written;

pub use patterns::{Capture, CaseTest, lower};
pub use sides::Kept;
pub use table::{keep, kept};
