//! Assignability: whether a value of one type may stand where another is wanted.
//!
//! In one sentence: `accepts` answers whether some set of questions of types has "each member of the source is accepted by the target"
//! and supports itself by the rules, so that types that hold themselves have an answer too (`Accepts` of `specs/Accepts.antt`; the
//! rules are in `specs/Goes.antt`).
//!
//! All questions that can be reached are asked once, from a list and not from the stack, and then those are taken away that don't
//! hold, until all that are left do: they are the greatest set that supports itself. `accepts_by` has a test besides, by which an
//! instance goes to a class.
//!
//! Below stand the types of `type_terms` and the order of classes of `class_rows`.
#![tactic(auto)]

pub mod accept;
mod asked;
pub mod class_goes;
mod clauses;
mod goes;
mod greatest;
pub mod laws;
mod members;
pub mod question;
mod rules;
mod takes;

pub use accept::{accepts, accepts_by};
pub use class_goes::{ClassGoes, OrderAlone};
pub use question::Question;
