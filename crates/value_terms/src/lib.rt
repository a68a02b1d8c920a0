//! The language in which the rules of values are written, its laws, and the one way of evaluating it.
//!
//! In one sentence: where parts say what an outcome says (`specs/Told.antt`), `evaluate` gives the type and the
//! fault of the outcome (`specs/Outcome.antt`) under an assignment, by the types of just the keys that it
//! names, and rules that are terms (`specs/Term.antt`) are monotone, depend on the keys that they name
//! alone, and stay within their universe (`specs/System.antt`).
//!
//! A rule of an operation asks for its arguments by number (`Ask`, `specs/Asks.antt`), so that the value of a
//! call is a term too. A layer above writes steps; `Chains` makes rows of them.
//!
//! Below stand `py_base` (keys) and `type_terms` (types, and who has those of keys).
#![tactic(auto)]

mod ask;
mod chain;
mod evaluation;
pub mod laws;
mod part;
mod rows;

pub use ask::Ask;
pub use chain::{Chains, Steps, go_on};
pub use evaluation::{Found, evaluate};
pub use part::Part;
pub use rows::Rows;
