//! From a tree to the forms in which its nodes run.
//!
//! In one sentence: `forms` gives for each node of a tree its form (`forms_of`, in `specs/Forms.antt`),
//! which names the parts that run and what each is to it.
//!
//! `specs/Clauses.antt` says how the headers of a statement and their bodies go together, and
//! `specs/Patterns.antt` what a pattern evaluates and captures. A form that comes costs a line in
//! `specs/Forms.antt` and a small function. Below stand `py_base` (trees) and `flow_rows` (the forms).
#![tactic(auto)]

mod clauses;
mod compounds;
mod displays;
mod functions;
mod patterns;
mod simple;
mod tree_forms;

pub use clauses::{Clause, first_else};
pub use patterns::TREE_HEIGHT;
pub use tree_forms::forms;
