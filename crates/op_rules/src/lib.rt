//! The rules of values: what attributes, operators, subscripts, iterations and calls give, for each member
//! of a type.
//!
//! In one sentence: each call gives the type of the rule of its operation (`specs/Attributes.antt`,
//! `specs/Operators.antt`, `specs/Unary.antt`, `specs/Subscripts.antt`, `specs/Iterations.antt`,
//! `specs/Calls.antt`, `specs/Unpacking.antt`) under the types of the keys, tells whether it is a fault, and asks
//! just the keys that the rule names. What stands in the slots of a value that a call builds is stated
//! (`specs/Built.antt`), and so is what `except` and `with` bind; no call gives them yet.
//!
//! A rule is a term (`value_terms`): one file of `specs/` a row of the table of operations. The code of a row gives
//! the parts that the row says, and one function evaluates them.
//!
//! Below stand the terms of `value_terms`, the types of `type_terms` with their facts and builtin rows, and the
//! classes of `class_rows`.
#![tactic(auto)]

mod answer;
mod attributes;
mod binary_rule;
mod calls;
mod checks;
mod classes;
mod containers;
mod facts;
mod instances;
mod iterations;
mod members;
mod methods;
mod names;
mod number;
mod parts;
mod results;
mod rules;
mod slots;
mod step;
mod step_rows;
mod steps;
mod subscripts;
mod tables;
mod unary_rule;
mod unpacking_rule;

pub use answer::{attribute, binary, call, iterate, subscript, unary, unpack};
pub use checks::{has_method, is_assert_never, is_reveal_type, is_unfit};
pub use facts::{Hiding, MemberFacts};
pub use number::Number;
pub use rules::{Program, Rules};
pub use step::{Path, Step};
