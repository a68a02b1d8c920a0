//! Expressions: from the tokens of an expression to its tree.
//!
//! In one sentence: the tree that `expression` gives is the one tree of the level that the tokens
//! spell, and it gives none exactly where there is none (`IsTreeOf` of `py_grammar`, at `need_at`
//! of the level). Below stand `py_base` (trees), `py_tokens` and `py_grammar` (the grammar as a
//! table, and its reader).
#![tactic(auto)]

mod levels;

pub use levels::{expression, one_tree};
