//! Statements, headers and patterns, and whole texts: from the tokens of a line to its tree, and from
//! the lines of a text to its module.
//!
//! In one sentence: the tree that `line_tree` gives is the one tree of the line, and it gives none
//! exactly where there is none (`IsLineTree`, in `specs/Line.antt`); `blocks` gives the module of a
//! text's lines, with a leaf for each error line, and the faults of these (`IsModule`, in
//! `specs/Module.antt`). A line reads by its
//! soft keyword, `match` or `case`, and by the round brackets behind its `with`, where it can, and
//! else as any other line. That a text has one module, faults exactly where a line is faulty, and without
//! faults the module of all its lines, are laws (`laws`). Below stand `py_base` (trees), `py_tokens`, `py_grammar` (the grammar of a
//! line as a table, and its reader), `py_blocks` (the nesting of lines) and `py_modules` (the tree
//! over the trees of lines).
#![tactic(auto)]

pub mod laws;
mod lines;
mod texts;

pub use lines::{line_tree, one_line_tree};
pub use texts::{Module, blocks};
