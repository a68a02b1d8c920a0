//! The rules of blocks: which logical lines of a text stand, and which are passed over.
//!
//! In one sentence: `nesting` gives the lines that are left where, as long as a line is faulty, the first
//! such line is replaced by an error line, which takes in the lines directly behind it that stand to the
//! right of its block (`IsNesting`, in `specs/Faults.antt`; `Settles`, in `specs/Settling.antt`). A line
//! is faulty that has a token fault, that no tree spells, or that breaks a rule of blocks.
//!
//! The rules look at all lines at once. `facts` has what they see of a line: its column, the header that
//! it begins, and the names of its tree, which `role` and `names` find by the role of each place.
//! `specs/Lines.antt` says in which block a line stands, and `specs/Rules.antt` has the rules on columns,
//! headers and words. `specs/Names.antt` has those on global and nonlocal names, which go by the lines as
//! they are written, and `specs/Facts.antt` those within a line, on parameters and captures.
//!
//! `settle` goes once through the lines. Of each line that stands it keeps the blocks around (`setting`)
//! and which clause may come behind it (`stage`), so that a line is judged by the nearest line that isn't
//! to its right; `unfinished` looks at the lines behind, with a `trail`. `innermost` says in which def or
//! class each line stands, and `name_sets` which names each def has; `scopes` judges a line by them. `fits`
//! judges the parameters and captures of one line, whose names `name_lists` compares by a set.
//!
//! The time grows with the lines, and the names that they declare nonlocal, times the depth of their
//! blocks; with the nodes of the lines' trees times the height of these; and with the names times the
//! logarithm of their number.
//!
//! Below stand `py_base` (trees) and `py_tokens` (faults of tokens).
#![tactic(auto)]

mod columns;
mod facts;
mod fault;
mod fits;
mod innermost;
pub mod laws;
mod line;
mod lines;
mod name_lists;
mod name_sets;
mod names;
mod nest;
mod open_blocks;
mod role;
mod scopes;
mod setting;
mod settle;
mod sort;
mod stage;
mod trail;
mod unfinished;
mod walk;

pub use fault::{BlockLine, LineFaultKind, StandingLine};
pub use nest::nesting;
