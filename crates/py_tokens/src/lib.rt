//! From the text of a file to its logical lines: tokens with their places, the column of each line
//! and its first fault.
//!
//! In one sentence: the lines that `cut` gives are `logical_lines` of the text's characters, the
//! only lines that `IsCut`, the definition of `specs/LogicalLines.antt`, allows them, for every
//! text of at most 524,288 bytes.
//! Below stand `py_base` (lists, texts, spans) and `unicode_ident` (which characters a name has).
//!
//! A text is cut into pieces: tokens, gaps and faults. `rows` has the table of what may stand at a
//! place, where `opens` says what is open there; `numbers`, `strings`, `signs` and `words` have its
//! rows; `pieces` cuts, `lines` parts the pieces at the ends of logical lines, and `blocks` finds
//! the lines that break their block. Offsets, spans and columns count characters (Unicode scalar
//! values).
#![tactic(auto)]

mod blocks;
mod chars;
mod cutting;
mod escapes;
mod ints;
mod kinds;
mod lines;
mod literals;
mod numbers;
mod opens;
mod pieces;
mod rows;
mod signs;
mod states;
mod strings;
mod words;

pub use cutting::{cut, joined, one_cut, one_reading};
pub use ints::int_value;
pub use kinds::{TokenFault, TokenKind};
pub use lines::{Cut, LogicalLine, Token};
pub use literals::{StringValue, string_value};
