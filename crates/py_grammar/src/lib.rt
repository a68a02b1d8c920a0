//! The grammar of the language as one table, and its reader.
//!
//! In one sentence: `read_whole` gives the one tree that the tokens spell and that meets a need, and
//! none exactly where there is none (`IsTreeOf`, in `specs/Levelled.antt`).
//!
//! `words` has what the grammar is written in: terminals, forms, the needs of places, and the states
//! of a form. `table` has the rows: which forms a token begins or goes on with, which tokens and
//! parts stand at each state, and which forms a need takes. `specs/Table.antt` has the same rows as a
//! definition, `specs/Reading.antt` what keeps to them, `specs/Meaning.antt` the tree that a reading
//! leaves, and `specs/Proper.antt` what rows can't say. A form that comes costs its rows, and nothing
//! in the reader. Below stand `py_base` (trees) and `py_tokens`.
#![tactic(auto)]

mod assemble;
pub mod found;
mod laws;
pub mod order;
mod reader;
mod room;
mod step;
mod strings;
pub mod table;
pub mod terminal;
pub mod word;
pub mod words;

pub use laws::{one_reading, one_tree};
pub use reader::read_whole;
pub use words::{Edge, Form, Joint, Need, Opening, Place, State, Terminal};
