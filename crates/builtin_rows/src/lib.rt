//! What the language brings along: its builtin names, functions, methods, calls of classes, and the names
//! of the modules that have rows.
//!
//! In one sentence: each call of `Builtins` gives what the table of `specs/Table.antt` has, by
//! `specs/Rows.antt`, and `None` exactly where the table has no such row.
//!
//! The table stands in `table`, a line a row, in the order of the rows' numbers: the functions by name, the
//! calls of classes by class, and the methods by class and name. `Builtins` finds the rows of a name by the
//! number of the name, and among these few the one of a class or module, so a look-up is a handful of steps.
//!
//! Below stand the names and classes of `py_base` and the types of `type_terms`.
#![tactic(auto)]

mod arguments;
mod builtins;
mod held;
pub mod laws;
mod result;
mod row_names;
pub mod table;
mod types;

pub use arguments::takes;
pub use builtins::Builtins;
pub use row_names::row_word;
