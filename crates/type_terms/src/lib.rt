//! Types as finite sets of atoms.
//!
//! In one sentence: a type is a finite set of atoms, and each call of `Type` gives just the set that
//! its contract names, by the order of atoms of `specs/Order.antt` and the sets of `specs/Types.antt`.
//! `type_text` gives the text of a type by `specs/Text.antt`, from what a view means.
//! Below stand the words of `py_base`, and lists that may hold the type that holds them.
#![tactic(auto)]

pub mod atom;
mod copy;
pub mod facts;
pub mod laws;
pub mod literal;
mod literal_text;
pub mod narrowing;
pub mod order;
pub mod piece;
mod pieces;
pub mod plain;
pub mod rows;
pub mod show;
mod shown;
pub mod text;
pub mod types;
mod union;
pub mod view;
pub mod widen;
mod words;

pub use atom::{Atom, Slots};
pub use literal::Literal;
pub use narrowing::Test;
pub use rows::{BuiltinTable, Row, RowResult};
pub use types::Type;
