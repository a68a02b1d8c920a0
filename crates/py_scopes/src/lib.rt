//! Who owns a name: for each name of a module the scope whose name it is and what it does there, for each
//! symbol its scope, its declaration and its bindings, and for each class its members.
//!
//! In one sentence: `scopes` gives the table of a module, in which the owner of a name is found by a
//! search outward from it over the scopes around it, and the other calls read that table.
//!
//! The contract cites `IsTable` of `specs/Table.antt`. It rests on the way from a node outward
//! (`specs/Way.antt`), on what the forms do with names (`specs/Kinds.antt`), on the scopes around a
//! place (`specs/Scopes.antt`), on the occurrences of names (`specs/Occurrences.antt`), on the search
//! (`specs/Owner.antt`) and on the members of classes (`specs/Members.antt`).
//!
//! `scopes` goes over the nodes, the occurrences and the symbols a few times each, and at a name outward
//! over the nodes around it: tables hold the node around each node and what is said of a name in each
//! scope (`specs/Tables.antt`).
//!
//! Below this crate stands `py_base` alone, and the kit's `indexmap`.
#![tactic(auto)]

mod around;
mod build;
mod facts;
mod kinds;
mod members;
mod occurrence;
mod owner;
mod roles;
mod said;
mod scope;
mod search;
mod table;
mod way;

pub use build::scopes;
pub use facts::{Behind, SymbolFacts};
pub use kinds::does_bind;
pub use occurrence::{Annotation, Star};
pub use owner::Owner;
pub use roles::NameRole;
pub use scope::{Scope, ScopeKind, Symbol};
pub use table::Scopes;
