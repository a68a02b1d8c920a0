//! Where a bound value comes from, what a name stands for by its only binding, and what decorators leave of a def or a class.
//!
//! In one sentence: each node that is bound has a source, read off the way outward (`source_of`, and under decorators `binding_source`), each
//! point of a node binds what `own_source` and `end_source` say, a name or a chain stands for the only binding of its first name and the names
//! behind it (`meaning_of`, `imported_name`), and `decoration_of` is the verdict on decorators. The definitions are those of the same names in
//! `specs/`: `Sources.antt`, `Points.antt`, `Meanings.antt`, `Verdicts.antt`. Below stand `node_shapes` (the steps outward, shapes, uses) and
//! `py_scopes` (owners and bindings); no call takes memory.
#![tactic(auto)]

mod bindings;
pub mod chains;
pub mod meanings;
pub mod names;
pub mod points;
pub mod sources;
pub mod verdicts;

pub use chains::{NamesBehind, ShortChain, chain_at};
pub use meanings::{
    Brought, KnownImports, Meaning, ShortMeaning, brought_by, brought_of, brought_of_source,
    imported_name, is_unknown_import, meaning_of, meaning_of_owner, only_binding,
};
pub use names::Names;
pub use points::{end_source, own_source};
pub use sources::{Part, Source, source_of};
pub use verdicts::{
    Decoration, Decorator, DefKind, Verdict, binding_source, decoration_of, decorator_of,
};
