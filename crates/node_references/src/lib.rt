//! The references that the nodes of a tree stand for.
//!
//! In one sentence: `node_references` gives each reference of a tree one number, and each node the number of the
//! reference that it stands for (`AreNodeReferences`, in `specs/Numbers.antt`).
//!
//! A reference is a symbol, a chain of names behind one, or the hidden reference of a `match`
//! (`specs/References.antt`, after the Python 3.12 language reference, 6.2.1, 6.2.3 and 6.3.1). Whether a node
//! runs, and whether it reads, binds or tests its reference, isn't said here.
//!
//! `casts` says of each node whether it names `cast` of typing, whose first argument is an annotation, which
//! doesn't run (`names_cast`, in `specs/Casts.antt`): by a symbol whose only binding imports `cast` from `typing` or
//! `typing_extensions`, or as the attribute `cast` of a symbol whose only binding imports one of these modules.
//! Brackets around a node are seen through, and a name in a def counts as one outside does.
//!
//! The crates above keep sets of nodes as marks, one for each node (`AreMarks`, in `specs/Marks.antt`).
//!
//! Below stand `py_base` (trees) and `py_scopes` (whose a name is, and the bindings of a symbol). Time grows with the
//! tree: `node_references` goes over the nodes once, and `casts` twice. The names of all references stand in one list,
//! in which a chain shares them with those of its beginnings that come right before it (`ReferenceList`).
#![tactic(auto)]

mod imports;
pub mod laws;
mod marks;
mod naming;
mod nodes;
mod numbering;
mod reference;
mod reference_list;
mod referred;
mod shape;

pub use marks::{is_marked, marked};
pub use naming::casts;
pub use nodes::name_of;
pub use reference::Root;
pub use reference_list::ReferenceList;
pub use referred::{NodeReferences, at, node_references};
pub use shape::{Shape, shape_of};
