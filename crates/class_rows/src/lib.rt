//! The order of classes: for each builtin class and each class of a file, in which classes an
//! attribute is looked up and in which order, and which symbol is found so.
//!
//! In one sentence: `ClassRows::build` gives each class of the class statements a row in which its
//! order is the class itself and behind it the merge, by the rule of C3, of the orders of its bases
//! and of the list of its bases, or else the class itself and `object` where there is no such order;
//! the other calls answer by these rows.
//!
//! The contract cites `IsRows` of `specs/Rows.antt`. It speaks of the classes of a file
//! (`specs/Classes.antt`, with the bases of the builtin classes in `specs/Builtins.antt`) and of the
//! merge (`specs/Merge.antt`). That this leaves no choice, and that an order keeps every order that
//! it is made of, are the laws of `laws`.
//!
//! A chain of n classes has orders of n² / 2 classes in all, since each order names all classes
//! above. Beside that the rows take time in proportion to the lists that are merged, but for a
//! logarithm, however many bases a class has: each class knows the lists that have it, so that
//! taking it looks at these alone.
//!
//! Below this crate stands `py_base` alone.
#![tactic(auto)]

mod bases;
mod build;
mod builtin_orders;
mod head;
pub mod laws;
mod linear;
mod members;
mod merge;
mod remainder;
mod row;
mod rows;

pub use bases::bases_are_earlier;
pub use head::{Base, ClassHead};
pub use rows::ClassRows;
