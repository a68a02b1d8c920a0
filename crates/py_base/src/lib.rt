//! The words that every layer shares: texts and lists as contracts see them, places in a text,
//! diagnostics, a count of steps, and the two reasons for which a call can stop.
//!
//! In one sentence: a place and an offset of a text determine each other, for every offset of it.
//! The definitions behind it are `physical_lines` (specs/Lines.antt), the lines of a text with their
//! line ends, and `place_of` and `offset_of` (specs/Places.antt), which speak of their lengths.
//! Nothing stands below this crate.
#![tactic(auto)]

pub mod builtin;
pub mod diag;
pub mod ids;
pub mod key;
pub mod language_names;
pub mod laws;
pub mod line_map;
pub mod list;
pub mod node;
pub mod span;
pub mod steps;
pub mod stop;
pub mod text;
pub mod tree;

pub use builtin::Builtin;
pub use diag::{Diag, Rule};
pub use ids::{
    ClassId, FuncId, GraphId, InnerTuple, NameId, NodeId, PointId, RefId, SiteId, SymId,
};
pub use key::Key;
pub use line_map::LineMap;
pub use list::List;
pub use node::{Node, NodeKind, Op, Word};
pub use span::{Place, Span};
pub use steps::Steps;
pub use stop::{NoMemory, Stop};
pub use text::Text;
pub use tree::Tree;
