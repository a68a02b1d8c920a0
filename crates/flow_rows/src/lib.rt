//! How each form of the language flows, and the edges of the code flow graphs of a tree.
//!
//! In one sentence: `row_of` gives the row of a form (`row`, and `graph_row` for a graph, in `specs/Rows.antt`),
//! and `edges_of` the edges within the graph of a node (`IsEdgeOf`, in `specs/Flow.antt`), by the forms of the
//! nodes and their first and last points (`ends_table`, in `specs/Ends.antt`).
//!
//! A point is a node, one of its roles, and the copy of the `finally` blocks around it (`specs/Points.antt`). A
//! form has a row of data: edges between points that it knows, exits, and parts, each with a mode and a route by
//! which its exits lead on (`leads_by`, `specs/Routes.antt`). No row looks into a part. A rule of the language is
//! one row, in `specs/Expressions.antt` or `specs/Statements.antt`, and one function here. Rows and functions say
//! the same: that they say what the language says is shown by rows of texts alone.
//!
//! The definition of the edges goes up: exits leave parts, and the row of a form catches them or leads them on.
//! The code goes down: a part is told by its frame where its exits lead. Time and memory grow with the edges; a
//! node has at most 16 copies, by the `finally` blocks around it. Below this crate stands `py_base` alone.
#![tactic(auto)]

mod choices;
mod comprehensions;
mod edge;
mod emit;
mod ends;
mod form;
mod frame;
mod handlers;
pub mod laws;
mod matching;
mod path;
mod point;
mod route;
mod rows;
mod statements;

pub use edge::{Edge, EdgeKind};
pub use emit::{edges_of, end_of_graph, has_graph};
pub use ends::{Ends, ends_of_forms, first};
pub use form::{
    Branch, CaseForm, Choice, ComprehensionClause, ForForm, Form, Function, Handler, MatchForm,
    TryForm, WhileForm,
};
pub use point::{Point, Role};
pub use route::{Channel, Dest, Exit, Kid, Leads, Mode, Route, Row};
