//! The code flow graph of a tree: its points and edges, and the references that its points read, bind and test.
//!
//! In one sentence: `build` gives the graphs of a tree and what is known of the references in them
//! (`IsFlow`, in `specs/Graph.antt`), and each call of `Graph` is one of either.
//!
//! What a reference is, and which one a node stands for, is said in `node_references`. Here `specs/Targets.antt`
//! says which nodes are bound, `specs/Bindings.antt` which reference a point reads or binds, and
//! `specs/Tests.antt` which one a node tests; `specs/Table.antt` says the same by numbers. A name that runs in no
//! graph, as in an annotation or in the first argument of `cast`, reads nothing, and a node that doesn't run tests
//! nothing; but names in a lambda that stands there are read, since each lambda has a graph.
//!
//! Below stand `py_base` (trees), `py_scopes` (whose a name is), `flow_rows` and `flow_forms` (what runs, and what
//! a case captures), `node_references` (which reference a node stands for, and which nodes name `cast`) and
//! `point_graph` (points, edges and graphs by numbers). What is above sees this crate alone: the kinds of edges,
//! and points with their roles, are given out here too. Time and memory grow with the tree and the points.
#![tactic(auto)]

mod binding;
mod condition;
mod filling;
mod graph;
mod graphs;
pub mod laws;
mod subjects;
mod table;
mod targets;
mod tested;

pub use condition::TestForm;
pub use flow_rows::{EdgeKind, Point, Role};
pub use graph::{Graph, build};
