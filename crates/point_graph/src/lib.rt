//! The code flow graphs of a tree, by numbers: which points lead to a point, and by which kinds of edges.
//!
//! In one sentence: `build` gives each point of a graph one number, and to each number the numbers from
//! which edges lead to it, with their kinds, and the graph that it is of (`IsGraph`, in
//! `specs/Graph.antt`); `PointGraph::point` gives the point of a node (`IsPointAt`, in `specs/Operands.antt`).
//!
//! `flow_forms` reads the forms of the nodes from the tree, and `flow_rows` gives their first and last points and
//! the edges. Time and memory grow with the points and the edges: the
//! edges of a graph are made once, and each point is looked up once for each edge that it ends.
//!
//! The first argument of `cast` is an annotation. Which calls these are a caller says, who knows what names
//! mean (`run_forms`, in `specs/Annotations.antt`). A lambda in an annotation has a graph as each lambda
//! has; as nothing there runs, nothing reaches its start.
#![tactic(auto)]

mod annotations;
mod graph;
mod homes;
mod incoming;
pub mod laws;
mod members;
mod numbers;
mod operands;
mod runs;
mod starts;

pub use graph::{PointGraph, build};
pub use members::Members;
