//! Edges of code flow graphs.

use crate::sources::{Flow, show_node, show_point};
use flow_graph::EdgeKind;
use py_base::{NoMemory, NodeId, PointId};
use std::alloc::{AllocError, Global};
use std::fmt::Write;

// A kind with the node whose exit it is.
fn show_exit(out: &mut String, flow: &Flow, word: &str, node: NodeId) -> Result<(), AllocError> {
    write!(out, ", {word} ")?;
    show_node(out, &flow.named, node)
}

fn show_kind(out: &mut String, flow: &Flow, kind: EdgeKind) -> Result<(), AllocError> {
    match kind {
        EdgeKind::Plain => Ok(()),
        EdgeKind::True(node) => show_exit(out, flow, "true", node),
        EdgeKind::False(node) => show_exit(out, flow, "false", node),
        EdgeKind::Call(node) => show_exit(out, flow, "call", node),
        EdgeKind::Case(node) => show_exit(out, flow, "matches", node),
        EdgeKind::NotCase(node) => show_exit(out, flow, "passes", node),
        EdgeKind::Handler => write!(out, ", handler"),
        EdgeKind::Start => write!(out, ", start"),
    }
}

fn edge_fact(
    alloc: Global,
    flow: &Flow,
    from: PointId,
    to: PointId,
    kind: EdgeKind,
) -> Result<String, AllocError> {
    let mut out = String::new(alloc);
    show_point(&mut out, flow, from)?;
    write!(out, " -> ")?;
    show_point(&mut out, flow, to)?;
    show_kind(&mut out, flow, kind)?;
    Ok(out)
}

// Adds the edges that lead to a point.
fn add_edges(
    alloc: Global,
    flow: &Flow,
    to: PointId,
    facts: &mut Vec<String>,
) -> Result<(), NoMemory> {
    for (from, kind) in flow.graph.antecedents(to).iter().zip(flow.graph.kinds(to)) {
        facts.push(edge_fact(alloc, flow, *from, to, *kind)?)?;
    }
    Ok(())
}

/// A fact for each edge.
pub fn facts(alloc: Global, flow: &Flow) -> Result<Vec<String>, NoMemory> {
    let mut facts = Vec::new(alloc);
    for at in 0..flow.graph.len() {
        add_edges(alloc, flow, PointId(at as u32), &mut facts)?;
    }
    Ok(facts)
}
