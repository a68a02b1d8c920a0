//! References, graphs and points of nodes.

use crate::sources::{Flow, flow_of, is_of_kind, show_node, show_point, words_of};
use crate::symbols::show_names;
use py_base::{GraphId, NoMemory, NodeId, NodeKind, PointId, RefId, SymId};
use std::alloc::{AllocError, Global};
use std::fmt::Write;

/// One more than the copies in which a node can stand: `finally` blocks are at most four deep, and each doubles what
/// stands in it.
const MOST_COPIES: u32 = 17;

// The words where a symbol is first bound.
fn symbol_words<'a>(flow: &Flow<'a>, symbol: SymId) -> &'a str {
    if symbol.0 >= flow.named.scopes.symbols() {
        return "?";
    }
    match flow.named.scopes.bindings(symbol) {
        [] => "?",
        [node, ..] => words_of(&flow.named, *node),
    }
}

// `~` is the hidden reference of a `match`.
fn head_words<'a>(flow: &Flow<'a>, symbol: Option<SymId>) -> &'a str {
    match symbol {
        Some(symbol) => symbol_words(flow, symbol),
        None => "~",
    }
}

fn show_reference(out: &mut String, flow: &Flow, id: RefId) -> Result<(), AllocError> {
    if (id.0 as usize) >= flow.graph.reference_count() {
        return write!(out, "?");
    }
    let (symbol, names) = flow.graph.reference(id);
    write!(out, "{}", head_words(flow, symbol))?;
    show_names(out, &flow.named.tree, names)
}

// A reference behind other words.
fn reference_text(
    alloc: Global,
    flow: &Flow,
    words: &str,
    id: RefId,
) -> Result<String, AllocError> {
    let mut out = String::from_str(alloc, words)?;
    show_reference(&mut out, flow, id)?;
    Ok(out)
}

// A node and its reference.
fn node_fact(alloc: Global, flow: &Flow, node: NodeId, id: RefId) -> Result<String, AllocError> {
    let mut out = String::new(alloc);
    show_node(&mut out, &flow.named, node)?;
    write!(out, ": ")?;
    show_reference(&mut out, flow, id)?;
    Ok(out)
}

/// What is read at each node.
pub fn read_facts(alloc: Global, flow: &Flow) -> Result<Vec<String>, NoMemory> {
    let mut facts = Vec::new(alloc);
    for number in 0..flow.named.tree.node_count() {
        let node = NodeId(number as u32);
        if let Some(id) = flow.graph.read(node) {
            facts.push(node_fact(alloc, flow, node, id)?)?;
        }
    }
    Ok(facts)
}

/// What each case tests.
pub fn case_facts(alloc: Global, flow: &Flow) -> Result<Vec<String>, NoMemory> {
    let mut facts = Vec::new(alloc);
    for number in 0..flow.named.tree.node_count() {
        let node = NodeId(number as u32);
        if is_of_kind(&flow.named.tree, node, NodeKind::CaseStatement)
            && let Some(id) = flow.graph.tested(node)
        {
            facts.push(node_fact(alloc, flow, node, id)?)?;
        }
    }
    Ok(facts)
}

// What the last statement tests, which stands before the module, and what it tests beside that.
fn tested_in(alloc: Global, flow: &Flow) -> Result<Vec<String>, NoMemory> {
    let node = NodeId((flow.named.tree.node_count() as u32).saturating_sub(2));
    let mut facts = Vec::new(alloc);
    if let Some(id) = flow.graph.tested(node) {
        facts.push(reference_text(alloc, flow, "", id)?)?;
    }
    if let Some((id, _)) = flow.graph.mirrored(node) {
        facts.push(reference_text(alloc, flow, "mirrored ", id)?)?;
    }
    Ok(facts)
}

/// What an expression tests, where the names of rows are bound.
pub fn tested_facts(alloc: Global, source: &str) -> Result<Vec<String>, NoMemory> {
    let text = format!(in alloc; "a = b = f = m = C = 1\n{source}")?;
    let flow = flow_of(alloc, text.as_str())?;
    tested_in(alloc, &flow)
}

// What a point binds, and the node that says to what.
fn binding_fact(
    alloc: Global,
    flow: &Flow,
    point: PointId,
    id: RefId,
    node: NodeId,
) -> Result<String, AllocError> {
    let mut out = String::new(alloc);
    show_point(&mut out, flow, point)?;
    write!(out, ": ")?;
    show_reference(&mut out, flow, id)?;
    write!(out, " to ")?;
    show_node(&mut out, &flow.named, node)?;
    Ok(out)
}

/// What each point binds.
pub fn binding_facts(alloc: Global, flow: &Flow) -> Result<Vec<String>, NoMemory> {
    let mut facts = Vec::new(alloc);
    for number in 0..flow.graph.len() {
        let point = PointId(number as u32);
        if let Some((id, node)) = flow.graph.binding(point) {
            facts.push(binding_fact(alloc, flow, point, id, node)?)?;
        }
    }
    Ok(facts)
}

// Adds what occurs in a graph.
fn add_occurrences(
    alloc: Global,
    flow: &Flow,
    graph: GraphId,
    facts: &mut Vec<String>,
) -> Result<(), NoMemory> {
    for id in flow.graph.references(graph) {
        facts.push(node_fact(alloc, flow, NodeId(graph.0), *id)?)?;
    }
    Ok(())
}

/// What occurs in each graph.
pub fn occurrence_facts(alloc: Global, flow: &Flow) -> Result<Vec<String>, NoMemory> {
    let mut facts = Vec::new(alloc);
    for number in 0..flow.named.tree.node_count() {
        add_occurrences(alloc, flow, GraphId(number as u32), &mut facts)?;
    }
    Ok(facts)
}

// How many points a graph has, and where it begins and ends.
fn graph_fact(
    alloc: Global,
    flow: &Flow,
    node: NodeId,
    graph: GraphId,
) -> Result<String, AllocError> {
    let points = flow.graph.points(graph);
    let start = points.first().copied().unwrap_or(PointId(0));
    let mut out = String::new(alloc);
    show_node(&mut out, &flow.named, node)?;
    write!(out, ": {} points from ", points.len())?;
    show_point(&mut out, flow, start)?;
    write!(out, " to ")?;
    show_point(&mut out, flow, flow.graph.end(graph))?;
    Ok(out)
}

/// The ends of each graph, and the size of all.
pub fn graph_facts(alloc: Global, flow: &Flow) -> Result<Vec<String>, NoMemory> {
    let mut facts = Vec::new(alloc);
    facts.push(format!(in alloc; "size {}", flow.graph.size())?)?;
    for number in 0..flow.named.tree.node_count() {
        let node = NodeId(number as u32);
        if let Some(graph) = flow.graph.of(node) {
            facts.push(graph_fact(alloc, flow, node, graph)?)?;
        }
    }
    Ok(facts)
}

// The point of a node, and the node of its graph.
fn point_fact(
    alloc: Global,
    flow: &Flow,
    node: NodeId,
    point: PointId,
) -> Result<String, AllocError> {
    let mut out = String::new(alloc);
    show_node(&mut out, &flow.named, node)?;
    write!(out, ": ")?;
    show_point(&mut out, flow, point)?;
    write!(out, " in ")?;
    show_node(&mut out, &flow.named, NodeId(flow.graph.graph(point).0))?;
    Ok(out)
}

// Adds the points of a node.
fn add_points(
    alloc: Global,
    flow: &Flow,
    node: NodeId,
    facts: &mut Vec<String>,
) -> Result<(), NoMemory> {
    for copy in 0..MOST_COPIES {
        if let Some(point) = flow.graph.point(node, copy) {
            facts.push(point_fact(alloc, flow, node, point)?)?;
        }
    }
    Ok(())
}

/// The points of each node.
pub fn point_facts(alloc: Global, flow: &Flow) -> Result<Vec<String>, NoMemory> {
    let mut facts = Vec::new(alloc);
    for number in 0..flow.named.tree.node_count() {
        add_points(alloc, flow, NodeId(number as u32), &mut facts)?;
    }
    Ok(facts)
}
