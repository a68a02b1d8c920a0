//! Trees of texts.

use crate::nodes::tree_text;
use crate::sources::module_of;
use py_base::{NoMemory, NodeId};
use std::alloc::Global;

/// The tree of a text, as one fact.
pub fn facts(alloc: Global, source: &str) -> Result<Vec<String>, NoMemory> {
    let tree = module_of(alloc, source)?.tree;
    let mut facts = Vec::new(alloc);
    if tree.node_count() > 0 {
        facts.push(tree_text(alloc, &tree, tree.root())?)?;
    }
    Ok(facts)
}

/// A fact for each node of a text: its kind and its span, in characters.
pub fn span_facts(alloc: Global, source: &str) -> Result<Vec<String>, NoMemory> {
    let tree = module_of(alloc, source)?.tree;
    let mut facts = Vec::new(alloc);
    for at in 0..tree.node_count() {
        let node = tree.node(NodeId(at as u32));
        facts.push(format!(in alloc; "{:?} {}-{}", node.kind, node.span.from, node.span.to)?)?;
    }
    Ok(facts)
}
