//! Marks of nodes: for each node of a tree, by its number, whether it is in a set.
ghost use Rattle.std.specs.Prelude.{◌≡◌, ℕ, [], ◌∷◌, ◌++◌, List, false, IfOk, slice_index_or};
ghost use Rattle.py_base.specs.declared.ids.NodeId.{NodeId};
ghost use Rattle.node_references.specs.Marks.{AreMarks};

use py_base::{List, NoMemory, NodeId};
use std::alloc::Global;

/// No marks, for so many nodes. `NoMemory` where they could not be stored.
pub fn unmarked(alloc: Global, count: usize) -> Result<List<bool>, NoMemory>
    ensures { IfOk result (λ marks. AreMarks [] count marks) }
{
    let mut marks = List::new(alloc);
    for _ in 0..count {
        marks.push(false)?;
    }
    Ok(marks)
}

/// Marks a node; one beyond the marks gets none.
pub fn mark(marks: &mut List<bool>, node: NodeId)
    ensures { (nodes : List NodeId) (count : ℕ) → AreMarks nodes count marks.old → AreMarks (nodes ++ node ∷ []) count marks.new }
{
    let at = node.0 as usize;
    if at >= marks.len() {
        return;
    }
    marks.set(at, true);
}

/// For each of the first so many nodes whether it is one of these. `NoMemory` where that could not be
/// stored.
pub fn marked(alloc: Global, nodes: &[NodeId], count: usize) -> Result<List<bool>, NoMemory>
    ensures { IfOk result (λ marks. AreMarks nodes.now count marks) }
{
    let mut marks = unmarked(alloc, count)?;
    for node in nodes {
        mark(&mut marks, *node);
    }
    Ok(marks)
}

/// Whether a node is marked; one beyond the marks isn't.
pub fn is_marked(marks: &[bool], node: NodeId) -> bool
    ensures { result ≡ slice_index_or marks.now node.0 false }
{
    match marks.get(node.0 as usize) {
        None => false,
        Some(mark) => *mark,
    }
}
