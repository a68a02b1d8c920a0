//! The steps outward from all nodes, found by one pass over them.
ghost use Rattle.std.specs.Prelude.{◌≡◌, ◌<◌, ◌↔◌, None, Some, IsTrue, IfOk, IfSome, length, map, slice_get};
ghost use Rattle.node_shapes.specs.Items.{first_ids};
ghost use Rattle.node_shapes.specs.Outward.{step_of, outward, outward_from};
ghost use Rattle.node_shapes.specs.Tables.{steps_outward, no_step, step_or_none, step_from, PutsFirst, PutsSteps};

use crate::outward::Step;
use py_base::{List, NoMemory, Node, NodeId, Tree};
use std::alloc::Global;
use std::marker::Model;

/// A tree with the step outward from each of its nodes. A contract sees the tree.
#[derive(Drop)]
pub struct Outward<'a> {
    tree: &'a Tree,
    steps: List<Option<Step>>,
}

impl<'a> Model for Outward<'a> {
    ghost use Rattle.std.specs.Prelude.{◌≡◌};
    ghost use Rattle.py_base.specs.Tree.{Arena, IsLinked};
    ghost use Rattle.node_shapes.specs.Tables.{steps_outward};

    ghost Value = { Arena };

    ghost view = { λ outward. outward.tree.now };

    ghost invariant = { λ outward. (outward.steps ≡ steps_outward outward.tree.now.nodes) × IsLinked outward.tree.now };
}

// The step to the node from its part at the place.
fn step_from(tree: &Tree, at: NodeId, node: &Node, place: usize, part: NodeId) -> Step
    ensures { result ≡ step_from tree.now.nodes at.0 node.now place part }
{
    Step {
        around: at,
        kind: node.kind,
        part: place,
        parts: node.parts.len(),
        inner: tree.kind(part),
    }
}

// As many places without a step as are told.
fn no_steps(alloc: Global, count: usize) -> Result<List<Option<Step>>, NoMemory>
    requires { count < 33554432 }
    ensures { IfOk result (λ steps. steps ≡ map no_step (first_ids count)) }
{
    let mut steps = List::new(alloc);
    for _ in 0..count {
        steps.push(None)?;
    }
    Ok(steps)
}

// Whether there is such a place, and no step at it.
fn is_free(steps: &[Option<Step>], at: usize) -> bool
    ensures { IsTrue result ↔ (slice_get steps.now at ≡ Some None) }
{
    match steps.get(at) {
        Some(step) => step.is_none(),
        None => false,
    }
}

// Puts the step outward from a node where it has none yet.
fn add_step(steps: &mut List<Option<Step>>, node: NodeId, step: Step)
    ensures puts { PutsFirst node.0 step steps.old steps.new }
    ensures count { length steps.new ≡ length steps.old }
{
    let at = node.0 as usize;
    if is_free(steps.as_slice(), at) {
        steps.set(at, Some(step));
    }
}

// Puts the steps outward from the parts of a node where these have none yet.
fn add_steps(tree: &Tree, at: NodeId, steps: &mut List<Option<Step>>)
    requires { at.0 < length tree.now.nodes }
    ensures puts { PutsSteps tree.now.nodes at.0 steps.old steps.new }
    ensures count { length steps.new ≡ length steps.old }
{
    let node = tree.node(at);
    let parts = node.parts.as_slice();
    for (place, part) in parts.iter().enumerate() {
        add_step(steps, *part, step_from(tree, at, node, place, *part));
    }
}

// The step outward from each node, `None` where it is no node's part.
fn steps_outward(alloc: Global, tree: &Tree) -> Result<List<Option<Step>>, NoMemory>
    ensures { IfOk result (λ steps. steps ≡ steps_outward tree.now.nodes) }
{
    let mut steps = no_steps(alloc, tree.node_count())?;
    for number in 0..tree.node_count() {
        add_steps(tree, NodeId(number as u32), &mut steps);
    }
    Ok(steps)
}

fn step_at(steps: &[Option<Step>], node: NodeId) -> Option<Step>
    ensures { result ≡ step_or_none (slice_get steps.now node.0) }
{
    match steps.get(node.0 as usize) {
        Some(step) => *step,
        None => None,
    }
}

impl<'a> Outward<'a> {
    /// The steps outward in a tree. `NoMemory` where they could not be stored.
    pub fn new(alloc: Global, tree: &'a Tree) -> Result<Outward<'a>, NoMemory>
        ensures { IfOk result (λ outward. outward ≡ tree.now) }
    {
        let steps = steps_outward(alloc, tree)?;
        let _linked = tree.node_count();
        Ok(Outward { tree, steps })
    }

    /// The tree.
    pub fn tree(&self) -> &'a Tree
        ensures { result.now ≡ self.now }
    {
        self.tree
    }

    /// The step outward from a node, `None` exactly from the root and from what is no node. A node around is newer.
    pub fn step(&self, node: NodeId) -> Option<Step>
        ensures step { result ≡ step_of self.now.nodes node }
        // The way outward goes on from the node around.
        ensures way { outward self.now.nodes node ≡ outward_from result (outward self.now.nodes) }
        ensures newer { IfSome result (λ step. (node.0 < step.around.0) × (step.around.0 < length self.now.nodes)) }
    {
        step_at(self.steps.as_slice(), node)
    }
}
