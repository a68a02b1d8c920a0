//! The way from a node outward.
//!
//! One pass over all nodes finds the step outward from each of them.
ghost use Rattle.std.specs.Prelude.{◌≡◌, ◌<◌, ◌↔◌, None, Some, IsTrue, IfOk, IfSome, length, map, slice_get, slice_index_or};
ghost use Rattle.std.specs.List.{list_any, position_or_len};
ghost use Rattle.py_base.specs.Nodes.{kind_at};
ghost use Rattle.py_scopes.specs.Kinds.{is_for, is_type_list};
ghost use Rattle.py_scopes.specs.Occurrences.{first_ids};
ghost use Rattle.py_scopes.specs.Way.{has_list, brings_list, is_generic, step_from, step_out, way_out};
ghost use Rattle.py_scopes.specs.Tables.{steps_outward, no_step, PutsFirst, PutsSteps};

use crate::kinds::{does_take_list, does_take_types, is_async, is_for, is_type_list};
use py_base::{List, NoMemory, Node, NodeId, NodeKind, Tree};
use std::alloc::Global;

/// From a part of a node to the node.
#[derive(Clone, Copy, Debug)]
pub struct Step {
    /// The node around.
    pub around: NodeId,
    pub kind: NodeKind,
    /// Which of its parts leads in, counted from 0.
    pub part: usize,
    /// How many parts it has.
    pub parts: usize,
    /// The kind of the part that leads in.
    pub inner: NodeKind,
    /// The place of the first `for` of a comprehension among its parts; if it has none, their number.
    pub first_for: usize,
    /// Whether it is a def, a class or a `type` statement with a list of type parameters.
    pub generic: bool,
}

// The place of the first `for` of a comprehension among the parts, or their number.
fn first_for(tree: &Tree, parts: &[NodeId]) -> usize
    ensures { result ≡ position_or_len (λ p. is_for (kind_at tree.now.nodes p)) parts.now }
{
    for (place, part) in parts.iter().enumerate() {
        if is_for(tree.kind(*part)) {
            return place;
        }
    }
    parts.len()
}

fn is_list(tree: &Tree, part: NodeId) -> bool
    ensures { result ≡ is_type_list (kind_at tree.now.nodes part) }
{
    is_type_list(tree.kind(part))
}

// Whether a list of type parameters is among the parts of a node.
fn has_list(tree: &Tree, id: NodeId) -> bool
    ensures { result ≡ has_list tree.now.nodes id }
{
    tree.parts(id).iter().any(|part| is_list(tree, *part))
}

fn has_any_list(tree: &Tree, headers: &[NodeId]) -> bool
    ensures { result ≡ list_any (has_list tree.now.nodes) headers.now }
{
    headers.iter().any(|header| has_list(tree, *header))
}

// Whether a part of this kind is such a list, or the header that has one.
fn does_bring_list(tree: &Tree, kind: NodeKind, part: NodeId) -> bool
    ensures { result ≡ brings_list tree.now.nodes kind part }
{
    is_type_list(kind)
        || (does_take_list(kind) && has_list(tree, part))
        || (is_async(kind) && has_any_list(tree, tree.parts(part)))
}

fn is_bringing(tree: &Tree, part: NodeId) -> bool
    ensures { result ≡ brings_list tree.now.nodes (kind_at tree.now.nodes part) part }
{
    does_bring_list(tree, tree.kind(part), part)
}

fn is_any_bringing(tree: &Tree, parts: &[NodeId]) -> bool
    ensures { result ≡ list_any (λ p. brings_list tree.now.nodes (kind_at tree.now.nodes p) p) parts.now }
{
    parts.iter().any(|part| is_bringing(tree, *part))
}

fn is_generic(tree: &Tree, node: &Node) -> bool
    ensures { result ≡ is_generic tree.now.nodes node.now }
{
    does_take_types(node.kind) && is_any_bringing(tree, node.parts.as_slice())
}

// The part at the place, and where there is none the node itself.
fn part_or(at: NodeId, parts: &[NodeId], place: usize) -> NodeId
    ensures { result ≡ slice_index_or parts.now place at }
{
    match parts.get(place) {
        Some(part) => *part,
        None => at,
    }
}

// The step from the part at the place to the node, of which is known where its first `for` of a
// comprehension stands and whether it is generic.
fn step_from(
    tree: &Tree,
    at: NodeId,
    node: &Node,
    place: usize,
    first_for: usize,
    generic: bool,
) -> Step
    requires generic { generic ≡ is_generic tree.now.nodes node.now }
    requires first_for { first_for ≡ position_or_len (λ p. is_for (kind_at tree.now.nodes p)) node.now.parts }
    ensures { result ≡ step_from tree.now.nodes at.0 node.now place }
{
    let parts = node.parts.as_slice();
    Step {
        around: at,
        kind: node.kind,
        part: place,
        parts: parts.len(),
        inner: tree.kind(part_or(at, parts, place)),
        first_for,
        generic,
    }
}

// As many places without a step as are told.
fn no_steps(alloc: Global, count: usize) -> Result<List<Option<Step>>, NoMemory>
    requires { count < 33554432 }
    ensures { IfOk result (λ steps. steps ≡ map no_step (first_ids count)) }
{
    let mut steps = List::new(alloc);
    for _ in 0..count {
        steps.push(None)?;
    }
    Ok(steps)
}

// Whether there is such a place, and no step at it.
fn is_free(steps: &[Option<Step>], at: usize) -> bool
    ensures { IsTrue result ↔ (slice_get steps.now at ≡ Some None) }
{
    match steps.get(at) {
        Some(step) => step.is_none(),
        None => false,
    }
}

// Puts the step outward from a node where it has none yet.
fn add_step(steps: &mut List<Option<Step>>, node: NodeId, step: Step)
    ensures puts { PutsFirst node.0 step steps.old steps.new }
    ensures count { length steps.new ≡ length steps.old }
{
    let at = node.0 as usize;
    if is_free(steps.as_slice(), at) {
        steps.set(at, Some(step));
    }
}

// Puts the steps outward from the parts of a node where these have none yet.
fn add_steps(tree: &Tree, at: NodeId, steps: &mut List<Option<Step>>)
    requires { at.0 < length tree.now.nodes }
    ensures puts { PutsSteps tree.now.nodes at.0 steps.old steps.new }
    ensures count { length steps.new ≡ length steps.old }
{
    let node = tree.node(at);
    let parts = node.parts.as_slice();
    let first_for = first_for(tree, parts);
    let generic = is_generic(tree, node);
    for (place, part) in parts.iter().enumerate() {
        let step = step_from(tree, at, node, place, first_for, generic);
        add_step(steps, *part, step);
    }
}

/// The step outward from each node, `None` where it is no node's part. `NoMemory` where they could not
/// be stored.
pub(crate) fn steps_outward(alloc: Global, tree: &Tree) -> Result<List<Option<Step>>, NoMemory>
    ensures { IfOk result (λ steps. steps ≡ steps_outward tree.now) }
{
    let mut steps = no_steps(alloc, tree.node_count())?;
    for number in 0..tree.node_count() {
        add_steps(tree, NodeId(number as u32), &mut steps);
    }
    Ok(steps)
}

fn step_at(outward: &[Option<Step>], id: NodeId) -> Option<Step>
    requires { id.0 < length outward.now }
    ensures { slice_get outward.now id.0 ≡ Some result }
{
    outward[id.0 as usize]
}

// The step outward from a node.
fn step_out(tree: &Tree, outward: &[Option<Step>], id: NodeId) -> Option<Step>
    requires { outward.now ≡ steps_outward tree.now }
    ensures { result ≡ step_out tree.now.nodes id }
{
    if (id.0 as usize) < tree.node_count() {
        step_at(outward, id)
    } else {
        None
    }
}

/// The steps from a node outward to the root, the innermost first. `NoMemory` where they could not be
/// stored.
pub(crate) fn way_out(
    alloc: Global,
    tree: &Tree,
    outward: &[Option<Step>],
    id: NodeId,
) -> Result<List<Step>, NoMemory>
    requires { outward.now ≡ steps_outward tree.now }
    ensures { IfOk result (λ way. way ≡ way_out tree.now.nodes id) }
{
    let mut way = List::new(alloc);
    let mut at = id;
    for taken in 0..tree.node_count() {
        let Some(step) = step_out(tree, outward, at) else {
            return Ok(way);
        };
        way.push(step)?;
        at = step.around;
    }
    Ok(way)
}
