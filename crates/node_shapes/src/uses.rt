//! What is done with a name or a target where it stands.
ghost use Rattle.std.specs.Prelude.{◌≡◌};
ghost use Rattle.node_shapes.specs.Kinds.{is_case, is_strings};
ghost use Rattle.node_shapes.specs.Outward.{outward};
ghost use Rattle.node_shapes.specs.Uses.{use_at, is_inherited, deciding, use_along, is_pattern, in_pattern_string, is_wildcard, use_of};
ghost use Rattle.node_shapes.specs.Patterns.{pattern};
ghost use Rattle.node_shapes.specs.Tables.{first_step, is_pattern_step, use_by};

use crate::outward::Step;
use crate::part_uses::{PartUse, part_use};
use crate::patterns::{Pattern, pattern_at};
use crate::steps::Outward;
use py_base::{NodeId, NodeKind, Tree};

/// What the node of a step does with the name that the part is, or with those in it.
pub fn use_at(step: Step) -> PartUse
    ensures { result ≡ use_at step }
{
    part_use(step.kind, step.part, step.parts)
}

fn is_inherited(part_use: PartUse) -> bool
    ensures { result ≡ is_inherited part_use }
{
    matches!(part_use, PartUse::Inherited)
}

fn is_strings(kind: NodeKind) -> bool
    ensures { result ≡ is_strings kind }
{
    matches!(kind, NodeKind::Strings)
}

fn is_case(kind: NodeKind) -> bool
    ensures { result ≡ is_case kind }
{
    matches!(kind, NodeKind::Case)
}

fn is_wildcard(tree: &Tree, node: NodeId) -> bool
    ensures { result ≡ is_wildcard (pattern tree.now node) }
{
    matches!(pattern_at(tree, node), Pattern::Wildcard)
}

// Whether a step leads into the pattern of a `case`.
fn is_pattern(step: Option<Step>) -> bool
    ensures { result ≡ is_pattern_step step }
{
    match step {
        Some(step) => is_case(step.kind) && step.part == 0,
        None => false,
    }
}

fn use_by(step: Option<Step>) -> PartUse
    ensures { result ≡ use_by step }
{
    match step {
        Some(step) => use_at(step),
        None => PartUse::Read,
    }
}

impl<'a> Outward<'a> {
    /// The first step from a node outward to one that doesn't hand on its own use; `None` exactly where all do.
    pub fn deciding_step(&self, node: NodeId) -> Option<Step>
        ensures { result ≡ first_step (deciding (outward self.now.nodes node)) }
    {
        let mut at = node;
        while let Some(step) = self.step(at) {
            if !is_inherited(use_at(step)) {
                return Some(step);
            }
            at = step.around;
        }
        None
    }

    /// Whether the step that decides leads into the pattern of a `case`.
    pub fn is_in_pattern(&self, node: NodeId) -> bool
        ensures { result ≡ is_pattern (deciding (outward self.now.nodes node)) }
    {
        is_pattern(self.deciding_step(node))
    }

    // What is done with the node by the node that decides.
    fn deciding_use(&self, node: NodeId) -> PartUse
        ensures { result ≡ use_along (deciding (outward self.now.nodes node)) }
    {
        use_by(self.deciding_step(node))
    }

    /// Whether a node stands in strings that are a pattern: their fields aren't evaluated.
    pub fn is_in_pattern_string(&self, node: NodeId) -> bool
        ensures { result ≡ in_pattern_string (outward self.now.nodes node) }
    {
        let mut at = node;
        while let Some(step) = self.step(at) {
            if is_strings(step.kind) && self.is_in_pattern(step.around) {
                return true;
            }
            at = step.around;
        }
        false
    }

    /// The use of a name or a target; `None` exactly in the strings of a pattern and for a `_` in a pattern.
    pub fn use_of(&self, node: NodeId) -> Option<PartUse>
        ensures { result ≡ use_of self.now node }
    {
        let is_unused = self.is_in_pattern(node) && is_wildcard(self.tree(), node);
        if self.is_in_pattern_string(node) || is_unused {
            None
        } else {
            Some(self.deciding_use(node))
        }
    }
}
