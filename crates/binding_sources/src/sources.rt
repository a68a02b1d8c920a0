//! Where a bound value comes from.
ghost use Rattle.std.specs.Prelude.{◌≡◌};
ghost use Rattle.std.specs.Option.{option_map};
ghost use Rattle.node_shapes.specs.Outward.{outward};
ghost use Rattle.node_shapes.specs.Patterns.{pattern};
ghost use Rattle.node_shapes.specs.Targets.{target};
ghost use Rattle.node_shapes.specs.Uses.{use_at, is_inherited};
ghost use Rattle.binding_sources.specs.Sources.{is_removed, part_in, unknown_unless_removed, through, entry_part, handing, source_along, is_target, is_capture, is_bindable, source_of};
ghost use Rattle.binding_sources.specs.Joining.{joined};

use crate::bindings::given;
use node_shapes::{
    Outward, PartUse, Pattern, Step, Target, entries_of, pattern_at, target_at, use_at,
};
use py_base::{NodeId, NodeKind, Tree};

/// Where the value comes from that a node is bound to (Python 3.12 language reference, 4.2.1, 7 and 8).
#[derive(Clone, Copy)]
pub enum Source {
    /// The value of an expression.
    Value(NodeId),
    /// A part of what a list of targets is bound to; that list has a source of its own.
    Part(Part),
    /// What iterating an expression gives.
    Iterated(NodeId),
    AsyncIterated(NodeId),
    /// What `__enter__` of an expression gives.
    Entered(NodeId),
    AsyncEntered(NodeId),
    /// An instance of the class, or of one of those in a tuple, that an `except` clause names.
    Caught(NodeId),
    /// What an item of an import brings.
    Imported(NodeId),
    /// The function of a def statement.
    Def(NodeId),
    /// The class of a class statement.
    Class(NodeId),
    /// A parameter of a def statement or a lambda, by its place in `parameters_of` that node, which has its default.
    Parameter(NodeId, usize),
    /// What an augmented assignment computes.
    Augmented(NodeId),
    /// The hidden reference of a `match` statement, as the case leaves it at the point of the name that captures it.
    Subject(NodeId),
    /// No value: `del`, and the end of an `except` clause.
    Removed,
    /// Nothing is known of it.
    Unknown,
}

/// Part `index` of `count` of what `list` is bound to.
#[derive(Clone, Copy)]
pub struct Part {
    pub list: NodeId,
    pub index: usize,
    pub count: usize,
}

/// What one or several nodes make of the source that they hand on.
#[derive(Clone, Copy)]
enum Handing {
    /// It stays.
    Whole,
    /// A part of it.
    Part(Part),
    /// Nothing is known of it.
    Unknown,
}

fn entry_part(tree: &Tree, step: Step) -> Handing
    ensures { result ≡ entry_part tree.now.nodes step }
{
    Handing::Part(Part {
        list: step.around,
        index: step.part,
        count: entries_of(tree, step.around).len(),
    })
}

// What the node of a step hands on.
fn handing_at(tree: &Tree, step: Step) -> Handing
    ensures { result ≡ handing tree.now.nodes step }
{
    match step.kind {
        NodeKind::Round => {
            if step.parts == 1 {
                Handing::Whole
            } else {
                entry_part(tree, step)
            }
        }
        NodeKind::Square | NodeKind::Entries | NodeKind::Targets => entry_part(tree, step),
        NodeKind::AsPattern | NodeKind::DottedName => Handing::Whole,
        _ => Handing::Unknown,
    }
}

// What the nodes within make of what the node around them hands on.
fn joined(within: Handing, around: Handing) -> Handing
    ensures { result ≡ joined within around }
{
    match (within, around) {
        (Handing::Whole, _) => around,
        (Handing::Part(_), Handing::Unknown) => Handing::Unknown,
        (Handing::Part(_), _) => within,
        (Handing::Unknown, _) => Handing::Unknown,
    }
}

fn part_in(part: Part, given: Source) -> Source
    ensures { result ≡ part_in part given }
{
    match given {
        Source::Subject(_) | Source::Unknown => Source::Unknown,
        Source::Removed => Source::Removed,
        _ => Source::Part(part),
    }
}

fn unknown_unless_removed(given: Source) -> Source
    ensures { result ≡ unknown_unless_removed given }
{
    match given {
        Source::Removed => Source::Removed,
        _ => Source::Unknown,
    }
}

fn through(handing: Handing, given: Source) -> Source
    ensures { result ≡ through handing given }
{
    match handing {
        Handing::Whole => given,
        Handing::Part(part) => part_in(part, given),
        Handing::Unknown => unknown_unless_removed(given),
    }
}

fn handed(handing: Handing, given: Option<Source>) -> Option<Source>
    ensures { result ≡ option_map (through handing) given }
{
    match given {
        Some(given) => Some(through(handing, given)),
        None => None,
    }
}

fn is_inherited(part_use: PartUse) -> bool
    ensures { result ≡ is_inherited part_use }
{
    matches!(part_use, PartUse::Inherited)
}

// The source of what a node holds, as the node that binds gives it and those between hand it on.
fn source_along(steps: &Outward, node: NodeId) -> Option<Source>
    ensures { result ≡ source_along steps.now.nodes (outward steps.now.nodes node) }
{
    let mut at = node;
    let mut within = Handing::Whole;
    while let Some(step) = steps.step(at) {
        if !is_inherited(use_at(step)) {
            return handed(within, given(steps, step));
        }
        within = joined(within, handing_at(steps.tree(), step));
        at = step.around;
    }
    None
}

fn is_target(target: Target) -> bool
    ensures { result ≡ is_target target }
{
    !matches!(target, Target::Starred(_) | Target::NoTarget)
}

fn is_capture(pattern: Pattern) -> bool
    ensures { result ≡ is_capture pattern }
{
    matches!(pattern, Pattern::Capture)
}

fn is_bindable(tree: &Tree, node: NodeId, is_in_pattern: bool) -> bool
    ensures { result ≡ is_bindable tree.now node is_in_pattern }
{
    if is_in_pattern {
        is_capture(pattern_at(tree, node))
    } else {
        is_target(target_at(tree, node))
    }
}

/// Where the value of a bound node comes from: of a name, an attribute or a subscript that is a target, of a name that
/// a pattern captures, and of a list or a group of targets, whose parts name it. `None` exactly where the node is bound
/// nowhere, gets no value, or stands in the strings of a pattern.
pub fn source_of(steps: &Outward, node: NodeId) -> Option<Source>
    ensures { result ≡ source_of steps.now node }
{
    let is_bindable = is_bindable(steps.tree(), node, steps.is_in_pattern(node));
    if !steps.is_in_pattern_string(node) && is_bindable {
        source_along(steps, node)
    } else {
        None
    }
}
