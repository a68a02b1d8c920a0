//! What the node that binds a part gives it.
ghost use Rattle.std.specs.Prelude.{◌≡◌, ◌∷◌, length, filter, take, drop};
ghost use Rattle.node_shapes.specs.Kinds.{is_async, is_def, is_class, is_match};
ghost use Rattle.node_shapes.specs.Outward.{outward, first_around};
ghost use Rattle.binding_sources.specs.declared.sources.Source.TheVariants as source;
ghost use Rattle.binding_sources.specs.Sources.{is_asynchronous, nth_part, of_part, iterated, entered, is_parameter, parameter, parameter_in, parameter_along, given_by, is_binding, given};

use crate::sources::Source;
use node_shapes::parameters::parameter_by;
use node_shapes::{Outward, ParameterForm, PartUse, Sought, Step, use_at};
use py_base::{NodeId, NodeKind, Tree};

fn is_async(kind: NodeKind) -> bool
    ensures { result ≡ is_async kind }
{
    matches!(kind, NodeKind::Async)
}

// Whether `async` stands around a node.
fn is_asynchronous(steps: &Outward, node: NodeId) -> bool
    ensures { result ≡ is_asynchronous (outward steps.now.nodes node) }
{
    match steps.step(node) {
        Some(step) => is_async(step.kind),
        None => false,
    }
}

// Whether it stands around the node around.
fn is_asynchronous_header(steps: &Outward, node: NodeId) -> bool
    ensures { result ≡ is_asynchronous (drop 1 (outward steps.now.nodes node)) }
{
    match steps.step(node) {
        Some(step) => is_asynchronous(steps, step.around),
        None => false,
    }
}

fn nth_part(steps: &Outward, step: Step, index: usize) -> Option<NodeId>
    ensures { result ≡ nth_part steps.now.nodes step index }
{
    match steps.tree().parts(step.around).get(index) {
        Some(part) => Some(*part),
        None => None,
    }
}

fn value(part: Option<NodeId>) -> Option<Source>
    ensures { result ≡ of_part source.Value part }
{
    match part {
        Some(part) => Some(Source::Value(part)),
        None => None,
    }
}

fn iterated(is_asynchronous: bool, part: Option<NodeId>) -> Option<Source>
    ensures { result ≡ of_part (iterated is_asynchronous) part }
{
    match part {
        Some(part) => Some(if is_asynchronous {
            Source::AsyncIterated(part)
        } else {
            Source::Iterated(part)
        }),
        None => None,
    }
}

fn entered(is_asynchronous: bool, part: Option<NodeId>) -> Option<Source>
    ensures { result ≡ of_part (entered is_asynchronous) part }
{
    match part {
        Some(part) => Some(if is_asynchronous {
            Source::AsyncEntered(part)
        } else {
            Source::Entered(part)
        }),
        None => None,
    }
}

fn caught(part: Option<NodeId>) -> Option<Source>
    ensures { result ≡ of_part source.Caught part }
{
    match part {
        Some(part) => Some(Source::Caught(part)),
        None => None,
    }
}

fn imported(part: Option<NodeId>) -> Option<Source>
    ensures { result ≡ of_part source.Imported part }
{
    match part {
        Some(part) => Some(Source::Imported(part)),
        None => None,
    }
}

fn subject(steps: &Outward, step: Step) -> Option<Source>
    ensures { result ≡ of_part source.Subject (first_around is_match (outward steps.now.nodes step.around)) }
{
    match steps.first_around(step.around, Sought::Match) {
        Some(statement) => Some(Source::Subject(statement)),
        None => None,
    }
}

fn def(steps: &Outward, step: Step) -> Option<Source>
    ensures { result ≡ of_part source.Def (first_around is_def (outward steps.now.nodes step.around)) }
{
    match steps.first_around(step.around, Sought::Def) {
        Some(statement) => Some(Source::Def(statement)),
        None => None,
    }
}

fn class(steps: &Outward, step: Step) -> Option<Source>
    ensures { result ≡ of_part source.Class (first_around is_class (outward steps.now.nodes step.around)) }
{
    match steps.first_around(step.around, Sought::Class) {
        Some(statement) => Some(Source::Class(statement)),
        None => None,
    }
}

fn is_parameter(tree: &Tree, part: NodeId) -> bool
    ensures { result ≡ is_parameter tree.now.nodes part }
{
    parameter_by(tree, part, ParameterForm::Plain).is_some()
}

// How many of the parts are parameters.
fn count_parameters(tree: &Tree, parts: &[NodeId]) -> usize
    ensures { result ≡ length (filter (is_parameter tree.now.nodes) parts.now) }
{
    let mut count = 0;
    for part in parts {
        count += is_parameter(tree, *part) as usize;
    }
    count
}

// The parts before the one of the given place.
fn before(parts: &[NodeId], place: usize) -> &[NodeId]
    ensures { result.now ≡ take place parts.now }
{
    match parts.split_at_checked(place) {
        Some((before, _)) => before,
        None => parts,
    }
}

// The parameter of a function that a part is.
fn parameter(steps: &Outward, step: Step, function: NodeId) -> Source
    ensures { result ≡ parameter steps.now.nodes step function }
{
    let tree = steps.tree();
    let before = before(tree.parts(step.around), step.part);
    Source::Parameter(function, count_parameters(tree, before))
}

// The parameter that a part of a def's brackets or of a lambda is.
fn parameter_in(steps: &Outward, step: Step) -> Option<Source>
    ensures { result ≡ parameter_in steps.now.nodes step.kind step (outward steps.now.nodes step.around) }
{
    match step.kind {
        NodeKind::Lambda => Some(parameter(steps, step, step.around)),
        NodeKind::Parameters => match steps.first_around(step.around, Sought::Def) {
            Some(statement) => Some(parameter(steps, step, statement)),
            None => None,
        },
        _ => None,
    }
}

// The parameter that a node is.
fn parameter_along(steps: &Outward, node: NodeId) -> Option<Source>
    ensures { result ≡ parameter_along steps.now.nodes (outward steps.now.nodes node) }
{
    match steps.step(node) {
        Some(step) => parameter_in(steps, step),
        None => None,
    }
}

// What a node that binds a part gives it.
fn given_by(steps: &Outward, step: Step) -> Option<Source>
    ensures { result ≡ given_by steps.now.nodes step.kind step (outward steps.now.nodes step.around) }
{
    match step.kind {
        NodeKind::Assign => value(nth_part(steps, step, step.parts.saturating_sub(1))),
        NodeKind::AnnotatedAssign => value(nth_part(steps, step, 2)),
        NodeKind::AugmentedAssign => Some(Source::Augmented(step.around)),
        NodeKind::Named => value(nth_part(steps, step, 1)),
        NodeKind::For => iterated(
            is_asynchronous(steps, step.around),
            nth_part(steps, step, 1),
        ),
        NodeKind::ComprehensionFor => iterated(false, nth_part(steps, step, 1)),
        NodeKind::AsyncComprehensionFor => iterated(true, nth_part(steps, step, 1)),
        NodeKind::WithItem => entered(
            is_asynchronous_header(steps, step.around),
            nth_part(steps, step, 0),
        ),
        NodeKind::Except | NodeKind::ExceptStar => caught(nth_part(steps, step, 0)),
        NodeKind::Case => subject(steps, step),
        NodeKind::Import | NodeKind::ImportFrom => imported(nth_part(steps, step, step.part)),
        NodeKind::Alias => Some(Source::Imported(step.around)),
        NodeKind::Def => def(steps, step),
        NodeKind::Class => class(steps, step),
        NodeKind::Lambda | NodeKind::Parameters => parameter_in(steps, step),
        NodeKind::Parameter
        | NodeKind::AnnotatedParameter
        | NodeKind::StarParameter
        | NodeKind::DoubleStarParameter => parameter_along(steps, step.around),
        NodeKind::Del => Some(Source::Removed),
        NodeKind::TypeAlias
        | NodeKind::TypeParameters
        | NodeKind::TypeParameter
        | NodeKind::StarTypeParameter
        | NodeKind::DoubleStarTypeParameter => Some(Source::Unknown),
        _ => None,
    }
}

fn is_binding(part_use: PartUse) -> bool
    ensures { result ≡ is_binding part_use }
{
    matches!(
        part_use,
        PartUse::Bound
            | PartUse::Augmented
            | PartUse::Annotated
            | PartUse::TypeName
            | PartUse::Deleted
    )
}

/// What the node around gives the part that the step leads from, if it binds that.
pub(crate) fn given(steps: &Outward, step: Step) -> Option<Source>
    ensures { result ≡ given steps.now.nodes (step ∷ outward steps.now.nodes step.around) }
{
    if is_binding(use_at(step)) {
        given_by(steps, step)
    } else {
        None
    }
}
