//! Parameters of defs and lambdas.
ghost use Rattle.std.specs.Prelude.{◌≡◌, ◌++◌, length, filter, IfOk, OnOk};
ghost use Rattle.std.specs.Option.{option_to_list};
ghost use Rattle.py_base.specs.Nodes.{kind_at, parts_at};
ghost use Rattle.node_shapes.specs.Parameters.{is_slash, is_star, filled_by, plain, parameter_by, places, parameters};

use crate::parts::but_last;
use py_base::{List, NoMemory, NodeId, NodeKind, Tree};
use std::alloc::Global;

/// A parameter (Python 3.12 language reference, 8.7).
#[derive(Clone, Copy)]
pub struct Parameter {
    /// Its `Name`.
    pub name: NodeId,
    pub form: ParameterForm,
    pub annotation: Option<NodeId>,
    pub default: Option<NodeId>,
}

/// By what arguments a parameter is filled.
#[derive(Clone, Copy)]
pub enum ParameterForm {
    /// Before `/`: by place alone.
    PlaceOnly,
    Plain,
    /// Behind `*` or `*name`: by name alone.
    KeyOnly,
    /// `*name`.
    Star,
    /// `**name`.
    DoubleStar,
}

fn is_slash(tree: &Tree, part: NodeId) -> bool
    ensures { result ≡ is_slash (kind_at tree.now.nodes part) }
{
    matches!(tree.kind(part), NodeKind::Slash)
}

fn is_star(tree: &Tree, part: NodeId) -> bool
    ensures { result ≡ is_star (kind_at tree.now.nodes part) }
{
    matches!(
        tree.kind(part),
        NodeKind::BareStar | NodeKind::StarParameter
    )
}

// How many `/` stand there.
fn count_slashes(tree: &Tree, parts: &[NodeId]) -> usize
    ensures { result ≡ length (filter (λ p. is_slash (kind_at tree.now.nodes p)) parts.now) }
{
    let mut slashes = 0;
    for part in parts {
        slashes += is_slash(tree, *part) as usize;
    }
    slashes
}

// How a parameter without a star is filled: by whether a `/` stands behind it, and a star before it.
fn filled_by(has_slash_behind: bool, has_star_before: bool) -> ParameterForm
    ensures { result ≡ filled_by has_slash_behind has_star_before }
{
    if has_slash_behind {
        ParameterForm::PlaceOnly
    } else if has_star_before {
        ParameterForm::KeyOnly
    } else {
        ParameterForm::Plain
    }
}

fn plain(
    form: ParameterForm,
    name: NodeId,
    annotation: Option<NodeId>,
    default: Option<NodeId>,
) -> Option<Parameter>
    ensures { result ≡ plain form name annotation default }
{
    Some(Parameter {
        name,
        form,
        annotation,
        default,
    })
}

/// The parameter that a part is, which is filled in this form if no star stands before it; `None` exactly
/// for a mark and for what is no parameter.
pub fn parameter_by(tree: &Tree, part: NodeId, form: ParameterForm) -> Option<Parameter>
    ensures { result ≡ parameter_by form part (kind_at tree.now.nodes part) (parts_at tree.now.nodes part) }
{
    match (tree.kind(part), tree.parts(part)) {
        (NodeKind::Name, _) => plain(form, part, None, None),
        (NodeKind::Parameter, [name, default]) => plain(form, *name, None, Some(*default)),
        (NodeKind::AnnotatedParameter, [name, annotation]) => {
            plain(form, *name, Some(*annotation), None)
        }
        (NodeKind::AnnotatedParameter, [name, annotation, default]) => {
            plain(form, *name, Some(*annotation), Some(*default))
        }
        (NodeKind::StarParameter, [name]) => plain(ParameterForm::Star, *name, None, None),
        (NodeKind::StarParameter, [name, annotation]) => {
            plain(ParameterForm::Star, *name, Some(*annotation), None)
        }
        (NodeKind::DoubleStarParameter, [name]) => {
            plain(ParameterForm::DoubleStar, *name, None, None)
        }
        (NodeKind::DoubleStarParameter, [name, annotation]) => {
            plain(ParameterForm::DoubleStar, *name, Some(*annotation), None)
        }
        _ => None,
    }
}

// The parts among which parameters stand.
fn places(tree: &Tree, node: NodeId) -> &[NodeId]
    ensures { result.now ≡ places (kind_at tree.now.nodes node) (parts_at tree.now.nodes node) }
{
    match tree.kind(node) {
        NodeKind::Parameters => tree.parts(node),
        NodeKind::Lambda => but_last(tree.parts(node)),
        _ => &[],
    }
}

fn add_parameter(list: &mut List<Parameter>, parameter: Option<Parameter>) -> Result<(), NoMemory>
    ensures { OnOk result (list.new ≡ list.old ++ option_to_list parameter) }
{
    match parameter {
        Some(parameter) => list.push(parameter),
        None => Ok(()),
    }
}

/// The parameters of the brackets of a def, or of a lambda, in the order of the text; none of another node. `NoMemory` where the list
/// could not be stored.
#[tactic(auto, using(crate::proofs::ParameterSteps::parameters_with_start))]
pub fn parameters(alloc: Global, tree: &Tree, node: NodeId) -> Result<List<Parameter>, NoMemory>
    ensures { IfOk result (λ list. list ≡ parameters tree.now.nodes node) }
{
    let mut list = List::new(alloc);
    let parts = places(tree, node);
    let mut slashes = count_slashes(tree, parts);
    let mut has_star = false;
    for part in parts {
        slashes = slashes.saturating_sub(is_slash(tree, *part) as usize);
        let form = filled_by(slashes > 0, has_star);
        add_parameter(&mut list, parameter_by(tree, *part, form))?;
        has_star = has_star || is_star(tree, *part);
    }
    Ok(list)
}
