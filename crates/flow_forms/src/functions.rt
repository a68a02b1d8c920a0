//! The forms of lambdas, defs, classes and `type` statements.
ghost use Rattle.std.specs.Prelude.{◌≡◌, [], ◌∷◌, ◌++◌, IfOk, OnOk, drop, take};
ghost use Rattle.flow_forms.specs.Patterns.{gather};
ghost use Rattle.flow_forms.specs.Forms.{default_in, default_of, name_in, name_of, lambda_run, lambda_form, pieces_in, pieces, parameters_in, parameters, def_form, class_form, alias_form};

use crate::clauses::{Clause, add_running, first_else};
use flow_rows::{Form, Function};
use py_base::{List, NoMemory, NodeId, NodeKind, Tree};
use std::alloc::Global;

// Adds the nodes of a slice.
fn add_all(parts: &[NodeId], list: &mut List<NodeId>) -> Result<(), NoMemory>
    ensures { OnOk result (list.new ≡ list.old ++ parts.now) }
{
    for part in parts {
        list.push(*part)?;
    }
    Ok(())
}

// The default of a parameter, if it has one.
fn default_part(kind: NodeKind, parts: &[NodeId]) -> &[NodeId]
    ensures { result.now ≡ default_in kind parts.now }
{
    match (kind, parts) {
        (NodeKind::Parameter, [_, default @ ..]) => default,
        (NodeKind::AnnotatedParameter, [_, _, default @ ..]) => default,
        _ => &[],
    }
}

// Adds the defaults of parameters.
fn add_defaults(tree: &Tree, parts: &[NodeId], list: &mut List<NodeId>) -> Result<(), NoMemory>
    ensures { OnOk result (list.new ≡ list.old ++ gather (default_of tree.now.nodes) parts.now) }
{
    for part in parts {
        add_all(default_part(tree.kind(*part), tree.parts(*part)), list)?;
    }
    Ok(())
}

// Adds the name of a parameter or of a type parameter.
fn add_name(
    node: NodeId,
    kind: NodeKind,
    parts: &[NodeId],
    list: &mut List<NodeId>,
) -> Result<(), NoMemory>
    ensures { OnOk result (list.new ≡ list.old ++ name_in node kind parts.now) }
{
    match kind {
        NodeKind::Name => list.push(node),
        NodeKind::Parameter
        | NodeKind::AnnotatedParameter
        | NodeKind::StarParameter
        | NodeKind::DoubleStarParameter
        | NodeKind::TypeParameter
        | NodeKind::StarTypeParameter
        | NodeKind::DoubleStarTypeParameter => match parts {
            [] => Ok(()),
            [name, ..] => list.push(*name),
        },
        _ => Ok(()),
    }
}

// Adds the names of parameters or of type parameters.
fn add_names(tree: &Tree, parts: &[NodeId], list: &mut List<NodeId>) -> Result<(), NoMemory>
    ensures { OnOk result (list.new ≡ list.old ++ gather (name_of tree.now.nodes) parts.now) }
{
    for part in parts {
        add_name(*part, tree.kind(*part), tree.parts(*part), list)?;
    }
    Ok(())
}

// Adds what runs in the graph of a lambda: the names of its parameters, and its body.
fn add_lambda_run(
    tree: &Tree,
    part: NodeId,
    more: &[NodeId],
    list: &mut List<NodeId>,
) -> Result<(), NoMemory>
    ensures { OnOk result (list.new ≡ list.old ++ lambda_run tree.now.nodes part more.now) }
{
    let mut before = part;
    for next in more {
        add_name(before, tree.kind(before), tree.parts(before), list)?;
        before = *next;
    }
    list.push(before)
}

/// A lambda.
pub fn form_of_lambda(alloc: Global, tree: &Tree, parts: &[NodeId]) -> Result<Form, NoMemory>
    ensures { IfOk result (λ f. f ≡ lambda_form tree.now.nodes parts.now) }
{
    match parts {
        [] => Ok(Form::Silent),
        [part, more @ ..] => {
            let mut before = List::new(alloc);
            add_defaults(tree, parts, &mut before)?;
            let mut run = List::new(alloc);
            add_lambda_run(tree, *part, more, &mut run)?;
            Ok(Form::Function(Function { before, run }))
        }
    }
}

// Adds what runs of a part of a def, a class or a `type` statement.
fn add_piece(
    tree: &Tree,
    kind: NodeKind,
    parts: &[NodeId],
    list: &mut List<NodeId>,
) -> Result<(), NoMemory>
    ensures { OnOk result (list.new ≡ list.old ++ pieces_in tree.now.nodes kind parts.now) }
{
    match kind {
        NodeKind::Decorator | NodeKind::Arguments => add_running(tree, parts, list),
        NodeKind::TypeParameters => add_names(tree, parts, list),
        NodeKind::Parameters => add_defaults(tree, parts, list),
        _ => Ok(()),
    }
}

// Adds what runs of the parts.
fn add_pieces(tree: &Tree, parts: &[NodeId], list: &mut List<NodeId>) -> Result<(), NoMemory>
    ensures { OnOk result (list.new ≡ list.old ++ gather (pieces tree.now.nodes) parts.now) }
{
    for part in parts {
        add_piece(tree, tree.kind(*part), tree.parts(*part), list)?;
    }
    Ok(())
}

// Adds the names of the parameters in a part of a header.
fn add_parameters_in(
    tree: &Tree,
    kind: NodeKind,
    parts: &[NodeId],
    list: &mut List<NodeId>,
) -> Result<(), NoMemory>
    ensures { OnOk result (list.new ≡ list.old ++ parameters_in tree.now.nodes kind parts.now) }
{
    match kind {
        NodeKind::Parameters => add_names(tree, parts, list),
        _ => Ok(()),
    }
}

// Adds the names of the parameters of a header.
fn add_parameters(tree: &Tree, parts: &[NodeId], list: &mut List<NodeId>) -> Result<(), NoMemory>
    ensures { OnOk result (list.new ≡ list.old ++ gather (parameters tree.now.nodes) parts.now) }
{
    for part in parts {
        add_parameters_in(tree, tree.kind(*part), tree.parts(*part), list)?;
    }
    Ok(())
}

/// A def, with its parts and its clause.
pub fn form_of_def(
    alloc: Global,
    tree: &Tree,
    parts: &[NodeId],
    clauses: &[Clause],
) -> Result<Form, NoMemory>
    ensures { IfOk result (λ f. f ≡ def_form tree.now.nodes parts.now clauses.now) }
{
    match clauses {
        [] => Ok(Form::Silent),
        [clause, ..] => {
            let header = clause.parts.as_slice();
            let mut before = List::new(alloc);
            add_pieces(tree, parts, &mut before)?;
            add_pieces(tree, header, &mut before)?;
            before.push(first_else(clause.header, header))?;
            let mut run = List::new(alloc);
            add_parameters(tree, header, &mut run)?;
            run.push(clause.body)?;
            Ok(Form::Function(Function { before, run }))
        }
    }
}

/// A class statement, with its parts and its clause.
pub fn form_of_class(
    alloc: Global,
    tree: &Tree,
    parts: &[NodeId],
    clauses: &[Clause],
) -> Result<Form, NoMemory>
    ensures { IfOk result (λ f. f ≡ class_form tree.now.nodes parts.now clauses.now) }
{
    match clauses {
        [] => Ok(Form::Silent),
        [clause, ..] => {
            let header = clause.parts.as_slice();
            let mut steps = List::new(alloc);
            add_pieces(tree, parts, &mut steps)?;
            add_pieces(tree, header, &mut steps)?;
            steps.push(clause.body)?;
            steps.push(first_else(clause.header, header))?;
            Ok(Form::Steps(steps))
        }
    }
}

/// A `type` statement.
pub fn form_of_alias(alloc: Global, tree: &Tree, parts: &[NodeId]) -> Result<Form, NoMemory>
    ensures { IfOk result (λ f. f ≡ alias_form tree.now.nodes parts.now) }
{
    match parts {
        [] => Ok(Form::Silent),
        [_] => Ok(Form::Silent),
        [_, name, more @ ..] => {
            let mut steps = List::new(alloc);
            add_pieces(tree, more, &mut steps)?;
            steps.push(*name)?;
            Ok(Form::Steps(steps))
        }
    }
}
