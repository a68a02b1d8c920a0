//! Defs, lambdas and class statements.
ghost use Rattle.std.specs.Prelude.{◌≡◌, IfOk};
ghost use Rattle.node_shapes.specs.Definitions.{only_clause, function_by, lambda_of, function, class_by, class_definition, parameters_of, decorator_in};
ghost use Rattle.node_shapes.specs.Clauses.{header};

use crate::clauses::{Clause, Header, clause_at, header_at};
use crate::parameters::{Parameter, parameters};
use crate::parts::last_or;
use py_base::{List, NoMemory, NodeId, NodeKind, Tree};
use std::alloc::Global;

/// A def statement or a lambda (Python 3.12 language reference, 8.7 and 6.14).
#[derive(Clone, Copy)]
pub struct Function {
    /// The `Name` of a def.
    pub name: Option<NodeId>,
    /// The list of type parameters.
    pub types: Option<NodeId>,
    /// The node among whose parts the parameters stand: the brackets of a def, or the lambda itself.
    pub parameters: Option<NodeId>,
    /// The annotation behind `->`.
    pub result: Option<NodeId>,
    pub asynchronous: bool,
    /// The `Suite` or `Block` of a def, or the expression of a lambda.
    pub body: NodeId,
}

/// A class statement (8.8).
#[derive(Clone, Copy)]
pub struct ClassDefinition {
    pub name: NodeId,
    pub types: Option<NodeId>,
    /// The brackets with the bases and keywords.
    pub arguments: Option<NodeId>,
    /// The `Suite` or `Block`.
    pub body: NodeId,
}

// The only clause of a statement; `None` also where it has several.
fn only_clause(tree: &Tree, statement: NodeId) -> Option<Clause>
    ensures { result ≡ only_clause tree.now.nodes statement }
{
    let mut only = None;
    for part in 0..tree.parts(statement).len() {
        if let Some(clause) = clause_at(tree, statement, part) {
            if only.is_some() {
                return None;
            }
            only = Some(clause);
        }
    }
    only
}

fn lambda_of(node: NodeId, parts: &[NodeId]) -> Option<Function>
    ensures { result ≡ lambda_of node parts.now }
{
    match parts {
        [] => None,
        [first, more @ ..] => Some(Function {
            name: None,
            types: None,
            parameters: Some(node),
            result: None,
            asynchronous: false,
            body: last_or(*first, more),
        }),
    }
}

fn def_of(tree: &Tree, clause: Clause) -> Option<Function>
    ensures { result ≡ function_by clause (header tree.now.nodes clause.header) }
{
    match header_at(tree, clause.header) {
        Header::Def(def) => Some(Function {
            name: Some(def.name),
            types: def.types,
            parameters: def.parameters,
            result: def.result,
            asynchronous: clause.asynchronous,
            body: clause.body,
        }),
        _ => None,
    }
}

/// What a def statement or a lambda is made of; `None` exactly for another node, and for a statement without just one header.
pub fn function_at(tree: &Tree, node: NodeId) -> Option<Function>
    ensures { result ≡ function tree.now.nodes node }
{
    match tree.kind(node) {
        NodeKind::DefStatement => def_of(tree, only_clause(tree, node)?),
        NodeKind::Lambda => lambda_of(node, tree.parts(node)),
        _ => None,
    }
}

fn class_of(tree: &Tree, clause: Clause) -> Option<ClassDefinition>
    ensures { result ≡ class_by clause (header tree.now.nodes clause.header) }
{
    match header_at(tree, clause.header) {
        Header::Class(class) => Some(ClassDefinition {
            name: class.name,
            types: class.types,
            arguments: class.arguments,
            body: clause.body,
        }),
        _ => None,
    }
}

/// What a class statement is made of; `None` exactly for another node. Bases and keywords are the entries of its arguments.
pub fn class_at(tree: &Tree, statement: NodeId) -> Option<ClassDefinition>
    ensures { result ≡ class_definition tree.now.nodes statement }
{
    class_of(tree, only_clause(tree, statement)?)
}

/// The parameters of a def statement or a lambda, in the order of the text; none of another node. `NoMemory` where the list could not be
/// stored.
pub fn parameters_of(
    alloc: Global,
    tree: &Tree,
    function: NodeId,
) -> Result<List<Parameter>, NoMemory>
    ensures { IfOk result (λ list. list ≡ parameters_of tree.now.nodes function) }
{
    match function_at(tree, function) {
        Some(
            Function {
                parameters: Some(places),
                ..
            },
        ) => parameters(alloc, tree, places),
        _ => Ok(List::new(alloc)),
    }
}

/// The expression of a decorator among the parts of a def or a class; none of another part. All decorators of a statement are those of its
/// parts in turn.
pub fn decorators_in(tree: &Tree, part: NodeId) -> &[NodeId]
    ensures { result.now ≡ decorator_in tree.now.nodes part }
{
    match tree.kind(part) {
        NodeKind::Decorator => tree.parts(part),
        _ => &[],
    }
}
