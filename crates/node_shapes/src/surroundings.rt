//! In which statement, def, class and function a node stands.
ghost use Rattle.std.specs.Prelude.{◌≡◌};
ghost use Rattle.node_shapes.specs.Kinds.{is_def, is_class, is_lambda, is_function, is_match, is_async, is_block, is_suite, holds_statements, is_single};
ghost use Rattle.node_shapes.specs.Outward.{outward, first_around};
ghost use Rattle.node_shapes.specs.Around.{is_sought, leaves_suite, leaves_body, body_around, def_around, class_around, function_around, statement_around};

use crate::outward::Step;
use crate::steps::Outward;
use py_base::{NodeId, NodeKind};

/// What is looked for on the way outward.
#[derive(Clone, Copy)]
pub enum Sought {
    Def,
    Class,
    /// A def or a lambda.
    Function,
    Match,
}

pub(crate) fn is_sought(sought: Sought, kind: NodeKind) -> bool
    ensures { result ≡ is_sought sought kind }
{
    match sought {
        Sought::Def => matches!(kind, NodeKind::DefStatement),
        Sought::Class => matches!(kind, NodeKind::ClassStatement),
        Sought::Function => matches!(kind, NodeKind::DefStatement | NodeKind::Lambda),
        Sought::Match => matches!(kind, NodeKind::MatchStatement),
    }
}

fn is_suite(kind: NodeKind) -> bool
    ensures { result ≡ is_suite kind }
{
    matches!(kind, NodeKind::Suite)
}

fn is_block(kind: NodeKind) -> bool
    ensures { result ≡ is_block kind }
{
    matches!(kind, NodeKind::Block)
}

fn is_async(kind: NodeKind) -> bool
    ensures { result ≡ is_async kind }
{
    matches!(kind, NodeKind::Async)
}

fn is_lambda(kind: NodeKind) -> bool
    ensures { result ≡ is_lambda kind }
{
    matches!(kind, NodeKind::Lambda)
}

fn is_any_statements(kind: NodeKind) -> bool
    ensures { result ≡ holds_statements kind }
{
    matches!(
        kind,
        NodeKind::Module | NodeKind::Block | NodeKind::Suite | NodeKind::Statements
    )
}

fn is_single(kind: NodeKind) -> bool
    ensures { result ≡ is_single kind }
{
    !matches!(kind, NodeKind::Statements | NodeKind::CaseStatement)
}

// Whether the steps so far, and this one, lead out of the statements in a header's line.
fn is_leaving_suite(inside: bool, step: Step) -> bool
    ensures { result ≡ leaves_suite inside step }
{
    is_suite(step.inner) || (inside && is_async(step.kind))
}

// Whether they lead out of a body.
fn is_leaving_body(inside: bool, step: Step) -> bool
    ensures { result ≡ leaves_body inside step }
{
    inside
        || is_block(step.inner)
        || (is_lambda(step.kind) && step.part == step.parts.saturating_sub(1))
}

impl<'a> Outward<'a> {
    /// The nearest node around of a kind, whichever of its parts leads in; `None` exactly where there is none.
    pub fn first_around(&self, node: NodeId, sought: Sought) -> Option<NodeId>
        ensures { result ≡ first_around (is_sought sought) (outward self.now.nodes node) }
    {
        let mut at = node;
        while let Some(step) = self.step(at) {
            if is_sought(sought, step.kind) {
                return Some(step.around);
            }
            at = step.around;
        }
        None
    }

    // The nearest node of a kind in whose body a node stands.
    fn body_around(&self, node: NodeId, sought: Sought) -> Option<NodeId>
        ensures { result ≡ body_around (is_sought sought) self.now.nodes node }
    {
        let mut at = node;
        let mut inside = false;
        while let Some(step) = self.step(at) {
            if is_sought(sought, step.kind) && is_leaving_body(inside, step) {
                return Some(step.around);
            }
            inside = is_leaving_suite(inside, step);
            at = step.around;
        }
        None
    }

    /// The def statement in whose body a node stands: not in its decorators, parameters, annotations and type
    /// parameters. `None` exactly where there is none.
    pub fn def_around(&self, node: NodeId) -> Option<NodeId>
        ensures { result ≡ def_around self.now.nodes node }
    {
        self.body_around(node, Sought::Def)
    }

    /// The class statement in whose body a node stands; `None` exactly where there is none.
    pub fn class_around(&self, node: NodeId) -> Option<NodeId>
        ensures { result ≡ class_around self.now.nodes node }
    {
        self.body_around(node, Sought::Class)
    }

    /// The def statement or the lambda in whose body a node stands, by whose graph it runs; `None` exactly where the
    /// module runs it.
    pub fn function_around(&self, node: NodeId) -> Option<NodeId>
        ensures { result ≡ function_around self.now.nodes node }
    {
        self.body_around(node, Sought::Function)
    }

    /// The innermost statement that the node is or is a part of, with its decorators and headers; `None` exactly where
    /// there is none.
    pub fn statement_around(&self, node: NodeId) -> Option<NodeId>
        ensures { result ≡ statement_around self.now.nodes node }
    {
        let mut at = node;
        while let Some(step) = self.step(at) {
            if is_any_statements(step.kind) && is_single(step.inner) {
                return Some(at);
            }
            at = step.around;
        }
        None
    }
}
