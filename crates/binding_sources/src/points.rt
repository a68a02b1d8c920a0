//! What is bound where a node runs.
ghost use Rattle.std.specs.Prelude.{◌≡◌};
ghost use Rattle.node_shapes.specs.Clauses.{clause, header};
ghost use Rattle.binding_sources.specs.Points.{unless_augmented, augmented, subject_of, own_source, end_source};

use crate::names::Names;
use crate::sources::Source;
use crate::verdicts::binding_source;
use node_shapes::{Clause, Header, clause_at, header_at};
use py_base::{NodeId, NodeKind, Tree};

// The target of an augmented assignment is bound at the point of the statement.
fn unless_augmented(given: Option<Source>) -> Option<Source>
    ensures { result ≡ unless_augmented given }
{
    match given {
        Some(Source::Augmented(_)) => None,
        _ => given,
    }
}

fn subject_of(tree: &Tree, clause: Option<Clause>) -> Option<Source>
    ensures { result ≡ subject_of tree.now clause }
{
    match header_at(tree, clause?.header) {
        Header::Match(subject) => Some(Source::Value(subject)),
        _ => None,
    }
}

fn augmented(names: &Names, parts: &[NodeId]) -> Option<Source>
    ensures { result ≡ augmented names.now.arena names.now.table parts.now }
{
    match parts {
        [target, ..] => binding_source(names, *target),
        [] => None,
    }
}

/// To what the point of a node binds its reference: a name or an attribute itself, an augmented assignment its target, a `match` statement its hidden
/// reference to its subject. `None` exactly where it binds none.
pub fn own_source(names: &Names, node: NodeId) -> Option<Source>
    ensures { result ≡ own_source names.now.arena names.now.table node }
{
    match names.tree().kind(node) {
        NodeKind::Name | NodeKind::Attribute => unless_augmented(binding_source(names, node)),
        NodeKind::AugmentedAssign => augmented(names, names.tree().parts(node)),
        NodeKind::MatchStatement => subject_of(names.tree(), clause_at(names.tree(), node, 0)),
        _ => None,
    }
}

/// What the label behind a node binds: the name of an `except` clause is removed there, by the node of the header; `None` exactly for another node, and
/// for an `except` without a name.
pub fn end_source(tree: &Tree, node: NodeId) -> Option<Source>
    ensures { result ≡ end_source tree.now node }
{
    match header_at(tree, node) {
        Header::Except(except) => match except.name {
            Some(_) => Some(Source::Removed),
            None => None,
        },
        _ => None,
    }
}
