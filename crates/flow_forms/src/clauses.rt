//! Nodes as the forms are read from them, and the clauses of compound statements.
ghost use Rattle.std.specs.Prelude.{◌≡◌, ◌<◌, drop, [], ◌∷◌, ◌++◌, IfOk, OnOk};
ghost use Rattle.flow_forms.specs.Clauses.{is_silent, runs, running, first_or, second_or, last_or, header_of, is_filled, body_of, clause_of, is_header, clause_at, clauses_from, clauses_of};

use py_base::{List, NoMemory, NodeId, NodeKind, Tree};
use std::alloc::Global;

/// A clause of a compound statement: its header, the kind of that, the parts of that which run, and its
/// body.
#[derive(Debug, Drop)]
pub struct Clause {
    pub header: NodeId,
    pub kind: NodeKind,
    pub parts: List<NodeId>,
    pub body: NodeId,
}

// Whether a part of this kind doesn't run.
fn is_silent(kind: NodeKind) -> bool
    ensures { result ≡ is_silent kind }
{
    matches!(
        kind,
        NodeKind::LastComma
            | NodeKind::Link
            | NodeKind::Colon
            | NodeKind::Slash
            | NodeKind::BareStar
            | NodeKind::Result
            | NodeKind::Suite
    )
}

/// Adds the parts that run. After `NoMemory` some of them may stand.
pub fn add_running(tree: &Tree, parts: &[NodeId], list: &mut List<NodeId>) -> Result<(), NoMemory>
    ensures { OnOk result (list.new ≡ list.old ++ running tree.now.nodes parts.now) }
{
    for part in parts {
        if !is_silent(tree.kind(*part)) {
            list.push(*part)?;
        }
    }
    Ok(())
}

/// The parts that run.
pub fn running_parts(alloc: Global, tree: &Tree, parts: &[NodeId]) -> Result<List<NodeId>, NoMemory>
    ensures { IfOk result (λ list. list ≡ running tree.now.nodes parts.now) }
{
    let mut list = List::new(alloc);
    add_running(tree, parts, &mut list)?;
    Ok(list)
}

/// The first of parts, and without parts the node that is given.
pub fn first_else(here: NodeId, parts: &[NodeId]) -> NodeId
    ensures { result ≡ first_or here parts.now }
{
    match parts {
        [] => here,
        [part, ..] => *part,
    }
}

/// The second of parts, and without it the node that is given.
pub fn second_else(here: NodeId, parts: &[NodeId]) -> NodeId
    ensures { result ≡ second_or here parts.now }
{
    match parts {
        [] => here,
        [_] => here,
        [_, part, ..] => *part,
    }
}

/// The parts behind the first.
pub fn behind_first(parts: &[NodeId]) -> &[NodeId]
    ensures { result.now ≡ drop 1 parts.now }
{
    match parts {
        [] => parts,
        [_, more @ ..] => more,
    }
}

/// The last of parts, and without parts the node that is given.
pub fn last_else(here: NodeId, parts: &[NodeId]) -> NodeId
    ensures { result ≡ last_or here parts.now }
{
    let mut last = here;
    for part in parts {
        last = *part;
    }
    last
}

// The header itself, behind `async`.
fn bare_header(tree: &Tree, part: NodeId, kind: NodeKind) -> NodeId
    ensures { result ≡ header_of tree.now.nodes part kind }
{
    match kind {
        NodeKind::Async => first_else(part, tree.parts(part)),
        _ => part,
    }
}

fn has_statements(kind: NodeKind, parts: &[NodeId]) -> bool
    ensures { result ≡ is_filled kind parts.now }
{
    match (kind, parts) {
        (NodeKind::Suite, [_, ..]) => true,
        _ => false,
    }
}

// The body of a header with this last part.
fn body_behind(tree: &Tree, last: NodeId, behind: Option<NodeId>) -> NodeId
    ensures { result ≡ body_of tree.now.nodes last behind }
{
    match behind {
        None => last,
        Some(behind) => {
            if has_statements(tree.kind(last), tree.parts(last)) {
                last
            } else {
                behind
            }
        }
    }
}

// The clause of a header.
fn read_clause(
    alloc: Global,
    tree: &Tree,
    header: NodeId,
    behind: Option<NodeId>,
) -> Result<Clause, NoMemory>
    ensures { IfOk result (λ clause. clause ≡ clause_of tree.now.nodes header behind) }
{
    let parts = tree.parts(header);
    Ok(Clause {
        header,
        kind: tree.kind(header),
        parts: running_parts(alloc, tree, parts)?,
        body: body_behind(tree, last_else(header, parts), behind),
    })
}

fn begins_clause(kind: NodeKind) -> bool
    ensures { result ≡ is_header kind }
{
    !matches!(
        kind,
        NodeKind::Decorator | NodeKind::Block | NodeKind::Fault
    )
}

// Adds the clause of a part, if it is a header.
fn add_clause(
    alloc: Global,
    tree: &Tree,
    part: NodeId,
    behind: Option<NodeId>,
    clauses: &mut List<Clause>,
) -> Result<(), NoMemory>
    ensures { OnOk result (clauses.new ≡ clauses.old ++ clause_at tree.now.nodes part behind) }
{
    let kind = tree.kind(part);
    if !begins_clause(kind) {
        return Ok(());
    }
    let header = bare_header(tree, part, kind);
    clauses.push(read_clause(alloc, tree, header, behind)?)
}

// Adds the clauses from a part on.
fn add_clauses(
    alloc: Global,
    tree: &Tree,
    part: NodeId,
    more: &[NodeId],
    clauses: &mut List<Clause>,
) -> Result<(), NoMemory>
    ensures { OnOk result (clauses.new ≡ clauses.old ++ clauses_from tree.now.nodes part more.now) }
{
    let mut before = part;
    for next in more {
        add_clause(alloc, tree, before, Some(*next), clauses)?;
        before = *next;
    }
    add_clause(alloc, tree, before, None, clauses)
}

/// The clauses of a compound statement with these parts, in order. `NoMemory` where they could not be
/// stored.
pub fn read_clauses(alloc: Global, tree: &Tree, parts: &[NodeId]) -> Result<List<Clause>, NoMemory>
    ensures { IfOk result (λ clauses. clauses ≡ clauses_of tree.now.nodes parts.now) }
{
    let mut clauses = List::new(alloc);
    match parts {
        [] => Ok(clauses),
        [part, more @ ..] => {
            add_clauses(alloc, tree, *part, more, &mut clauses)?;
            Ok(clauses)
        }
    }
}
