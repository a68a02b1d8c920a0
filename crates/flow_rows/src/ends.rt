//! The first and the last point of each node.
ghost use Rattle.std.specs.Prelude.{◌≡◌, ℕ, ◌<◌, ◌^◌, [], ◌∷◌, ◌++◌, IfOk, OnOk, length};
ghost use Rattle.flow_rows.specs.Ends.{first_of, last_of, ends_of, first_in, last_in, branch_lead, clauses_lead, first_lead, last_lead, ends_entry, ends_table};

use crate::{ComprehensionClause, Form, Point, Role};
use py_base::{List, NoMemory, NodeId};
use std::alloc::Global;

/// A point of some node in any copy.
#[derive(Clone, Copy, Debug)]
pub struct Lead {
    pub node: NodeId,
    pub role: Role,
}

/// The first and the last point of a node.
#[derive(Clone, Copy, Debug)]
pub struct Ends {
    pub first: Lead,
    pub last: Lead,
}

// The ends of a node by the table.
fn ends_at(ends: &[Ends], node: NodeId) -> Ends
    ensures { result ≡ ends_of ends.now node }
{
    match ends.get(node.0 as usize) {
        Some(found) => *found,
        None => {
            let own = Lead {
                node,
                role: Role::Own,
            };
            Ends {
                first: own,
                last: own,
            }
        }
    }
}

/// The first point of a node in a copy.
pub fn first(ends: &[Ends], node: NodeId, copy: u32) -> Point
    ensures { result ≡ first_of ends.now node copy }
{
    let lead = ends_at(ends, node).first;
    Point {
        node: lead.node,
        role: lead.role,
        copy,
    }
}

/// The last point of a node in a copy.
pub fn last(ends: &[Ends], node: NodeId, copy: u32) -> Point
    ensures { result ≡ last_of ends.now node copy }
{
    let lead = ends_at(ends, node).last;
    Point {
        node: lead.node,
        role: lead.role,
        copy,
    }
}

// Where parts in order begin.
fn first_of_parts(ends: &[Ends], here: Lead, parts: &[NodeId]) -> Lead
    ensures { result ≡ first_in ends.now here parts.now }
{
    match parts {
        [] => here,
        [part, ..] => ends_at(ends, *part).first,
    }
}

// Where parts in order end.
fn last_of_parts(ends: &[Ends], here: Lead, parts: &[NodeId]) -> Lead
    ensures { result ≡ last_in ends.now here parts.now }
{
    let mut end = here;
    for part in parts {
        end = ends_at(ends, *part).last;
    }
    end
}

fn first_of_branch(ends: &[Ends], test: Option<NodeId>, body: NodeId) -> Lead
    ensures { result ≡ branch_lead ends.now test body }
{
    match test {
        None => ends_at(ends, body).first,
        Some(test) => ends_at(ends, test).first,
    }
}

fn first_of_clauses(ends: &[Ends], here: Lead, clauses: &[ComprehensionClause]) -> Lead
    ensures { result ≡ clauses_lead ends.now here clauses.now }
{
    match clauses {
        [] => here,
        [ComprehensionClause::For(_, _, iterable), ..] => ends_at(ends, *iterable).first,
        [ComprehensionClause::If(_, test), ..] => ends_at(ends, *test).first,
    }
}

// What comes first in a form.
fn first_of_form(ends: &[Ends], node: NodeId, form: &Form) -> Lead
    ensures { result ≡ first_lead ends.now node form.now }
{
    let own = Lead {
        node,
        role: Role::Own,
    };
    match form {
        Form::Silent => own,
        Form::Steps(parts) => first_of_parts(ends, own, parts.as_slice()),
        Form::Sequence(parts) => first_of_parts(ends, own, parts.as_slice()),
        Form::Call(callee, _) => ends_at(ends, *callee).first,
        Form::And(first, _) => ends_at(ends, *first).first,
        Form::Or(first, _) => ends_at(ends, *first).first,
        Form::Not(part) => ends_at(ends, *part).first,
        Form::Group(part) => ends_at(ends, *part).first,
        Form::Conditional(choice) => ends_at(ends, choice.test).first,
        Form::Comprehension(_, clauses) => first_of_clauses(ends, own, clauses.as_slice()),
        Form::Function(function) => first_of_parts(ends, own, function.before.as_slice()),
        Form::Jump(_, parts) => first_of_parts(ends, own, parts.as_slice()),
        Form::Assert(test, _) => ends_at(ends, *test).first,
        Form::Branches(branch, _) => first_of_branch(ends, branch.test, branch.body),
        Form::While(_) => Lead {
            node,
            role: Role::Again,
        },
        Form::For(form) => ends_at(ends, form.iterable).first,
        Form::Try(_) => own,
        Form::Match(form) => ends_at(ends, form.subject).first,
        Form::Case(form) => first_of_parts(ends, own, form.values.as_slice()),
        Form::Module(_) => Lead {
            node,
            role: Role::Start,
        },
    }
}

// What comes last in a form.
fn last_of_form(ends: &[Ends], node: NodeId, form: &Form) -> Lead
    ensures { result ≡ last_lead ends.now node form.now }
{
    let own = Lead {
        node,
        role: Role::Own,
    };
    let behind = Lead {
        node,
        role: Role::Behind,
    };
    match form {
        Form::Silent => own,
        Form::Steps(_) => own,
        Form::Sequence(parts) => last_of_parts(ends, own, parts.as_slice()),
        Form::Call(_, _) => own,
        Form::And(_, _) => own,
        Form::Or(_, _) => own,
        Form::Not(_) => own,
        Form::Group(_) => own,
        Form::Conditional(_) => own,
        Form::Comprehension(_, _) => own,
        Form::Function(_) => own,
        Form::Jump(_, _) => behind,
        Form::Assert(_, _) => own,
        Form::Branches(_, _) => behind,
        Form::While(_) => behind,
        Form::For(_) => behind,
        Form::Try(_) => behind,
        Form::Match(_) => behind,
        Form::Case(form) => ends_at(ends, form.body).last,
        Form::Module(statements) => last_of_parts(
            ends,
            Lead {
                node,
                role: Role::Start,
            },
            statements.as_slice(),
        ),
    }
}

/// The first and the last point of each node by the forms of the nodes, in the order of the tree's nodes.
/// `NoMemory` where they could not be stored.
pub fn ends_of_forms(alloc: Global, forms: &[Form]) -> Result<List<Ends>, NoMemory>
    requires { length forms.now < 2 ^ 32 }
    ensures { IfOk result (λ ends. ends ≡ ends_table forms.now) }
{
    let mut ends: List<Ends> = List::new(alloc);
    for form in forms {
        let node = NodeId(ends.len() as u32);
        let entry = Ends {
            first: first_of_form(ends.as_slice(), node, form),
            last: last_of_form(ends.as_slice(), node, form),
        };
        ends.push(entry)?;
    }
    Ok(ends)
}
