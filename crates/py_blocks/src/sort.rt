//! Sorts of headers.
ghost use Rattle.std.specs.Prelude.{◌≡◌};
ghost use Rattle.py_blocks.specs.Enclosing.{is_def, is_scope, is_of, is_kind_of};

use py_base::NodeKind;

/// A sort of headers that a rule on names asks for.
#[derive(Clone, Copy, Debug, PartialEq, Eq)]
pub enum Sort {
    Def,
    /// A def or a class.
    Scope,
}

fn is_def(kind: NodeKind) -> bool
    ensures { result ≡ is_def kind }
{
    matches!(kind, NodeKind::Def)
}

fn is_scope(kind: NodeKind) -> bool
    ensures { result ≡ is_scope kind }
{
    matches!(kind, NodeKind::Def | NodeKind::Class)
}

fn is_of(sort: Sort, kind: NodeKind) -> bool
    ensures { result ≡ is_of sort kind }
{
    match sort {
        Sort::Def => is_def(kind),
        Sort::Scope => is_scope(kind),
    }
}

/// Whether there is a header, and it is of a sort.
pub fn is_kind_of(kind: Option<NodeKind>, sort: Sort) -> bool
    ensures { result ≡ is_kind_of kind sort }
{
    match kind {
        Some(kind) => is_of(sort, kind),
        None => false,
    }
}
