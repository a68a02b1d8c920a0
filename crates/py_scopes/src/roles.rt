//! What a name is there for, asked one by one.
ghost use Rattle.std.specs.Prelude.{◌≡◌};
ghost use Rattle.py_scopes.specs.Kinds.{gives_value, is_augmented};
ghost use Rattle.py_scopes.specs.Occurrences.{seen_as};
ghost use Rattle.py_scopes.specs.Owner.{is_binding};
ghost use Rattle.py_scopes.specs.Members.{is_first};
ghost use Rattle.py_scopes.specs.Table.{earlier, bound_node};

use crate::occurrence::{Annotation, Role};
use py_base::NodeId;

/// What a name does where it stands.
#[derive(Clone, Copy)]
pub enum NameRole {
    Read,
    /// It gets a value, that of a def, a class or an import included.
    Bound,
    /// It is read and gets a value by an augmented assignment.
    Augmented,
    /// It is bound by an annotation that stands without a value.
    Annotated,
    /// It is bound by a list of type parameters or as the name of a `type` statement.
    TypeName,
    /// It is a target of `del`.
    Deleted,
    /// It is declared `global`.
    Global,
    /// It is declared `nonlocal`.
    Nonlocal,
}

/// Whether it gets a value.
pub(crate) fn does_give_value(effect: NameRole) -> bool
    ensures { result ≡ gives_value effect }
{
    matches!(
        effect,
        NameRole::Bound | NameRole::Augmented | NameRole::TypeName
    )
}

pub(crate) fn is_augmented(effect: NameRole) -> bool
    ensures { result ≡ is_augmented effect }
{
    matches!(effect, NameRole::Augmented)
}

/// The role of a name that is there for this, where what binds it does it so.
pub(crate) fn seen_as(role: Role, effect: NameRole) -> NameRole
    ensures { result ≡ seen_as role effect }
{
    match role {
        Role::Binding | Role::FirstParameter(_) => effect,
        Role::Global => NameRole::Global,
        Role::Nonlocal => NameRole::Nonlocal,
        _ => NameRole::Read,
    }
}

/// Whether the name is bound.
pub(crate) fn is_binding(role: Role) -> bool
    ensures { result ≡ is_binding role }
{
    matches!(role, Role::Binding | Role::FirstParameter(_))
}

pub(crate) fn is_first(role: Role) -> bool
    ensures { result ≡ is_first role }
{
    matches!(role, Role::FirstParameter(_))
}

/// The node that gets a value: the name, or the target `p.m` whose `p` it is.
pub(crate) fn bound_node(node: NodeId, role: Role) -> NodeId
    ensures { result ≡ bound_node node role }
{
    match role {
        Role::Object(target, _) => target,
        _ => node,
    }
}

/// The one of two annotations that stands first in the text.
pub(crate) fn earlier(one: Annotation, other: Annotation) -> Annotation
    ensures { result ≡ earlier one other }
{
    if other.from < one.from { other } else { one }
}
