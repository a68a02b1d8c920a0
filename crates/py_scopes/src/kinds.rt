//! What the forms do with the names in their parts.
ghost use Rattle.std.specs.Prelude.{◌≡◌};
ghost use Rattle.py_scopes.specs.Kinds.{binds_part, hands_on, spells_part, is_dotted, is_for, takes_types, takes_list, is_async, is_type_list, makes_member, annotated_as, bound_as, is_annotated, is_long_parameter, star_of};

use crate::occurrence::Star;
use crate::roles::NameRole;
use py_base::NodeKind;

/// Whether a node of this kind binds its part of this number, counted from 0, where it has so many parts: a
/// target, a parameter, a name that is imported or declared, or what holds such.
///
/// Python 3.12 language reference, 4.2.1, "Binding of names".
pub fn does_bind(kind: NodeKind, part: usize, parts: usize) -> bool
    ensures { result ≡ binds_part kind part parts }
{
    match kind {
        NodeKind::AnnotatedAssign
        | NodeKind::AugmentedAssign
        | NodeKind::Named
        | NodeKind::For
        | NodeKind::ComprehensionFor
        | NodeKind::AsyncComprehensionFor
        | NodeKind::Def
        | NodeKind::Class
        | NodeKind::Case
        | NodeKind::Parameter
        | NodeKind::AnnotatedParameter
        | NodeKind::StarParameter
        | NodeKind::DoubleStarParameter
        | NodeKind::TypeParameter => part == 0,
        NodeKind::Assign | NodeKind::Lambda => part < parts.saturating_sub(1),
        NodeKind::WithItem | NodeKind::TypeAlias | NodeKind::Alias => part == 1,
        NodeKind::ImportFrom => part != 0,
        NodeKind::Except | NodeKind::ExceptStar => part == 1 && parts == 3,
        NodeKind::Del
        | NodeKind::Import
        | NodeKind::Parameters
        | NodeKind::TypeParameters
        | NodeKind::StarTypeParameter
        | NodeKind::DoubleStarTypeParameter => true,
        _ => false,
    }
}

/// Whether a node of this kind hands on to its part of this number that it is bound itself.
pub(crate) fn does_hand_on(kind: NodeKind, part: usize) -> bool
    ensures { result ≡ hands_on kind part }
{
    match kind {
        NodeKind::Entries
        | NodeKind::Targets
        | NodeKind::Round
        | NodeKind::Square
        | NodeKind::Starred
        | NodeKind::Patterns
        | NodeKind::OrPattern
        | NodeKind::AsPattern
        | NodeKind::StarPattern
        | NodeKind::MappingPattern
        | NodeKind::PatternItem
        | NodeKind::DoubleStarPattern => true,
        NodeKind::ClassPattern => part != 0,
        NodeKind::KeywordPattern => part == 1,
        NodeKind::DottedName => part == 0,
        _ => false,
    }
}

/// Whether the part of this number of a node of this kind only spells a name.
pub(crate) fn does_spell(kind: NodeKind, part: usize) -> bool
    ensures { result ≡ spells_part kind part }
{
    match kind {
        NodeKind::Keyword
        | NodeKind::KeywordPattern
        | NodeKind::ImportFrom
        | NodeKind::Alias
        | NodeKind::TypeAlias => part == 0,
        NodeKind::ImportAll => true,
        NodeKind::DottedName => part != 0,
        _ => false,
    }
}

/// Whether the parts of a node of this kind only spell where it does itself.
pub(crate) fn is_dotted(kind: NodeKind) -> bool
    ensures { result ≡ is_dotted kind }
{
    matches!(kind, NodeKind::RelativeSource | NodeKind::DottedName)
}

/// Whether it is the `for` of a comprehension.
pub(crate) fn is_for(kind: NodeKind) -> bool
    ensures { result ≡ is_for kind }
{
    matches!(
        kind,
        NodeKind::ComprehensionFor | NodeKind::AsyncComprehensionFor
    )
}

/// Whether a list of type parameters may belong to it.
pub(crate) fn does_take_types(kind: NodeKind) -> bool
    ensures { result ≡ takes_types kind }
{
    matches!(
        kind,
        NodeKind::DefStatement | NodeKind::ClassStatement | NodeKind::TypeAlias
    )
}

/// Whether it is a header that may have a list of type parameters.
pub(crate) fn does_take_list(kind: NodeKind) -> bool
    ensures { result ≡ takes_list kind }
{
    matches!(kind, NodeKind::Def | NodeKind::Class)
}

pub(crate) fn is_async(kind: NodeKind) -> bool
    ensures { result ≡ is_async kind }
{
    matches!(kind, NodeKind::Async)
}

/// Whether it is a list of type parameters.
pub(crate) fn is_type_list(kind: NodeKind) -> bool
    ensures { result ≡ is_type_list kind }
{
    matches!(kind, NodeKind::TypeParameters)
}

/// Whether it is a parameter without a star that has more than its name.
pub(crate) fn is_long_parameter(kind: NodeKind) -> bool
    ensures { result ≡ is_long_parameter kind }
{
    matches!(kind, NodeKind::Parameter | NodeKind::AnnotatedParameter)
}

/// Whether what is bound by a node of this kind is a target.
pub(crate) fn does_make_member(kind: NodeKind) -> bool
    ensures { result ≡ makes_member kind }
{
    !matches!(kind, NodeKind::Del | NodeKind::Case)
}

// The role of a name with an annotation, which alone is two parts.
fn annotated_as(parts: usize) -> NameRole
    ensures { result ≡ annotated_as parts }
{
    if parts == 2 {
        NameRole::Annotated
    } else {
        NameRole::Bound
    }
}

/// The role of a name that a node of this kind with so many parts binds.
pub(crate) fn bound_as(kind: NodeKind, parts: usize) -> NameRole
    ensures { result ≡ bound_as kind parts }
{
    match kind {
        NodeKind::Del => NameRole::Deleted,
        NodeKind::AnnotatedAssign => annotated_as(parts),
        NodeKind::AugmentedAssign => NameRole::Augmented,
        NodeKind::TypeAlias
        | NodeKind::TypeParameters
        | NodeKind::TypeParameter
        | NodeKind::StarTypeParameter
        | NodeKind::DoubleStarTypeParameter => NameRole::TypeName,
        _ => NameRole::Bound,
    }
}

/// The stars before a parameter of this kind.
pub(crate) fn star_of(kind: NodeKind) -> Star
    ensures { result ≡ star_of kind }
{
    match kind {
        NodeKind::StarParameter => Star::Single,
        NodeKind::DoubleStarParameter => Star::Double,
        _ => Star::Plain,
    }
}

/// Whether the second of so many parts is the annotation of what a node of this kind binds.
pub(crate) fn is_annotated(kind: NodeKind, parts: usize) -> bool
    ensures { result ≡ is_annotated kind parts }
{
    match kind {
        NodeKind::AnnotatedAssign | NodeKind::AnnotatedParameter => true,
        NodeKind::StarParameter | NodeKind::DoubleStarParameter => parts == 2,
        _ => false,
    }
}
