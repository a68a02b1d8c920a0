//! What a node does with the names in its parts.
ghost use Rattle.std.specs.Prelude.{◌≡◌};
ghost use Rattle.node_shapes.specs.PartUses.{only, either, annotated, part_use};

use py_base::NodeKind;

/// What a node does with the name that a part is, or with those that a part holds as targets or patterns (Python 3.12 language
/// reference, 4.2.1, "Binding of names").
#[derive(Clone, Copy)]
pub enum PartUse {
    /// It is read where it is a name; in anything else nothing is done here.
    Read,
    /// It gets a value.
    Bound,
    /// It is read and gets a value, by an augmented assignment.
    Augmented,
    /// It is bound without a value, by an annotation alone.
    Annotated,
    /// It is bound by a list of type parameters, or as the name of a `type` statement.
    TypeName,
    /// It is a target of `del`.
    Deleted,
    /// It is declared `global`.
    Global,
    /// It is declared `nonlocal`.
    Nonlocal,
    /// It only spells: the name of a module or in one, of an argument, of a keyword in a class pattern, the word `type`.
    Spelled,
    /// It has the use of the node itself, as a part of targets, of a pattern or of a dotted name.
    Inherited,
}

// One part has a use, the others are read.
fn only(is_it: bool, one: PartUse) -> PartUse
    ensures { result ≡ only is_it one }
{
    if is_it { one } else { PartUse::Read }
}

// One part has this use, the others another.
fn either(is_it: bool, one: PartUse, other: PartUse) -> PartUse
    ensures { result ≡ either is_it one other }
{
    if is_it { one } else { other }
}

// The use of an annotated target.
fn annotated(parts: usize) -> PartUse
    ensures { result ≡ annotated parts }
{
    if parts == 2 {
        PartUse::Annotated
    } else {
        PartUse::Bound
    }
}

/// What a node of the kind does with its part of this place, counted from 0, of so many.
pub fn part_use(kind: NodeKind, part: usize, parts: usize) -> PartUse
    ensures { result ≡ part_use kind part parts }
{
    let is_first = part == 0;
    let is_second = part == 1;
    let is_before_last = part < parts.saturating_sub(1);
    match kind {
        NodeKind::Assign | NodeKind::Lambda => only(is_before_last, PartUse::Bound),
        NodeKind::AnnotatedAssign => only(is_first, annotated(parts)),
        NodeKind::AugmentedAssign => only(is_first, PartUse::Augmented),
        NodeKind::Named
        | NodeKind::For
        | NodeKind::ComprehensionFor
        | NodeKind::AsyncComprehensionFor
        | NodeKind::Def
        | NodeKind::Class
        | NodeKind::Case
        | NodeKind::Parameter
        | NodeKind::AnnotatedParameter
        | NodeKind::StarParameter
        | NodeKind::DoubleStarParameter => only(is_first, PartUse::Bound),
        NodeKind::WithItem => only(is_second, PartUse::Bound),
        NodeKind::Import | NodeKind::Parameters => PartUse::Bound,
        NodeKind::Del => PartUse::Deleted,
        NodeKind::Except | NodeKind::ExceptStar => only(is_second && parts == 3, PartUse::Bound),
        NodeKind::ImportFrom => either(is_first, PartUse::Spelled, PartUse::Bound),
        NodeKind::ImportAll | NodeKind::RelativeSource => PartUse::Spelled,
        NodeKind::Alias => either(is_first, PartUse::Spelled, only(is_second, PartUse::Bound)),
        NodeKind::DottedName => either(is_first, PartUse::Inherited, PartUse::Spelled),
        NodeKind::TypeAlias => either(
            is_first,
            PartUse::Spelled,
            only(is_second, PartUse::TypeName),
        ),
        NodeKind::TypeParameters
        | NodeKind::StarTypeParameter
        | NodeKind::DoubleStarTypeParameter => PartUse::TypeName,
        NodeKind::TypeParameter => only(is_first, PartUse::TypeName),
        NodeKind::Keyword => only(is_first, PartUse::Spelled),
        NodeKind::Global => PartUse::Global,
        NodeKind::Nonlocal => PartUse::Nonlocal,
        NodeKind::Entries
        | NodeKind::Targets
        | NodeKind::Round
        | NodeKind::Square
        | NodeKind::Starred
        | NodeKind::Patterns
        | NodeKind::OrPattern
        | NodeKind::AsPattern
        | NodeKind::StarPattern
        | NodeKind::MappingPattern
        | NodeKind::DoubleStarPattern
        | NodeKind::PatternItem => PartUse::Inherited,
        NodeKind::ClassPattern => either(is_first, PartUse::Read, PartUse::Inherited),
        NodeKind::KeywordPattern => either(
            is_first,
            PartUse::Spelled,
            only(is_second, PartUse::Inherited),
        ),
        _ => PartUse::Read,
    }
}
