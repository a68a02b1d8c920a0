//! What a node asks of its parts, beside what the table says.
ghost use Rattle.std.specs.Prelude.{◌≡◌, ◌||◌, not, map};
ghost use Rattle.std.specs.List.{list_all};
ghost use Rattle.py_base.specs.declared.node.NodeKind.TheVariants as kinds;
ghost use Rattle.py_grammar.specs.Proper.{grade_for, bar_for, are_ordered, is_parameter, begins_with_parameter, is_bare_star, stars_fit, is_slash, slash_fits, is_dict_entry, is_neutral, entries_fit, is_starred, begins_starred, is_lone_star, begins_keyword, is_unary, is_binary, is_strings, is_case, is_lambda, is_field, encloses, fits, is_reference, holds_targets, parameters_fit, without_last, binding};

use crate::found::Found;
use py_base::NodeKind;

/// What stands in an order.
#[derive(Clone, Copy, Debug, PartialEq, Eq)]
pub enum Order {
    Arguments,
    Parameters,
    /// At most one of them has a `*`.
    SequencePatterns,
    ClassPatterns,
}

/// Which parts of a node are bound.
#[derive(Clone, Copy, Debug, PartialEq, Eq)]
pub enum Binding {
    Nothing,
    First,
    AllButFirst,
    /// The last one is what the others are bound to.
    AllButLast,
}

// How much an entry bars behind it.
fn grade_of(order: Order, kind: NodeKind) -> u8
    ensures { result ≡ grade_for order kind }
{
    match (order, kind) {
        (Order::Arguments, NodeKind::Keyword) => 1,
        (Order::Arguments, NodeKind::DoubleStarred) => 2,
        (Order::Parameters, NodeKind::Slash) => 1,
        (Order::Parameters, NodeKind::BareStar | NodeKind::StarParameter) => 2,
        (Order::Parameters, NodeKind::DoubleStarParameter) => 3,
        (Order::SequencePatterns, NodeKind::StarPattern) => 1,
        (Order::ClassPatterns, NodeKind::KeywordPattern) => 1,
        _ => 0,
    }
}

// From which grade on an entry is barred.
fn bar_of(order: Order, kind: NodeKind) -> u8
    ensures { result ≡ bar_for order kind }
{
    match (order, kind) {
        (Order::Arguments, NodeKind::Keyword | NodeKind::DoubleStarred | NodeKind::LastComma) => 9,
        (Order::Arguments, NodeKind::Starred) => 2,
        (Order::Arguments, _) => 1,
        (Order::Parameters, NodeKind::Slash) => 1,
        (Order::Parameters, NodeKind::BareStar | NodeKind::StarParameter) => 2,
        (
            Order::Parameters,
            NodeKind::Name
            | NodeKind::Parameter
            | NodeKind::AnnotatedParameter
            | NodeKind::DoubleStarParameter,
        ) => 3,
        (Order::Parameters, _) => 9,
        (Order::SequencePatterns, NodeKind::StarPattern) => 1,
        (Order::SequencePatterns, _) => 9,
        (Order::ClassPatterns, NodeKind::KeywordPattern | NodeKind::LastComma) => 9,
        (Order::ClassPatterns, _) => 1,
    }
}

// Whether no entry stands behind one that bars it.
fn is_in_order(order: Order, parts: &[Found]) -> bool
    ensures { result ≡ are_ordered (grade_for order) (bar_for order) (map (λ x. x.kind) parts.now) }
{
    let mut highest: u8 = 0;
    let mut rest = parts;
    'parts: while let Some((part, behind)) = rest.split_first() {
        if highest >= bar_of(order, part.kind) {
            return false;
        }
        highest = grade_of(order, part.kind).max(highest);
        rest = behind;
    }
    true
}

fn is_parameter(kind: NodeKind) -> bool
    ensures { result ≡ is_parameter kind }
{
    matches!(
        kind,
        NodeKind::Name | NodeKind::Parameter | NodeKind::AnnotatedParameter
    )
}

fn does_begin_with_parameter(parts: &[Found]) -> bool
    ensures { result ≡ begins_with_parameter (map (λ x. x.kind) parts.now) }
{
    match parts {
        [] => false,
        [first, ..] => is_parameter(first.kind),
    }
}

fn is_bare_star(kind: NodeKind) -> bool
    ensures { result ≡ is_bare_star kind }
{
    matches!(kind, NodeKind::BareStar)
}

fn is_slash(kind: NodeKind) -> bool
    ensures { result ≡ is_slash kind }
{
    matches!(kind, NodeKind::Slash)
}

// Whether each bare `*` is directly followed by a parameter.
fn do_stars_fit(parts: &[Found]) -> bool
    ensures { result ≡ stars_fit (map (λ x. x.kind) parts.now) }
{
    let mut rest = parts;
    'parts: while let Some((part, behind)) = rest.split_first() {
        if is_bare_star(part.kind) && !does_begin_with_parameter(behind) {
            return false;
        }
        rest = behind;
    }
    true
}

// Whether `/` is not the first of the parameters.
fn does_slash_fit(parts: &[Found]) -> bool
    ensures { result ≡ slash_fits (map (λ x. x.kind) parts.now) }
{
    match parts {
        [] => true,
        [first, ..] => !is_slash(first.kind),
    }
}

fn do_parameters_fit(parts: &[Found]) -> bool
    ensures { result ≡ parameters_fit (map (λ x. x.kind) parts.now) }
{
    does_slash_fit(parts) && do_stars_fit(parts) && is_in_order(Order::Parameters, parts)
}

// Whether the parameters of a lambda fit: all of its parts but the body, which is the last.
fn does_lambda_fit(parts: &[Found]) -> bool
    ensures { result ≡ parameters_fit (without_last (map (λ x. x.kind) parts.now)) }
{
    if parts.is_empty() {
        return true;
    }
    do_parameters_fit(&parts[..parts.len() - 1])
}

fn makes_dict(kind: NodeKind) -> bool
    ensures { result ≡ is_dict_entry kind }
{
    matches!(kind, NodeKind::Item | NodeKind::DoubleStarred)
}

fn is_no_entry(kind: NodeKind) -> bool
    ensures { result ≡ is_neutral kind }
{
    matches!(
        kind,
        NodeKind::LastComma
            | NodeKind::ComprehensionFor
            | NodeKind::AsyncComprehensionFor
            | NodeKind::ComprehensionIf
    )
}

fn are_of_dict(parts: &[Found]) -> bool
    ensures { result ≡ list_all (λ x. is_neutral x.kind || is_dict_entry x.kind) parts.now }
{
    parts
        .iter()
        .all(|part| is_no_entry(part.kind) || makes_dict(part.kind))
}

fn are_of_set(parts: &[Found]) -> bool
    ensures { result ≡ list_all (λ x. is_neutral x.kind || not (is_dict_entry x.kind)) parts.now }
{
    parts
        .iter()
        .all(|part| is_no_entry(part.kind) || !makes_dict(part.kind))
}

// Whether entries in curly brackets are of one sort.
fn do_entries_fit(parts: &[Found]) -> bool
    ensures { result ≡ entries_fit (map (λ x. x.kind) parts.now) }
{
    let Some((first, others)) = parts.split_first() else {
        return true;
    };
    if makes_dict(first.kind) {
        are_of_dict(others)
    } else {
        are_of_set(others)
    }
}

fn does_begin_starred(parts: &[Found]) -> bool
    ensures { result ≡ begins_starred (map (λ x. x.kind) parts.now) }
{
    match parts {
        [] => false,
        [first, ..] => is_starred(first.kind),
    }
}

fn is_lone_star(parts: &[Found]) -> bool
    ensures { result ≡ is_lone_star (map (λ x. x.kind) parts.now) }
{
    match parts {
        [only] => is_starred(only.kind),
        _ => false,
    }
}

fn does_begin_with_keyword(parts: &[Found]) -> bool
    ensures { result ≡ begins_keyword (map (λ x. x.kind) parts.now) }
{
    match parts {
        [] => false,
        [first, ..] => matches!(first.kind, NodeKind::Keyword),
    }
}

fn do_brackets_fit(parts: &[Found]) -> bool
    ensures { result ≡ fits kinds.Round (map (λ x. x.kind) parts.now) }
{
    !is_lone_star(parts)
        && !does_begin_with_keyword(parts)
        && is_in_order(Order::SequencePatterns, parts)
}

/// Whether the kinds of its parts are what a node of a kind asks.
pub fn does_fit(kind: NodeKind, parts: &[Found]) -> bool
    ensures { result ≡ fits kind (map (λ x. x.kind) parts.now) }
{
    match kind {
        NodeKind::Call | NodeKind::Arguments => is_in_order(Order::Arguments, parts),
        NodeKind::Lambda => does_lambda_fit(parts),
        NodeKind::Parameters => do_parameters_fit(parts),
        NodeKind::Curly => do_entries_fit(parts),
        NodeKind::Starred => !does_begin_starred(parts),
        NodeKind::Round => do_brackets_fit(parts),
        NodeKind::Square | NodeKind::Patterns => is_in_order(Order::SequencePatterns, parts),
        NodeKind::ClassPattern => is_in_order(Order::ClassPatterns, parts),
        _ => true,
    }
}

/// Whether a node of this kind is a name, an attribute or a subscript.
pub fn is_name_like(kind: NodeKind) -> bool
    ensures { result ≡ is_reference kind }
{
    matches!(
        kind,
        NodeKind::Name | NodeKind::Attribute | NodeKind::Subscript
    )
}

/// Whether a node of this kind is a target where its parts are.
pub fn is_of_targets(kind: NodeKind) -> bool
    ensures { result ≡ holds_targets kind }
{
    matches!(
        kind,
        NodeKind::Starred
            | NodeKind::Round
            | NodeKind::Square
            | NodeKind::Targets
            | NodeKind::Entries
            | NodeKind::LastComma
    )
}

/// Whether a node of this kind is a lambda.
pub fn is_lambda(kind: NodeKind) -> bool
    ensures { result ≡ is_lambda kind }
{
    matches!(kind, NodeKind::Lambda)
}

/// Whether a node of this kind is a field of an f-string.
pub fn is_field(kind: NodeKind) -> bool
    ensures { result ≡ is_field kind }
{
    matches!(kind, NodeKind::Field)
}

/// Whether a node of this kind is an operator before one part.
pub fn is_unary(kind: NodeKind) -> bool
    ensures { result ≡ is_unary kind }
{
    matches!(kind, NodeKind::Unary)
}

/// Whether a node of this kind is an operator between two parts.
pub fn is_binary(kind: NodeKind) -> bool
    ensures { result ≡ is_binary kind }
{
    matches!(kind, NodeKind::Binary)
}

/// Whether a node of this kind is of strings.
pub fn is_strings(kind: NodeKind) -> bool
    ensures { result ≡ is_strings kind }
{
    matches!(kind, NodeKind::Strings)
}

/// Whether a node of this kind is the header of a case.
pub fn is_case(kind: NodeKind) -> bool
    ensures { result ≡ is_case kind }
{
    matches!(kind, NodeKind::Case)
}

/// Whether a node of this kind is starred.
pub fn is_starred(kind: NodeKind) -> bool
    ensures { result ≡ is_starred kind }
{
    matches!(kind, NodeKind::Starred)
}

/// Whether a node of this kind has its parts in brackets or quotes.
pub fn does_enclose(kind: NodeKind) -> bool
    ensures { result ≡ encloses kind }
{
    matches!(
        kind,
        NodeKind::Round
            | NodeKind::Square
            | NodeKind::Curly
            | NodeKind::Call
            | NodeKind::Subscript
            | NodeKind::Strings
    )
}

/// Which parts of a node of this kind are bound.
pub fn binding_of(kind: NodeKind) -> Binding
    ensures { result ≡ binding kind }
{
    match kind {
        NodeKind::ComprehensionFor
        | NodeKind::AsyncComprehensionFor
        | NodeKind::For
        | NodeKind::Del => Binding::First,
        NodeKind::WithItem => Binding::AllButFirst,
        NodeKind::Assign => Binding::AllButLast,
        _ => Binding::Nothing,
    }
}
