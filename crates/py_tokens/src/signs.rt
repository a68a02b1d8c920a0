//! Operators and delimiters, and the conversions of a field.
ghost use Rattle.std.specs.Prelude.{◌≡◌, ◌∷◌, [], Some};
ghost use Rattle.py_tokens.specs.Signs.{is_operator, is_conversion, sign_kind};
ghost use Rattle.py_tokens.specs.Fronts.{Answers};

use crate::kinds::{Kind, TokenKind};

#[tactic(auto, unfolding(crate::specs::Signs::is_operator))]
fn is_operator_of_one(in_field: bool, c: char) -> bool
    ensures { result ≡ is_operator in_field (c ∷ []) }
{
    matches!(
        c,
        '+' | '-'
            | '*'
            | '/'
            | '%'
            | '@'
            | '&'
            | '|'
            | '^'
            | '~'
            | '<'
            | '>'
            | '('
            | ')'
            | '['
            | ']'
            | '{'
            | '}'
            | ','
            | ':'
            | '.'
            | ';'
            | '='
    )
}

#[tactic(auto, unfolding(crate::specs::Signs::is_operator))]
fn is_operator_of_two(in_field: bool, c: char, d: char) -> bool
    ensures { result ≡ is_operator in_field (c ∷ d ∷ []) }
{
    match d {
        '=' => matches!(
            c,
            '+' | '-' | '*' | '/' | '%' | '@' | '&' | '|' | '^' | '<' | '>' | '=' | '!'
        ) || (c == ':' && !in_field),
        '*' | '/' | '<' => c == d,
        '>' => c == '>' || c == '-',
        _ => false,
    }
}

#[tactic(auto, unfolding(crate::specs::Signs::is_operator))]
fn is_operator_of_three(in_field: bool, c: char, d: char, e: char) -> bool
    ensures { result ≡ is_operator in_field (c ∷ d ∷ e ∷ []) }
{
    match e {
        '=' => c == d && matches!(c, '*' | '/' | '<' | '>'),
        '.' => c == '.' && d == '.',
        _ => false,
    }
}

#[tactic(auto, unfolding(crate::specs::Signs::is_conversion))]
fn is_conversion_of_two(in_field: bool, c: char, d: char) -> bool
    ensures { result ≡ is_conversion in_field (c ∷ d ∷ []) }
{
    in_field && c == '!' && matches!(d, 'r' | 's' | 'a')
}

#[tactic(auto, using(crate::proofs::Operators::operators_short, crate::proofs::Operators::no_operator))]
fn is_operator(in_field: bool, text: &[char]) -> bool
    ensures { result ≡ is_operator in_field text.now }
{
    match text {
        [] => false,
        [c] => is_operator_of_one(in_field, *c),
        [c, d] => is_operator_of_two(in_field, *c, *d),
        [c, d, e] => is_operator_of_three(in_field, *c, *d, *e),
        _ => false,
    }
}

#[tactic(auto, using(crate::proofs::Operators::conversions_two))]
fn is_conversion(in_field: bool, text: &[char]) -> bool
    ensures { result ≡ is_conversion in_field text.now }
{
    match text {
        [] | [_] => false,
        [c, d] => is_conversion_of_two(in_field, *c, *d),
        _ => false,
    }
}

fn sign_kind(in_field: bool, text: &[char]) -> Option<Kind>
    ensures { result ≡ sign_kind in_field text.now }
{
    if is_operator(in_field, text) {
        Some(Kind::Token(TokenKind::Operator))
    } else if is_conversion(in_field, text) {
        Some(Kind::Token(TokenKind::FConversion))
    } else {
        None
    }
}

/// The longest operator or conversion at the front.
#[tactic(auto, using(crate::proofs::Operators::sign_past))]
pub fn longest_sign(in_field: bool, text: &[char]) -> Option<(usize, Kind)>
    ensures { Answers (λ front rest. sign_kind in_field front) text.now result }
{
    for n in (0..4).rev() {
        if n <= text.len() {
            if let Some(kind) = sign_kind(in_field, &text[..n]) {
                return Some((n, kind));
            }
        }
    }
    None
}
