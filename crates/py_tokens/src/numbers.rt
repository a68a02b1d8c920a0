//! Numbers, character by character.
ghost use Rattle.std.specs.Prelude.{◌≡◌, ◌==◌, None};
ghost use Rattle.std.specs.Char.{is_ascii_digit};
ghost use Rattle.py_tokens.specs.Numbers.{is_digit_of, is_exponent, is_j, number_kind, tail_from, to, number_next};

use crate::kinds::TokenKind;

/// A base that a prefix names.
#[derive(Clone, Copy)]
pub enum Base {
    Two,
    Eight,
    Sixteen,
}

/// Where in a number a character may follow.
#[derive(Clone, Copy)]
pub enum InNumber {
    Start,
    /// Exactly one zero, behind which alone a base prefix goes on.
    Zero,
    /// More zeros than one.
    Zeros,
    ZerosJoin,
    Digits,
    DigitsJoin,
    /// Digits behind leading zeros, which only a float or an imaginary literal may have.
    LedDigits,
    LedDigitsJoin,
    /// A point that begins the number.
    Point,
    /// A point behind digits.
    BarePoint,
    Fraction,
    FractionJoin,
    Exponent,
    ExponentSign,
    Power,
    PowerJoin,
    Prefix(Base),
    Based(Base),
    BasedJoin(Base),
    Done,
}

fn is_digit_of(base: Base, c: char) -> bool
    ensures { result ≡ is_digit_of base c }
{
    match base {
        Base::Two => c == '0' || c == '1',
        Base::Eight => '0' <= c && c <= '7',
        Base::Sixteen => { c.is_ascii_digit() || ('a' <= c && c <= 'f') || ('A' <= c && c <= 'F') }
    }
}

/// What a number is that ends there.
pub fn number_kind(place: InNumber) -> Option<TokenKind>
    ensures { result ≡ number_kind place }
{
    match place {
        InNumber::Zero | InNumber::Zeros | InNumber::Digits | InNumber::Based(_) => {
            Some(TokenKind::Int)
        }
        InNumber::BarePoint | InNumber::Fraction | InNumber::Power => Some(TokenKind::Float),
        InNumber::Done => Some(TokenKind::Imag),
        _ => None,
    }
}

fn tail_from(c: char) -> Option<InNumber>
    ensures { result ≡ tail_from c }
{
    match c {
        '.' => Some(InNumber::BarePoint),
        'e' | 'E' => Some(InNumber::Exponent),
        'j' | 'J' => Some(InNumber::Done),
        _ => None,
    }
}

// Where a number goes on, if the character is a digit.
fn digit_to(next: InNumber, c: char) -> Option<InNumber>
    ensures { result ≡ to (is_ascii_digit c) next None }
{
    if c.is_ascii_digit() { Some(next) } else { None }
}

// Behind a part of a number that digits and underscores make: a digit stays in it, an underscore joins.
fn digits_or(within: InNumber, join: InNumber, c: char, other: Option<InNumber>) -> Option<InNumber>
    ensures { result ≡ to (is_ascii_digit c) within (to (c == 95) join other) }
{
    match c {
        '0'..='9' => Some(within),
        '_' => Some(join),
        _ => other,
    }
}

fn exponent_or_j(c: char) -> Option<InNumber>
    ensures { result ≡ to (is_exponent c) InNumber.Exponent (to (is_j c) InNumber.Done None) }
{
    match c {
        'e' | 'E' => Some(InNumber::Exponent),
        'j' | 'J' => Some(InNumber::Done),
        _ => None,
    }
}

fn from_start(c: char) -> Option<InNumber>
    ensures { result ≡ number_next InNumber.Start c }
{
    match c {
        '0' => Some(InNumber::Zero),
        '1'..='9' => Some(InNumber::Digits),
        '.' => Some(InNumber::Point),
        _ => None,
    }
}

fn behind_zero(c: char) -> Option<InNumber>
    ensures { result ≡ number_next InNumber.Zero c }
{
    match c {
        'x' | 'X' => Some(InNumber::Prefix(Base::Sixteen)),
        'o' | 'O' => Some(InNumber::Prefix(Base::Eight)),
        'b' | 'B' => Some(InNumber::Prefix(Base::Two)),
        _ => behind_zeros(c),
    }
}

fn behind_zeros(c: char) -> Option<InNumber>
    ensures { result ≡ number_next InNumber.Zeros c }
{
    match c {
        '0' => Some(InNumber::Zeros),
        '_' => Some(InNumber::ZerosJoin),
        '1'..='9' => Some(InNumber::LedDigits),
        _ => tail_from(c),
    }
}

fn behind_zeros_join(c: char) -> Option<InNumber>
    ensures { result ≡ number_next InNumber.ZerosJoin c }
{
    match c {
        '0' => Some(InNumber::Zeros),
        '1'..='9' => Some(InNumber::LedDigits),
        _ => None,
    }
}

fn behind_point(c: char) -> Option<InNumber>
    ensures { result ≡ number_next InNumber.BarePoint c }
{
    if c.is_ascii_digit() {
        Some(InNumber::Fraction)
    } else {
        exponent_or_j(c)
    }
}

fn behind_exponent(c: char) -> Option<InNumber>
    ensures { result ≡ number_next InNumber.Exponent c }
{
    match c {
        '+' | '-' => Some(InNumber::ExponentSign),
        _ => digit_to(InNumber::Power, c),
    }
}

fn in_power(c: char) -> Option<InNumber>
    ensures { result ≡ number_next InNumber.Power c }
{
    match c {
        'j' | 'J' => Some(InNumber::Done),
        _ => digits_or(InNumber::Power, InNumber::PowerJoin, c, None),
    }
}

fn in_base(base: Base, c: char) -> Option<InNumber>
    ensures { result ≡ number_next (InNumber.Based base) c }
{
    if is_digit_of(base, c) {
        return Some(InNumber::Based(base));
    }
    if c == '_' {
        Some(InNumber::BasedJoin(base))
    } else {
        None
    }
}

fn behind_base_join(base: Base, c: char) -> Option<InNumber>
    ensures { result ≡ number_next (InNumber.BasedJoin base) c }
{
    if is_digit_of(base, c) {
        Some(InNumber::Based(base))
    } else {
        None
    }
}

/// Where a number stands after one more character, if it may have it.
pub fn number_next(place: InNumber, c: char) -> Option<InNumber>
    ensures { result ≡ number_next place c }
{
    match place {
        InNumber::Start => from_start(c),
        InNumber::Zero => behind_zero(c),
        InNumber::Zeros => behind_zeros(c),
        InNumber::ZerosJoin => behind_zeros_join(c),
        InNumber::Digits => digits_or(place, InNumber::DigitsJoin, c, tail_from(c)),
        InNumber::LedDigits => digits_or(place, InNumber::LedDigitsJoin, c, tail_from(c)),
        InNumber::Fraction => digits_or(place, InNumber::FractionJoin, c, exponent_or_j(c)),
        InNumber::DigitsJoin => digit_to(InNumber::Digits, c),
        InNumber::LedDigitsJoin => digit_to(InNumber::LedDigits, c),
        InNumber::Point | InNumber::FractionJoin => digit_to(InNumber::Fraction, c),
        InNumber::ExponentSign | InNumber::PowerJoin => digit_to(InNumber::Power, c),
        InNumber::BarePoint => behind_point(c),
        InNumber::Exponent => behind_exponent(c),
        InNumber::Power => in_power(c),
        InNumber::Prefix(base) | InNumber::Based(base) => in_base(base, c),
        InNumber::BasedJoin(base) => behind_base_join(base, c),
        InNumber::Done => None,
    }
}
