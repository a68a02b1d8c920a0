//! The values of integer literals.
ghost use Rattle.std.specs.Prelude.{◌≡◌, ◌+◌, ◌*◌, ◌^◌, ◌<◌, [], Some, drop};
ghost use Rattle.py_tokens.specs.Ints.{digit_of, below_limit, int_base, base_of, int_digits, digits_number, is_int, is_int_kind, int_of};
ghost use Rattle.py_tokens.specs.States.{kind_from};

use crate::kinds::TokenKind;
use crate::numbers::{InNumber, number_kind, number_next};
use crate::states::State;

// Integer literals are known below this number.
const WIDE: u128 = 1 << 127;

// The value of a digit of any base.
fn digit_of(digit: u8) -> u128
    ensures { result ≡ digit_of digit }
{
    let value = if digit >= b'a' {
        digit - 87
    } else if digit >= b'A' {
        digit - 55
    } else {
        digit.saturating_sub(b'0')
    };
    value as u128
}

// The base that the character behind a leading zero names.
fn int_base(letter: u8) -> u128
    ensures value { result ≡ int_base letter }
    ensures some { 0 < result }
{
    match letter {
        b'x' | b'X' => 16,
        b'o' | b'O' => 8,
        b'b' | b'B' => 2,
        _ => 10,
    }
}

fn base_of(text: &[u8]) -> u128
    ensures value { result ≡ base_of text.now }
    ensures some { 0 < result }
{
    match text {
        [_, letter, ..] => int_base(*letter),
        _ => 10,
    }
}

// The text without its first two characters.
fn behind_two(text: &[u8]) -> &[u8]
    ensures { result.now ≡ drop 2 text.now }
{
    if text.len() < 2 { &[] } else { &text[2..] }
}

fn int_digits(text: &[u8]) -> &[u8]
    ensures { result.now ≡ int_digits text.now }
{
    if base_of(text) == 10 {
        text
    } else {
        behind_two(text)
    }
}

// The value with one more digit, where a literal can have it.
fn push_digit(value: u128, base: u128, digit: u128) -> Option<u128>
    ensures { result ≡ below_limit (value * base + digit) }
{
    let sum = value.checked_mul(base)?.checked_add(digit)?;
    if sum < WIDE { Some(sum) } else { None }
}

// The number that digits of a base write, underscores left out, where a literal can have it.
fn digits_number(base: u128, digits: &[u8]) -> Option<u128>
    requires { 0 < base }
    ensures { result ≡ below_limit (digits_number base 0 digits.now) }
{
    let mut value = 0;
    for digit in digits {
        if *digit != b'_' {
            match push_digit(value, base, digit_of(*digit)) {
                None => return None,
                Some(sum) => value = sum,
            }
        }
    }
    Some(value)
}

// Whether the reader of numbers reads the text as an integer literal.
fn reads_int(text: &[u8]) -> bool
    ensures { result ≡ is_int_kind (kind_from (Some (State.Number InNumber.Start)) text.now []) }
{
    let mut place = InNumber::Start;
    for digit in text {
        match number_next(place, *digit as char) {
            None => return false,
            Some(next) => place = next,
        }
    }
    matches!(number_kind(place), Some(TokenKind::Int))
}

#[tactic(auto, using(crate::proofs::NumberReader::int_same))]
fn is_int(text: &[u8]) -> bool
    ensures { result ≡ is_int text.now }
{
    reads_int(text)
}

/// The value of an integer literal of any base; `None` where the text is no integer literal, and
/// where its value is above 2^127 - 1 (Python 3.12 language reference, 2.4.5).
#[tactic(auto, unfolding(crate::specs::Ints::int_of))]
pub fn int_value(text: &str) -> Option<i128>
    ensures { result ≡ int_of text.now }
{
    let text = text.as_bytes();
    if !is_int(text) {
        return None;
    }
    let value = digits_number(base_of(text), int_digits(text))?;
    Some(value as i128)
}
