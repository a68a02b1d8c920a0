//! The places in numbers, strings and runs of text, and the one reader of them all.
ghost use Rattle.std.specs.Prelude.{◌≡◌, Some};
ghost use Rattle.py_tokens.specs.States.{when, state_kind, state_next, kind_from};
ghost use Rattle.py_tokens.specs.Fronts.{Answers, longer};

use crate::kinds::{Kind, TokenFault, TokenKind};
use crate::numbers::{InNumber, number_kind, number_next};
use crate::strings::{InString, InText, Quotes, ends_text, is_closed, string_next, text_next};

/// Where in a piece a character may follow.
#[derive(Clone, Copy)]
pub enum State {
    Number(InNumber),
    String(Quotes, InString),
    /// Before a string that never closes, whose opening has so many characters.
    BeforeUnclosed(Quotes, usize),
    /// In it.
    Unclosed(Quotes, InString),
    /// In a run of text of an f-string, or, where the flag is set, of a format.
    Text(bool, Quotes, InText),
}

fn when(holds: bool, kind: Kind) -> Option<Kind>
    ensures { result ≡ when holds kind }
{
    if holds { Some(kind) } else { None }
}

/// What a piece is that ends there, where `rest` follows.
pub fn state_kind(state: State, rest: &[char]) -> Option<Kind>
    ensures { result ≡ state_kind state rest.now }
{
    match state {
        State::Number(place) => match number_kind(place) {
            Some(kind) => Some(Kind::Token(kind)),
            None => None,
        },
        State::String(_, place) => when(is_closed(place), Kind::Token(TokenKind::Str)),
        State::BeforeUnclosed(_, _) => None,
        State::Unclosed(_, _) => Some(Kind::Fault(TokenFault::UnclosedString)),
        State::Text(_, quotes, place) => {
            when(
                ends_text(quotes, place, rest),
                Kind::Token(TokenKind::FText),
            )
        }
    }
}

/// Where a piece stands after one more character, if it may have it.
pub fn state_next(state: State, c: char) -> Option<State>
    ensures { result ≡ state_next state c }
{
    match state {
        State::Number(place) => match number_next(place, c) {
            Some(next) => Some(State::Number(next)),
            None => None,
        },
        State::String(quotes, place) => match string_next(quotes, place, c) {
            Some(next) => Some(State::String(quotes, next)),
            None => None,
        },
        State::BeforeUnclosed(quotes, len) => {
            match string_next(quotes, InString::Opening(len), c) {
                Some(next) => Some(State::Unclosed(quotes, next)),
                None => None,
            }
        }
        State::Unclosed(quotes, place) => match string_next(quotes, place, c) {
            Some(next) => Some(State::Unclosed(quotes, next)),
            None => None,
        },
        State::Text(in_format, quotes, place) => match text_next(in_format, quotes, place, c) {
            Some(next) => Some(State::Text(in_format, quotes, next)),
            None => None,
        },
    }
}

fn longer(len: usize, kind: Option<Kind>, best: Option<(usize, Kind)>) -> Option<(usize, Kind)>
    ensures { result ≡ longer len kind best }
{
    match kind {
        None => best,
        Some(kind) => Some((len, kind)),
    }
}

/// The longest front that is something, from this state on.
pub fn longest_from(start: State, text: &[char]) -> Option<(usize, Kind)>
    ensures { Answers (kind_from (Some start)) text.now result }
{
    let mut state = start;
    let mut best = longer(0, state_kind(state, text), None);
    for i in 0..text.len() {
        match state_next(state, text[i]) {
            None => return best,
            Some(next) => {
                state = next;
                best = longer(i + 1, state_kind(state, &text[i + 1..]), best);
            }
        }
    }
    best
}
