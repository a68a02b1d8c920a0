//! What is open at a place: brackets, f-strings, and their fields and formats; and how deep it is.
ghost use Rattle.std.specs.Prelude.{◌≡◌, ◌∷◌, OnOk};
ghost use Rattle.py_tokens.specs.Nesting.{none_open};
ghost use Rattle.py_tokens.specs.Opens.{nest_mode, mode_of, is_outer, is_in_string, here, is_some_open, deeper, depth_after, bracket_in, bracketed, nests_in, nests_after, after_sign, open_string, close_string, is_quoted, is_number, after};

use crate::chars::{closes_bracket, opens_bracket};
use crate::kinds::{Gap, Kind, TokenKind};
use crate::rows::{DEPTH_LIMIT, Here, Mode};
use crate::strings::{Quotes, string_opening};
use py_base::NoMemory;
use std::alloc::Global;
use std::collections::VecDeque;
use std::marker::Model;

/// A thing that can be open.
#[derive(Clone, Copy)]
pub enum Nest {
    /// A bracket outside of f-strings.
    Bracket,
    /// A bracket in a field of an f-string.
    FieldBracket,
    /// A field of an f-string with these quotes, before its format.
    Field(Quotes),
    /// The format of a field.
    Format(Quotes),
    /// The text of an f-string.
    Quoted(Quotes),
}

/// The things that are open, the innermost first, and the depth. A closing bracket always lowers
/// the depth, though it may close nothing, so the depth is no count of these things.
#[derive(Drop)]
pub struct Opens {
    nests: VecDeque<Nest>,
    depth: usize,
}

impl Model for Opens {
    ghost use Rattle.py_tokens.specs.Nesting.{Nesting};

    ghost Value = { Nesting };

    ghost view = { λ o. record { nests = o.nests.items; depth = o.depth } };
}

impl Opens {
    /// Nothing is open.
    pub fn new(alloc: Global) -> Opens
        ensures { result ≡ none_open }
    {
        Opens {
            nests: VecDeque::new(alloc),
            depth: 0,
        }
    }
}

fn nest_mode(nest: Nest) -> Mode
    ensures { result ≡ nest_mode nest }
{
    match nest {
        Nest::Bracket | Nest::FieldBracket => Mode::Code(false),
        Nest::Field(_) => Mode::Code(true),
        Nest::Format(quotes) => Mode::Text(true, quotes),
        Nest::Quoted(quotes) => Mode::Text(false, quotes),
    }
}

fn mode_of(nests: &VecDeque<Nest>) -> Mode
    ensures { result ≡ mode_of nests.now.items }
{
    match nests.front() {
        None => Mode::Code(false),
        Some(top) => nest_mode(*top),
    }
}

fn is_outer(nest: Nest) -> bool
    ensures { result ≡ is_outer nest }
{
    matches!(nest, Nest::Bracket)
}

// Whether an f-string is open.
fn is_in_string(nests: &VecDeque<Nest>) -> bool
    ensures { result ≡ is_in_string nests.now.items }
{
    match nests.front() {
        None => false,
        Some(top) => !is_outer(*top),
    }
}

/// Whether a bracket counts as open, or an f-string is open.
pub fn is_some_open(opens: &Opens) -> bool
    ensures { result ≡ is_some_open opens.now }
{
    opens.depth > 0 || is_in_string(&opens.nests)
}

/// What is known at a place where these are open.
pub fn here(opens: &Opens, after_number: bool) -> Here
    ensures { result ≡ here opens.now after_number }
{
    Here {
        mode: mode_of(&opens.nests),
        is_open: is_some_open(opens),
        depth: opens.depth,
        after_number,
    }
}

// One more than this depth, which passes the limit nowhere.
fn deeper(depth: usize) -> usize
    ensures { result ≡ deeper depth }
{
    if depth < DEPTH_LIMIT {
        depth + 1
    } else {
        DEPTH_LIMIT
    }
}

// The depth after a sign of one character.
fn depth_after(depth: usize, c: char) -> usize
    ensures { result ≡ depth_after depth c }
{
    if opens_bracket(c) {
        deeper(depth)
    } else if closes_bracket(c) {
        depth.saturating_sub(1)
    } else {
        depth
    }
}

fn push(nests: &mut VecDeque<Nest>, nest: Nest) -> Result<(), NoMemory>
    ensures { OnOk result (nests.new.items ≡ nest ∷ nests.old.items) }
{
    nests.push_front(nest)?;
    Ok(())
}

fn bracket_in(nests: &VecDeque<Nest>) -> Nest
    ensures { result ≡ bracket_in nests.now.items }
{
    if is_in_string(nests) {
        Nest::FieldBracket
    } else {
        Nest::Bracket
    }
}

fn bracketed(nests: &mut VecDeque<Nest>, c: char) -> Result<(), NoMemory>
    ensures { OnOk result (nests.new.items ≡ bracketed c nests.old.items) }
{
    if opens_bracket(c) {
        let nest = bracket_in(nests);
        push(nests, nest)
    } else {
        Ok(())
    }
}

// What is open after a sign of one character, where `top` was the innermost open thing.
fn nests_in(nests: &mut VecDeque<Nest>, top: Nest, c: char) -> Result<(), NoMemory>
    ensures { OnOk result (nests.new.items ≡ nests_in top nests.old.items c) }
{
    match top {
        Nest::Bracket | Nest::FieldBracket => {
            if closes_bracket(c) {
                return Ok(());
            }
            push(nests, top)?;
            bracketed(nests, c)
        }
        Nest::Field(quotes) => {
            if c == '}' {
                return Ok(());
            }
            if c == ':' {
                return push(nests, Nest::Format(quotes));
            }
            push(nests, top)?;
            bracketed(nests, c)
        }
        Nest::Format(quotes) => {
            if c == '}' {
                return Ok(());
            }
            push(nests, top)?;
            push(nests, Nest::Field(quotes))
        }
        Nest::Quoted(quotes) => {
            push(nests, top)?;
            push(nests, Nest::Field(quotes))
        }
    }
}

fn nests_after(nests: &mut VecDeque<Nest>, c: char) -> Result<(), NoMemory>
    ensures { OnOk result (nests.new.items ≡ nests_after nests.old.items c) }
{
    match nests.pop_front() {
        None => bracketed(nests, c),
        Some(top) => nests_in(nests, top, c),
    }
}

fn after_sign(opens: &mut Opens, c: char) -> Result<(), NoMemory>
    ensures { OnOk result (opens.new ≡ after_sign opens.old c) }
{
    opens.depth = depth_after(opens.depth, c);
    nests_after(&mut opens.nests, c)
}

fn open_string(nests: &mut VecDeque<Nest>, text: &[char]) -> Result<(), NoMemory>
    ensures { OnOk result (nests.new.items ≡ open_string text.now nests.old.items) }
{
    match string_opening(text) {
        None => Ok(()),
        Some(opening) => push(nests, Nest::Quoted(opening.quotes)),
    }
}

fn is_quoted(nest: Nest) -> bool
    ensures { result ≡ is_quoted nest }
{
    matches!(nest, Nest::Quoted(_))
}

// Closes what is open down to the innermost string, and this string; gives the depth behind it.
fn close_string(nests: &mut VecDeque<Nest>, depth: usize) -> usize
    ensures { record { nests = nests.new.items; depth = result } ≡ close_string nests.old.items depth }
{
    let mut left = depth;
    while let Some(top) = nests.pop_front() {
        if is_quoted(top) {
            return left;
        }
        left = left.saturating_sub(1);
    }
    left
}

fn close_all(opens: &mut Opens)
    ensures { opens.new ≡ none_open }
{
    opens.nests.clear();
    opens.depth = 0;
}

/// Whether a piece is a number.
pub fn is_number(kind: Kind) -> bool
    ensures { result ≡ is_number kind }
{
    matches!(
        kind,
        Kind::Token(TokenKind::Int | TokenKind::Float | TokenKind::Imag)
    )
}

/// Changes what is open to what is open after this piece.
#[tactic(auto, unfolding(crate::specs::Opens::after))]
pub fn after(opens: &mut Opens, kind: Kind, text: &[char]) -> Result<(), NoMemory>
    ensures { OnOk result (opens.new ≡ after opens.old kind text.now) }
{
    match kind {
        Kind::Token(TokenKind::Operator) => match text {
            [c] => after_sign(opens, *c),
            _ => Ok(()),
        },
        Kind::Token(TokenKind::FStart) => open_string(&mut opens.nests, text),
        Kind::Token(TokenKind::FEnd) => {
            opens.depth = close_string(&mut opens.nests, opens.depth);
            Ok(())
        }
        Kind::Fault(_) | Kind::Gap(Gap::LineEnd) => {
            close_all(opens);
            Ok(())
        }
        Kind::Token(_) | Kind::Gap(_) => Ok(()),
    }
}
