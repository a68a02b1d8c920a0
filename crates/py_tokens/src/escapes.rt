//! What the escape sequences of strings stand for.
ghost use Rattle.std.specs.Prelude.{◌≡◌, ◌<◌, ◌≤◌, IfSome, true};
ghost use Rattle.py_tokens.specs.Escapes.{is_octal, octal, character, single, hex_digit, both, hex_2, hex_4, hex_8, numbered, named_at, escape_at};

use crate::chars::{char_at, end_len};

/// What stands behind a backslash in a string, and how many characters of it.
#[derive(Clone, Copy)]
pub enum Escape {
    /// A line end, which stands for nothing.
    Joined(usize),
    /// A character.
    Char(char, usize),
    /// No escape: the backslash stays, and what follows it.
    Kept,
    /// An escape whose character is not known here, or a malformed one.
    Unknown,
}

fn is_octal(c: char) -> bool
    ensures { result ≡ is_octal c }
{
    '0' <= c && c <= '7'
}

// The character of this number, where it is one.
fn character(number: u32, len: usize) -> Escape
    ensures { result ≡ character number len }
{
    match char::from_u32(number) {
        Some(c) => Escape::Char(c, len),
        None => Escape::Unknown,
    }
}

#[tactic(auto, unfolding(crate::specs::Escapes::octal))]
fn octal(c: char, d: char, e: char) -> Escape
    requires { is_octal c ≡ true }
    ensures { result ≡ octal c d e }
{
    let first = c as u32 - 48;
    if !is_octal(d) {
        return character(first, 1);
    }
    let two = first * 8 + (d as u32 - 48);
    if !is_octal(e) {
        return character(two, 2);
    }
    character(two * 8 + (e as u32 - 48), 3)
}

#[tactic(auto, unfolding(crate::specs::Escapes::single))]
fn single(c: char) -> Escape
    ensures { result ≡ single c }
{
    match c {
        '\\' | '\'' | '"' => Escape::Char(c, 1),
        'a' => Escape::Char('\x07', 1),
        'b' => Escape::Char('\x08', 1),
        'f' => Escape::Char('\x0c', 1),
        'n' => Escape::Char('\n', 1),
        'r' => Escape::Char('\r', 1),
        't' => Escape::Char('\t', 1),
        'v' => Escape::Char('\x0b', 1),
        _ => Escape::Kept,
    }
}

fn hex_digit(c: char) -> Option<u32>
    ensures value { result ≡ hex_digit c }
    ensures small { IfSome result (λ n. n < 16) }
{
    match c {
        '0'..='9' => Some(c as u32 - 48),
        'a'..='f' => Some(c as u32 - 87),
        'A'..='F' => Some(c as u32 - 55),
        _ => None,
    }
}

// The number that two hexadecimal digits write.
fn hex_2(text: &[char], at: usize) -> Option<u32>
    requires { at ≤ 16 }
    ensures value { result ≡ hex_2 text.now at }
    ensures small { IfSome result (λ n. n < 256) }
{
    match (
        hex_digit(char_at(text, at)),
        hex_digit(char_at(text, at + 1)),
    ) {
        (Some(high), Some(low)) => Some(high * 16 + low),
        _ => None,
    }
}

fn hex_4(text: &[char], at: usize) -> Option<u32>
    requires { at ≤ 14 }
    ensures value { result ≡ hex_4 text.now at }
    ensures small { IfSome result (λ n. n < 65536) }
{
    match (hex_2(text, at), hex_2(text, at + 2)) {
        (Some(high), Some(low)) => Some(high * 256 + low),
        _ => None,
    }
}

fn hex_8(text: &[char], at: usize) -> Option<u32>
    requires { at ≤ 10 }
    ensures { result ≡ hex_8 text.now at }
{
    match (hex_4(text, at), hex_4(text, at + 4)) {
        (Some(high), Some(low)) => Some(high * 65536 + low),
        _ => None,
    }
}

fn numbered(number: Option<u32>, len: usize) -> Escape
    ensures { result ≡ numbered number len }
{
    match number {
        None => Escape::Unknown,
        Some(number) => character(number, len),
    }
}

// What this text behind a backslash stands for in a string that is no bytes string.
fn named_at(text: &[char]) -> Escape
    ensures { result ≡ named_at text.now }
{
    match char_at(text, 0) {
        'u' => numbered(hex_4(text, 1), 5),
        'U' => numbered(hex_8(text, 1), 9),
        'N' => Escape::Unknown,
        c => single(c),
    }
}

/// What this text behind a backslash stands for, in a bytes string or in another.
pub fn escape_at(bytes: bool, text: &[char]) -> Escape
    ensures { result ≡ escape_at bytes text.now }
{
    let c = char_at(text, 0);
    let d = char_at(text, 1);
    if end_len(c, d) > 0 {
        Escape::Joined(end_len(c, d))
    } else if is_octal(c) {
        octal(c, d, char_at(text, 2))
    } else if c == 'x' {
        numbered(hex_2(text, 1), 3)
    } else if bytes {
        single(c)
    } else {
        named_at(text)
    }
}
