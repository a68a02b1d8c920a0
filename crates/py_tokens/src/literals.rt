//! The values of string and bytes literals.
ghost use Rattle.std.specs.Prelude.{◌≡◌, ◌++◌, ◌∷◌, [], IfOk, OnOk, map, option_map, encode_utf8_all};
ghost use Rattle.std.specs.Str.{chars};
ghost use Rattle.std.specs.List.{list_all};
ghost use Rattle.py_tokens.specs.Literals.{decode, IsStep, in_prefix, prefix_len, is_ascii, low_byte, body_of, decoded, text_value, bytes_value, literal_value, string_value};

use crate::chars::char_at;
use crate::cutting::characters;
use crate::escapes::{Escape, escape_at};
use crate::strings::{Opening, closing_len, is_letter, string_opening};
use py_base::{List, NoMemory, Text};
use std::alloc::Global;

/// The value of a string literal.
#[derive(Debug, Drop)]
pub enum StringValue {
    /// A string of these characters.
    Text(Text),
    /// A string whose characters are not known: it has `\N`, a malformed `\x`, `\u` or `\U`, or a
    /// surrogate.
    UnknownText,
    /// These bytes.
    Bytes(List<u8>),
    /// Bytes that are not known: a malformed `\x`.
    UnknownBytes,
    /// A bytes literal with a character past ASCII, which is no valid literal.
    NotAscii,
}

fn push_char(out: &mut Vec<char>, c: char) -> Result<(), NoMemory>
    ensures { OnOk result (out.new.items ≡ out.old.items ++ c ∷ []) }
{
    out.push(c)?;
    Ok(())
}

// Reads an escape behind its backslash: how many characters it takes, if it is known.
#[tactic(auto, using(crate::proofs::Decoding::escape_joins, crate::proofs::Decoding::escape_adds, crate::proofs::Decoding::escape_unknown))]
fn read_escape(out: &mut Vec<char>, bytes: bool, rest: &[char]) -> Result<Option<usize>, NoMemory>
    ensures { IfOk result (λ next. IsStep bytes 0 92 rest.now out.old.items out.new.items next) }
{
    match escape_at(bytes, rest) {
        Escape::Unknown => Ok(None),
        Escape::Joined(len) => Ok(Some(len)),
        Escape::Char(c, len) => {
            push_char(out, c)?;
            Ok(Some(len))
        }
        Escape::Kept => {
            push_char(out, '\\')?;
            Ok(Some(0))
        }
    }
}

// Reads a character: how many characters behind it are part of it, if they are known.
#[tactic(auto, using(crate::proofs::Decoding::char_adds, crate::proofs::Decoding::skips))]
fn read_char(
    out: &mut Vec<char>,
    bytes: bool,
    skip: usize,
    c: char,
    rest: &[char],
) -> Result<Option<usize>, NoMemory>
    ensures { IfOk result (λ next. IsStep bytes skip c rest.now out.old.items out.new.items next) }
{
    if skip > 0 {
        return Ok(Some(skip - 1));
    }
    if c == '\\' {
        let next = read_escape(out, bytes, rest)?;
        return Ok(next);
    }
    push_char(out, c)?;
    Ok(Some(0))
}

// The characters of the inside of a string with its escapes, where all are known.
fn decode(alloc: Global, bytes: bool, body: &[char]) -> Result<Option<Vec<char>>, NoMemory>
    ensures { IfOk result (λ found. option_map (λ v. v.items) found ≡ decode bytes 0 body.now) }
{
    let mut out = Vec::new(alloc);
    let mut skip = 0;
    for i in 0..body.len() {
        match read_char(&mut out, bytes, skip, body[i], &body[i + 1..])? {
            None => return Ok(None),
            Some(next) => skip = next,
        }
    }
    Ok(Some(out))
}

fn decoded(
    alloc: Global,
    raw: bool,
    bytes: bool,
    body: &[char],
) -> Result<Option<Vec<char>>, NoMemory>
    ensures { IfOk result (λ found. option_map (λ v. v.items) found ≡ decoded raw bytes body.now) }
{
    if !raw {
        return decode(alloc, bytes, body);
    }
    let out = Vec::from_slice(alloc, body)?;
    Ok(Some(out))
}

fn low_byte(c: char) -> u8
    ensures { result ≡ low_byte c }
{
    (c as u32 % 256) as u8
}

fn is_ascii(c: char) -> bool
    ensures { result ≡ is_ascii c }
{
    c < '\u{80}'
}

fn text_of_chars(alloc: Global, characters: &[char]) -> Result<Text, NoMemory>
    ensures { IfOk result (λ text. text ≡ encode_utf8_all characters.now) }
{
    let string = characters.iter().copied().collect(alloc)?;
    Ok(Text::from_string(string))
}

fn low_bytes(alloc: Global, characters: &[char]) -> Result<List<u8>, NoMemory>
    ensures { IfOk result (λ bytes. bytes ≡ map low_byte characters.now) }
{
    let bytes = characters.iter().map(|c| low_byte(*c)).collect(alloc)?;
    Ok(List::from_vec(bytes))
}

fn text_value(alloc: Global, found: Option<Vec<char>>) -> Result<StringValue, NoMemory>
    ensures { IfOk result (λ value. value ≡ text_value (option_map (λ v. v.items) found)) }
{
    match found {
        None => Ok(StringValue::UnknownText),
        Some(characters) => Ok(StringValue::Text(text_of_chars(alloc, &characters)?)),
    }
}

fn bytes_value(alloc: Global, found: Option<Vec<char>>) -> Result<StringValue, NoMemory>
    ensures { IfOk result (λ value. value ≡ bytes_value (option_map (λ v. v.items) found)) }
{
    match found {
        None => Ok(StringValue::UnknownBytes),
        Some(characters) => Ok(StringValue::Bytes(low_bytes(alloc, &characters)?)),
    }
}

fn all_ascii(body: &[char]) -> bool
    ensures { result ≡ list_all is_ascii body.now }
{
    body.iter().all(|c| is_ascii(*c))
}

fn literal_value(
    alloc: Global,
    raw: bool,
    bytes: bool,
    body: &[char],
) -> Result<StringValue, NoMemory>
    ensures { IfOk result (λ value. value ≡ literal_value raw bytes body.now) }
{
    if !bytes {
        let found = decoded(alloc, raw, false, body)?;
        return text_value(alloc, found);
    }
    if !all_ascii(body) {
        return Ok(StringValue::NotAscii);
    }
    let found = decoded(alloc, raw, true, body)?;
    bytes_value(alloc, found)
}

fn in_prefix(letter: char, capital: char, len: usize, text: &[char]) -> bool
    ensures { result ≡ in_prefix letter capital len text.now }
{
    (0 < len && is_letter(letter, capital, char_at(text, 0)))
        || (1 < len && is_letter(letter, capital, char_at(text, 1)))
}

fn prefix_len(opening: Opening) -> usize
    ensures { result ≡ prefix_len opening }
{
    opening.len.saturating_sub(closing_len(opening.quotes))
}

// What stands between the quotes.
fn body_of(opening: Opening, text: &[char]) -> &[char]
    ensures { result.now ≡ body_of opening text.now }
{
    if opening.len > text.len() {
        return &[];
    }
    let behind = &text[opening.len..];
    let len = behind.len().saturating_sub(closing_len(opening.quotes));
    &behind[..len]
}

fn value_of(alloc: Global, text: &[char]) -> Result<Option<StringValue>, NoMemory>
    ensures { IfOk result (λ value. value ≡ string_value text.now) }
{
    match string_opening(text) {
        None => Ok(None),
        Some(opening) if opening.formatted => Ok(None),
        Some(opening) => {
            let prefix = prefix_len(opening);
            let raw = in_prefix('r', 'R', prefix, text);
            let bytes = in_prefix('b', 'B', prefix, text);
            let value = literal_value(alloc, raw, bytes, body_of(opening, text))?;
            Ok(Some(value))
        }
    }
}

/// The value of a string or bytes literal, by its spelling with prefix and quotes; `None` where the
/// text does not begin as one, and for an f-string (Python 3.12 language reference, 2.4.1). Line
/// ends stay as written. The text's end is taken for the closing quotes, and is not looked at.
pub fn string_value(alloc: Global, text: &str) -> Result<Option<StringValue>, NoMemory>
    ensures { IfOk result (λ value. value ≡ string_value (chars text.now)) }
{
    let text = characters(alloc, text)?;
    let value = value_of(alloc, &text)?;
    Ok(value)
}
