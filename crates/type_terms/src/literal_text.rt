//! How literal values are written.
ghost use Rattle.std.specs.Prelude.{◌≡◌, ◌++◌, ◌∷◌, [], IfOk, OnOk, IfSome, nat_lt, length, take, codes, if◌then◌else◌, ◌<◌, ◌/◌, ◌%◌, string_bytes};
ghost use Rattle.std.specs.Char.{digit_char};
ghost use Rattle.std.specs.List.{flat_map};
ghost use Rattle.std.specs.Str.{chars};
ghost use Rattle.std.specs.Fmt.{signed_decimal};
ghost use Rattle.type_terms.specs.LiteralText.{escape, char_text, byte_text, shortened, bool_text, member_text, literal_value_text, literal_text as text_of_literal};
ghost use Rattle.type_terms.specs.View.{meaning_of};

use crate::copy::no_memory;
use crate::literal::Literal;
use crate::view::View;
use crate::words::first_few;
use py_base::{ClassId, NoMemory, Text};
use std::alloc::Global;

/// How many characters of a text, or bytes of a bytes literal, are written.
const MOST: usize = 50;

/// What stands behind the backslash of a character that is written with one.
fn escape_letter(c: char) -> Option<char>
    ensures value { result ≡ escape c }
    ensures ascii { IfSome result (λ letter. letter < 128) }
{
    match c {
        '\\' => Some('\\'),
        '"' => Some('"'),
        '\n' => Some('n'),
        '\r' => Some('r'),
        '\t' => Some('t'),
        _ => None,
    }
}

fn push_escaped(out: &mut String, letter: char) -> Result<(), NoMemory>
    requires { letter < 128 }
    ensures { OnOk result (string_bytes out.new ≡ string_bytes out.old ++ 92 ∷ letter ∷ []) }
{
    out.push('\\').map_err(no_memory)?;
    out.push(letter).map_err(no_memory)
}

fn push_char(out: &mut String, c: char) -> Result<(), NoMemory>
    ensures { OnOk result (string_bytes out.new ≡ string_bytes out.old ++ char_text c) }
{
    match escape_letter(c) {
        Some(letter) => push_escaped(out, letter),
        None => out.push(c).map_err(no_memory),
    }
}

fn push_chars(out: &mut String, chars: &[char]) -> Result<(), NoMemory>
    ensures { OnOk result (string_bytes out.new ≡ string_bytes out.old ++ flat_map char_text chars.now) }
{
    for c in chars {
        push_char(out, *c)?;
    }
    Ok(())
}

fn push_dots(out: &mut String, more: bool) -> Result<(), NoMemory>
    ensures { OnOk result (string_bytes out.new ≡ string_bytes out.old ++ (if more then codes "..." else [])) }
{
    if more {
        out.push_str("...").map_err(no_memory)
    } else {
        Ok(())
    }
}

fn characters(alloc: Global, text: &str) -> Result<Vec<char>, NoMemory>
    ensures { IfOk result (λ all. all.items ≡ chars text.now) }
{
    text.chars().collect(alloc).map_err(no_memory)
}

/// The first characters of a text, and dots where there are more.
fn push_text(alloc: Global, out: &mut String, text: &str) -> Result<(), NoMemory>
    ensures { OnOk result (string_bytes out.new ≡ string_bytes out.old ++ shortened char_text (chars text.now)) }
{
    let all = characters(alloc, text)?;
    let (first, more) = first_few(all.as_slice(), MOST);
    push_chars(out, first)?;
    push_dots(out, more)
}

/// A hexadecimal digit in lower case.
fn hex_digit(value: u8) -> char
    requires { value < 16 }
    ensures value { result ≡ digit_char value }
    ensures ascii { result < 128 }
{
    if value < 10 {
        (b'0' + value) as char
    } else {
        (b'a' + (value - 10)) as char
    }
}

fn push_hex(out: &mut String, b: u8) -> Result<(), NoMemory>
    ensures { OnOk result (string_bytes out.new ≡ string_bytes out.old ++ 92 ∷ 120 ∷ digit_char (b / 16) ∷ digit_char (b % 16) ∷ []) }
{
    out.push_str("\\x").map_err(no_memory)?;
    out.push(hex_digit(b / 16)).map_err(no_memory)?;
    out.push(hex_digit(b % 16)).map_err(no_memory)
}

fn push_byte(out: &mut String, b: u8) -> Result<(), NoMemory>
    ensures { OnOk result (string_bytes out.new ≡ string_bytes out.old ++ byte_text b) }
{
    if let Some(letter) = escape_letter(b as char) {
        return push_escaped(out, letter);
    }
    if 32 <= b && b <= 126 {
        return out.push(b as char).map_err(no_memory);
    }
    push_hex(out, b)
}

fn push_bytes(out: &mut String, bytes: &[u8]) -> Result<(), NoMemory>
    ensures { OnOk result (string_bytes out.new ≡ string_bytes out.old ++ flat_map byte_text bytes.now) }
{
    for b in bytes {
        push_byte(out, *b)?;
    }
    Ok(())
}

/// The first bytes of a bytes literal, and dots where there are more.
fn push_bytes_literal(out: &mut String, bytes: &[u8]) -> Result<(), NoMemory>
    ensures { OnOk result (string_bytes out.new ≡ string_bytes out.old ++ shortened byte_text bytes.now) }
{
    let (first, more) = first_few(bytes, MOST);
    push_bytes(out, first)?;
    push_dots(out, more)
}

fn push_number(alloc: Global, out: &mut String, number: i128) -> Result<(), NoMemory>
    ensures { OnOk result (string_bytes out.new ≡ string_bytes out.old ++ signed_decimal number) }
{
    let digits = number.to_string(alloc).map_err(no_memory)?;
    out.push_str(digits.as_str()).map_err(no_memory)
}

fn push_bool(out: &mut String, value: bool) -> Result<(), NoMemory>
    ensures { OnOk result (string_bytes out.new ≡ string_bytes out.old ++ bool_text value) }
{
    out.push_str(if value { "True" } else { "False" })
        .map_err(no_memory)
}

/// The member of an enum at a place, by the names of the class and of the member.
fn push_member<V: View>(
    out: &mut String,
    class: ClassId,
    place: usize,
    view: &V,
) -> Result<(), NoMemory>
    ensures { OnOk result (string_bytes out.new ≡ string_bytes out.old ++ member_text (meaning_of (V.assignment view.now) (V.names view.now) (V.facts view.now) (V.view view.now)) class place) }
{
    let name = match view.enum_members(class).get(place) {
        Some(name) => view.word(*name),
        None => "",
    };
    out.push_str(view.class_word(class)).map_err(no_memory)?;
    out.push('.').map_err(no_memory)?;
    out.push_str(name).map_err(no_memory)
}

fn push_value<V: View>(
    alloc: Global,
    out: &mut String,
    value: &Literal,
    view: &V,
) -> Result<(), NoMemory>
    ensures { OnOk result (string_bytes out.new ≡ string_bytes out.old ++ literal_value_text (meaning_of (V.assignment view.now) (V.names view.now) (V.facts view.now) (V.view view.now)) value.now) }
{
    match value {
        Literal::Int(number) => push_number(alloc, out, *number),
        Literal::Bool(value) => push_bool(out, *value),
        Literal::Str(text) => {
            out.push('"').map_err(no_memory)?;
            push_text(alloc, out, text.as_str())?;
            out.push('"').map_err(no_memory)
        }
        Literal::Bytes(bytes) => {
            out.push_str("b\"").map_err(no_memory)?;
            push_bytes_literal(out, bytes.as_slice())?;
            out.push('"').map_err(no_memory)
        }
        Literal::Member(class, place) => push_member(out, *class, *place, view),
    }
}

/// The text of a literal as a member of a type.
pub(crate) fn literal_text<V: View>(
    alloc: Global,
    value: &Literal,
    view: &V,
) -> Result<Text, NoMemory>
    ensures { IfOk result (λ text. text ≡ text_of_literal (meaning_of (V.assignment view.now) (V.names view.now) (V.facts view.now) (V.view view.now)) value.now) }
{
    let mut out = String::from_str(alloc, "Literal[").map_err(no_memory)?;
    push_value(alloc, &mut out, value, view)?;
    out.push(']').map_err(no_memory)?;
    Ok(Text::from_string(out))
}
