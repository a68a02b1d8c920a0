//! The value of string literals side by side.
ghost use Rattle.std.specs.Prelude.{◌≡◌, ℕ, List, IfOk, OnOk};
ghost use Rattle.py_base.specs.Tree.{said, IsNamed};
ghost use Rattle.py_grammar.specs.Meaning.{text_value_of, bytes_value_of, text_in, bytes_in, joined_by, said_text, said_bytes};
ghost use Rattle.py_grammar.specs.Found.{item_words, item_by};

use crate::found::Item;
use py_base::{List, NoMemory, Text, Word};
use py_tokens::{StringValue, Token, string_value};
use std::alloc::Global;

// The characters of a literal, where they are known.
#[tactic(auto, unfolding(crate::specs::Meaning::text_in))]
fn text_of(alloc: Global, token: &Token) -> Result<Option<Text>, NoMemory>
    ensures { IfOk result (λ text. text ≡ text_in token.now) }
{
    match string_value(alloc, token.text.as_str())? {
        Some(StringValue::Text(text)) => Ok(Some(text)),
        _ => Ok(None),
    }
}

// The bytes of a literal, where they are known.
#[tactic(auto, unfolding(crate::specs::Meaning::bytes_in))]
fn bytes_of(alloc: Global, token: &Token) -> Result<Option<List<u8>>, NoMemory>
    ensures { IfOk result (λ bytes. bytes ≡ bytes_in token.now) }
{
    match string_value(alloc, token.text.as_str())? {
        Some(StringValue::Bytes(bytes)) => Ok(Some(bytes)),
        _ => Ok(None),
    }
}

fn text_of_item(alloc: Global, item: &Item) -> Result<Option<Text>, NoMemory>
    ensures { IfOk result (λ text. text ≡ item_by text_in item.now) }
{
    match *item {
        Item::Word(token) => text_of(alloc, token),
        Item::Part(_) => Ok(Some(Text::new(alloc))),
    }
}

fn bytes_of_item(alloc: Global, item: &Item) -> Result<Option<List<u8>>, NoMemory>
    ensures { IfOk result (λ bytes. bytes ≡ item_by bytes_in item.now) }
{
    match *item {
        Item::Word(token) => bytes_of(alloc, token),
        Item::Part(_) => Ok(Some(List::new(alloc))),
    }
}

// The characters of all literals together, where they are known.
fn joined_text(alloc: Global, items: &[Item]) -> Result<Option<Text>, NoMemory>
    ensures { IfOk result (λ text. text ≡ joined_by text_in (item_words items.now)) }
{
    let mut value = String::new(alloc);
    for item in items {
        let Some(text) = text_of_item(alloc, item)? else {
            return Ok(None);
        };
        value.push_str(text.as_str())?;
    }
    Ok(Some(Text::from_string(value)))
}

// The bytes of all literals together, where they are known.
fn joined_bytes(alloc: Global, items: &[Item]) -> Result<Option<List<u8>>, NoMemory>
    ensures { IfOk result (λ bytes. bytes ≡ joined_by bytes_in (item_words items.now)) }
{
    let mut value = Vec::new(alloc);
    for item in items {
        let Some(bytes) = bytes_of_item(alloc, item)? else {
            return Ok(None);
        };
        value.extend_from_slice(bytes.as_slice())?;
    }
    Ok(Some(List::from_vec(value)))
}

fn word_of_text(text: Option<Text>) -> Word
    ensures said { (names : List (List ℕ)) → said names result ≡ said_text text }
    ensures named { (names : ℕ) → IsNamed names result }
{
    match text {
        None => Word::Nothing,
        Some(text) => Word::Chars(text),
    }
}

fn word_of_bytes(bytes: Option<List<u8>>) -> Word
    ensures said { (names : List (List ℕ)) → said names result ≡ said_bytes bytes }
    ensures named { (names : ℕ) → IsNamed names result }
{
    match bytes {
        None => Word::Nothing,
        Some(bytes) => Word::Bytes(bytes),
    }
}

/// The word of strings side by side: their characters, where all are known and none is an f-string.
/// `NoMemory` where they could not be stored.
pub fn text_word(alloc: Global, items: &[Item]) -> Result<Word, NoMemory>
    ensures said { IfOk result (λ w. (names : List (List ℕ)) → said names w ≡ said_text (joined_by text_in (item_words items.now))) }
    ensures named { IfOk result (λ w. (names : ℕ) → IsNamed names w) }
{
    let text = joined_text(alloc, items)?;
    Ok(word_of_text(text))
}

/// The word of bytes literals side by side: their bytes, where all are known. `NoMemory` where they
/// could not be stored.
pub fn bytes_word(alloc: Global, items: &[Item]) -> Result<Word, NoMemory>
    ensures said { IfOk result (λ w. (names : List (List ℕ)) → said names w ≡ said_bytes (joined_by bytes_in (item_words items.now))) }
    ensures named { IfOk result (λ w. (names : ℕ) → IsNamed names w) }
{
    let bytes = joined_bytes(alloc, items)?;
    Ok(word_of_bytes(bytes))
}
