//! Texts put together from others.
ghost use Rattle.std.specs.Prelude.{◌≡◌, ◌++◌, [], take, length, nat_lt, IfOk, OnOk, string_bytes, codes, if◌then◌else◌, IsTrue};
ghost use Rattle.std.specs.List.{flat_map, list_any};
ghost use Rattle.std.specs.Str.{bytes_eq};
ghost use Rattle.type_terms.specs.Text.{barred, put_last};

use crate::copy::no_memory;
use py_base::{NoMemory, Text};
use sqlite_items::Items;
use std::alloc::Global;

/// Three texts one after another.
pub(crate) fn three(alloc: Global, first: &str, second: &str, third: &str) -> Result<Text, NoMemory>
    ensures { IfOk result (λ all. all ≡ first.now ++ second.now ++ third.now) }
{
    let mut all = String::from_str(alloc, first).map_err(no_memory)?;
    all.push_str(second).map_err(no_memory)?;
    all.push_str(third).map_err(no_memory)?;
    Ok(Text::from_string(all))
}

/// The first so many, and whether there are more.
pub(crate) fn first_few<T>(all: &[T], most: usize) -> (&[T], bool)
    ensures first { result.0.now ≡ take most all.now }
    ensures more { result.1 ≡ nat_lt most (length all.now) }
{
    if all.len() <= most {
        return (all, false);
    }
    let (first, _) = all.split_at(most);
    (first, true)
}

/// A text behind what is written.
pub(crate) fn push_text(all: &mut String, text: &Text) -> Result<(), NoMemory>
    ensures { OnOk result (string_bytes all.new ≡ string_bytes all.old ++ text.now) }
{
    all.push_str(text.as_str()).map_err(no_memory)
}

/// The text behind those before it, unless it is one of them.
pub(crate) fn push_distinct(texts: &mut Items<Text>, text: Text) -> Result<(), NoMemory>
    ensures { OnOk result (texts.new ≡ put_last texts.old text) }
{
    if is_among(texts.as_slice(), text.as_str()) {
        return Ok(());
    }
    texts.push(text).map_err(no_memory)
}

fn is_among(texts: &[Text], text: &str) -> bool
    ensures { result ≡ list_any (bytes_eq text.now) texts.now }
{
    for other in texts {
        if text == other.as_str() {
            return true;
        }
    }
    false
}

/// Texts with a bar between, or `Never` where there is none.
pub(crate) fn with_bars(alloc: Global, texts: &[Text]) -> Result<Text, NoMemory>
    ensures { IfOk result (λ all. all ≡ barred texts.now) }
{
    let Some((first, others)) = texts.split_first() else {
        return Text::from_str(alloc, "Never");
    };
    let mut all = String::from_str(alloc, first.as_str()).map_err(no_memory)?;
    for other in others {
        all.push_str(" | ").map_err(no_memory)?;
        all.push_str(other.as_str()).map_err(no_memory)?;
    }
    Ok(Text::from_string(all))
}
