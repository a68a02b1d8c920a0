//! Class statements by letters, and what their rows say.
//!
//! A source is a table of class statements, parted by ` / `. The words of one are its bases, a letter for a class of
//! the source, a number for a builtin class and `?` for one that is unknown, members, as `1=10`, and `metaclass` for a
//! keyword in its head. A fact is a class with its order, `!` where the bases give none, `open`, `keyword`, and the
//! members that it has.

use crate::nodes::number;
use class_rows::{Base, ClassHead, ClassRows, bases_are_earlier};
use py_base::{Builtin, ClassId, List, NameId, NoMemory, SymId};
use std::alloc::{AllocError, Global};
use std::fmt::Write;

/// The number of the first class of a source.
const FIRST: u32 = Builtin::COUNT as u32;

/// A table has fewer class statements than this.
const MOST_HEADS: usize = 1_073_741_824;

// The class of a letter, or of a number.
fn class_of(word: &str) -> ClassId {
    match word.as_bytes() {
        [letter] if letter.is_ascii_uppercase() => ClassId(FIRST + (*letter - b'A') as u32),
        _ => ClassId(number(word)),
    }
}

fn base_of(word: &str) -> Base {
    match word {
        "?" => Base::Unknown,
        _ => Base::Known(class_of(word)),
    }
}

// Adds what a word says: a member or a base.
fn add_word(head: &mut ClassHead, word: &str) -> Result<(), NoMemory> {
    match word.split_once('=') {
        Some((name, symbol)) => {
            let member = (NameId(number(name)), SymId(number(symbol)));
            head.members.push(member)
        }
        None if word == "metaclass" => {
            head.keyword = true;
            Ok(())
        }
        None => head.bases.push(base_of(word)),
    }
}

fn statement(alloc: Global, text: &str) -> Result<ClassHead, NoMemory> {
    let mut head = ClassHead {
        name: NameId(0),
        bases: List::new(alloc),
        keyword: false,
        members: List::new(alloc),
    };
    for word in text.split_whitespace() {
        add_word(&mut head, word)?;
    }
    Ok(head)
}

fn statements(alloc: Global, source: &str) -> Result<List<ClassHead>, NoMemory> {
    let mut heads = List::new(alloc);
    for text in source.split("/") {
        heads.push(statement(alloc, text)?)?;
    }
    Ok(heads)
}

fn show_class(out: &mut String, class: ClassId) -> Result<(), AllocError> {
    match class.0.checked_sub(FIRST) {
        Some(at) if at < 26 => write!(out, "{} ", (b'A' + at as u8) as char),
        _ => write!(out, "{} ", class.0),
    }
}

fn show_order(out: &mut String, order: &[ClassId]) -> Result<(), AllocError> {
    for class in order {
        show_class(out, *class)?;
    }
    Ok(())
}

fn show_mark(out: &mut String, holds: bool, word: &str) -> Result<(), AllocError> {
    if holds {
        write!(out, "{word} ")
    } else {
        Ok(())
    }
}

fn show_member(
    out: &mut String,
    rows: &ClassRows,
    class: ClassId,
    name: u32,
) -> Result<(), AllocError> {
    match rows.member(class, NameId(name)) {
        Some(symbol) => write!(out, "{name}={} ", symbol.0),
        None => Ok(()),
    }
}

fn show_members(out: &mut String, rows: &ClassRows, class: ClassId) -> Result<(), AllocError> {
    for name in 1..4 {
        show_member(out, rows, class, name)?;
    }
    Ok(())
}

fn show_row(out: &mut String, rows: &ClassRows, class: ClassId) -> Result<(), AllocError> {
    if !rows.has_class(class) {
        return Ok(());
    }
    show_order(out, rows.mro(class))?;
    show_mark(out, !rows.has_order(class), "!")?;
    show_mark(out, rows.is_open(class), "open")?;
    show_mark(out, rows.has_keyword(class), "keyword")?;
    show_members(out, rows, class)
}

// Adds what is said of a class.
fn add_class(
    alloc: Global,
    rows: &ClassRows,
    class: ClassId,
    facts: &mut Vec<String>,
) -> Result<(), NoMemory> {
    let mut out = String::new(alloc);
    show_row(&mut out, rows, class)?;
    if !out.is_empty() {
        facts.push(String::from_str(alloc, out.as_str().trim_end())?)?;
    }
    Ok(())
}

fn all_classes(alloc: Global, heads: &[ClassHead]) -> Result<Vec<String>, NoMemory> {
    let mut facts = Vec::new(alloc);
    if heads.len() >= MOST_HEADS {
        return Err(NoMemory);
    }
    if !bases_are_earlier(heads) {
        facts.push(String::from_str(alloc, "a later base")?)?;
        return Ok(facts);
    }
    let rows = ClassRows::build(alloc, heads)?;
    for at in 0..26 {
        add_class(alloc, &rows, ClassId(FIRST + at), &mut facts)?;
    }
    Ok(facts)
}

/// A fact for each class of the source.
pub fn facts(alloc: Global, source: &str) -> Result<Vec<String>, NoMemory> {
    let heads = statements(alloc, source)?;
    all_classes(alloc, heads.as_slice())
}
