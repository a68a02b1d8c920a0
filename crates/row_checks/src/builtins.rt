//! What the language brings along, as words.
//!
//! A source has words: `builtins`, builtin classes and modules. A fact is a row of one of them: a name with its type and,
//! where it is a function, the row of that; a call of a class; a method or an attribute of a class. Each name of the
//! language is asked, so a row that is found and not wanted shows as well as one that is missing.

use builtin_rows::{Builtins, row_word, takes};
use py_base::language_names::LANGUAGE_NAMES;
use py_base::{Builtin, ClassId, List, NameId, NoMemory, Text};
use std::alloc::{AllocError, Global};
use std::collections::BTreeMap;
use std::fmt::Write;
use type_terms::facts::{FuncKind, FuncRow};
use type_terms::plain::{PlainFacts, PlainTypes, PlainView};
use type_terms::text::type_text;
use type_terms::{Atom, BuiltinTable, Row, RowResult, Type};

/// How many names the language has.
const NAME_COUNT: u32 = 345;

/// How many of them are the names of builtin classes, which come first.
const CLASS_COUNT: u32 = Builtin::COUNT as u32;

/// Counts of arguments below this one are tried.
const ARGUMENT_COUNTS: u32 = 10;

/// Whose names are asked.
#[derive(Clone, Copy)]
enum Owner {
    /// What every module sees.
    Builtins,
    Class(ClassId),
    Module(NameId),
}

// The name of the language that has this number.
fn word(number: u32) -> &'static str {
    match LANGUAGE_NAMES.get(number as usize) {
        Some(name) => *name,
        None => "?",
    }
}

fn name_words(alloc: Global) -> Result<BTreeMap<NameId, Text>, NoMemory> {
    let mut words = BTreeMap::new(alloc);
    for number in 0..NAME_COUNT {
        words.insert(NameId(number), Text::from_str(alloc, word(number))?)?;
    }
    Ok(words)
}

fn class_words(alloc: Global) -> Result<BTreeMap<ClassId, Text>, NoMemory> {
    let mut words = BTreeMap::new(alloc);
    for number in 0..NAME_COUNT {
        words.insert(ClassId(number), Text::from_str(alloc, word(number))?)?;
    }
    Ok(words)
}

fn no_facts(alloc: Global) -> PlainFacts {
    PlainFacts {
        classes: BTreeMap::new(alloc),
        members: BTreeMap::new(alloc),
        specials: BTreeMap::new(alloc),
        enums: BTreeMap::new(alloc),
        func_nodes: BTreeMap::new(alloc),
        funcs: BTreeMap::new(alloc),
        other_func: FuncRow {
            kind: FuncKind::Plain,
            params: List::new(alloc),
            result: None,
            guard: false,
            is_async: false,
            is_generator: false,
        },
        around: BTreeMap::new(alloc),
        slots: BTreeMap::new(alloc),
    }
}

// The words of names and classes.
fn all_words(alloc: Global) -> Result<PlainView, NoMemory> {
    Ok(PlainView {
        types: PlainTypes {
            types: BTreeMap::new(alloc),
        },
        facts: no_facts(alloc),
        params: BTreeMap::new(alloc),
        words: name_words(alloc)?,
        class_words: class_words(alloc)?,
        row_words: BTreeMap::new(alloc),
    })
}

fn show_type(
    alloc: Global,
    out: &mut String,
    words: &mut PlainView,
    ty: &Type,
) -> Result<(), NoMemory> {
    match type_text(alloc, ty, words) {
        Ok(text) => Ok(out.push_str(text.as_str())?),
        Err(_) => Err(NoMemory),
    }
}

// What a row gives by its arguments.
fn show_form(out: &mut String, form: &RowResult) -> Result<(), AllocError> {
    match form {
        RowResult::Fixed(_) => Ok(()),
        RowResult::Nothing => write!(out, "nothing"),
        RowResult::Magnitude => write!(out, "magnitude of 0"),
        RowResult::Extreme => write!(out, "extreme"),
        RowResult::Sum => write!(out, "sum of 0"),
        RowResult::Rounded => write!(out, "rounded 0"),
        RowResult::Iterated(class, argument) => {
            write!(out, "new {} of items of {argument}", word(class.0))
        }
        RowResult::Mapped => write!(out, "new Iterable of results of 0"),
        RowResult::Numbered => write!(out, "new Iterable of int and items of 0"),
        RowResult::Zipped => write!(out, "new Iterable of items of each"),
        RowResult::FirstArgument => write!(out, "argument 0"),
        RowResult::SuperAround => write!(out, "super"),
        RowResult::Unfilled(class) => write!(out, "new {} of Unknown", word(class.0)),
        RowResult::ClassOfEach => write!(out, "class of 0"),
        RowResult::EnumMembers => write!(out, "members"),
        RowResult::Receiver => write!(out, "receiver"),
        RowResult::Slot(slot) => write!(out, "slot {slot}"),
        RowResult::SlotOrNone(slot) => write!(out, "slot {slot} or None"),
        RowResult::SlotOrArgument(slot) => write!(out, "slot {slot} or argument 1"),
        RowResult::IterableOfSlot(slot) => write!(out, "new Iterable of slot {slot}"),
        RowResult::IterableOfEntries => write!(out, "new Iterable of slot 0 and slot 1"),
    }
}

fn show_result(
    alloc: Global,
    out: &mut String,
    words: &mut PlainView,
    form: &RowResult,
) -> Result<(), NoMemory> {
    match form {
        RowResult::Fixed(ty) => show_type(alloc, out, words, ty),
        _ => Ok(show_form(out, form)?),
    }
}

fn show_span(out: &mut String, least: u32, most: u32) -> Result<(), AllocError> {
    if least == most {
        write!(out, "{least}")
    } else {
        write!(out, "{least}-{most}")
    }
}

fn show_least(out: &mut String, least: u32) -> Result<(), AllocError> {
    if least == 0 {
        write!(out, "..")
    } else {
        write!(out, "{least}..")
    }
}

fn show_range(out: &mut String, row: &Row) -> Result<(), AllocError> {
    match row.most {
        Some(most) => show_span(out, row.least, most),
        None => show_least(out, row.least),
    }
}

fn is_between(row: &Row, count: u32) -> bool {
    row.least <= count && count <= row.most.unwrap_or(count)
}

// A count that is taken and lies outside, or isn't and lies between.
fn show_other(out: &mut String, row: &Row, count: u32) -> Result<(), AllocError> {
    if takes(row, count) == is_between(row, count) {
        Ok(())
    } else {
        write!(out, ", not {count}")
    }
}

fn show_others(out: &mut String, row: &Row) -> Result<(), AllocError> {
    for count in 0..ARGUMENT_COUNTS {
        show_other(out, row, count)?;
    }
    Ok(())
}

fn show_arguments(out: &mut String, row: &Row) -> Result<(), AllocError> {
    if !row.called {
        return write!(out, ": ");
    }
    write!(out, "(")?;
    show_range(out, row)?;
    show_others(out, row)?;
    write!(out, ") -> ")
}

fn show_row(
    alloc: Global,
    out: &mut String,
    builtins: &Builtins,
    words: &mut PlainView,
    number: u32,
) -> Result<(), NoMemory> {
    let row = builtins.row(number);
    out.push_str(row_word(number))?;
    show_arguments(out, row)?;
    show_result(alloc, out, words, &row.result)
}

// A type, and the row of a builtin function.
fn show_value(
    alloc: Global,
    out: &mut String,
    builtins: &Builtins,
    words: &mut PlainView,
    ty: &Type,
) -> Result<(), NoMemory> {
    match ty.members() {
        [Atom::BuiltFunc(row)] => {
            out.push_str("def ")?;
            show_row(alloc, out, builtins, words, *row)
        }
        _ => show_type(alloc, out, words, ty),
    }
}

// A name and what it is, where it is something.
fn name_fact(
    alloc: Global,
    builtins: &Builtins,
    words: &mut PlainView,
    name: &str,
    found: Option<&Type>,
) -> Result<Option<String>, NoMemory> {
    match found {
        Some(ty) => {
            let mut out = format!(in alloc; "{name}: ")?;
            show_value(alloc, &mut out, builtins, words, ty)?;
            Ok(Some(out))
        }
        None => Ok(None),
    }
}

// A row behind what it is a row of, where there is one.
fn row_fact(
    alloc: Global,
    builtins: &Builtins,
    words: &mut PlainView,
    owner: &str,
    found: Option<u32>,
) -> Result<Option<String>, NoMemory> {
    match found {
        Some(row) => {
            let mut out = String::from_str(alloc, owner)?;
            show_row(alloc, &mut out, builtins, words, row)?;
            Ok(Some(out))
        }
        None => Ok(None),
    }
}

fn builtin_fact(
    alloc: Global,
    builtins: &Builtins,
    words: &mut PlainView,
    number: u32,
) -> Result<Option<String>, NoMemory> {
    let found = builtins.name(NameId(number));
    name_fact(alloc, builtins, words, word(number), found)
}

fn module_fact(
    alloc: Global,
    builtins: &Builtins,
    words: &mut PlainView,
    owner: NameId,
    number: u32,
) -> Result<Option<String>, NoMemory> {
    let name = format!(in alloc; "{}.{}", word(owner.0), word(number))?;
    let found = builtins.module_name(owner, NameId(number));
    name_fact(alloc, builtins, words, name.as_str(), found)
}

fn method_fact(
    alloc: Global,
    builtins: &Builtins,
    words: &mut PlainView,
    class: ClassId,
    number: u32,
) -> Result<Option<String>, NoMemory> {
    let owner = format!(in alloc; "{}.", word(class.0))?;
    let found = builtins.method(class, NameId(number));
    row_fact(alloc, builtins, words, owner.as_str(), found)
}

// What an owner has under the name of this number.
fn fact_of(
    alloc: Global,
    builtins: &Builtins,
    words: &mut PlainView,
    owner: Owner,
    number: u32,
) -> Result<Option<String>, NoMemory> {
    match owner {
        Owner::Builtins => builtin_fact(alloc, builtins, words, number),
        Owner::Class(class) => method_fact(alloc, builtins, words, class, number),
        Owner::Module(module) => module_fact(alloc, builtins, words, module, number),
    }
}

fn call_fact(
    alloc: Global,
    builtins: &Builtins,
    words: &mut PlainView,
    owner: Owner,
) -> Result<Option<String>, NoMemory> {
    match owner {
        Owner::Class(class) => row_fact(alloc, builtins, words, "", builtins.class_call(class)),
        _ => Ok(None),
    }
}

fn add_fact(facts: &mut Vec<String>, fact: Option<String>) -> Result<(), NoMemory> {
    match fact {
        Some(fact) => Ok(facts.push(fact)?),
        None => Ok(()),
    }
}

// The number of a name of the language.
fn number_of(text: &str) -> Option<u32> {
    for number in 0..NAME_COUNT {
        if word(number) == text {
            return Some(number);
        }
    }
    None
}

fn owner_of(text: &str) -> Owner {
    match number_of(text) {
        Some(number) if number < CLASS_COUNT => Owner::Class(ClassId(number)),
        Some(number) => Owner::Module(NameId(number)),
        None => Owner::Builtins,
    }
}

// Adds what an owner has.
fn add_owner(
    alloc: Global,
    builtins: &Builtins,
    words: &mut PlainView,
    owner: Owner,
    facts: &mut Vec<String>,
) -> Result<(), NoMemory> {
    add_fact(facts, call_fact(alloc, builtins, words, owner)?)?;
    for number in 0..NAME_COUNT {
        add_fact(facts, fact_of(alloc, builtins, words, owner, number)?)?;
    }
    Ok(())
}

/// A fact for each row of what a source names.
pub fn facts(alloc: Global, source: &str) -> Result<Vec<String>, NoMemory> {
    let builtins = Builtins::new(alloc)?;
    let mut words = all_words(alloc)?;
    let mut facts = Vec::new(alloc);
    for text in source.split_whitespace() {
        add_owner(alloc, &builtins, &mut words, owner_of(text), &mut facts)?;
    }
    Ok(facts)
}
