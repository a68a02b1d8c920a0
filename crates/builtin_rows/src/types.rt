//! The types of builtin names and of names of modules.
ghost use Rattle.std.specs.Prelude.{◌≡◌, ◌<◌, ◌^◌, ◌&&◌, map, length, bytes_eq, IfOk};
ghost use Rattle.std.specs.List.{list_any, position_from};
ghost use Rattle.py_base.specs.LanguageNames.{builtin_names};
ghost use Rattle.builtin_rows.specs.Lines.{row_in};
ghost use Rattle.builtin_rows.specs.Rows.{name_place, name_number, is_class_name, class_type, is_function, is_text_name, builtin_type, builtin_named, meaning_type, row_number};

use crate::result::{instance, list_of_str};
use crate::table::{Line, Meaning, Owner, ROWS};
use py_base::language_names::{BUILTIN_NAMES, LANGUAGE_NAMES};
use py_base::{Builtin, ClassId, List, NameId, NoMemory};
use std::alloc::Global;
use type_terms::{Atom, Type};

fn is_among(names: &[&str], text: &str) -> bool
    ensures { result ≡ list_any (bytes_eq text.now) (map (λ n. n.now) names.now) }
{
    for name in names {
        if text == *name {
            return true;
        }
    }
    false
}

// The place of a name among these; `None` where it is none of them.
fn place_of(names: &[&str], text: &str) -> Option<u32>
    requires { length names.now < 2 ^ 32 }
    ensures { result ≡ position_from (bytes_eq text.now) 0 (map (λ n. n.now) names.now) }
{
    for (place, name) in names.iter().enumerate() {
        if text == *name {
            return Some(place as u32);
        }
    }
    None
}

// The place of a name among those of the language.
fn name_place(text: &str) -> Option<u32>
    ensures { result ≡ name_place text.now }
{
    place_of(&LANGUAGE_NAMES, text)
}

/// The number of a name of the language.
pub(crate) fn name_number(text: &str) -> u32
    ensures { result ≡ name_number text.now }
{
    name_place(text).unwrap_or(0)
}

fn is_function(owner: Owner) -> bool
    ensures { result ≡ is_function owner }
{
    matches!(owner, Owner::Function)
}

fn is_function_named(line: &Line, text: &str) -> bool
    ensures { result ≡ (bytes_eq text.now line.now.1.now && is_function line.now.0) }
{
    text == line.1 && is_function(line.0)
}

fn place_of_function(lines: &[Line], text: &str) -> Option<u32>
    requires { length lines.now < 2 ^ 32 }
    ensures { result ≡ position_from (λ line. bytes_eq text.now line.name && is_function line.owner) 0 (map row_in lines.now) }
{
    for (place, line) in lines.iter().enumerate() {
        if is_function_named(line, text) {
            return Some(place as u32);
        }
    }
    None
}

// The number of the row of a builtin function.
fn function_number(text: &str) -> Option<u32>
    ensures { result ≡ row_number is_function text.now }
{
    place_of_function(&ROWS, text)
}

fn class_type(alloc: Global, text: &str) -> Result<Type, NoMemory>
    ensures { IfOk result (λ ty. ty ≡ class_type text.now) }
{
    Type::one(alloc, Atom::Class(ClassId(name_number(text))))
}

fn is_text_name(text: &str) -> bool
    ensures { result ≡ is_text_name text.now }
{
    text == "__doc__" || text == "__file__" || text == "__name__"
}

// Whether a name is that of a builtin class.
fn is_class_name(text: &str) -> bool
    ensures { result ≡ is_class_name text.now }
{
    match name_place(text) {
        Some(place) => (place as usize) < Builtin::COUNT,
        None => false,
    }
}

// The type of a builtin name that is no function.
fn value_type(alloc: Global, text: &str) -> Result<Type, NoMemory>
    ensures { IfOk result (λ ty. ty ≡ builtin_type text.now None) }
{
    if is_class_name(text) {
        class_type(alloc, text)
    } else if is_text_name(text) {
        instance(alloc, Builtin::Str)
    } else {
        Type::one(alloc, Atom::Unknown)
    }
}

fn builtin_type(alloc: Global, text: &str) -> Result<Type, NoMemory>
    ensures { IfOk result (λ ty. ty ≡ builtin_type text.now (row_number is_function text.now)) }
{
    match function_number(text) {
        Some(number) => Type::one(alloc, Atom::BuiltFunc(number)),
        None => value_type(alloc, text),
    }
}

fn is_builtin(text: &str) -> bool
    ensures { result ≡ list_any (bytes_eq text.now) builtin_names }
{
    is_among(&BUILTIN_NAMES, text)
}

/// The type of a builtin name; `None` exactly where the name is no builtin.
#[tactic(auto, unfolding(crate::specs::Rows::builtin_named))]
fn builtin_named(alloc: Global, text: &str) -> Result<Option<Type>, NoMemory>
    ensures { IfOk result (λ found. found ≡ builtin_named text.now) }
{
    if is_builtin(text) {
        Ok(Some(builtin_type(alloc, text)?))
    } else {
        Ok(None)
    }
}

/// The type of a name of a module.
pub(crate) fn meaning_type(alloc: Global, text: &str, meaning: Meaning) -> Result<Type, NoMemory>
    ensures { IfOk result (λ ty. ty ≡ meaning_type text.now meaning) }
{
    match meaning {
        Meaning::Class => class_type(alloc, text),
        Meaning::ClassObject => Type::one(alloc, Atom::Class(Builtin::Object.id())),
        Meaning::BuiltinFunction => builtin_type(alloc, text),
        Meaning::Special => Type::one(alloc, Atom::Special(NameId(name_number(text)))),
        Meaning::Strs => list_of_str(alloc),
        Meaning::NotKnown => Type::one(alloc, Atom::Unknown),
    }
}

/// The type of each of these names that is a builtin.
pub(crate) fn types_of(alloc: Global, names: &[&str]) -> Result<List<Option<Type>>, NoMemory>
    ensures { IfOk result (λ types. types ≡ map builtin_named (map (λ n. n.now) names.now)) }
{
    let mut types = List::new(alloc);
    for name in names {
        types.push(builtin_named(alloc, *name)?)?;
    }
    Ok(types)
}
