//! What a name has: the rows of that name, and the modules that have it.
ghost use Rattle.std.specs.Prelude.{◌≡◌, ◌++◌, ◌<◌, ◌^◌, map, length, slice_get, IfOk, OnOk};
ghost use Rattle.std.specs.Option.{option_copied};
ghost use Rattle.builtin_rows.specs.Lines.{row_in, entry_in};
ghost use Rattle.builtin_rows.specs.Held.{asked, held_one, held_from, member_one, members_of, number_among, type_among};
ghost use Rattle.builtin_rows.specs.Rows.{is_call, is_method_of};
ghost use Rattle.builtin_rows.specs.Table.{rows, entries};

use crate::table::{ENTRIES, Entry, Line, Owner, ROWS};
use crate::types::{meaning_type, name_number};
use py_base::{ClassId, List, NoMemory};
use std::alloc::Global;
use type_terms::Type;

/// A row of a name: whose it is, and its number.
#[derive(Clone, Copy)]
pub(crate) struct Held {
    pub(crate) owner: Owner,
    pub(crate) number: u32,
}

/// A name of a module, by the number of the module's name, and its type.
#[derive(Drop)]
pub(crate) struct Member {
    pub(crate) owner: u32,
    pub(crate) ty: Type,
}

// Adds the row, if it has this name.
fn add_row(held: &mut List<Held>, line: &Line, number: u32, text: &str) -> Result<(), NoMemory>
    ensures { OnOk result (held.new ≡ held.old ++ held_one text.now number (row_in line.now)) }
{
    if text == line.1 {
        held.push(Held {
            owner: line.0,
            number,
        })?;
    }
    Ok(())
}

// The rows with this name.
fn rows_named(alloc: Global, lines: &[Line], text: &str) -> Result<List<Held>, NoMemory>
    requires { length lines.now < 2 ^ 32 }
    ensures { IfOk result (λ held. held ≡ held_from text.now 0 (map row_in lines.now)) }
{
    let mut held = List::new(alloc);
    for (number, line) in lines.iter().enumerate() {
        add_row(&mut held, line, number as u32, text)?;
    }
    Ok(held)
}

// Adds the name of a module, if it is this one.
fn add_member(
    alloc: Global,
    members: &mut List<Member>,
    entry: &Entry,
    text: &str,
) -> Result<(), NoMemory>
    ensures { OnOk result (members.new ≡ members.old ++ member_one text.now (entry_in entry.now)) }
{
    if text == entry.1 {
        let owner = name_number(entry.0);
        let ty = meaning_type(alloc, entry.1, entry.2)?;
        members.push(Member { owner, ty })?;
    }
    Ok(())
}

// The modules that have this name, and what it is there.
fn members_named(alloc: Global, lines: &[Entry], text: &str) -> Result<List<Member>, NoMemory>
    ensures { IfOk result (λ members. members ≡ members_of text.now (map entry_in lines.now)) }
{
    let mut members = List::new(alloc);
    for entry in lines {
        add_member(alloc, &mut members, entry, text)?;
    }
    Ok(members)
}

// The rows of the table with this name.
fn rows_with(alloc: Global, text: &str) -> Result<List<Held>, NoMemory>
    ensures { IfOk result (λ held. held ≡ held_from text.now 0 rows) }
{
    rows_named(alloc, &ROWS, text)
}

// The modules of the table that have this name.
fn members_with(alloc: Global, text: &str) -> Result<List<Member>, NoMemory>
    ensures { IfOk result (λ members. members ≡ members_of text.now entries) }
{
    members_named(alloc, &ENTRIES, text)
}

/// For each of these names the rows with that name.
pub(crate) fn held_of(alloc: Global, names: &[&str]) -> Result<List<List<Held>>, NoMemory>
    ensures { IfOk result (λ held. held ≡ map (λ text. held_from text 0 rows) (map (λ n. n.now) names.now)) }
{
    let mut held = List::new(alloc);
    for name in names {
        held.push(rows_with(alloc, *name)?)?;
    }
    Ok(held)
}

/// For each of these names the modules that have it.
pub(crate) fn members_of(alloc: Global, names: &[&str]) -> Result<List<List<Member>>, NoMemory>
    ensures { IfOk result (λ members. members ≡ map (λ text. members_of text entries) (map (λ n. n.now) names.now)) }
{
    let mut members = List::new(alloc);
    for name in names {
        members.push(members_with(alloc, *name)?)?;
    }
    Ok(members)
}

fn is_call(owner: Owner) -> bool
    ensures { result ≡ is_call owner }
{
    matches!(owner, Owner::Call)
}

fn is_method_of(class: ClassId, owner: Owner) -> bool
    ensures { result ≡ is_method_of class owner }
{
    match owner {
        Owner::Method(builtin) => builtin.id().0 == class.0,
        _ => false,
    }
}

/// The row of a call among these.
fn call_among(held: &[Held]) -> Option<u32>
    ensures { result ≡ number_among is_call held.now }
{
    for row in held {
        if is_call(row.owner) {
            return Some(row.number);
        }
    }
    None
}

/// The row of a class's method among these.
fn method_among(held: &[Held], class: ClassId) -> Option<u32>
    ensures { result ≡ number_among (is_method_of class) held.now }
{
    for row in held {
        if is_method_of(class, row.owner) {
            return Some(row.number);
        }
    }
    None
}

/// The type that a module gives among these.
fn type_among(members: &[Member], owner: u32) -> Option<&Type>
    ensures { option_copied result ≡ type_among owner members.now }
{
    for member in members {
        if member.owner == owner {
            return Some(&member.ty);
        }
    }
    None
}

/// The row of a call of the class whose name has this place.
pub(crate) fn call_at(held: &List<List<Held>>, place: usize) -> Option<u32>
    ensures { result ≡ asked (number_among is_call) (slice_get held.now place) }
{
    match held.get(place) {
        Some(rows) => call_among(rows.as_slice()),
        None => None,
    }
}

/// The row of the method of a class whose name has this place.
pub(crate) fn method_at(held: &List<List<Held>>, class: ClassId, place: usize) -> Option<u32>
    ensures { result ≡ asked (number_among (is_method_of class)) (slice_get held.now place) }
{
    match held.get(place) {
        Some(rows) => method_among(rows.as_slice(), class),
        None => None,
    }
}

/// The type in a module of the name that has this place.
pub(crate) fn type_at(members: &List<List<Member>>, owner: u32, place: usize) -> Option<&Type>
    ensures { option_copied result ≡ asked (type_among owner) (slice_get members.now place) }
{
    match members.get(place) {
        Some(members) => type_among(members.as_slice(), owner),
        None => None,
    }
}
