//! Lines and columns of a text's characters.

use crate::lines::MOST_BYTES;
use py_base::{LineMap, NoMemory, Place};
use std::alloc::{AllocError, Global};

fn place_fact(alloc: Global, offset: u32, place: Place) -> Result<String, AllocError> {
    format!(in alloc; "{offset}: {} {}", place.line, place.col)
}

/// A fact for each offset of a text: its line and its column, counted from 0.
pub fn facts(alloc: Global, source: &str) -> Result<Vec<String>, NoMemory> {
    if source.len() > MOST_BYTES {
        return Err(NoMemory);
    }
    let map = LineMap::new(alloc, source)?;
    let mut facts = Vec::new(alloc);
    for offset in 0..map.char_count() {
        facts.push(place_fact(alloc, offset, map.place(offset))?)?;
    }
    let end = map.char_count();
    facts.push(place_fact(alloc, end, map.place(end))?)?;
    Ok(facts)
}
