//! Lists of texts: what the program publishes.

use py_base::{Diag, NoMemory};
use serial_session::list_text;
use std::alloc::{AllocError, Global};

// A diagnostic: its place, its rule and its text.
fn diag_fact(alloc: Global, diag: &Diag) -> Result<String, AllocError> {
    let [line, column, end_line, end_column] = diag.at;
    let rule = diag.rule.name();
    format!(in alloc;
        "{line} {column} {end_line} {end_column} {rule} {}",
        diag.text.as_str()
    )
}

/// A fact for each diagnostic of a text.
pub fn facts(alloc: Global, source: &str) -> Result<Vec<String>, NoMemory> {
    let mut facts = Vec::new(alloc);
    for diag in list_text(alloc, source)?.as_slice() {
        facts.push(diag_fact(alloc, diag)?)?;
    }
    Ok(facts)
}
