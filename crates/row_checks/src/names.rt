//! Names of the language.

use py_base::NoMemory;
use py_base::language_names::LANGUAGE_NAMES;
use std::alloc::Global;

/// A fact for each of the names of a source, parted by blanks and line ends, that the language hasn't.
pub fn facts(alloc: Global, source: &str) -> Result<Vec<String>, NoMemory> {
    let mut facts = Vec::new(alloc);
    for name in source.split_ascii_whitespace() {
        if !LANGUAGE_NAMES.contains(&name) {
            facts.push(String::from_str(alloc, name)?)?;
        }
    }
    Ok(facts)
}
