//! Faulty lines.

use crate::sources::{first_line, module_of};
use py_base::{NoMemory, Span};
use py_blocks::LineFaultKind;
use py_stmts::Module;
use std::alloc::{AllocError, Global};

// The words of a span of characters.
fn words_of<'a>(source: &'a str, span: Span) -> &'a str {
    let from = source.char_indices().nth(span.from as usize);
    let (from, _) = from.unwrap_or((source.len(), ' '));
    first_line(source.get(from..).unwrap_or(""))
}

fn fault_fact(
    alloc: Global,
    source: &str,
    span: Span,
    kind: LineFaultKind,
) -> Result<String, AllocError> {
    format!(in alloc; "{}: {kind:?}", words_of(source, span))
}

/// The faulty lines, by their words, and what is wrong with each.
pub fn facts(alloc: Global, source: &str) -> Result<Vec<String>, NoMemory> {
    let mut facts = Vec::new(alloc);
    let found = module_of(alloc, source)?;
    for (span, kind) in found.faults.as_slice() {
        facts.push(fault_fact(alloc, source, *span, *kind)?)?;
    }
    Ok(facts)
}
