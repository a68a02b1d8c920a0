//! Logical lines with their tokens.

use crate::lines::cut_of;
use py_base::NoMemory;
use py_tokens::{LogicalLine, Token, TokenKind};
use std::alloc::{AllocError, Global};
use std::fmt::Write;

fn word(kind: TokenKind) -> &'static str {
    match kind {
        TokenKind::Name => "name",
        TokenKind::Keyword => "kw",
        TokenKind::Int => "int",
        TokenKind::Float => "float",
        TokenKind::Imag => "imag",
        TokenKind::Str => "str",
        TokenKind::FStart => "f",
        TokenKind::FText => "text",
        TokenKind::FConversion => "conv",
        TokenKind::FEnd => "end",
        TokenKind::Operator => "op",
    }
}

fn show_tokens(out: &mut String, tokens: &[Token]) -> Result<(), AllocError> {
    for token in tokens {
        write!(out, " {}:{}", word(token.kind), token.text.as_str())?;
    }
    Ok(())
}

// The column of a line, its span, its tokens and its fault.
fn line_fact(alloc: Global, line: &LogicalLine) -> Result<String, AllocError> {
    let mut out = format!(in alloc; "{} {}-{}", line.column, line.span.from, line.span.to)?;
    show_tokens(&mut out, line.tokens.as_slice())?;
    if let Some(fault) = line.fault {
        write!(out, " !{fault:?}")?;
    }
    Ok(out)
}

/// A fact for each logical line.
pub fn facts(alloc: Global, source: &str) -> Result<Vec<String>, NoMemory> {
    let mut facts = Vec::new(alloc);
    for line in cut_of(alloc, source)?.lines.as_slice() {
        facts.push(line_fact(alloc, line)?)?;
    }
    Ok(facts)
}
