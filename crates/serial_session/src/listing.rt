//! The list of a text.
ghost use Rattle.std.specs.Prelude.{◌≡◌, ◌∷◌, [], sum, All, IfOk};
ghost use Rattle.py_tokens.specs.Spans.{IsLineIn};
ghost use Rattle.py_base.specs.Places.{at_of};
ghost use Rattle.serial_session.specs.Listing.{list_of, list_of_lines};
ghost use Rattle.serial_session.specs.Reading.{IsReading};

use crate::form::{Form, form_of};
use crate::line_fault::line_fault;
use crate::typing::typing_diags;
use diagnostics::{Notice, WHOLE_TEXT};
use py_base::{Diag, LineMap, List, NoMemory, Span};
use py_tokens::{LogicalLine, TokenFault, cut};
use std::alloc::Global;

/// The longest text that is looked at, in bytes.
pub const TEXT_LIMIT: usize = 524_288;

/// What the lines of a text are.
enum Reading {
    /// All are valid, with these forms.
    Valid(List<Form>),
    /// The first faulty line stands here, with its token fault, if it has one.
    Faulty(Span, Option<TokenFault>),
}

/// The list of a text: the diagnostics that are published for it. A text above the limit has that
/// limit's alone. A text with a faulty line has one for the first such line alone. Places
/// are line and column, counted from 0, columns in characters.
#[tactic(auto, unfolding(crate::specs::Listing::list_of))]
pub fn list_text(alloc: Global, text: &str) -> Result<List<Diag>, NoMemory>
    ensures { IfOk result (λ list. list ≡ list_of text.now) }
{
    if text.len() > TEXT_LIMIT {
        return only(alloc, Notice::TextLimit.diagnostic(alloc, WHOLE_TEXT)?);
    }
    let places = LineMap::new(alloc, text)?;
    let cut = cut(alloc, text)?;
    list_of_lines(alloc, &places, cut.lines.as_slice())
}

// The list of a text with these lines.
fn list_of_lines(
    alloc: Global,
    places: &LineMap,
    lines: &[LogicalLine],
) -> Result<List<Diag>, NoMemory>
    requires { All (IsLineIn (sum places.now)) lines.now }
    ensures { IfOk result (λ list. list ≡ list_of_lines (at_of places.now) lines.now) }
{
    match read_lines(alloc, lines)? {
        Reading::Valid(forms) => typing_diags(alloc, places, forms.as_slice()),
        Reading::Faulty(span, fault) => only(alloc, line_fault(alloc, places, span, fault)?),
    }
}

// Reads the lines of a text until one is faulty.
fn read_lines(alloc: Global, lines: &[LogicalLine]) -> Result<Reading, NoMemory>
    ensures { IfOk result (λ reading. IsReading lines.now reading) }
{
    let mut forms = List::new(alloc);
    for line in lines {
        match form_of(alloc, line)? {
            Some(form) => forms.push(form)?,
            None => return Ok(Reading::Faulty(line.span, line.fault)),
        }
    }
    Ok(Reading::Valid(forms))
}

// The list of this diagnostic alone.
fn only(alloc: Global, diag: Diag) -> Result<List<Diag>, NoMemory>
    ensures { IfOk result (λ list. list ≡ diag ∷ []) }
{
    let mut list = List::new(alloc);
    list.push(diag)?;
    Ok(list)
}
