//! The cut of a text, and what is known of every cut.
ghost use Rattle.std.specs.Prelude.{◌≡◌, ℕ, ◌≤◌, Bool, List, [], length, All, IfOk};
ghost use Rattle.std.specs.Str.{chars};
ghost use Rattle.py_tokens.specs.Nesting.{Nesting};
ghost use Rattle.py_tokens.specs.Cut.{Cut as IsCutInto, flat_texts};
ghost use Rattle.py_tokens.specs.Lines.{mark_len};
ghost use Rattle.py_tokens.specs.LogicalLines.{IsCut, logical_lines};
ghost use Rattle.py_tokens.specs.Spans.{IsLineIn};
ghost use Rattle.py_tokens.specs.declared.kinds.Piece.{Piece};
ghost use Rattle.py_tokens.specs.declared.lines.LogicalLine.{LogicalLine};

use crate::lines::{Cut, LogicalLine, lines_of};
use crate::pieces::pieces;
use py_base::{List, NoMemory};
use std::alloc::Global;

/// The characters of a text.
#[tactic(auto, using(std::proofs::lemmas::Str::chars_from_encodes))]
pub fn characters(alloc: Global, text: &str) -> Result<Vec<char>, NoMemory>
    ensures value { IfOk result (λ v. v.items ≡ chars text.now) }
    ensures few { IfOk result (λ v. length v.items ≤ length text.now) }
{
    let list = text.chars().collect(alloc)?;
    Ok(list)
}

// How many characters a byte order mark takes at the front of a text.
fn mark_len(text: &[char]) -> usize
    ensures value { result ≡ mark_len text.now }
    ensures within { result ≤ length text.now }
{
    match text {
        ['\u{feff}', ..] => 1,
        _ => 0,
    }
}

// The logical lines of a text, by its characters.
fn lines_of_text(alloc: Global, text: &[char]) -> Result<List<LogicalLine>, NoMemory>
    requires { length text.now ≤ 524288 }
    ensures lines { IfOk result (λ lines. lines ≡ logical_lines text.now) }
    ensures is_cut { IfOk result (λ lines. IsCut text.now lines) }
    ensures within { IfOk result (λ lines. All (IsLineIn (length text.now)) lines) }
{
    let start = mark_len(text);
    let pieces = pieces(alloc, &text[start..])?;
    let lines = lines_of(alloc, text, start, &pieces)?;
    Ok(lines)
}

/// Cuts a text into logical lines of tokens.
///
/// `NoMemory` where memory was asked for and not had.
pub fn cut(alloc: Global, text: &str) -> Result<Cut, NoMemory>
    requires { length text.now ≤ 524288 }
    ensures lines { IfOk result (λ c. c.lines ≡ logical_lines (chars text.now)) }
    ensures is_cut { IfOk result (λ c. IsCut (chars text.now) c.lines) }
    ensures within { IfOk result (λ c. All (IsLineIn (length (chars text.now))) c.lines) }
{
    let text = characters(alloc, text)?;
    let lines = lines_of_text(alloc, &text)?;
    Ok(Cut { lines })
}

/// No text has two cuts.
pub fn one_cut()
    ensures { (opens : Nesting) (number : Bool) (text : List ℕ) (ps qs : List Piece) → IsCutInto opens number text ps → IsCutInto opens number text qs → ps ≡ qs }
{}

/// The pieces of a cut, joined, are the text.
pub fn joined()
    ensures { (opens : Nesting) (number : Bool) (text : List ℕ) (ps : List Piece) → IsCutInto opens number text ps → flat_texts ps text ≡ text }
{}

/// The logical lines of a text are those of its cut, and no others are.
pub fn one_reading()
    ensures is_cut { (text : List ℕ) → IsCut text (logical_lines text) }
    ensures only { (text : List ℕ) (lines : List LogicalLine) → IsCut text lines → lines ≡ logical_lines text }
{}
