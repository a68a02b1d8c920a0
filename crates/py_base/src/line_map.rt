//! Places of a text: from an offset to its line and column, and back.
ghost use Rattle.std.specs.Prelude.{◌≡◌, ℕ, ◌+◌, ◌^◌, ◌<◌, ◌≤◌, List, map, length, sum, chars, IfOk, IfSome};
ghost use Rattle.std.specs.List.Sorted.{IsNonDecreasing, IsPartitionPoint};
ghost use Rattle.py_base.specs.Lines.{physical_lines, ends_line};
ghost use Rattle.py_base.specs.Places.{place_of, offset_of, columns, at_of, IsSpanIn};

use crate::span::{Place, Span};
use crate::stop::NoMemory;
use std::alloc::Global;
use std::marker::Model;

/// The lines of a text. A contract sees it as the lengths of the physical lines, each with its line
/// end, in characters: for `"a\r\nb"` these are 3 and 1.
///
/// Offsets, lines and columns count from 0, offsets and columns in characters (Unicode scalar
/// values). The characters of a line end belong to the line that they end, and CR LF is one line
/// end. A text that ends with a line end has an empty last line.
#[derive(Debug, Drop)]
pub struct LineMap {
    starts: Vec<u32>,
    count: u32,
}

impl Model for LineMap {
    ghost use Rattle.std.specs.Prelude.{List, ℕ};

    ghost Value = { List ℕ };

    ghost use Rattle.py_base.specs.LineStarts.{lengths_between, AreStarts};

    ghost view = { λ lines. lengths_between lines.starts.items lines.count };

    ghost invariant = { λ lines. AreStarts lines.starts.items lines.count };
}

impl LineMap {
    /// The longest text that has a map, in bytes.
    pub const MAX_BYTES: usize = 4_194_304;

    /// The map of a text. `NoMemory` where the table of its lines could not be stored.
    ///
    /// Python 3.12 language reference, 2.1.2, "Physical lines".
    pub fn new(alloc: Global, text: &str) -> Result<LineMap, NoMemory>
        requires { length text.now ≤ LineMap.MAX_BYTES }
        ensures lines { IfOk result (λ lines. lines ≡ map length (physical_lines (chars text.now))) }
        ensures some { IfOk result (λ lines. 0 < length lines) }
        ensures all { IfOk result (λ lines. sum lines ≡ length (chars text.now)) }
    {
        let mut starts = Vec::new(alloc);
        starts.push(0)?;
        let mut count = 0;
        let mut rest = text.chars();
        while let Some(c) = rest.next() {
            count += 1;
            if is_line_end(c, rest.as_str()) {
                starts.push(count)?;
            }
        }
        Ok(LineMap { starts, count })
    }

    /// How many characters the text has.
    pub fn char_count(&self) -> u32
        ensures { result ≡ sum self.now }
    {
        self.count
    }

    /// The place of the character at this offset, or of the end of the text.
    pub fn place(&self, offset: u32) -> Place
        requires { offset ≤ sum self.now }
        ensures place { result ≡ place_of self.now offset }
        ensures inverse { offset_of self.now result ≡ Some offset }
    {
        let starts = self.starts.as_slice();
        let line = count_up_to(starts, offset) - 1;
        Place {
            line: line as u32,
            col: offset - starts[line],
        }
    }

    /// Where a span of the text stands: line and column of its beginning, and then of its end.
    pub fn at(&self, span: Span) -> [u32; 4]
        requires { IsSpanIn (sum self.now) span }
        ensures { result ≡ at_of self.now span }
    {
        let from = self.place(span.from);
        let to = self.place(span.to);
        [from.line, from.col, to.line, to.col]
    }

    /// The offset of a place. `None` exactly where the line is not there, or the column is past the
    /// last character of the line's end, in the last line past the end of the text.
    pub fn offset(&self, place: Place) -> Option<u32>
        ensures offset { result ≡ offset_of self.now place }
        ensures inverse { IfSome result (λ at. place_of self.now at ≡ place) }
    {
        let line = place.line as usize;
        let start = *self.starts.as_slice().get(line)?;
        if place.col < self.columns(line) {
            Some(start + place.col)
        } else {
            None
        }
    }

    /// How many columns a line has: one for each of its characters, and in the last line one more,
    /// the end of the text.
    fn columns(&self, line: usize) -> u32
        requires { line < length self.now }
        ensures { result ≡ columns self.now line }
    {
        let starts = self.starts.as_slice();
        let start = starts[line];
        match starts.get(line + 1) {
            Some(next) => *next - start,
            None => self.count + 1 - start,
        }
    }
}

/// How many of these numbers are at most `limit`. It is found by halving.
fn count_up_to(rising: &[u32], limit: u32) -> usize
    requires { IsNonDecreasing rising.now }
    ensures within { result ≤ length rising.now }
    ensures parts { IsPartitionPoint (λ number. number ≤ limit) (λ number. limit < number) rising.now result }
{
    rising.partition_point(|number| *number <= limit)
}

/// Whether a line ends behind the character `c`, before the rest of the text: behind LF, and behind
/// a CR that no LF follows.
fn is_line_end(c: char, rest: &str) -> bool
    ensures { result ≡ ends_line c (chars rest.now) }
{
    match c {
        '\n' => true,
        '\r' => rest.chars().next() != Some('\n'),
        _ => false,
    }
}
