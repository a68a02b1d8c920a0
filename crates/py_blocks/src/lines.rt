//! What single lines say, by their places.
ghost use Rattle.std.specs.Prelude.{◌≡◌};
ghost use Rattle.py_blocks.specs.Enclosing.{column_at, is_a};

use crate::facts::LineFacts;
use crate::sort::{Sort, is_kind_of};

/// The column of a line, and 0 where the lines end before it.
pub fn column_at(lines: &[LineFacts], at: usize) -> u32
    ensures { result ≡ column_at lines.now at }
{
    match lines.get(at) {
        Some(line) => line.column,
        None => 0,
    }
}

/// Whether a line's header is of a sort.
pub fn is_a(lines: &[LineFacts], at: usize, sort: Sort) -> bool
    ensures { result ≡ is_a lines.now at sort }
{
    match lines.get(at) {
        Some(line) => is_kind_of(line.kind, sort),
        None => false,
    }
}
