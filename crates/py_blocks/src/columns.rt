//! Columns of the blocks that lines stand in.
ghost use Rattle.std.specs.Prelude.{◌≡◌, reverse};
ghost use Rattle.py_blocks.specs.Lines.{opens_one, nearest, block_column, error_line};
ghost use Rattle.py_blocks.specs.Passing.{Aligned};

use crate::line::{Line, LineKind};

// Whether a line opens a block behind a header.
pub fn opens_one(before: &[Line], line: Line) -> bool
    ensures { result ≡ opens_one (reverse before.now) line }
{
    match before.last() {
        Some(last) => last.opens && last.column < line.column,
        None => false,
    }
}

// The column of the nearest line that doesn't stand to the right of this one, and so of its block.
fn nearest(before: &[Line], column: u32) -> u32
    requires { Aligned (reverse before.now) }
    ensures { result ≡ nearest (reverse before.now) column }
{
    let mut rest = before;
    'lines: while let Some((last, others)) = rest.split_last() {
        if last.column <= column {
            return last.column;
        }
        rest = others;
    }
    0
}

/// The column of the block that a line stands in.
pub fn block_column(before: &[Line], line: Line) -> u32
    requires { Aligned (reverse before.now) }
    ensures { result ≡ block_column (reverse before.now) line }
{
    if opens_one(before, line) {
        line.column
    } else {
        nearest(before, line.column)
    }
}

/// The error line that a line becomes.
pub fn error_line(before: &[Line], line: Line) -> Line
    requires { Aligned (reverse before.now) }
    ensures { result ≡ error_line (reverse before.now) line }
{
    Line {
        column: block_column(before, line),
        kind: LineKind::Error,
        opens: false,
        bare: false,
        returns: false,
        jumps: false,
        fits: true,
        place: line.place,
    }
}
