//! How lines behind a line stand to a column, one after another.
ghost use Rattle.std.specs.Prelude.{◌≡◌, ◌&&◌, ◌||◌, nat_lt};
ghost use Rattle.py_blocks.specs.Trails;

use crate::line::{Line, LineKind, is_error, is_unread};

/// How a line stands to a column.
#[derive(Clone, Copy, Debug, PartialEq, Eq)]
pub enum Side {
    Left,
    Level,
    Right,
}

/// What is kept of the lines behind the last one at a column.
#[derive(Clone, Copy, Debug, PartialEq, Eq)]
pub struct Trail {
    /// Whether the last line is a header that ends its line.
    pub opens: bool,
    /// The column of the last line.
    pub column: u32,
    /// The least column of the lines to the right.
    pub least: Option<u32>,
}

/// Whether a line counts as an error line.
pub fn is_passed(kind: LineKind) -> bool
    ensures { result ≡ Trails.is_passed kind }
{
    is_error(kind) || is_unread(kind)
}

fn is_reached(least: Option<u32>, column: u32) -> bool
    ensures { result ≡ Trails.is_reached least column }
{
    match least {
        Some(least) => least <= column,
        None => false,
    }
}

fn is_within(trail: Trail, line: Line) -> bool
    ensures { result ≡ Trails.is_within trail line }
{
    trail.opens && trail.column < line.column || is_reached(trail.least, line.column)
}

/// How a line stands to the column.
pub fn side_of(trail: Trail, column: u32, line: Line) -> Side
    ensures { result ≡ Trails.side_of trail column line }
{
    if line.column < column {
        Side::Left
    } else if is_unread(line.kind) {
        if is_within(trail, line) {
            Side::Right
        } else {
            Side::Level
        }
    } else if line.column == column {
        Side::Level
    } else {
        Side::Right
    }
}

fn least_with(least: Option<u32>, column: u32) -> Option<u32>
    ensures { result ≡ Trails.least_with least column }
{
    match least {
        Some(least) => Some(least.min(column)),
        None => Some(column),
    }
}

fn least_behind(side: Side, within: bool, least: Option<u32>, column: u32) -> Option<u32>
    ensures { result ≡ Trails.least_behind side within least column }
{
    match side {
        Side::Right if within => least_with(least, column),
        _ => None,
    }
}

/// The trail behind one more line.
pub fn trail_behind(trail: Trail, side: Side, line: Line) -> Trail
    ensures { result ≡ Trails.trail_behind trail side line }
{
    Trail {
        opens: line.opens && !is_unread(line.kind),
        column: line.column,
        least: least_behind(side, is_within(trail, line), trail.least, line.column),
    }
}

pub fn is_level(side: Side) -> bool
    ensures { result ≡ Trails.is_level side }
{
    matches!(side, Side::Level)
}
