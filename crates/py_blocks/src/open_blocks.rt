//! The open blocks at a line, as a stack of the lines that opened them.
ghost use Rattle.std.specs.Prelude.{◌≡◌, ◌<◌, ◌+◌, nat_lt, length, IfOk};
ghost use Rattle.std.specs.List.{filter};
ghost use Rattle.py_blocks.specs.Enclosing.{column_at};
ghost use Rattle.py_blocks.specs.Innermost.{open_at, is_behind};

use crate::facts::LineFacts;
use crate::lines::column_at;
use py_base::NoMemory;
use std::alloc::Global;

/// Whether there is a def or class, and it stands behind a line.
pub fn is_behind(scope: Option<usize>, outer: usize) -> bool
    ensures { result ≡ is_behind scope outer }
{
    match scope {
        Some(scope) => outer < scope,
        None => false,
    }
}

fn is_left_of(lines: &[LineFacts], outer: usize, column: u32) -> bool
    ensures { result ≡ nat_lt (column_at lines.now outer) column }
{
    column_at(lines, outer) < column
}

// Those of the open blocks that a line of this column stands in.
fn still_open(
    alloc: Global,
    lines: &[LineFacts],
    blocks: &[usize],
    column: u32,
) -> Result<Vec<usize>, NoMemory>
    ensures { IfOk result (λ still. still.items ≡ filter (λ j. nat_lt (column_at lines.now j) column) blocks.now) }
{
    let still = blocks
        .iter()
        .copied()
        .filter(|outer| is_left_of(lines, *outer, column))
        .collect(alloc)?;
    Ok(still)
}

/// Goes on from the open blocks at a line to those at the next. `NoMemory` where they could not be
/// stored.
pub fn enter(
    alloc: Global,
    lines: &[LineFacts],
    mut blocks: Vec<usize>,
    at: usize,
) -> Result<Vec<usize>, NoMemory>
    requires within { at < length lines.now }
    requires blocks { blocks.items ≡ open_at lines.now at }
    ensures { IfOk result (λ next. next.items ≡ open_at lines.now (at + 1)) }
{
    blocks.push(at)?;
    let next = still_open(alloc, lines, blocks.as_slice(), column_at(lines, at + 1))?;
    Ok(next)
}
