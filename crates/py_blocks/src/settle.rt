//! The lines of a text without faulty ones, by one pass.
ghost use Rattle.std.specs.Prelude.{◌≡◌, ◌≤◌, false, length, reverse, take, All, IfOk, OnOk};
ghost use Rattle.py_blocks.specs.Lines;
ghost use Rattle.py_blocks.specs.Rules;
ghost use Rattle.py_blocks.specs.Settings.{settings_of};
ghost use Rattle.py_blocks.specs.Stages.{stages_of};
ghost use Rattle.py_blocks.specs.OnePass;
ghost use Rattle.py_blocks.specs.Settling.{Settles};
ghost use Rattle.py_blocks.specs.Passing.{Aligned, IsPut};

use crate::columns::{block_column, error_line};
use crate::line::{Line, is_decorator, is_error, is_unread};
use crate::setting::{Setting, around_by, is_astray_in};
use crate::stage::{Stage, stage_at, stage_with, takes};
use crate::unfinished::is_unfinished;
use py_base::NoMemory;
use std::alloc::Global;

// The decorators at the end of the lines become error lines; what is told is how many lines stand before
// them.
fn undecorate(standing: &mut Vec<Line>) -> usize
    requires { Aligned (reverse standing.old.items) }
    ensures turned { reverse standing.new.items ≡ OnePass.undecorated (reverse standing.old.items) }
    ensures within { result ≤ length standing.old.items }
    ensures before { take result standing.new.items ≡ take result standing.old.items }
{
    let mut at = standing.len();
    'lines: while at > 0 {
        let line = standing[at - 1];
        if !is_decorator(line.kind) {
            return at;
        }
        let error = error_line(&standing[..at - 1], line);
        standing[at - 1] = error;
        at -= 1;
    }
    0
}

// Notes the stages behind the lines for which none is noted yet.
fn add_stages(standing: &[Line], stages: &mut Vec<Stage>) -> Result<(), NoMemory>
    requires within { length stages.old.items ≤ length standing.now }
    requires noted { reverse stages.old.items ≡ stages_of (reverse (take (length stages.old.items) standing.now)) }
    ensures { OnOk result (reverse stages.new.items ≡ stages_of (reverse standing.now)) }
{
    for at in stages.len()..standing.len() {
        let line = standing[at];
        let before = stage_at(&standing[..at], stages.as_slice(), line.column);
        stages.push(stage_with(before, line.kind))?;
    }
    Ok(())
}

// Whether a line stands where no line of its kind may, by the lines before it.
fn is_misplaced(before: &[Line], notes: &[Setting], stages: &[Stage], line: Line) -> bool
    requires aligned { Aligned (reverse before.now) }
    requires notes { reverse notes.now ≡ settings_of (reverse before.now) }
    requires stages { reverse stages.now ≡ stages_of (reverse before.now) }
    ensures { result ≡ Rules.is_misplaced (reverse before.now) line }
{
    if block_column(before, line) != line.column {
        return true;
    }
    is_clause_astray(before, stages, line) || (is_astray(before, notes, line) || !line.fits)
}

fn is_clause_astray(before: &[Line], stages: &[Stage], line: Line) -> bool
    requires stages { reverse stages.now ≡ stages_of (reverse before.now) }
    ensures { result ≡ Rules.is_clause_astray (reverse before.now) line }
{
    !takes(stage_at(before, stages, line.column), line.kind)
}

// Whether the blocks around a line that stands at the column of its own are none for it.
fn is_astray(before: &[Line], notes: &[Setting], line: Line) -> bool
    requires notes { reverse notes.now ≡ settings_of (reverse before.now) }
    requires column { Lines.block_column (reverse before.now) line ≡ line.column }
    ensures { result ≡ Rules.is_astray_in (Rules.around (reverse before.now) line.column) line }
{
    is_astray_in(around_by(before, notes, line), line)
}

// Whether a line is faulty between the lines that stand before it and those behind it.
fn is_faulty(
    before: &[Line],
    notes: &[Setting],
    stages: &[Stage],
    line: Line,
    behind: &[Line],
) -> bool
    requires aligned { Aligned (reverse before.now) }
    requires notes { reverse notes.now ≡ settings_of (reverse before.now) }
    requires stages { reverse stages.now ≡ stages_of (reverse before.now) }
    requires written { All (λ y. Lines.is_error y.kind ≡ false) behind.now }
    ensures { result ≡ Rules.is_faulty (reverse before.now) line behind.now }
{
    !is_error(line.kind)
        && (is_unread(line.kind)
            || (is_misplaced(before, notes, stages, line) || is_unfinished(line, behind)))
}

// Whether the last error line takes in a line.
fn is_taken(taken: Option<u32>, line: Line) -> bool
    ensures { result ≡ OnePass.is_taken taken line }
{
    match taken {
        Some(column) => column < line.column,
        None => false,
    }
}

// One more line; what is told is what the error line takes in, if the line is one.
fn put(
    standing: &mut Vec<Line>,
    notes: &mut Vec<Setting>,
    stages: &mut Vec<Stage>,
    line: Line,
    behind: &[Line],
) -> Result<Option<u32>, NoMemory>
    requires read { Lines.is_error line.kind ≡ false }
    requires written { All (λ y. Lines.is_error y.kind ≡ false) behind.now }
    requires aligned { Aligned (reverse standing.old.items) }
    requires notes { reverse notes.old.items ≡ settings_of (reverse standing.old.items) }
    requires stages { reverse stages.old.items ≡ stages_of (reverse standing.old.items) }
    ensures more { IfOk result (λ taken. IsPut (reverse standing.old.items) line behind.now (reverse standing.new.items) taken) }
    ensures notes { IfOk result (λ taken. reverse notes.new.items ≡ settings_of (reverse standing.new.items)) }
    ensures stages { IfOk result (λ taken. reverse stages.new.items ≡ stages_of (reverse standing.new.items)) }
{
    if is_faulty(
        standing.as_slice(),
        notes.as_slice(),
        stages.as_slice(),
        line,
        behind,
    ) {
        let error = error_line(standing.as_slice(), line);
        let note = around_by(standing.as_slice(), notes.as_slice(), error);
        let kept = undecorate(standing);
        standing.push(error)?;
        notes.push(note)?;
        stages.truncate(kept);
        add_stages(standing.as_slice(), stages)?;
        Ok(Some(error.column))
    } else {
        let note = around_by(standing.as_slice(), notes.as_slice(), line);
        standing.push(line)?;
        notes.push(note)?;
        add_stages(standing.as_slice(), stages)?;
        Ok(None)
    }
}

/// The lines of a text without faulty ones: as long as a line is faulty, the first such line, with the
/// lines that it takes in, is replaced by an error line.
pub fn settled_lines(alloc: Global, lines: &[Line]) -> Result<Vec<Line>, NoMemory>
    requires written { All (λ y. Lines.is_error y.kind ≡ false) lines.now }
    ensures { IfOk result (λ standing. Settles lines.now standing.items) }
{
    let mut standing = Vec::new(alloc);
    let mut notes = Vec::new(alloc);
    let mut stages = Vec::new(alloc);
    let mut taken = None;
    for at in 0..lines.len() {
        let line = lines[at];
        if !is_taken(taken, line) {
            taken = put(
                &mut standing,
                &mut notes,
                &mut stages,
                line,
                &lines[at + 1..],
            )?;
        }
    }
    Ok(standing)
}
