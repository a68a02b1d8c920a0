//! The blocks around a line: whether it stands in a def, in a loop, directly in a `match`, and under how
//! many `finally`.
ghost use Rattle.std.specs.Prelude.{◌≡◌, reverse};
ghost use Rattle.py_blocks.specs.Settings;
ghost use Rattle.py_blocks.specs.Settings.{noted_at, within_first, around_by};

use crate::columns::opens_one;
use crate::line::{Line, LineKind, is_case, is_def, is_finally, is_loop, is_match, is_scope};

/// How deep `finally` blocks are nested at most, the outermost counting as 1.
pub const MOST_FINALLY: u8 = 4;

/// The blocks around a line.
#[derive(Clone, Copy, Debug, PartialEq, Eq)]
pub struct Setting {
    /// Whether it stands directly in the block of a `match`.
    pub in_match: bool,
    /// Whether it stands in a def.
    pub in_def: bool,
    /// Whether it stands in a loop of its def or class.
    pub in_loop: bool,
    /// In how many `finally` blocks, of which at most four are counted.
    pub finallys: u8,
}

fn outermost() -> Setting
    ensures { result ≡ Settings.outermost }
{
    Setting {
        in_match: false,
        in_def: false,
        in_loop: false,
        finallys: 0,
    }
}

fn finallys_within(kind: LineKind, count: u8) -> u8
    ensures { result ≡ Settings.finallys_within kind count }
{
    if is_finally(kind) && count < MOST_FINALLY {
        count + 1
    } else {
        count
    }
}

// What stands directly in the block of a line, which stands in such blocks itself.
fn within(kind: LineKind, outer: Setting) -> Setting
    ensures { result ≡ Settings.within kind outer }
{
    Setting {
        in_match: is_match(kind),
        in_def: is_def(kind) || outer.in_def,
        in_loop: is_loop(kind) || (!is_scope(kind) && outer.in_loop),
        finallys: finallys_within(kind, outer.finallys),
    }
}

fn within_last(lines: &[Line], notes: &[Setting]) -> Setting
    ensures { result ≡ within_first (reverse lines.now) (reverse notes.now) }
{
    match (lines.last(), notes.last()) {
        (Some(last), Some(note)) => within(last.kind, *note),
        _ => outermost(),
    }
}

// What is noted of the nearest line that doesn't stand to the right of a column.
fn noted_at(before: &[Line], notes: &[Setting], column: u32) -> Setting
    ensures { result ≡ noted_at (reverse before.now) (reverse notes.now) column }
{
    let mut rest = before;
    let mut noted = notes;
    'lines: while let Some((last, others)) = rest.split_last() {
        let Some((note, more)) = noted.split_last() else {
            return outermost();
        };
        if last.column <= column {
            return *note;
        }
        rest = others;
        noted = more;
    }
    outermost()
}

/// The blocks around a line, by what is noted of the lines before.
pub fn around_by(before: &[Line], notes: &[Setting], line: Line) -> Setting
    ensures { result ≡ around_by (reverse before.now) (reverse notes.now) line }
{
    if opens_one(before, line) {
        within_last(before, notes)
    } else {
        noted_at(before, notes, line.column)
    }
}

fn is_case_astray(setting: Setting, kind: LineKind) -> bool
    ensures { result ≡ Settings.is_case_astray_by setting kind }
{
    if is_case(kind) {
        !setting.in_match
    } else {
        setting.in_match
    }
}

fn is_return_astray(setting: Setting, line: Line) -> bool
    ensures { result ≡ Settings.is_return_astray_by setting line }
{
    line.returns && !(is_def(line.kind) || setting.in_def)
}

fn is_jump_astray(setting: Setting, line: Line) -> bool
    ensures { result ≡ Settings.is_jump_astray_by setting line }
{
    line.jumps && !(is_loop(line.kind) || (!is_scope(line.kind) && setting.in_loop))
}

fn is_finally_too_deep(setting: Setting, kind: LineKind) -> bool
    ensures { result ≡ Settings.is_finally_too_deep_by setting kind }
{
    is_finally(kind) && setting.finallys >= MOST_FINALLY
}

/// Whether a line may not stand in these blocks.
pub fn is_astray_in(setting: Setting, line: Line) -> bool
    ensures { result ≡ Settings.is_astray_by setting line }
{
    is_case_astray(setting, line.kind)
        || (is_return_astray(setting, line)
            || (is_jump_astray(setting, line) || is_finally_too_deep(setting, line.kind)))
}
