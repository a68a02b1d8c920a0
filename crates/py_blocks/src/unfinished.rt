//! What headers ask for behind them.
ghost use Rattle.std.specs.Prelude.{◌≡◌, true, false, List, None, All};
ghost use Rattle.py_blocks.specs.declared.line.Line.{Line};
ghost use Rattle.py_blocks.specs.declared.trail.Side.TheVariants as sides;
ghost use Rattle.py_blocks.specs.Lines.{is_error, block_column};
ghost use Rattle.py_blocks.specs.Rules;
ghost use Rattle.py_blocks.specs.Trails;

use crate::line::{
    Line, LineKind, closes_try, is_case, is_clause, is_decorated, is_decorator, is_handler,
    is_match, is_try,
};
use crate::trail::{Side, Trail, is_level, is_passed, side_of, trail_behind};

// What a line tells of a `try` before it, if it ends the search.
fn tried_at(side: Side, kind: LineKind, first: bool) -> Option<bool>
    ensures { result ≡ Trails.tried_at side kind first }
{
    match side {
        Side::Left => Some(false),
        Side::Right => None,
        Side::Level => {
            if is_passed(kind) {
                if first { Some(true) } else { None }
            } else if closes_try(kind) {
                Some(true)
            } else if is_clause(kind) {
                None
            } else {
                Some(false)
            }
        }
    }
}

// Whether a `try` needs no more, by the lines behind it.
fn is_tried(trail: Trail, column: u32, behind: &[Line]) -> bool
    ensures { result ≡ Trails.tried_from trail column true behind.now }
{
    let mut trail = trail;
    let mut first = true;
    for line in behind {
        let side = side_of(trail, column, *line);
        if let Some(told) = tried_at(side, line.kind, first) {
            return told;
        }
        trail = trail_behind(trail, side, *line);
        first = first && !is_level(side);
    }
    false
}

// What a line tells of a `match` before it, if it ends the search.
fn cased_at(side: Side, kind: LineKind) -> Option<bool>
    ensures { result ≡ Trails.cased_at side kind }
{
    match side {
        Side::Left => Some(false),
        Side::Right => None,
        Side::Level => (is_case(kind) || is_passed(kind)).then_some(true),
    }
}

// Whether a case stands in the block of a `match`, by the lines behind the first in it.
fn is_cased(trail: Trail, column: u32, behind: &[Line]) -> bool
    ensures { result ≡ Trails.cased_from trail column behind.now }
{
    let mut trail = trail;
    for line in behind {
        let side = side_of(trail, column, *line);
        if let Some(told) = cased_at(side, line.kind) {
            return told;
        }
        trail = trail_behind(trail, side, *line);
    }
    false
}

fn opens_nothing(line: Line, behind: &[Line]) -> bool
    ensures { result ≡ Rules.opens_nothing line behind.now }
{
    match behind.first() {
        Some(next) => line.opens && !(line.column < next.column),
        None => line.opens,
    }
}

fn decorates_nothing(line: Line, behind: &[Line]) -> bool
    ensures { result ≡ Rules.decorates_nothing line behind.now }
{
    match behind.first() {
        Some(next) => is_decorator(line.kind)
            && !(is_decorated(next.kind) && next.column == line.column),
        None => is_decorator(line.kind),
    }
}

fn tries_nothing(line: Line, behind: &[Line]) -> bool
    ensures { (before : List Line) → block_column before line ≡ line.column → result ≡ Rules.tries_nothing before line behind.now }
{
    let trail = Trail {
        opens: line.opens,
        column: line.column,
        least: None,
    };
    is_try(line.kind) && !is_tried(trail, line.column, behind)
}

// Whether the first line in the block of a `match`, or one behind it, is a case.
fn has_case(first: Line, rest: &[Line]) -> bool
    ensures { result ≡ Trails.or_else (Trails.cased_at sides.Level first.kind) (Trails.cased_from (Trails.trail_behind (record { opens = false; column = 0; least = None }) sides.Level first) first.column rest.now) }
{
    if let Some(told) = cased_at(Side::Level, first.kind) {
        return told;
    }
    let start = Trail {
        opens: false,
        column: 0,
        least: None,
    };
    is_cased(trail_behind(start, Side::Level, first), first.column, rest)
}

fn matches_nothing(line: Line, behind: &[Line]) -> bool
    requires { Rules.opens_nothing line behind.now ≡ false }
    ensures { (before : List Line) → result ≡ Rules.matches_nothing before line behind.now }
{
    if !is_match(line.kind) || !line.opens {
        return false;
    }
    match behind.split_first() {
        Some((first, rest)) => !has_case(*first, rest),
        None => false,
    }
}

// What a line tells of an `except` without a class before it, if it ends the search.
fn handled_at(side: Side, kind: LineKind) -> Option<bool>
    ensures { result ≡ Trails.handled_at side kind }
{
    match side {
        Side::Left => Some(false),
        Side::Right => None,
        Side::Level => {
            if is_passed(kind) {
                None
            } else {
                Some(is_handler(kind))
            }
        }
    }
}

// Whether the next clause behind an `except` is a handler.
fn is_handled(trail: Trail, column: u32, behind: &[Line]) -> bool
    ensures { result ≡ Trails.handled_from trail column behind.now }
{
    let mut trail = trail;
    for line in behind {
        let side = side_of(trail, column, *line);
        if let Some(told) = handled_at(side, line.kind) {
            return told;
        }
        trail = trail_behind(trail, side, *line);
    }
    false
}

fn is_bare_before(line: Line, behind: &[Line]) -> bool
    requires written { All (λ y. is_error y.kind ≡ false) behind.now }
    ensures { (before : List Line) → block_column before line ≡ line.column → result ≡ Rules.is_bare_before before line behind.now }
{
    let trail = Trail {
        opens: line.opens,
        column: line.column,
        least: None,
    };
    line.bare && is_handled(trail, line.column, behind)
}

/// Whether a line that stands at the column of its block asks for more than the lines behind it give, or
/// for other ones. These are as they are written.
pub fn is_unfinished(line: Line, behind: &[Line]) -> bool
    requires written { All (λ y. is_error y.kind ≡ false) behind.now }
    ensures { (before : List Line) → block_column before line ≡ line.column → result ≡ Rules.is_unfinished before line behind.now }
{
    if opens_nothing(line, behind) {
        return true;
    }
    decorates_nothing(line, behind)
        || (tries_nothing(line, behind)
            || (matches_nothing(line, behind) || is_bare_before(line, behind)))
}
