//! The nesting of a text's lines: what the rules see of each, and which stand.
ghost use Rattle.std.specs.Prelude.{◌≡◌, ◌<◌, length, false, map, All, IfOk};
ghost use Rattle.py_blocks.specs.Enclosing.{line_at};
ghost use Rattle.py_blocks.specs.Innermost.{scopes_of, open_at};
ghost use Rattle.py_blocks.specs.NameSets.{AreNameSets};
ghost use Rattle.py_blocks.specs.Lines.{is_error};
ghost use Rattle.py_blocks.specs.Faults.{seen_at, lines_seen, fault_at, standing, rows_of, AreNodesOf, IsNesting};

use crate::facts::{LineFacts, facts_of_lines};
use crate::fault::{BlockLine, LineFaultKind, StandingLine, fault_with};
use crate::innermost::scopes_of;
use crate::line::{Line, is_error, line_kind};
use crate::name_sets::{NameSets, name_sets};
use crate::open_blocks::enter;
use crate::scopes::breaks_names;
use crate::settle::settled_lines;
use py_base::{List, NoMemory, Tree};
use std::alloc::Global;

// What the rules see of a line. `blocks` are the open blocks at the line.
fn seen_at<'a>(
    lines: &'a [LineFacts],
    scopes: &[Option<usize>],
    names: &NameSets<'a>,
    blocks: &[usize],
    at: usize,
) -> Line
    requires within { at < length lines.now }
    requires scopes { scopes.now ≡ scopes_of lines.now }
    requires names { AreNameSets lines.now names.now }
    requires blocks { blocks.now ≡ open_at lines.now at }
    ensures { result ≡ seen_at lines.now at }
{
    let line = &lines[at];
    Line {
        column: line.column,
        kind: line_kind(line.kind),
        opens: line.opens,
        bare: line.bare,
        returns: line.returns,
        jumps: line.jumps,
        fits: line.fits && !breaks_names(lines, scopes, names, blocks, at),
        place: at,
    }
}

// What the rules see of the lines of a text.
fn lines_seen(alloc: Global, lines: &[LineFacts]) -> Result<Vec<Line>, NoMemory>
    ensures seen { IfOk result (λ seen. seen.items ≡ lines_seen lines.now) }
    ensures written { IfOk result (λ seen. All (λ y. is_error y.kind ≡ false) seen.items) }
{
    let scopes = scopes_of(alloc, lines)?;
    let names = name_sets(alloc, lines, scopes.as_slice())?;
    let mut seen = Vec::new(alloc);
    let mut blocks = Vec::new(alloc);
    for at in 0..lines.len() {
        let line = seen_at(lines, scopes.as_slice(), &names, blocks.as_slice(), at);
        seen.push(line)?;
        blocks = enter(alloc, lines, blocks, at)?;
    }
    Ok(seen)
}

fn fault_at(lines: &[LineFacts], at: usize) -> LineFaultKind
    ensures { result ≡ fault_at lines.now at }
{
    match lines.get(at) {
        Some(line) => fault_with(line.fault, line.kind),
        None => LineFaultKind::NotValid,
    }
}

// A line of the nesting, with its fault where it is an error line.
fn standing(lines: &[LineFacts], line: Line) -> StandingLine
    ensures { result ≡ standing lines.now line }
{
    StandingLine {
        column: line.column,
        line: line.place,
        fault: is_error(line.kind).then_some(fault_at(lines, line.place)),
    }
}

fn standing_lines(
    alloc: Global,
    lines: &[LineFacts],
    settled: &[Line],
) -> Result<List<StandingLine>, NoMemory>
    ensures { IfOk result (λ all. all ≡ map (standing lines.now) settled.now) }
{
    let mut all = List::new(alloc);
    for line in settled {
        all.push(standing(lines, *line))?;
    }
    Ok(all)
}

/// The nesting of a text's lines, in the order of the text: as long as a line is faulty, the first such
/// line, with the lines directly behind it that stand to the right of its block, is replaced by an error
/// line. Faulty is a line that has a token fault, that no tree spells, or that breaks a rule of blocks
/// (Python 3.12 language reference, 2.1.8, 7 and 8).
///
/// Asks that each line's tree is a node of the tree. `NoMemory` where what the rules see of the lines
/// could not be stored. The time grows with the lines, and the names that they declare nonlocal, times
/// the depth of their blocks, with the nodes of the lines' trees times the height of these, and with the
/// names times the logarithm of their number.
pub fn nesting(
    alloc: Global,
    tree: &Tree,
    lines: &[BlockLine],
) -> Result<List<StandingLine>, NoMemory>
    requires { AreNodesOf (length tree.now.nodes) lines.now }
    ensures { IfOk result (IsNesting (rows_of tree.now lines.now)) }
{
    let _count = tree.node_count();
    let stored = facts_of_lines(alloc, tree, lines)?;
    let facts = stored.as_slice();
    let seen = lines_seen(alloc, facts)?;
    let settled = settled_lines(alloc, seen.as_slice())?;
    let all = standing_lines(alloc, facts, settled.as_slice())?;
    Ok(all)
}
