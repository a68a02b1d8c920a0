//! Which clauses may come behind a statement.
ghost use Rattle.std.specs.Prelude.{◌≡◌, ◌≤◌, length, reverse, take, OnOk};
ghost use Rattle.py_blocks.specs.Stages;

use crate::line::{Line, LineKind};
use py_base::NoMemory;

/// What the last line of a statement leaves open, error lines passed over.
#[derive(Clone, Copy, Debug, PartialEq, Eq)]
pub enum Stage {
    /// No clause may come.
    Nothing,
    /// Behind `if` or `elif`.
    Branch,
    /// Behind `while` or `for`.
    Loop,
    /// Behind `try`.
    Try,
    /// Behind `try` and an error line.
    PassedTry,
    /// Behind `except`.
    Handler,
    /// Behind `except*`.
    StarHandler,
    /// Behind the `else` of a `try`.
    ElseOfTry,
}

fn passed(stage: Stage) -> Stage
    ensures { result ≡ Stages.passed stage }
{
    match stage {
        Stage::Try => Stage::PassedTry,
        other => other,
    }
}

fn behind_else(stage: Stage) -> Stage
    ensures { result ≡ Stages.behind_else stage }
{
    match stage {
        Stage::Try | Stage::PassedTry | Stage::Handler | Stage::StarHandler => Stage::ElseOfTry,
        _ => Stage::Nothing,
    }
}

/// The stage behind one more line of a block.
pub fn stage_with(stage: Stage, kind: LineKind) -> Stage
    ensures { result ≡ Stages.stage_with stage kind }
{
    match kind {
        LineKind::Error => passed(stage),
        LineKind::If | LineKind::Elif => Stage::Branch,
        LineKind::Loop => Stage::Loop,
        LineKind::Try => Stage::Try,
        LineKind::Except => Stage::Handler,
        LineKind::ExceptStar => Stage::StarHandler,
        LineKind::Else => behind_else(stage),
        _ => Stage::Nothing,
    }
}

fn is_branch_stage(stage: Stage) -> bool
    ensures { result ≡ Stages.is_branch_stage stage }
{
    matches!(stage, Stage::Branch)
}

fn takes_else_stage(stage: Stage) -> bool
    ensures { result ≡ Stages.takes_else_stage stage }
{
    matches!(
        stage,
        Stage::Branch | Stage::Loop | Stage::PassedTry | Stage::Handler | Stage::StarHandler
    )
}

fn takes_except_stage(stage: Stage) -> bool
    ensures { result ≡ Stages.takes_except_stage stage }
{
    matches!(stage, Stage::Try | Stage::PassedTry | Stage::Handler)
}

fn takes_star_stage(stage: Stage) -> bool
    ensures { result ≡ Stages.takes_star_stage stage }
{
    matches!(stage, Stage::Try | Stage::PassedTry | Stage::StarHandler)
}

fn takes_finally_stage(stage: Stage) -> bool
    ensures { result ≡ Stages.takes_finally_stage stage }
{
    matches!(
        stage,
        Stage::Try | Stage::PassedTry | Stage::Handler | Stage::StarHandler | Stage::ElseOfTry
    )
}

/// Whether a line may come; one that is no clause may.
pub fn takes(stage: Stage, kind: LineKind) -> bool
    ensures { result ≡ Stages.takes stage kind }
{
    match kind {
        LineKind::Elif => is_branch_stage(stage),
        LineKind::Else => takes_else_stage(stage),
        LineKind::Except => takes_except_stage(stage),
        LineKind::ExceptStar => takes_star_stage(stage),
        LineKind::Finally => takes_finally_stage(stage),
        _ => true,
    }
}

/// The stage noted of the nearest line that doesn't stand to the right of a column.
pub fn stage_at(before: &[Line], stages: &[Stage], column: u32) -> Stage
    ensures { result ≡ Stages.stage_at (reverse before.now) (reverse stages.now) column }
{
    let mut rest = before;
    let mut noted = stages;
    'lines: while let Some((last, others)) = rest.split_last() {
        let Some((stage, more)) = noted.split_last() else {
            return Stage::Nothing;
        };
        if last.column == column {
            return *stage;
        }
        if last.column < column {
            return Stage::Nothing;
        }
        rest = others;
        noted = more;
    }
    Stage::Nothing
}
