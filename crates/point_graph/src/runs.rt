//! Lists of antecedents and of kinds, each one behind the other in one list.
ghost use Rattle.std.specs.Prelude.{◌≡◌, ◌++◌, IfOk, OnOk, length, map};
ghost use Rattle.point_graph.specs.Numbers.{lists};
ghost use Rattle.point_graph.specs.Runs.{parts, AreRuns};

use crate::incoming::{Way, Ways};
use flow_rows::EdgeKind;
use py_base::{List, NoMemory, PointId};
use std::alloc::Global;

/// Where a list begins within a list, and where what is behind it begins.
#[derive(Clone, Copy, Debug)]
pub struct Run {
    pub from: usize,
    pub to: usize,
}

/// The ways to each number: where they come from, their kinds, and for each number where its own lie.
#[derive(Drop)]
pub struct Runs {
    pub sources: List<PointId>,
    pub labels: List<EdgeKind>,
    pub runs: List<Run>,
}

// Adds where ways come from, and their kinds.
fn add_ways(
    ways: &[Way],
    sources: &mut List<PointId>,
    labels: &mut List<EdgeKind>,
) -> Result<(), NoMemory>
    ensures sources { OnOk result (sources.new ≡ sources.old ++ map (λ w. w.from) ways.now) }
    ensures labels { OnOk result (labels.new ≡ labels.old ++ map (λ w. w.kind) ways.now) }
{
    for way in ways {
        sources.push(way.from)?;
        labels.push(way.kind)?;
    }
    Ok(())
}

/// The lists of ways, one behind the other.
pub fn laid_out(alloc: Global, ways: &[Ways]) -> Result<Runs, NoMemory>
    ensures within { IfOk result (λ r. AreRuns (length r.sources) r.runs) }
    ensures long { IfOk result (λ r. length r.labels ≡ length r.sources) }
    ensures sources { IfOk result (λ r. parts r.sources r.runs ≡ map (λ ws. map (λ w. w.from) ws) (lists ways.now)) }
    ensures labels { IfOk result (λ r. parts r.labels r.runs ≡ map (λ ws. map (λ w. w.kind) ws) (lists ways.now)) }
{
    let mut sources = List::new(alloc);
    let mut labels = List::new(alloc);
    let mut runs = List::new(alloc);
    for list in ways {
        let from = sources.len();
        add_ways(list.as_slice(), &mut sources, &mut labels)?;
        let to = sources.len();
        runs.push(Run { from, to })?;
    }
    Ok(Runs {
        sources,
        labels,
        runs,
    })
}
