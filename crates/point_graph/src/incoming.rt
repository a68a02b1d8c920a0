//! The edges by the points to which they lead.
ghost use Rattle.std.specs.Prelude.{◌≡◌, ℕ, ◌<◌, ◌∷◌, [], ◌++◌, IfOk, OnOk, slice_set, length};
ghost use Rattle.point_graph.specs.Numbers.{lists, list_at, into, AreBelow};

use crate::numbers::Step;
use flow_rows::EdgeKind;
use py_base::{NoMemory, PointId};
use smallvec::SmallVec;
use std::alloc::Global;

/// Where an edge comes from, and its kind.
#[derive(Clone, Copy, Debug)]
pub struct Way {
    pub from: PointId,
    pub kind: EdgeKind,
}

// What stands at the places of a short list that it doesn't use.
impl Default for Way {
    ghost use Rattle.std.specs.Prelude.{◌≡◌};
    ghost use Rattle.flow_rows.specs.declared.edge.EdgeKind.TheVariants as kinds;

    ghost is_default = { λ w. w ≡ record { from = record { 0 = 0 }; kind = kinds.Plain } };

    fn default() -> Way {
        Way {
            from: PointId(0),
            kind: EdgeKind::Plain,
        }
    }
}

/// The ways to a point. Few points have more than two.
pub type Ways = SmallVec<Way, 2>;

// Adds a way to the list at a number.
fn put(ways: &mut Vec<Ways>, to: usize, way: Way) -> Result<(), NoMemory>
    requires { to < length ways.old.items }
    ensures long { OnOk result (length ways.new.items ≡ length ways.old.items) }
    ensures put { OnOk result (lists ways.new.items ≡ slice_set (lists ways.old.items) to (list_at (lists ways.old.items) to ++ way ∷ [])) }
{
    ways[to].push(way)?;
    Ok(())
}

// That many empty lists.
fn empties(alloc: Global, count: usize) -> Result<Vec<Ways>, NoMemory>
    ensures long { IfOk result (λ ways. length ways.items ≡ count) }
    ensures empty { IfOk result (λ ways. (j : ℕ) → list_at (lists ways.items) j ≡ []) }
{
    let mut ways = Vec::new(alloc);
    for _ in 0..count {
        ways.push(SmallVec::new(alloc))?;
    }
    Ok(ways)
}

/// For each number the ways that lead to it, in the order of the steps.
pub fn grouped(alloc: Global, steps: &[Step], count: usize) -> Result<Vec<Ways>, NoMemory>
    requires { AreBelow count steps.now }
    ensures long { IfOk result (λ ways. length ways.items ≡ count) }
    ensures ways { IfOk result (λ ways. (j : ℕ) → j < count → list_at (lists ways.items) j ≡ into j steps.now) }
{
    let mut ways = empties(alloc, count)?;
    for step in steps {
        put(
            &mut ways,
            step.to.0 as usize,
            Way {
                from: step.from,
                kind: step.kind,
            },
        )?;
    }
    Ok(ways)
}
