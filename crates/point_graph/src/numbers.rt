//! Numbers of points.
ghost use Rattle.std.specs.Prelude.{◌≡◌, ℕ, ◌<◌, ◌^◌, [], ◌∷◌, IfOk, OnOk, IfSome, IsNone, length, ◌⊎◌, ◌↔◌};
ghost use Rattle.flow_rows.specs.declared.point.Point.{Point};
ghost use Rattle.flow_rows.specs.Flow.{Has};
ghost use Rattle.point_graph.specs.Numbers.{IsApart, Keeps, IsNumber};
ghost use Rattle.point_graph.specs.Order.{same_point, added_once};
ghost use Rattle.point_graph.specs.Building.{GrowsTo};

use flow_rows::{EdgeKind, Point};
use indexmap::IndexSet;
use py_base::{NoMemory, PointId};

/// How many points a tree can have: there are no more than this.
pub const POINT_ROOM: usize = 4_294_967_295;

/// An edge by the numbers of its points.
#[derive(Clone, Copy, Debug)]
pub struct Step {
    pub from: PointId,
    pub to: PointId,
    pub kind: EdgeKind,
}

/// The number of a point, which gets the next one if it has none. `NoMemory` where there is no further
/// number too.
pub fn number(points: &mut IndexSet<Point>, point: Point) -> Result<PointId, NoMemory>
    ensures at { IfOk result (λ id. IsNumber points.new.keys id point) }
    ensures exact { OnOk result ((p : Point) → Has points.new.keys p ↔ (Has points.old.keys p ⊎ (point ≡ p))) }
    ensures keeps { OnOk result (Keeps points.old.keys points.new.keys) }
    ensures apart { OnOk result (IsApart points.new.keys) }
    ensures grows { IfOk result (λ id. GrowsTo (length points.old.keys) (length points.new.keys) id.0) }
    ensures few { OnOk result (length points.new.keys < 2 ^ 32) }
    ensures listed { OnOk result (points.new.keys ≡ added_once same_point points.old.keys (point ∷ [])) }
{
    if points.len() >= POINT_ROOM {
        return Err(NoMemory);
    }
    let found = points.insert_full(point)?;
    Ok(PointId(found.0 as u32))
}

/// The number of a point; `None` exactly where it has none.
pub fn find(points: &IndexSet<Point>, point: Point) -> Option<PointId>
    requires { length points.now.keys < 2 ^ 32 }
    ensures some { IfSome result (λ id. IsNumber points.now.keys id point) }
    ensures none { IsNone result → Has points.now.keys point → ⊥ }
{
    match points.get_index_of(&point) {
        None => None,
        Some(at) => Some(PointId(at as u32)),
    }
}
