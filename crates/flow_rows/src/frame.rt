//! Where an exit leads, through the routes around it.
ghost use Rattle.std.specs.Prelude.{◌≡◌, [], ◌∷◌, ◌++◌, IfOk, OnOk};
ghost use Rattle.flow_rows.specs.Routes.{leads, listed, arrows_to};
ghost use Rattle.flow_rows.specs.Around.{targets};

use crate::route::leads_by;
use crate::{Channel, Dest, Edge, EdgeKind, Leads, Point, Route};
use py_base::{List, NoMemory};

/// The routes around a part, the innermost first.
#[derive(Drop)]
pub enum Frame<'a> {
    Top,
    Inside(Route, &'a Frame<'a>),
}

/// Adds an edge to each point that an exit leads to. After `NoMemory` some of them may stand.
pub fn leave(
    channel: Channel,
    from: Point,
    kind: EdgeKind,
    frame: &Frame,
    edges: &mut List<Edge>,
) -> Result<(), NoMemory>
    ensures { OnOk result (edges.new ≡ edges.old ++ arrows_to from kind (targets frame.now channel)) }
{
    match frame {
        Frame::Top => Ok(()),
        Frame::Inside(route, around) => {
            let last = match leads_by(*route, channel) {
                Leads::One(dest) => dest,
                Leads::Two(to, dest) => {
                    edges.push(Edge { from, to, kind })?;
                    dest
                }
            };
            match last {
                Dest::To(to) => edges.push(Edge { from, to, kind }),
                Dest::Up(outer) => leave(outer, from, kind, around, edges),
            }
        }
    }
}
