//! What a line comes to.
ghost use Rattle.std.specs.Prelude.{◌≡◌, [], false};

use py_base::List;
use std::alloc::Global;
use wire_json::Out;

/// What a line came to.
#[derive(Drop)]
pub struct Turn {
    /// The replies that it writes.
    pub outs: List<Out>,
    /// The numbers of the jobs that it closed, in rising order.
    pub given_up: List<u64>,
    /// Whether it ended the session.
    pub ended: bool,
}

impl Turn {
    /// One that writes nothing and closes nothing.
    pub fn silent(alloc: Global) -> Turn
        ensures outs { result.outs ≡ [] }
        ensures given_up { result.given_up ≡ [] }
        ensures ended { result.ended ≡ false }
    {
        Turn {
            outs: List::new(alloc),
            given_up: List::new(alloc),
            ended: false,
        }
    }
}
