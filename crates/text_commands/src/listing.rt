//! The list of a text, as a worker makes it.
ghost use Rattle.std.specs.Prelude.{IfOk};

use py_base::{Diag, List, NoMemory, Text};
use serial_server::Worker;
use session_core::{Outcome, Work};
use std::alloc::Global;

/// The list of a text. `NoMemory` where it could not be stored.
pub fn list_of<A: Worker>(alloc: Global, worker: &mut A, text: &str) -> Result<List<Diag>, NoMemory>
    ensures { IfOk result (A.has_list text.now) }
{
    let text = Text::from_str(alloc, text)?;
    let mut doc = worker.open(&text)?;
    match worker.work(&mut doc, &Work::Check(0))? {
        Outcome::Listed(list) => Ok(list),
        Outcome::Hovered(_) | Outcome::Cancelled | Outcome::NoMemory => unreachable!(),
    }
}
