//! What a command with no session came to.
ghost use Rattle.std.specs.Prelude.{◌≡◌, []};
ghost use Rattle.serial_server.specs.Served.{code_of};

use py_base::List;
use serial_server::{Served, Status};
use std::alloc::Global;

/// What a command with no session came to.
pub fn served(alloc: Global, status: Status, bytes_taken: u64) -> Served
    ensures status { result.status ≡ code_of status }
    ensures bytes_taken { result.bytes_taken ≡ bytes_taken }
    ensures journal { result.journal ≡ [] }
{
    Served {
        status: status.code(),
        bytes_taken,
        journal: List::new(alloc),
    }
}
