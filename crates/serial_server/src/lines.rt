//! A line of a session, with all that answers it.
ghost use Rattle.std.specs.Prelude.{◌≡◌, ◌≢◌, ◌≤◌, ◌<◌, ◌^◌, false, Err, IfOk, OnOk, OnErr, List, ℕ};
ghost use Rattle.py_base.specs.Causes.{Rose};
ghost use Rattle.edge_io.specs.Line.{IsLineOf};
ghost use Rattle.session_core.specs.Machine.{read_as};
ghost use Rattle.session_core.specs.Journal.{IsAtRest, says_end};
ghost use Rattle.serial_server.specs.Bytes.{read_bytes};
ghost use Rattle.serial_server.specs.Parts.{IsFresh, ServesLine, BreaksLine};

use crate::broken::Broken;
use crate::jobs::settle;
use crate::replies::put_replies;
use crate::worker::Worker;
use edge_io::{Line, Sink};
use py_base::NoMemory;
use session_core::{Session, Turn};
use std::alloc::Global;
use wire_json::{Read, read_line};

/// Takes a line, and answers all that it opened before it returns. The answer is whether the line ends the
/// session. `Broken` where the sink failed or memory was not had.
pub fn serve_line<A: Worker, K: Sink>(
    alloc: Global,
    session: &mut Session<A>,
    worker: &mut A,
    line: &Line,
    sink: &mut K,
) -> Result<bool, Broken>
    requires rest { IsAtRest session.old.state }
    requires fresh { IsFresh session.old }
    requires going { session.old.state.ended ≡ false }
    requires few { session.old.state.taken < 2 ^ 40 }
    ensures ok { (bytes : List ℕ) → IsLineOf line.now bytes → OnOk result (ServesLine A.has_list A.has_hover (read_bytes bytes) session.old session.new (K.written sink.old) (K.written sink.new)) }
    ensures ends { (bytes : List ℕ) → IsLineOf line.now bytes → IfOk result (λ ended. ended ≡ says_end (read_bytes bytes)) }
    ensures err { (bytes : List ℕ) → IsLineOf line.now bytes → OnErr result (BreaksLine A.has_list A.has_hover (read_bytes bytes) session.old session.new (K.written sink.old) (K.written sink.new)) }
    ensures later { K.faults sink.old ≤ K.faults sink.new }
    ensures cause { result ≡ Err Broken.WriteFault → Rose (K.faults sink.old) (K.faults sink.new) }
    ensures quiet { result ≢ Err Broken.WriteFault → K.faults sink.new ≡ K.faults sink.old }
{
    match read_line(alloc, line) {
        Ok(read) => serve_read(alloc, session, worker, read, sink),
        Err(NoMemory) => Err(Broken::Memory),
    }
}

// A line as what it reads as.
fn serve_read<A: Worker, K: Sink>(
    alloc: Global,
    session: &mut Session<A>,
    worker: &mut A,
    read: Read,
    sink: &mut K,
) -> Result<bool, Broken>
    requires rest { IsAtRest session.old.state }
    requires fresh { IsFresh session.old }
    requires going { session.old.state.ended ≡ false }
    requires few { session.old.state.taken < 2 ^ 40 }
    ensures ok { OnOk result (ServesLine A.has_list A.has_hover (read_as read) session.old session.new (K.written sink.old) (K.written sink.new)) }
    ensures ends { IfOk result (λ ended. ended ≡ says_end (read_as read)) }
    ensures err { OnErr result (BreaksLine A.has_list A.has_hover (read_as read) session.old session.new (K.written sink.old) (K.written sink.new)) }
    ensures later { K.faults sink.old ≤ K.faults sink.new }
    ensures cause { result ≡ Err Broken.WriteFault → Rose (K.faults sink.old) (K.faults sink.new) }
    ensures quiet { result ≢ Err Broken.WriteFault → K.faults sink.new ≡ K.faults sink.old }
{
    let turn = match session.line(read) {
        Ok(turn) => turn,
        Err(NoMemory) => return Err(Broken::Memory),
    };
    let Turn { outs, ended, .. } = turn;
    match put_replies(alloc, sink, outs.as_slice()) {
        Ok(()) => {}
        Err(broken) => return Err(broken),
    }
    match settle(alloc, session, worker, sink) {
        Ok(()) => Ok(ended),
        Err(broken) => Err(broken),
    }
}
