//! The command `serve` with no worker: a session from bytes to bytes.
ghost use Rattle.std.specs.Prelude.{◌≡◌, ◌≢◌, ◌≤◌, ◌<◌, ◌^◌, [], ◌∷◌, ◌++◌, false, None, Ok, ℕ, List, ◌⊎◌};
ghost use Rattle.py_base.specs.Causes.{Rose};
ghost use Rattle.edge_io.specs.Cutting.{IsNew};
ghost use Rattle.serial_session.specs.Served.{code_of, Account, IsMarked, Reports};

use crate::entry::Entry;
use crate::session::{Broken, Session};
use crate::status::Status;
use edge_io::{Cutter, Line, LineFault, LineReader, Sink, Source};
use py_base::List;
use std::alloc::Global;

/// The most bytes that a session takes: 2^40.
pub const INPUT_LIMIT: u64 = 1_099_511_627_776;

/// What a command came to: its exit status, how many bytes the source gave, and the journal of
/// its session, which other commands leave empty.
#[derive(Drop)]
pub struct Served {
    pub status: u8,
    pub bytes_taken: u64,
    pub journal: List<Entry>,
}

/// Serves the lines of a source, one after another: each is answered before the next is taken. It
/// ends behind the line `end`, at the end of the input, or where a device failed, memory was not
/// had or 2^40 bytes came without an end.
pub fn serve_serial<S: Source, K: Sink>(alloc: Global, source: &mut S, sink: &mut K) -> Served
    ensures reports { Reports result.status result.journal result.bytes_taken (S.ended source.old) (S.ended source.new) (S.left source.old) (S.left source.new) (K.written sink.old) (K.written sink.new) }
    ensures served { result.status ≢ 2 }

    // At most 2^40 bytes are taken, and fewer where the input failed: with as many, no end and no
    // line `end`, the status is 6 (or 4 or 5).
    ensures limit { result.bytes_taken ≤ 2 ^ 40 }
    ensures below { result.status ≡ 3 → result.bytes_taken < 2 ^ 40 }

    // A fault is answered where a device failed, and nowhere else.
    ensures read_fault { result.status ≡ 3 → Rose (S.faults source.old) (S.faults source.new) }
    ensures reads { result.status ≢ 3 → S.faults source.new ≡ S.faults source.old }
    ensures write_fault { result.status ≡ 4 → Rose (K.faults sink.old) (K.faults sink.new) }
    ensures writes { result.status ≢ 4 → K.faults sink.new ≡ K.faults sink.old }
{
    let mut session = Session::new(alloc);
    let Ok(mut reader) = LineReader::new(alloc, INPUT_LIMIT) else {
        return Served {
            status: Status::NoMemory.code(),
            bytes_taken: 0,
            journal: session.journal,
        };
    };
    let status = serve_lines(alloc, &mut reader, &mut session, source, sink);
    Served {
        status: status.code(),
        bytes_taken: reader.taken(),
        journal: session.journal,
    }
}

// The lines of a session that has just begun.
fn serve_lines<S: Source, K: Sink>(
    alloc: Global,
    reader: &mut LineReader,
    session: &mut Session,
    source: &mut S,
    sink: &mut K,
) -> Status
    requires new { IsNew reader.old INPUT_LIMIT }
    requires journal { session.old.journal ≡ [] }
    requires opened { session.old.opened ≡ false }
    ensures account { Account result session.new.journal reader.new.taken reader.new.at_end (S.left source.old) (S.left source.new) (K.written sink.old) (K.written sink.new) }
    ensures at_end { IsMarked (S.ended source.old) (S.ended source.new) reader.new.at_end }
    ensures served { result ≢ Status.Usage }
    ensures limit { reader.new.taken ≤ 2 ^ 40 }
    ensures below { result ≡ Status.ReadFault → reader.new.taken < 2 ^ 40 }
    ensures read_fault { result ≡ Status.ReadFault → Rose (S.faults source.old) (S.faults source.new) }
    ensures reads { result ≢ Status.ReadFault → S.faults source.new ≡ S.faults source.old }
    ensures write_fault { result ≡ Status.WriteFault → Rose (K.faults sink.old) (K.faults sink.new) }
    ensures writes { result ≢ Status.WriteFault → K.faults sink.new ≡ K.faults sink.old }
{
    'lines: for number in 0..u64::MAX {
        let line = match reader.next_line(source) {
            Ok(Some(line)) => line,
            Ok(None) => return Status::Done,
            Err(LineFault::ReadFault) => return Status::ReadFault,
            Err(LineFault::TooLong) => return Status::TooLong,
            Err(LineFault::Memory) => return Status::NoMemory,
        };
        match session.take_line(alloc, number, &line, sink) {
            Ok(false) => {}
            Ok(true) => return Status::Done,
            Err(Broken::WriteFault) => return Status::WriteFault,
            Err(Broken::Memory) => return Status::NoMemory,
        }
    }
    unreachable!()
}
