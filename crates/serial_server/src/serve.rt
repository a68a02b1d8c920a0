//! The command `serve` with no worker thread: a session from bytes to bytes.
ghost use Rattle.std.specs.Prelude.{◌≡◌, ◌≢◌, ◌≤◌, ◌<◌, ◌^◌, ◌⊎◌, List};
ghost use Rattle.py_base.specs.Causes.{Rose};
ghost use Rattle.edge_io.specs.Cutting.{IsNew};
ghost use Rattle.wire_json.specs.declared.message.WireStep.{WireStep};
ghost use Rattle.wire_json.specs.declared.reply.Out.{Out};
ghost use Rattle.session_core.specs.Journal.{Legal, serial};
ghost use Rattle.session_core.specs.Calls.{new_serving};
ghost use Rattle.serial_server.specs.Served.{SerialAccount, IsMarked, SerialReports};

use crate::broken::Broken;
use crate::lines::serve_line;
use crate::status::Status;
use crate::worker::Worker;
use edge_io::{Cutter, LineFault, LineReader, Sink, Source};
use py_base::List;
use session_core::laws::one_output;
use session_core::{Entry, Session};
use std::alloc::Global;

/// The most bytes that a session takes: 2^40.
pub const INPUT_LIMIT: u64 = 1_099_511_627_776;

/// What a command came to: its exit status, how many bytes the source gave, and the journal of
/// its session, which other commands leave empty.
#[derive(Drop)]
pub struct Served {
    pub status: u8,
    pub bytes_taken: u64,
    pub journal: List<Entry>,
}

/// Serves the lines of a source, one after another: each is answered before the next is taken. It
/// ends behind the line `end`, at the end of the input, or where a device failed, memory was not
/// had or 2^40 bytes came without an end.
pub fn serve_serial<A: Worker, S: Source, K: Sink>(
    alloc: Global,
    analyser: A,
    worker: &mut A,
    source: &mut S,
    sink: &mut K,
) -> Served
    ensures reports { SerialReports A.has_list A.has_hover result.status result.journal result.bytes_taken (S.ended source.old) (S.ended source.new) (S.left source.old) (S.left source.new) (K.written sink.old) (K.written sink.new) }

    // What is written is a function of the lines: the serial journal of lines has one list of replies.
    ensures determined { (lines : List WireStep) (one other : List Out) → Legal A.has_list A.has_hover lines (serial lines) one → Legal A.has_list A.has_hover lines (serial lines) other → one ≡ other }

    // The status is one of a session's.
    ensures served { result.status ≢ 2 }

    // At most 2^40 bytes are taken, and fewer where the input failed: with as many, no end and no
    // line `end`, the status is 6 (or 4 or 5).
    ensures limit { result.bytes_taken ≤ 2 ^ 40 }
    ensures below { result.status ≡ 3 → result.bytes_taken < 2 ^ 40 }

    // A fault is answered where a device failed, and nowhere else.
    ensures read_fault { result.status ≡ 3 → Rose (S.faults source.old) (S.faults source.new) }
    ensures reads { result.status ≢ 3 → S.faults source.new ≡ S.faults source.old }
    ensures write_fault { result.status ≡ 4 → Rose (K.faults sink.old) (K.faults sink.new) }
    ensures writes { result.status ≢ 4 → K.faults sink.new ≡ K.faults sink.old }
{
    one_output(&analyser);
    let mut session = Session::new(alloc, analyser);
    let Ok(mut reader) = LineReader::new(alloc, INPUT_LIMIT) else {
        return Served {
            status: Status::NoMemory.code(),
            bytes_taken: 0,
            journal: session.into_journal(),
        };
    };
    let status = serve_lines(alloc, &mut reader, &mut session, worker, source, sink);
    Served {
        status: status.code(),
        bytes_taken: reader.taken(),
        journal: session.into_journal(),
    }
}

// The lines of a session that has just begun.
fn serve_lines<A: Worker, S: Source, K: Sink>(
    alloc: Global,
    reader: &mut LineReader,
    session: &mut Session<A>,
    worker: &mut A,
    source: &mut S,
    sink: &mut K,
) -> Status
    requires new { IsNew reader.old INPUT_LIMIT }
    requires session { session.old ≡ new_serving }
    ensures account { SerialAccount A.has_list A.has_hover result session.new.journal reader.new.taken reader.new.at_end (S.left source.old) (S.left source.new) (K.written sink.old) (K.written sink.new) }
    ensures at_end { IsMarked (S.ended source.old) (S.ended source.new) reader.new.at_end }
    ensures served { result ≢ Status.Usage }
    ensures limit { reader.new.taken ≤ 2 ^ 40 }
    ensures below { result ≡ Status.ReadFault → reader.new.taken < 2 ^ 40 }
    ensures read_fault { result ≡ Status.ReadFault → Rose (S.faults source.old) (S.faults source.new) }
    ensures reads { result ≢ Status.ReadFault → S.faults source.new ≡ S.faults source.old }
    ensures write_fault { result ≡ Status.WriteFault → Rose (K.faults sink.old) (K.faults sink.new) }
    ensures writes { result ≢ Status.WriteFault → K.faults sink.new ≡ K.faults sink.old }
{
    'lines: for number in 0..u64::MAX {
        let line = match reader.next_line(source) {
            Ok(Some(line)) => line,
            Ok(None) => return Status::Done,
            Err(LineFault::ReadFault) => return Status::ReadFault,
            Err(LineFault::TooLong) => return Status::TooLong,
            Err(LineFault::Memory) => return Status::NoMemory,
        };
        match serve_line(alloc, session, worker, &line, sink) {
            Ok(false) => {}
            Ok(true) => return Status::Done,
            Err(Broken::WriteFault) => return Status::WriteFault,
            Err(Broken::Memory) => return Status::NoMemory,
        }
    }
    unreachable!()
}
