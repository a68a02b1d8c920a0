//! The command `check`: the list of the one text that the input is.
ghost use Rattle.std.specs.Prelude.{◌≡◌, ◌≢◌, ◌≤◌, []};
ghost use Rattle.py_base.specs.Causes.{Rose};
ghost use Rattle.edge_io.specs.Stream.{before};
ghost use Rattle.text_commands.specs.Checked.{Checks, Comes};
ghost use Rattle.text_commands.specs.Parts.{ChecksBytes, WritesList};

use crate::check_text::check_text;
use crate::listing::list_of;
use crate::output::served;
use crate::whole::{WholeFault, read_whole};
use edge_io::{Sink, Source, put_all};
use py_base::{Diag, NoMemory};
use serial_server::{Served, Status, Worker};
use std::alloc::Global;
use std::str;

/// Reads the whole input as one text, and writes a line for each diagnostic of its list.
///
/// The status is 0 where the list is empty, 1 where it isn't, 3 or 4 where a device failed, 5 where memory
/// was not had, 6 where more than 4,194,304 bytes came, and 7 where the bytes are no UTF-8. With all but 1
/// and 4 nothing is written.
pub fn check_once<A: Worker, S: Source, K: Sink>(
    alloc: Global,
    worker: &mut A,
    source: &mut S,
    sink: &mut K,
) -> Served
    ensures checks { Checks A.has_list result.status result.bytes_taken (S.ended source.new) (S.left source.old) (S.left source.new) (K.written sink.old) (K.written sink.new) }
    ensures served { result.status ≢ 2 }
    ensures journal { result.journal ≡ [] }

    // A fault is answered where a device failed, and nowhere else.
    ensures read_fault { result.status ≡ 3 → Rose (S.faults source.old) (S.faults source.new) }
    ensures reads { result.status ≢ 3 → S.faults source.new ≡ S.faults source.old }
    ensures write_fault { result.status ≡ 4 → Rose (K.faults sink.old) (K.faults sink.new) }
    ensures writes { result.status ≢ 4 → K.faults sink.new ≡ K.faults sink.old }
{
    let mut bytes = Vec::new(alloc);
    let status = check_whole(alloc, worker, source, &mut bytes, sink);
    served(alloc, status, bytes.len() as u64)
}

// The list of the whole input, written; its bytes are taken behind none.
fn check_whole<A: Worker, S: Source, K: Sink>(
    alloc: Global,
    worker: &mut A,
    source: &mut S,
    bytes: &mut Vec<u8>,
    sink: &mut K,
) -> Status
    requires { bytes.old.items ≡ [] }
    ensures comes { Comes A.has_list result bytes.new.items (S.ended source.new) (K.written sink.old) (K.written sink.new) }
    ensures taken { S.left source.old ≡ before bytes.new.items (S.left source.new) }
    ensures read_fault { result ≡ Status.ReadFault → Rose (S.faults source.old) (S.faults source.new) }
    ensures reads { result ≢ Status.ReadFault → S.faults source.new ≡ S.faults source.old }
    ensures write_fault { result ≡ Status.WriteFault → Rose (K.faults sink.old) (K.faults sink.new) }
    ensures writes { result ≢ Status.WriteFault → K.faults sink.new ≡ K.faults sink.old }
{
    match read_whole(source, bytes) {
        Ok(()) => check_bytes(alloc, worker, bytes.as_slice(), sink),
        Err(WholeFault::ReadFault) => Status::ReadFault,
        Err(WholeFault::TooLong) => Status::TooLong,
        Err(WholeFault::Memory) => Status::NoMemory,
    }
}

// The list of these bytes, written.
fn check_bytes<A: Worker, K: Sink>(
    alloc: Global,
    worker: &mut A,
    bytes: &[u8],
    sink: &mut K,
) -> Status
    ensures checks { ChecksBytes A.has_list result bytes.now (K.written sink.old) (K.written sink.new) }
    ensures write_fault { result ≡ Status.WriteFault → Rose (K.faults sink.old) (K.faults sink.new) }
    ensures writes { result ≢ Status.WriteFault → K.faults sink.new ≡ K.faults sink.old }
{
    let Ok(text) = str::from_utf8(bytes) else {
        return Status::NotText;
    };
    match list_of(alloc, worker, text) {
        Ok(list) => write_list(alloc, list.as_slice(), sink),
        Err(NoMemory) => Status::NoMemory,
    }
}

// A list, written.
fn write_list<K: Sink>(alloc: Global, list: &[Diag], sink: &mut K) -> Status
    ensures writes_list { WritesList result list.now (K.written sink.old) (K.written sink.new) }
    ensures write_fault { result ≡ Status.WriteFault → Rose (K.faults sink.old) (K.faults sink.new) }
    ensures writes { result ≢ Status.WriteFault → K.faults sink.new ≡ K.faults sink.old }
{
    let Ok(text) = check_text(alloc, list) else {
        return Status::NoMemory;
    };
    if put_all(sink, text.as_bytes()).is_err() {
        return Status::WriteFault;
    }
    if list.is_empty() {
        return Status::Done;
    }
    Status::Found
}
