//! The top call: a command from its words, over a source, a sink and a gate.
ghost use Rattle.std.specs.Prelude.{◌≡◌, ◌≢◌, ◌↔◌, ◌≤◌, ◌<◌, ◌^◌, [], None, map, string_bytes};
ghost use Rattle.py_base.specs.Causes.{Rose};
ghost use Rattle.serial_session.specs.Command.{command_of};
ghost use Rattle.serial_session.specs.Served.{Reports};

use crate::command::{Command, parse_words};
use crate::serve::{Served, serve_serial};
use crate::status::Status;
use edge_io::{Gate, Sink, Source};
use py_base::List;
use std::alloc::Global;

/// Runs the command of these words, which are those behind the program's own name.
///
/// The exit status is 2 exactly where they are no command; then nothing is taken or written. The
/// gate holds workers back; no command of this stage has any.
pub fn run<S: Source + Send, K: Sink, G: Gate + Sync>(
    alloc: Global,
    words: &[String],
    source: &mut S,
    sink: &mut K,
    _gate: &G,
) -> Served
    ensures usage { (result.status ≡ 2) ↔ (command_of (map string_bytes words.now) ≡ None) }
    ensures untouched { result.status ≡ 2 → (source.new ≡ source.old) × (sink.new ≡ sink.old) }
    ensures reports { Reports result.status result.journal result.bytes_taken (S.ended source.old) (S.ended source.new) (S.left source.old) (S.left source.new) (K.written sink.old) (K.written sink.new) }

    // At most 2^40 bytes are taken, and fewer where the input failed: with as many, no end and no
    // line `end`, the status is 6 (or 4 or 5).
    ensures limit { result.bytes_taken ≤ 2 ^ 40 }
    ensures below { result.status ≡ 3 → result.bytes_taken < 2 ^ 40 }

    // A fault is answered where a device failed, and nowhere else.
    ensures read_fault { result.status ≡ 3 → Rose (S.faults source.old) (S.faults source.new) }
    ensures reads { result.status ≢ 3 → S.faults source.new ≡ S.faults source.old }
    ensures write_fault { result.status ≡ 4 → Rose (K.faults sink.old) (K.faults sink.new) }
    ensures writes { result.status ≢ 4 → K.faults sink.new ≡ K.faults sink.old }
{
    match parse_words(words) {
        Some(Command::Serve) => serve_serial(alloc, source, sink),
        None => usage(alloc),
    }
}

// The words are no command.
fn usage(alloc: Global) -> Served
    ensures status { result.status ≡ 2 }
    ensures bytes_taken { result.bytes_taken ≡ 0 }
    ensures journal { result.journal ≡ [] }
{
    Served {
        status: Status::Usage.code(),
        bytes_taken: 0,
        journal: List::new(alloc),
    }
}
