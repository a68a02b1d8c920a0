//! Replies, written as bytes.
ghost use Rattle.std.specs.Prelude.{◌≡◌, ◌≢◌, ◌≤◌, ◌∷◌, [], Err, OnOk, OnErr};
ghost use Rattle.py_base.specs.Causes.{Rose};
ghost use Rattle.edge_io.specs.Stream.{behind};
ghost use Rattle.wire_json.specs.Reply.{reply_text};
ghost use Rattle.serial_server.specs.Bytes.{texts};
ghost use Rattle.serial_server.specs.Parts.{PutsPart};

use crate::broken::Broken;
use edge_io::{Sink, put_all};
use py_base::NoMemory;
use std::alloc::Global;
use wire_json::{Out, write_out};

// Writes a reply by one `put_all`. `Broken` where the sink failed or memory was not had: some first
// bytes of it are written then.
fn put_reply<K: Sink>(alloc: Global, sink: &mut K, out: &Out) -> Result<(), Broken>
    ensures ok { OnOk result (K.written sink.new ≡ behind (K.written sink.old) (reply_text out.now)) }
    ensures err { OnErr result (PutsPart (out.now ∷ []) (K.written sink.old) (K.written sink.new)) }
    ensures later { K.faults sink.old ≤ K.faults sink.new }
    ensures cause { result ≡ Err Broken.WriteFault → Rose (K.faults sink.old) (K.faults sink.new) }
    ensures quiet { result ≢ Err Broken.WriteFault → K.faults sink.new ≡ K.faults sink.old }
{
    let bytes = match write_out(alloc, out) {
        Ok(bytes) => bytes,
        Err(NoMemory) => return Err(Broken::Memory),
    };
    match put_all(sink, bytes.as_slice()) {
        Ok(()) => Ok(()),
        Err(_) => Err(Broken::WriteFault),
    }
}

/// Writes replies, in order, each by one `put_all`. `Broken` where the sink failed or memory was not had:
/// some first bytes of them are written then.
pub fn put_replies<K: Sink>(alloc: Global, sink: &mut K, outs: &[Out]) -> Result<(), Broken>
    ensures ok { OnOk result (K.written sink.new ≡ behind (K.written sink.old) (texts outs.now)) }
    ensures err { OnErr result (PutsPart outs.now (K.written sink.old) (K.written sink.new)) }
    ensures later { K.faults sink.old ≤ K.faults sink.new }
    ensures cause { result ≡ Err Broken.WriteFault → Rose (K.faults sink.old) (K.faults sink.new) }
    ensures quiet { result ≢ Err Broken.WriteFault → K.faults sink.new ≡ K.faults sink.old }
{
    for out in outs {
        match put_reply(alloc, sink, out) {
            Ok(()) => {}
            Err(broken) => return Err(broken),
        }
    }
    Ok(())
}
