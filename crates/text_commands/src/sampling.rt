//! The command `sample`: the summary of a module that it makes.
ghost use Rattle.std.specs.Prelude.{◌≡◌, ◌≢◌, ◌≤◌, [], List, IfOk, string_bytes};
ghost use Rattle.py_base.specs.declared.diag.Diag.{Diag};
ghost use Rattle.py_base.specs.Causes.{Rose};
ghost use Rattle.text_commands.specs.Sample.{sample_module, summary};
ghost use Rattle.text_commands.specs.Sampled.{Samples, Shows};
ghost use Rattle.text_commands.specs.Parts.{PutsAll};

use crate::listing::list_of;
use crate::output::served;
use crate::sample_module::sample_module;
use crate::summary::summary;
use edge_io::{Sink, put_all};
use py_base::NoMemory;
use serial_server::{Served, Status, Worker};
use std::alloc::Global;

/// Makes a module of so many functions, 1 to 500, and writes its summary.
///
/// The status is 0, 4 where the sink failed, or 5 where memory was not had, and then nothing is written.
pub fn sample<A: Worker, K: Sink>(
    alloc: Global,
    worker: &mut A,
    functions: u32,
    sink: &mut K,
) -> Served
    requires some { 1 ≤ functions }
    requires few { functions ≤ 500 }
    ensures samples { Samples A.has_list result.status functions (K.written sink.old) (K.written sink.new) }
    ensures served { result.status ≢ 2 }
    ensures bytes_taken { result.bytes_taken ≡ 0 }
    ensures journal { result.journal ≡ [] }
    ensures write_fault { result.status ≡ 4 → Rose (K.faults sink.old) (K.faults sink.new) }
    ensures writes { result.status ≢ 4 → K.faults sink.new ≡ K.faults sink.old }
{
    let status = show_sample(alloc, worker, functions, sink);
    served(alloc, status, 0)
}

// The summary of the module of so many functions, written.
fn show_sample<A: Worker, K: Sink>(
    alloc: Global,
    worker: &mut A,
    functions: u32,
    sink: &mut K,
) -> Status
    requires some { 1 ≤ functions }
    requires few { functions ≤ 500 }
    ensures shows { Shows A.has_list result functions (K.written sink.old) (K.written sink.new) }
    ensures write_fault { result ≡ Status.WriteFault → Rose (K.faults sink.old) (K.faults sink.new) }
    ensures writes { result ≢ Status.WriteFault → K.faults sink.new ≡ K.faults sink.old }
{
    match summary_of(alloc, worker, functions) {
        Ok(text) => put_text(text.as_str(), sink),
        Err(NoMemory) => Status::NoMemory,
    }
}

// The summary of the module of so many functions.
fn summary_of<A: Worker>(alloc: Global, worker: &mut A, functions: u32) -> Result<String, NoMemory>
    requires some { 1 ≤ functions }
    requires few { functions ≤ 500 }
    ensures { IfOk result (λ text. (list : List Diag) × A.has_list (sample_module functions) list × (string_bytes text ≡ summary functions (sample_module functions) list)) }
{
    let text = sample_module(alloc, functions)?;
    let list = list_of(alloc, worker, text.as_str())?;
    summary(alloc, functions, text.as_str(), list.as_slice())
}

// Writes a text.
fn put_text<K: Sink>(text: &str, sink: &mut K) -> Status
    ensures puts { PutsAll result text.now (K.written sink.old) (K.written sink.new) }
    ensures write_fault { result ≡ Status.WriteFault → Rose (K.faults sink.old) (K.faults sink.new) }
    ensures writes { result ≢ Status.WriteFault → K.faults sink.new ≡ K.faults sink.old }
{
    match put_all(sink, text.as_bytes()) {
        Ok(()) => Status::Done,
        Err(_) => Status::WriteFault,
    }
}
