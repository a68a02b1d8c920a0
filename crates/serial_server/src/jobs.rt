//! What is open behind a line, answered.
ghost use Rattle.std.specs.Prelude.{◌≡◌, ◌≢◌, ◌≤◌, ◌∷◌, ◌++◌, [], Err, IfOk, OnOk, OnErr};
ghost use Rattle.py_base.specs.Causes.{Rose};
ghost use Rattle.session_core.specs.Jobs.{OpenJob, close_work, open_jobs, handed_job, handed_view};
ghost use Rattle.serial_server.specs.Worked.{IsWorked};
ghost use Rattle.serial_server.specs.OneJob.{HasOneJob, serial_entry};
ghost use Rattle.serial_server.specs.Parts.{Enters, EntersPart, Settles};
ghost use Rattle.session_core.specs.Journal.{settling};

use crate::broken::Broken;
use crate::replies::put_replies;
use crate::worker::Worker;
use edge_io::Sink;
use py_base::NoMemory;
use session_core::{Done, Job, Session};
use std::alloc::Global;

// Does a job: what its work asks for, of its document's text.
fn do_job<A: Worker>(worker: &mut A, job: Job<A::Doc>) -> Result<Done<A>, NoMemory>
    ensures { IfOk result (λ done. IsWorked (handed_view A.text_of job) done) }
{
    let Job {
        number,
        mut doc,
        work,
    } = job;
    let outcome = worker.work(&mut doc, &work)?;
    Ok(Done {
        number,
        doc,
        work,
        outcome,
    })
}

// Does the job that alone is open, and writes its reply.
fn serve_job<A: Worker, K: Sink>(
    alloc: Global,
    session: &mut Session<A>,
    worker: &mut A,
    job: Job<A::Doc>,
    sink: &mut K,
) -> Result<(), Broken>
    requires { (j : OpenJob) × (open_jobs session.old.state ≡ j ∷ []) × (handed_view A.text_of job ≡ handed_job j) }
    ensures leads { (j : OpenJob) → open_jobs session.old.state ≡ j ∷ [] → OnOk result (session.new ≡ record session.old { state = close_work session.old.state j.work; journal = session.old.journal ++ serial_entry j.work ∷ [] }) }
    ensures ok { (j : OpenJob) → open_jobs session.old.state ≡ j ∷ [] → OnOk result (Enters A.has_list A.has_hover (serial_entry j.work ∷ []) [] session.old session.new (K.written sink.old) (K.written sink.new)) }
    ensures err { (j : OpenJob) → open_jobs session.old.state ≡ j ∷ [] → OnErr result (EntersPart A.has_list A.has_hover (serial_entry j.work ∷ []) [] session.old session.new (K.written sink.old) (K.written sink.new)) }
    ensures later { K.faults sink.old ≤ K.faults sink.new }
    ensures cause { result ≡ Err Broken.WriteFault → Rose (K.faults sink.old) (K.faults sink.new) }
    ensures quiet { result ≢ Err Broken.WriteFault → K.faults sink.new ≡ K.faults sink.old }
{
    let done = match do_job(worker, job) {
        Ok(done) => done,
        Err(NoMemory) => return Err(Broken::Memory),
    };
    match session.finished(done) {
        Ok(outs) => put_replies(alloc, sink, outs.as_slice()),
        Err(NoMemory) => Err(Broken::Memory),
    }
}

/// Answers all that is open behind a line: its one job, or none. `Broken` where the sink failed or memory
/// was not had.
pub fn settle<A: Worker, K: Sink>(
    alloc: Global,
    session: &mut Session<A>,
    worker: &mut A,
    sink: &mut K,
) -> Result<(), Broken>
    requires one { HasOneJob session.old.handed session.old.state }
    ensures ok { OnOk result (Settles A.has_list A.has_hover session.old session.new (K.written sink.old) (K.written sink.new)) }
    ensures err { OnErr result (EntersPart A.has_list A.has_hover (settling session.old.state) [] session.old session.new (K.written sink.old) (K.written sink.new)) }
    ensures later { K.faults sink.old ≤ K.faults sink.new }
    ensures cause { result ≡ Err Broken.WriteFault → Rose (K.faults sink.old) (K.faults sink.new) }
    ensures quiet { result ≢ Err Broken.WriteFault → K.faults sink.new ≡ K.faults sink.old }
{
    let jobs = match session.jobs() {
        Ok(jobs) => jobs,
        Err(NoMemory) => return Err(Broken::Memory),
    };
    for job in jobs.into_vec() {
        match serve_job(alloc, session, worker, job, sink) {
            Ok(()) => {}
            Err(broken) => return Err(broken),
        }
    }
    Ok(())
}
