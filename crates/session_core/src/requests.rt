//! The open requests: which of them a line closes, and what that writes.
ghost use Rattle.std.specs.Prelude.{◌≡◌, ◌++◌, IfOk, OnOk};
ghost use Rattle.wire_json.specs.declared.reply.By.TheVariants.{Request as ByRequest, Edit as ByEdit};
ghost use Rattle.session_core.specs.Machine.{is_of_file, has_id, is_in_use, close_requests, cancelled_outs, request_jobs};

use crate::request::Request;
use py_base::{List, NoMemory, Text};
use std::alloc::Global;
use wire_json::{By, Out};

fn is_of_file(request: &Request, file: &Text) -> bool
    ensures { result ≡ is_of_file file.now request.now }
{
    request.file == *file
}

fn has_id(request: &Request, id: u32) -> bool
    ensures { result ≡ has_id id request.now }
{
    request.id == id
}

/// Whether a request of this id is open.
pub fn is_in_use(requests: &[Request], id: u32) -> bool
    ensures { result ≡ is_in_use requests.now id }
{
    requests.iter().any(|request| has_id(request, id))
}

/// The replies to the requests of a file, which an edit or a close of it closes. `NoMemory` where they
/// could not be stored.
pub fn cancelled_by_edit(
    alloc: Global,
    requests: &[Request],
    file: &Text,
) -> Result<List<Out>, NoMemory>
    ensures { IfOk result (λ outs. outs ≡ cancelled_outs ByEdit (is_of_file file.now) requests.now) }
{
    let mut outs = List::new(alloc);
    for request in requests {
        if is_of_file(request, file) {
            outs.push(Out::Cancelled(By::Edit, request.id))?;
        }
    }
    Ok(outs)
}

/// The reply to the request of this id, if it is open, which a cancel of it closes. `NoMemory` where it
/// could not be stored.
pub fn cancelled_by_request(
    alloc: Global,
    requests: &[Request],
    id: u32,
) -> Result<List<Out>, NoMemory>
    ensures { IfOk result (λ outs. outs ≡ cancelled_outs ByRequest (has_id id) requests.now) }
{
    let mut outs = List::new(alloc);
    for request in requests {
        if has_id(request, id) {
            outs.push(Out::Cancelled(By::Request, request.id))?;
        }
    }
    Ok(outs)
}

/// Adds the jobs of the requests of a file.
pub fn push_jobs_of_file(
    jobs: &mut List<u64>,
    requests: &[Request],
    file: &Text,
) -> Result<(), NoMemory>
    ensures { OnOk result (jobs.new ≡ jobs.old ++ request_jobs (is_of_file file.now) requests.now) }
{
    for request in requests {
        if is_of_file(request, file) {
            jobs.push(request.job)?;
        }
    }
    Ok(())
}

/// Adds the job of the request of this id, if it is open.
pub fn push_jobs_of_id(jobs: &mut List<u64>, requests: &[Request], id: u32) -> Result<(), NoMemory>
    ensures { OnOk result (jobs.new ≡ jobs.old ++ request_jobs (has_id id) requests.now) }
{
    for request in requests {
        if has_id(request, id) {
            jobs.push(request.job)?;
        }
    }
    Ok(())
}

/// Closes the requests of a file.
pub fn close_of_file(requests: &mut Vec<Request>, file: &Text)
    ensures { requests.new.items ≡ close_requests (is_of_file file.now) requests.old.items }
{
    requests.retain(|request| !is_of_file(request, file));
}

/// Closes the request of this id, if it is open.
pub fn close_of_id(requests: &mut Vec<Request>, id: u32)
    ensures { requests.new.items ≡ close_requests (has_id id) requests.old.items }
{
    requests.retain(|request| !has_id(request, id));
}
