//! The open jobs, handed out.
ghost use Rattle.std.specs.Prelude.{◌≡◌, ◌++◌, IfOk, OnOk, map, option_map};
ghost use Rattle.session_core.specs.Jobs.{asked_work, handed_job, handed_view, request_job, list_job, is_back, is_waiting, waiting_requests, waiting_lists};

use crate::analyser::Analyser;
use crate::file_name::FileName;
use crate::files::Files;
use crate::job::{Job, Work};
use crate::open_file::OpenFile;
use crate::request::{Question, Request};
use py_base::{List, NoMemory};
use std::alloc::Global;

// Whether the job of this number waits to be handed out.
fn is_waiting(handed: u64, back: &[u64], number: u64) -> bool
    ensures { result ≡ is_waiting handed back.now number }
{
    number > handed || is_back(back, number)
}

// Whether the job of this number came back undone.
fn is_back(back: &[u64], number: u64) -> bool
    ensures { result ≡ is_back back.now number }
{
    back.iter().any(|other| *other == number)
}

fn work_of(request: &Request) -> Work
    ensures { result ≡ asked_work request.now.id request.now.question }
{
    match &request.question {
        Question::TypeAt(place) => Work::Hover(request.id, *place),
        Question::Diagnostics => Work::Check(request.id),
    }
}

// The job of a request.
fn request_job<A: Analyser>(
    analyser: &A,
    files: &mut Files<A>,
    request: &Request,
) -> Result<Option<Job<A::Doc>>, NoMemory>
    ensures same { files.new.entries ≡ files.old.entries }
    ensures job { IfOk result (λ job. option_map (handed_view A.text_of) job ≡ option_map handed_job (request_job files.old.entries request.now)) }
{
    let Some(file) = files.get_mut(request.file.as_str()) else {
        return Ok(None);
    };
    let doc = file.share(analyser)?;
    Ok(Some(Job {
        number: request.job,
        doc,
        work: work_of(request),
    }))
}

// The job of a version that waits for its list.
fn list_job<A: Analyser>(
    alloc: Global,
    analyser: &A,
    name: &FileName,
    file: &mut OpenFile<A>,
) -> Result<Option<Job<A::Doc>>, NoMemory>
    ensures same { file.new ≡ file.old }
    ensures job { IfOk result (λ job. option_map (handed_view A.text_of) job ≡ option_map handed_job (list_job (name.now, file.old))) }
{
    if file.is_published() {
        return Ok(None);
    }
    let doc = file.share(analyser)?;
    let name = name.as_text().copy(alloc)?;
    Ok(Some(Job {
        number: file.job(),
        doc,
        work: Work::Publish(name, file.version()),
    }))
}

/// Adds the jobs of the requests that wait. `NoMemory` where they could not be stored.
pub fn push_request_jobs<A: Analyser>(
    jobs: &mut List<Job<A::Doc>>,
    analyser: &A,
    files: &mut Files<A>,
    requests: &[Request],
    handed: u64,
    back: &[u64],
) -> Result<(), NoMemory>
    ensures same { files.new.entries ≡ files.old.entries }
    ensures jobs { OnOk result (map (handed_view A.text_of) jobs.new ≡ map (handed_view A.text_of) jobs.old ++ waiting_requests handed back.now files.old.entries requests.now) }
{
    for request in requests {
        if is_waiting(handed, back, request.job) {
            if let Some(job) = request_job(analyser, files, request)? {
                jobs.push(job)?;
            }
        }
    }
    Ok(())
}

/// Adds the jobs of the versions that wait. `NoMemory` where they could not be stored.
pub fn push_list_jobs<A: Analyser>(
    jobs: &mut List<Job<A::Doc>>,
    alloc: Global,
    analyser: &A,
    files: &mut Files<A>,
    handed: u64,
    back: &[u64],
) -> Result<(), NoMemory>
    ensures same { files.new.entries ≡ files.old.entries }
    ensures jobs { OnOk result (map (handed_view A.text_of) jobs.new ≡ map (handed_view A.text_of) jobs.old ++ waiting_lists handed back.now files.old.entries) }
{
    for place in 0..files.len() {
        let (name, file) = files.pair_mut(place);
        if is_waiting(handed, back, file.job()) {
            if let Some(job) = list_job(alloc, analyser, name, file)? {
                jobs.push(job)?;
            }
        }
    }
    Ok(())
}
