//! What a finished job is to the open job of its number.
ghost use Rattle.std.specs.Prelude.{◌≡◌, ◌↔◌, Some, IsTrue, filter_map};
ghost use Rattle.std.specs.List.{find};
ghost use Rattle.session_core.specs.declared.job.Work.TheVariants.{Publish};
ghost use Rattle.session_core.specs.Jobs.{asked_job, asked_work, publishing_job, is_answer, list_job, open_jobs_of, has_number};
ghost use Rattle.session_core.specs.Parts.{FitsAs};

use crate::analyser::Analyser;
use crate::file_name::FileName;
use crate::files::Files;
use crate::job::{Done, Outcome, Work};
use crate::open_file::OpenFile;
use crate::request::{Question, Request};

/// What a finished job is to the open job of its number.
#[derive(Clone, Copy, Debug)]
pub enum Fit {
    /// No open job has its number.
    NoJob,
    /// It was given up, or is of another text or work.
    Undone,
    /// It is that job, done, over the text of this version.
    Done(u32),
}

/// What a finished job is to what is open.
pub fn fit_of<A: Analyser>(
    analyser: &A,
    files: &Files<A>,
    requests: &[Request],
    done: &Done<A>,
) -> Fit
    ensures { FitsAs (find (has_number done.now.number) (open_jobs_of files.now.entries requests.now)) done.now result }
{
    for request in requests {
        if request.job == done.number {
            if let Some(file) = files.get(request.file.as_str()) {
                return fit_to_request(analyser, file, request, done);
            }
        }
    }
    fit_to_lists(analyser, files, done)
}

fn fit_to_lists<A: Analyser>(analyser: &A, files: &Files<A>, done: &Done<A>) -> Fit
    ensures { FitsAs (find (has_number done.now.number) (filter_map list_job files.now.entries)) done.now result }
{
    for place in 0..files.len() {
        if let Some((name, file)) = files.get_index(place) {
            if !file.is_published() && file.job() == done.number {
                return fit_to_list(analyser, name, file, done);
            }
        }
    }
    Fit::NoJob
}

fn fit_to_request<A: Analyser>(
    analyser: &A,
    file: &OpenFile<A>,
    request: &Request,
    done: &Done<A>,
) -> Fit
    ensures { FitsAs (Some (asked_job request.now file.now)) done.now result }
{
    if file.is_of(analyser, &done.doc)
        && is_asked(request, &done.work)
        && is_answer(&done.outcome)
    {
        return Fit::Done(file.version());
    }
    Fit::Undone
}

fn fit_to_list<A: Analyser>(
    analyser: &A,
    name: &FileName,
    file: &OpenFile<A>,
    done: &Done<A>,
) -> Fit
    ensures { FitsAs (Some (publishing_job name.now file.now)) done.now result }
{
    if file.is_of(analyser, &done.doc)
        && is_list_of(name, file.version(), &done.work)
        && is_answer(&done.outcome)
    {
        return Fit::Done(file.version());
    }
    Fit::Undone
}

// Whether this is the request's work.
fn is_asked(request: &Request, work: &Work) -> bool
    ensures { IsTrue result ↔ (work.now ≡ asked_work request.now.id request.now.question) }
{
    match (&request.question, work) {
        (Question::TypeAt(place), Work::Hover(id, at)) => *id == request.id && at == place,
        (Question::Diagnostics, Work::Check(id)) => *id == request.id,
        _ => false,
    }
}

// Whether this is the work of the list of a file's version.
fn is_list_of(name: &FileName, version: u32, work: &Work) -> bool
    ensures { IsTrue result ↔ (work.now ≡ Publish name.now version) }
{
    match work {
        Work::Publish(file, of) => name.as_text() == file && *of == version,
        _ => false,
    }
}

// Whether an outcome answers.
fn is_answer(outcome: &Outcome) -> bool
    ensures { result ≡ is_answer outcome.now }
{
    match outcome {
        Outcome::Listed(_) | Outcome::Hovered(_) | Outcome::NoMemory => true,
        Outcome::Cancelled => false,
    }
}
