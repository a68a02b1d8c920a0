//! The open files by their names, in the order of opening.
ghost use Rattle.std.specs.Prelude.{◌≡◌, IfOk, OnOk, Some};
ghost use Rattle.std.specs.List.{list_all};
ghost use Rattle.std.specs.Map.{values_of};
ghost use Rattle.session_core.specs.Machine.{is_open, version_of, doc_of, list_jobs, put_doc, close_doc, mark_published};

use crate::analyser::Analyser;
use crate::file_name::FileName;
use crate::open_file::OpenFile;
use indexmap::IndexMap;
use py_base::{List, NoMemory, Text};
use std::alloc::Global;

/// The open files.
pub type Files<A> = IndexMap<FileName, OpenFile<A>>;

/// Whether a file of this name is open.
pub fn is_open<A: Analyser>(files: &Files<A>, file: &Text) -> bool
    ensures { result ≡ is_open files.now.entries file.now }
{
    files.contains_key(file.as_str())
}

/// The version of the open file of this name.
pub fn version_of<A: Analyser>(files: &Files<A>, file: &Text) -> Option<u32>
    ensures { result ≡ version_of files.now.entries file.now }
{
    match files.get(file.as_str()) {
        Some(opened) => Some(opened.version()),
        None => None,
    }
}

/// The job of the file's list, if it waits.
pub fn list_jobs<A: Analyser>(
    alloc: Global,
    files: &Files<A>,
    file: &Text,
) -> Result<List<u64>, NoMemory>
    ensures { IfOk result (λ jobs. jobs ≡ list_jobs (doc_of files.now.entries file.now)) }
{
    match files.get(file.as_str()) {
        Some(opened) => list_job(alloc, opened),
        None => Ok(List::new(alloc)),
    }
}

fn list_job<A: Analyser>(alloc: Global, file: &OpenFile<A>) -> Result<List<u64>, NoMemory>
    ensures { IfOk result (λ jobs. jobs ≡ list_jobs (Some file.now)) }
{
    let mut jobs = List::new(alloc);
    if !file.is_published() {
        jobs.push(file.job())?;
    }
    Ok(jobs)
}

/// Whether each file's version is published.
pub fn all_published<A: Analyser>(files: &Files<A>) -> bool
    ensures { result ≡ list_all (λ doc. doc.published) (values_of files.now.entries) }
{
    files.values().all(|file| file.is_published())
}

/// Puts a version of a file in the place of the one before, or last where the file wasn't open.
/// `NoMemory` where it could not be stored.
pub fn put_file<A: Analyser>(
    files: &mut Files<A>,
    file: Text,
    opened: OpenFile<A>,
) -> Result<(), NoMemory>
    ensures { OnOk result (files.new.entries ≡ put_doc files.old.entries file opened) }
{
    files.insert(FileName::new(file), opened)?;
    Ok(())
}

/// Closes the file of this name.
pub fn close_file<A: Analyser>(files: &mut Files<A>, file: &Text)
    ensures { files.new.entries ≡ close_doc files.old.entries file.now }
{
    files.shift_remove(file.as_str());
}

/// Notes that the version of the file is published.
pub fn mark_published<A: Analyser>(files: &mut Files<A>, file: &Text)
    ensures { files.new.entries ≡ mark_published files.old.entries file.now }
{
    if let Some(opened) = files.get_mut(file.as_str()) {
        opened.publish();
    }
}
