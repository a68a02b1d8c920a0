//! Why a session refuses a message.
ghost use Rattle.std.specs.Prelude.{◌≡◌};
ghost use Rattle.session_core.specs.Machine.{refusal_of, open_refusal, close_refusal, request_refusal, edit_refusal};

use crate::analyser::Analyser;
use crate::files::{Files, is_open, version_of};
use crate::request::Request;
use crate::requests::is_in_use;
use py_base::Text;
use wire_json::{Msg, SessionRefusal};

/// The most files that may be open.
pub const FILE_LIMIT: usize = 32;

/// The most requests that may be open.
pub const REQUEST_LIMIT: usize = 192;

/// Why the session refuses a message, if it does.
pub fn refusal_of<A: Analyser>(
    files: &Files<A>,
    requests: &[Request],
    message: &Msg,
) -> Option<SessionRefusal>
    ensures { result ≡ refusal_of files.now.entries requests.now message.now }
{
    match message {
        Msg::Open(file, _, _) => open_refusal(files, file),
        Msg::Edit(file, version, _) => edit_refusal(version_of(files, file), *version),
        Msg::Close(file) => close_refusal(files, file),
        Msg::Hover(id, file, _) | Msg::Check(id, file) => {
            request_refusal(files, requests, *id, file)
        }
        Msg::Cancel(_) | Msg::End => None,
    }
}

fn open_refusal<A: Analyser>(files: &Files<A>, file: &Text) -> Option<SessionRefusal>
    ensures { result ≡ open_refusal files.now.entries file.now }
{
    if is_open(files, file) {
        return Some(SessionRefusal::AlreadyOpen);
    }
    if files.len() >= FILE_LIMIT {
        return Some(SessionRefusal::TooManyFiles);
    }
    None
}

fn close_refusal<A: Analyser>(files: &Files<A>, file: &Text) -> Option<SessionRefusal>
    ensures { result ≡ close_refusal files.now.entries file.now }
{
    if is_open(files, file) {
        return None;
    }
    Some(SessionRefusal::UnknownFile)
}

fn edit_refusal(have: Option<u32>, version: u32) -> Option<SessionRefusal>
    ensures { result ≡ edit_refusal have version }
{
    match have {
        None => Some(SessionRefusal::UnknownFile),
        Some(have) if have < version => None,
        Some(have) => Some(SessionRefusal::StaleVersion(have)),
    }
}

fn request_refusal<A: Analyser>(
    files: &Files<A>,
    requests: &[Request],
    id: u32,
    file: &Text,
) -> Option<SessionRefusal>
    ensures { result ≡ request_refusal files.now.entries requests.now id file.now }
{
    if !is_open(files, file) {
        return Some(SessionRefusal::UnknownFile);
    }
    if is_in_use(requests, id) {
        return Some(SessionRefusal::IdInUse);
    }
    if requests.len() >= REQUEST_LIMIT {
        return Some(SessionRefusal::TooManyRequests);
    }
    None
}
