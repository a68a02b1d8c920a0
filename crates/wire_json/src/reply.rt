//! Replies: what a session writes.

use crate::message::LineRefusal;
use py_base::{Diag, List, Text};
use thiserror::Error;

/// What closed a request before it was answered.
#[derive(Clone, Copy, Debug, PartialEq, Eq)]
pub enum By {
    /// A `cancel` of its id.
    Request,
    /// An `edit` or a `close` of its file.
    Edit,
}

/// Why a session refuses a message: refusals 5 to 10.
#[derive(Clone, Copy, Debug, Error)]
pub enum SessionRefusal {
    /// The file is not open.
    #[error("the file is not open")]
    UnknownFile,
    /// The file is open.
    #[error("the file is open")]
    AlreadyOpen,
    /// The version is not greater than the open one, which is this.
    #[error("the version is not greater than {0}")]
    StaleVersion(u32),
    /// As many files are open as may be.
    #[error("too many files are open")]
    TooManyFiles,
    /// The id is that of an open request.
    #[error("the id is in use")]
    IdInUse,
    /// As many requests are open as may be.
    #[error("too many requests are open")]
    TooManyRequests,
}

/// Why a line is refused.
#[derive(Debug, Drop)]
pub enum Refusal {
    /// It is no message.
    Line(LineRefusal),
    /// The session can't take its message as it stands.
    Session(SessionRefusal),
}

/// A reply.
#[derive(Debug, Drop)]
pub enum Out {
    /// The list of a file's version is published.
    Listed(Text, List<Diag>, u32),
    /// The answer to a hover: the type at its place, or none, in this version.
    Hovered(u32, Option<Text>, u32),
    /// The answer to a check: the list of this version.
    Checked(u32, List<Diag>, u32),
    /// The request of this id was closed before it was answered.
    Cancelled(By, u32),
    /// There was no memory to answer the request of this id.
    Unanswered(u32),
    /// There was no memory for the list of a file's version.
    Unlisted(Text, u32),
    /// The line of this number, counted from 0, is refused.
    Refused(u64, Refusal),
}
