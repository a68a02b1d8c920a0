//! Messages: what a line of a session says.

use py_base::{List, Place, Text};
use thiserror::Error;

/// What a line asks for.
#[derive(Debug, Drop)]
pub enum Msg {
    /// To open the file of this name, with its version and its text.
    Open(Text, u32, Text),
    /// To replace version and text of an open file.
    Edit(Text, u32, Text),
    /// To close an open file.
    Close(Text),
    /// The type at a place of an open file, under an id.
    Hover(u32, Text, Place),
    /// The list of an open file, under an id.
    Check(u32, Text),
    /// To give up the request of this id.
    Cancel(u32),
    /// To end the session.
    End,
}

/// Why a line is no message: refusals 4, 1, 2 and 3, in the order in which they are tested. Want of
/// memory is none of them.
#[derive(Debug, Drop, Error)]
pub enum LineRefusal {
    /// The line is longer than a line may be.
    #[error("the line is too long")]
    Oversize,
    /// The line is no JSON.
    #[error("the line is no JSON")]
    BadJson,
    /// The first field that is missing or of another form.
    #[error("the field {0} is missing or of another form")]
    BadField(Text),
    /// The operation is none of the session's.
    #[error("the operation is not known")]
    UnknownOp,
}

/// A message, or why there is none.
pub type Read = Result<Msg, LineRefusal>;

/// What a piece of the input is to a session.
#[derive(Debug, Drop)]
pub enum WireStep {
    /// A message.
    Message(Msg),
    /// A piece that is refused.
    Refused(LineRefusal),
    /// No message of the session, with the bytes that the wire answers, which may be none.
    Reply(List<u8>),
}
