//! Exit statuses.
ghost use Rattle.std.specs.Prelude.{◌≡◌};
ghost use Rattle.serial_server.specs.Served.{code_of};

/// Why a command ended.
#[derive(Clone, Copy, Debug, PartialEq, Eq)]
pub enum Status {
    /// The input was read to `end` or to its end, and all was written.
    Done,
    /// So it was, and the text that was checked has a diagnostic.
    Found,
    /// The words are no command.
    Usage,
    /// The source failed.
    ReadFault,
    /// The sink failed.
    WriteFault,
    /// Memory was asked for and not had.
    NoMemory,
    /// As many bytes as may be came without an end.
    TooLong,
    /// The bytes to be checked are no text.
    NotText,
}

impl Status {
    /// The exit status as a number.
    pub fn code(self) -> u8
        ensures { result ≡ code_of self }
    {
        match self {
            Status::Done => 0,
            Status::Found => 1,
            Status::Usage => 2,
            Status::ReadFault => 3,
            Status::WriteFault => 4,
            Status::NoMemory => 5,
            Status::TooLong => 6,
            Status::NotText => 7,
        }
    }
}
