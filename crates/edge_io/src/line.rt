//! A line of bytes.
ghost use Rattle.std.specs.Prelude.{◌≡◌, ◌↔◌, ℕ, List, [], ◌++◌, length, IfOk, IsTrue};

use py_base::{List, NoMemory};
use std::alloc::Global;

/// The most bytes that a line can have and be kept, the LF behind it left out.
pub const LINE_LIMIT: usize = 4_194_304;

/// A line: its bytes without the LF, or only that it has more than `LINE_LIMIT` of them.
#[derive(Debug, Drop)]
pub enum Line {
    Bytes(List<u8>),
    Oversize,
}

impl Line {
    ghost use Rattle.edge_io.specs.Line.{IsLineOf};

    /// The line of no bytes. Takes no memory.
    pub(crate) fn empty(alloc: Global) -> Line
        ensures { IsLineOf result [] }
    {
        Line::Bytes(List::new(alloc))
    }

    /// Whether the line has no byte.
    pub(crate) fn is_empty(&self) -> bool
        ensures { (bytes : List ℕ) → IsLineOf self.now bytes → IsTrue result ↔ (bytes ≡ []) }
    {
        match self {
            Line::Bytes(kept) => kept.is_empty(),
            Line::Oversize => false,
        }
    }

    /// The line with these bytes behind its own. Past the limit none are kept.
    pub(crate) fn with(self, more: &[u8]) -> Result<Line, NoMemory>
        ensures { IfOk result (λ line. (bytes : List ℕ) → IsLineOf self bytes → IsLineOf line (bytes ++ more.now)) }
    {
        let Line::Bytes(kept) = self else {
            return Ok(Line::Oversize);
        };
        if kept.len() + more.len() > LINE_LIMIT {
            return Ok(Line::Oversize);
        }
        let mut bytes = kept.into_vec();
        match bytes.extend_from_slice(more) {
            Ok(()) => Ok(Line::Bytes(List::from_vec(bytes))),
            Err(_) => Err(NoMemory),
        }
    }
}
