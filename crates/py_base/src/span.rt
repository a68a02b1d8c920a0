//! Where something stands in a text.

/// A stretch of a text in characters (Unicode scalar values), counted from 0: `from` is its first
/// character, `to` the one behind its last.
#[derive(Clone, Copy, Debug, PartialEq, Eq)]
pub struct Span {
    pub from: u32,
    pub to: u32,
}

/// A place in a text: a physical line and a column in characters, both counted from 0.
#[derive(Clone, Copy, Debug, PartialEq, Eq)]
pub struct Place {
    pub line: u32,
    pub col: u32,
}
