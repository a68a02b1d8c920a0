//! Literal values.
use py_base::{ClassId, List, Text};

/// A value that a type can have as a member of its own.
#[derive(Drop)]
pub enum Literal {
    /// An integer within 128 bits.
    Int(i128),
    /// `False` or `True`.
    Bool(bool),
    /// A text.
    Str(Text),
    /// A bytes value.
    Bytes(List<u8>),
    /// A member of an enum class of the file, by its place in class order, counted from 0.
    Member(ClassId, usize),
}
