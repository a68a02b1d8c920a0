//! The parts of the text of an atom.

use crate::types::Type;
use py_base::{FuncId, Key, Text};

/// A part of the text of an atom.
#[derive(Drop)]
pub enum Piece {
    /// Written as it is.
    Word(Text),
    /// The text of this type, one level deeper.
    Typed(Type),
    /// The text of the type of this key, one level deeper.
    OfKey(Key),
    /// The text of the type of this parameter, by its place counted from 0, one level deeper.
    OfParam(FuncId, u32),
}
