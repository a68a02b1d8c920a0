//! The ways in which a member of a type can be shown.

use py_base::ClassId;

/// How a member of a type is shown.
#[derive(Clone, Copy, PartialEq, Eq)]
pub enum Shown {
    /// Not at all.
    Dropped,
    /// It stands for all members of this class, bool or an enum.
    Whole(ClassId),
    /// By its own text.
    Itself,
}
