//! Kinds of numbers.

/// What a number counts as: int and bool, float, or complex.
#[derive(Clone, Copy, PartialEq, Eq)]
pub enum Number {
    Whole,
    Real,
    Imaginary,
}
