//! The steps that rules go on by.

/// What a rule does with each member of the type of a key.
#[derive(Clone, Copy, PartialEq, Eq)]
pub enum Step {
    /// Sees it through an instance.
    OnInstance,
    /// Sees it through a class.
    OnClass,
    /// Calls it without arguments; what is no def and no builtin method isn't called.
    Called,
    /// Iterates what `__iter__` gave, where it is told whether that is a fault or not.
    Iterator(bool),
    /// Widens it.
    Widened,
    /// Takes its magnitude, as `abs` does.
    Magnitude,
    /// Takes its class, as `type` does.
    ClassOf,
}

/// How the type of a member symbol is seen.
#[derive(Clone, Copy, PartialEq, Eq)]
pub enum Path {
    /// Through an instance.
    OnInstance,
    /// Through a class.
    OnClass,
    /// Through an instance, and called.
    Called,
}
