//! What a parser does at a state before a token.

use crate::words::{Place, State};

/// What to do at a state before a token.
#[derive(Clone, Copy, Debug, PartialEq, Eq)]
pub enum Step {
    /// Take the token.
    Shift(State),
    /// Read a part.
    Descend(Place),
    /// The form ends here.
    Stop,
    /// Nothing fits.
    Fail,
}
