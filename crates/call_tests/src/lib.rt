//! Tests of what no text shows: devices that fail and answer in pieces, sessions over them, flags that another thread raises,
//! values and types that are made by hand, and the calls of the lowest crates that take memory.
//!
//! What a text shows stands as rows in `row_checks`. There is no code but tests.
#![tactic(auto)]

#[cfg(test)]
mod compare;
#[cfg(test)]
mod devices;
#[cfg(test)]
mod flags;
#[cfg(test)]
mod sessions;
#[cfg(test)]
mod types;
#[cfg(test)]
mod values;
