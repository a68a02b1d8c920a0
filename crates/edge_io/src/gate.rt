//! What a worker passes on its way into and out of a unit of work.

use std::sync::Wait;

/// A worker calls `before` with a job's number before it does a unit of the job, and `after` behind
/// it. A gate can hold a worker back, so both may wait.
pub trait Gate {
    /// A unit of this job is about to be done.
    fn before<R: Wait>(&self, rt: &R, number: u64);

    /// A unit of this job was done, or given up because the job was cancelled.
    fn after<R: Wait>(&self, rt: &R, number: u64, cancelled: bool);
}

/// The gate that holds nobody back.
#[derive(Clone, Copy, Debug)]
pub struct OpenGate;

impl Gate for OpenGate {
    fn before<R: Wait>(&self, _rt: &R, _number: u64) {}

    fn after<R: Wait>(&self, _rt: &R, _number: u64, _cancelled: bool) {}
}
