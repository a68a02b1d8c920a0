//! A source and a sink in memory, which fail the calls that they are told to.
ghost use Rattle.std.specs.Prelude.{◌≡◌, ◌↔◌, ◌<◌, ◌≤◌, ◌+◌, ℕ, List, [], Some, false, length, take, drop, min, max, IfOk, OnOk, OnErr, IsErr, IsOk, IsTrue, MatchBool};
ghost use Rattle.edge_io.specs.Stream.{before, behind, is_end, IsUsedUp};
ghost use Rattle.edge_io.specs.Memory.{Calling, IsListed, counted};
ghost use Rattle.py_base.specs.Causes.{HasCause};

use crate::sink::Sink;
use crate::source::{Failed, Source};
use std::alloc::Global;
use std::marker::Model;

// The calls of a source or a sink so far, and which of them are to fail.
#[derive(Debug, Drop)]
struct Script {
    failing: Vec<u64>,
    made: u64,
    failed: u64,
}

impl Model for Script {
    ghost use Rattle.edge_io.specs.Memory.{Calls};

    ghost Value = { Calls };

    ghost view = { λ s. record { failing = s.failing.items; made = s.made; failed = s.failed } };
}

impl Script {
    fn new(failing: Vec<u64>) -> Script
        ensures failing { result.failing ≡ failing.items }
        ensures made { result.made ≡ 0 }
        ensures failed { result.failed ≡ 0 }
    {
        Script {
            failing,
            made: 0,
            failed: 0,
        }
    }

    // Counts a call, and says whether it is to fail.
    fn call(&mut self) -> bool
        ensures listed { IsTrue result ↔ IsListed self.old }
        ensures failing { self.new.failing ≡ self.old.failing }
        ensures made { self.new.made ≡ counted self.old.made }
        ensures failed { self.new.failed ≡ self.old.failed }
    {
        let fails = self.failing.contains(&self.made);
        self.made = self.made.saturating_add(1);
        fails
    }

    // Counts a failure.
    fn fail(&mut self)
        ensures failing { self.new.failing ≡ self.old.failing }
        ensures made { self.new.made ≡ self.old.made }
        ensures failed { self.new.failed ≡ counted self.old.failed }
        ensures later { self.old.failed ≤ self.new.failed }
    {
        self.failed = self.failed.saturating_add(1);
    }
}

/// Bytes in memory, handed out in pieces. A contract sees the bytes that are left, the most that a
/// call gives, whether the last call met the end, and the calls.
#[derive(Debug, Drop)]
pub struct MemorySource {
    bytes: Vec<u8>,
    at: usize,
    piece: usize,
    ended: bool,
    script: Script,
}

impl Model for MemorySource {
    ghost use Rattle.std.specs.Prelude.{◌<◌, ◌≤◌, length, drop};
    ghost use Rattle.edge_io.specs.Memory.{Feed};

    ghost Value = { Feed };

    ghost view = { λ s. record { left = drop s.at s.bytes.items; piece = s.piece; ended = s.ended; calls = s.script } };

    ghost invariant = { λ s. (s.at ≤ length s.bytes.items) × (0 < s.piece) };
}

impl MemorySource {
    /// A source of these bytes that gives at most `piece` of them a call, or 1 where `piece` is 0,
    /// and fails the calls whose numbers, counted from 0, are listed. Takes no memory.
    pub fn new(bytes: Vec<u8>, piece: usize, failing: Vec<u64>) -> MemorySource
        ensures left { result.left ≡ bytes.items }
        ensures piece { result.piece ≡ max piece 1 }
        ensures ended { result.ended ≡ false }
        ensures failing { result.calls.failing ≡ failing.items }
        ensures made { result.calls.made ≡ 0 }
        ensures failed { result.calls.failed ≡ 0 }
    {
        MemorySource {
            bytes,
            at: 0,
            piece: piece.max(1),
            ended: false,
            script: Script::new(failing),
        }
    }
}

impl Source for MemorySource {
    ghost left = { λ s. Some s.left };

    ghost faults = { λ s. s.calls.failed };

    ghost ended = { λ s. s.ended };

    /// Fails exactly where the call is listed; else it gives the most that its piece, its bytes and
    /// the buffer allow.
    fn take(&mut self, buf: &mut [u8]) -> Result<usize, Failed>
        requires { 0 < length buf.old }
        ensures within { IfOk result (λ n. n ≤ length buf.old) }
        ensures bytes { IfOk result (λ n. Some self.old.left ≡ before (take n buf.new) (Some self.new.left)) }
        ensures err { OnErr result (Some self.new.left ≡ Some self.old.left) }
        ensures ended { self.new.ended ≡ is_end result }
        ensures used_up { IfOk result (λ n. n ≡ 0 → IsUsedUp (Some self.new.left)) }
        ensures cause { HasCause self.old.calls.failed self.new.calls.failed result }
        ensures quiet { OnOk result (self.new.calls.failed ≡ self.old.calls.failed) }
        ensures listed { IsErr result ↔ IsListed self.old.calls }
        ensures calls { Calling result self.old.calls self.new.calls }
        ensures piece { self.new.piece ≡ self.old.piece }
        ensures most { IfOk result (λ n. n ≡ min (min (length self.old.left) self.old.piece) (length buf.old)) }
    {
        self.ended = false;
        if self.script.call() {
            self.script.fail();
            return Err(Failed);
        }
        let count = (self.bytes.len() - self.at).min(self.piece).min(buf.len());
        copy_to_front(buf, &self.bytes.as_slice()[self.at..self.at + count]);
        self.at += count;
        self.ended = count == 0;
        Ok(count)
    }
}

// Copies the bytes to the front of the buffer.
fn copy_to_front(buf: &mut [u8], bytes: &[u8])
    requires { length bytes.now ≤ length buf.old }
    ensures { take (length bytes.now) buf.new ≡ bytes.now }
{
    let (front, _back) = buf.split_at_mut(bytes.len());
    front.copy_from_slice(bytes);
}

/// Keeps in memory what is written to it. A contract sees these bytes and the calls.
#[derive(Debug, Drop)]
pub struct MemorySink {
    bytes: Vec<u8>,
    script: Script,
}

impl Model for MemorySink {
    ghost use Rattle.edge_io.specs.Memory.{Store};

    ghost Value = { Store };

    ghost view = { λ s. record { bytes = s.bytes.items; calls = s.script } };
}

impl MemorySink {
    /// A sink that holds nothing and fails the calls whose numbers, counted from 0, are listed.
    /// Takes no memory; the allocator is kept for later calls of `put`.
    pub fn new(alloc: Global, failing: Vec<u64>) -> MemorySink
        ensures bytes { result.bytes ≡ [] }
        ensures failing { result.calls.failing ≡ failing.items }
        ensures made { result.calls.made ≡ 0 }
        ensures failed { result.calls.failed ≡ 0 }
    {
        MemorySink {
            bytes: Vec::new(alloc),
            script: Script::new(failing),
        }
    }

    /// The bytes that were written.
    pub fn bytes(&self) -> &[u8]
        ensures { result.now ≡ self.now.bytes }
    {
        self.bytes.as_slice()
    }
}

impl Sink for MemorySink {
    ghost written = { λ s. Some s.bytes };

    ghost faults = { λ s. s.calls.failed };

    /// Writes the whole piece. Fails where the call is listed, and in the same way where the memory
    /// for the piece isn't had.
    fn put(&mut self, bytes: &[u8]) -> Result<usize, Failed>
        requires { 0 < length bytes.now }
        ensures within { IfOk result (λ n. n ≤ length bytes.now) }
        ensures some { IfOk result (λ n. 0 < n) }
        ensures bytes { IfOk result (λ n. Some self.new.bytes ≡ behind (Some self.old.bytes) (take n bytes.now)) }
        ensures err { OnErr result (Some self.new.bytes ≡ Some self.old.bytes) }
        ensures cause { HasCause self.old.calls.failed self.new.calls.failed result }
        ensures quiet { OnOk result (self.new.calls.failed ≡ self.old.calls.failed) }
        ensures listed { IsListed self.old.calls → IsErr result }
        ensures calls { Calling result self.old.calls self.new.calls }
        ensures whole { IfOk result (λ n. n ≡ length bytes.now) }
    {
        if self.script.call() {
            self.script.fail();
            return Err(Failed);
        }
        match self.bytes.extend_from_slice(bytes) {
            Ok(()) => Ok(bytes.len()),
            Err(_) => {
                self.script.fail();
                Err(Failed)
            }
        }
    }
}
