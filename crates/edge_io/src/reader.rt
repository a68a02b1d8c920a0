//! Lines of a source.
ghost use Rattle.std.specs.Prelude.{◌≡◌, ◌≢◌, ◌⊎◌, ◌<◌, ◌≤◌, [], true, false, length, take, IfOk, OnOk, OnErr};
ghost use Rattle.std.specs.List.{position, position_or_len};
ghost use Rattle.edge_io.specs.Stream.{before, is_end, IsUsedUp};
ghost use Rattle.edge_io.specs.Line.{is_lf};
ghost use Rattle.py_base.specs.Causes.{HasCause, Rose};

use crate::cutter::Cutter;
use crate::line::Line;
use crate::source::{Failed, Source};
use py_base::NoMemory;
use std::alloc::Global;
use std::marker::Model;
use thiserror::Error;

// How many bytes the buffer of a reader has.
const BUFFER: usize = 4_096;

/// Why a reader gives no further line. It is the answer of each later call too.
#[derive(Clone, Copy, Debug, PartialEq, Eq, Error)]
pub enum LineFault {
    /// The source failed.
    #[error("the input failed")]
    ReadFault,
    /// As many bytes as may be were taken, and neither a line nor the input ended in them.
    #[error("the input is too long")]
    TooLong,
    /// Memory was asked for and not had.
    #[error("out of memory")]
    Memory,
}

/// Takes bytes of a source and hands them out as lines. A line is the bytes up to an LF, which isn't
/// part of it; a last one without LF counts if it has a byte. A contract sees it as a `Reading`.
#[derive(Debug, Drop)]
pub struct LineReader {
    alloc: Global,
    buf: Vec<u8>,
    at: usize,
    len: usize,
    taken: u64,
    most: u64,
    at_end: bool,
    fault: Option<LineFault>,
}

impl Model for LineReader {
    ghost use Rattle.std.specs.Prelude.{take, drop};
    ghost use Rattle.edge_io.specs.Reading.{Reading};

    ghost Value = { Reading };

    ghost use Rattle.edge_io.specs.Buffer.{IsBuffered};

    ghost view = { λ r. record { waiting = drop r.at (take r.len r.buf.items); taken = r.taken; most = r.most; at_end = r.at_end; fault = r.fault } };

    ghost invariant = { λ r. IsBuffered r.buf.items r.at r.len r.taken r.most };
}

// Where the first LF stands.
fn first_lf(bytes: &[u8]) -> Option<usize>
    ensures { result ≡ position is_lf bytes.now }
{
    bytes.iter().position(|byte| *byte == b'\n')
}

// How many bytes stand before the first LF; all of them where there is none.
fn run_len(bytes: &[u8]) -> usize
    ensures { result ≡ position_or_len is_lf bytes.now }
{
    first_lf(bytes).unwrap_or(bytes.len())
}

// Takes at most `room` bytes into the front of the buffer.
fn take_some<S: Source>(source: &mut S, buf: &mut [u8], room: usize) -> Result<usize, Failed>
    requires some { 0 < room }
    requires fits { room ≤ length buf.old }
    ensures within { IfOk result (λ n. n ≤ room) }
    ensures bytes { IfOk result (λ n. S.left source.old ≡ before (take n buf.new) (S.left source.new)) }
    ensures err { OnErr result (S.left source.new ≡ S.left source.old) }
    ensures ended { S.ended source.new ≡ is_end result }
    ensures used_up { IfOk result (λ n. n ≡ 0 → IsUsedUp (S.left source.new)) }
    ensures cause { HasCause (S.faults source.old) (S.faults source.new) result }
    ensures quiet { OnOk result (S.faults source.new ≡ S.faults source.old) }
{
    source.take(&mut buf[..room])
}

impl LineReader {
    ghost use Rattle.edge_io.specs.Cutting.{Answers, IsReady, IsFull, IsNew};
    ghost use Rattle.edge_io.specs.Buffer.{Moves, Gives, Fills};
    ghost use Rattle.edge_io.specs.Line.{lines_of};

    /// A reader that has taken nothing and will take at most `most` bytes in all.
    pub fn new(alloc: Global, most: u64) -> Result<LineReader, NoMemory>
        ensures { IfOk result (λ reader. IsNew reader most) }
    {
        let buf = vec![in alloc; 0; BUFFER]?;
        Ok(LineReader {
            alloc,
            buf,
            at: 0,
            len: 0,
            taken: 0,
            most,
            at_end: false,
            fault: None,
        })
    }

    // The next line of a reader without a fault.
    fn read_line<S: Source>(&mut self, source: &mut S) -> Result<Option<Line>, LineFault>
        ensures answer { Answers lines_of result self.old self.new (S.left source.old) (S.left source.new) }
        ensures full { IsFull lines_of self.old → (result ≡ Err LineFault.TooLong) ⊎ (result ≡ Err LineFault.Memory) }
        ensures fault { self.new.fault ≡ self.old.fault }
        ensures most { self.new.most ≡ self.old.most }
        ensures within { self.new.taken ≤ self.new.most }
        ensures ready { IsReady lines_of self.old → source.new ≡ source.old }
        ensures ends { ((source.new ≡ source.old) × (self.new.at_end ≡ self.old.at_end)) ⊎ (S.ended source.new ≡ self.new.at_end) }
        ensures used_up { (self.old.at_end ≡ true → IsUsedUp (S.left source.old)) → self.new.at_end ≡ true → IsUsedUp (S.left source.new) }
        ensures later { S.faults source.old ≤ S.faults source.new }
        ensures cause { result ≡ Err LineFault.ReadFault → Rose (S.faults source.old) (S.faults source.new) }
        ensures quiet { result ≢ Err LineFault.ReadFault → S.faults source.new ≡ S.faults source.old }
    {
        let mut line = Line::empty(self.alloc);
        loop {
            let (longer, whole) = match self.move_run(line) {
                Ok(moved) => moved,
                Err(NoMemory) => return Err(LineFault::Memory),
            };
            if whole {
                return Ok(Some(longer));
            }
            match self.fill(source) {
                Ok(true) => line = longer,
                Ok(false) if longer.is_empty() => return Ok(None),
                Ok(false) => return Ok(Some(longer)),
                Err(fault) => return Err(fault),
            }
        }
    }

    // Moves the bytes that wait, up to an LF or all, behind those of the line, and says whether there
    // was an LF, which is dropped.
    fn move_run(&mut self, line: Line) -> Result<(Line, bool), NoMemory>
        ensures moves { IfOk result (λ moved. Moves line moved.0 moved.1 self.old self.new) }
        ensures err { OnErr result (self.new ≡ self.old) }
        ensures within { self.new.taken ≤ self.new.most }
    {
        let waiting = &self.buf.as_slice()[self.at..self.len];
        let run = run_len(waiting);
        let whole = run < waiting.len();
        let longer = match line.with(&waiting[..run]) {
            Ok(longer) => longer,
            Err(NoMemory) => return Err(NoMemory),
        };
        self.at += run + usize::from(whole);
        Ok((longer, whole))
    }

    // Takes bytes into the empty buffer. `false` is the end of the input.
    fn fill<S: Source>(&mut self, source: &mut S) -> Result<bool, LineFault>
        requires { self.old.waiting ≡ [] }
        ensures gives { Gives self.old self.new (S.left source.old) (S.left source.new) }
        ensures fills { Fills result self.old self.new }
        ensures full { self.old.taken ≡ self.old.most → self.old.at_end ≡ false → result ≡ Err LineFault.TooLong }
        ensures fault { self.new.fault ≡ self.old.fault }
        ensures within { self.new.taken ≤ self.new.most }
        ensures ready { self.old.at_end ≡ true → source.new ≡ source.old }
        ensures ends { ((source.new ≡ source.old) × (self.new.at_end ≡ self.old.at_end)) ⊎ (S.ended source.new ≡ self.new.at_end) }
        ensures used_up { (self.old.at_end ≡ true → IsUsedUp (S.left source.old)) → self.new.at_end ≡ true → IsUsedUp (S.left source.new) }
        ensures later { S.faults source.old ≤ S.faults source.new }
        ensures cause { result ≡ Err LineFault.ReadFault → Rose (S.faults source.old) (S.faults source.new) }
        ensures quiet { result ≢ Err LineFault.ReadFault → S.faults source.new ≡ S.faults source.old }
    {
        if self.at_end {
            return Ok(false);
        }
        let room = (self.most - self.taken).min(BUFFER as u64) as usize;
        if room == 0 {
            return Err(LineFault::TooLong);
        }
        self.at = 0;
        self.len = 0;
        match take_some(source, self.buf.as_mut_slice(), room) {
            Ok(count) => {
                self.len = count;
                self.taken += count as u64;
                self.at_end = count == 0;
                Ok(count > 0)
            }
            Err(Failed) => Err(LineFault::ReadFault),
        }
    }
}

/// Its pieces are the lines of the bytes. It takes at most 4,096 bytes from the source at a time.
impl Cutter for LineReader {
    ghost use Rattle.edge_io.specs.Line.{lines_of};

    ghost pieces = { lines_of };

    ghost reading = { λ reader. reader };

    fn taken(&self) -> u64 {
        self.taken
    }

    fn next_line<S: Source>(&mut self, source: &mut S) -> Result<Option<Line>, LineFault> {
        if let Some(fault) = self.fault {
            return Err(fault);
        }
        if self.at_end && self.at == self.len {
            return Ok(None);
        }
        match self.read_line(source) {
            Ok(line) => Ok(line),
            Err(fault) => {
                self.fault = Some(fault);
                Err(fault)
            }
        }
    }
}
