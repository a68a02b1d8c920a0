//! The whole input of a source, as far as it may be long.
ghost use Rattle.std.specs.Prelude.{◌≡◌, ◌≢◌, ◌<◌, ◌≤◌, ◌+◌, [], ◌++◌, replicate, length, take, drop, IfOk, OnOk, OnErr, Err};
ghost use Rattle.py_base.specs.Causes.{HasCause, Rose};
ghost use Rattle.edge_io.specs.Stream.{before, is_end};
ghost use Rattle.text_commands.specs.Whole.{TakesWhole, TakesSome};

use edge_io::{Failed, Source};
use std::alloc::AllocError;

/// The most bytes that a text to be checked may have: 4 MiB.
pub const INPUT_LIMIT: usize = 4_194_304;

// How many bytes are asked for at a time.
const PIECE: usize = 4_096;

/// Why the input of a source was not read to its end.
#[derive(Clone, Copy, Debug, PartialEq, Eq)]
pub enum WholeFault {
    /// The source failed.
    ReadFault,
    /// More bytes than may be came.
    TooLong,
    /// Memory was asked for and not had.
    Memory,
}

/// Takes the bytes of a source, to its end, behind none. Those that were taken before a fault are there too.
pub fn read_whole<S: Source>(source: &mut S, bytes: &mut Vec<u8>) -> Result<(), WholeFault>
    requires { bytes.old.items ≡ [] }
    ensures taken { S.left source.old ≡ before bytes.new.items (S.left source.new) }
    ensures whole { TakesWhole result (length bytes.new.items) (S.ended source.new) }
    ensures later { S.faults source.old ≤ S.faults source.new }
    ensures cause { result ≡ Err WholeFault.ReadFault → Rose (S.faults source.old) (S.faults source.new) }
    ensures quiet { result ≢ Err WholeFault.ReadFault → S.faults source.new ≡ S.faults source.old }
{
    'pieces: while bytes.len() <= INPUT_LIMIT {
        let room = (INPUT_LIMIT + 1 - bytes.len()).min(PIECE);
        match take_some(source, bytes, room) {
            Ok(true) => {}
            Ok(false) => return Ok(()),
            Err(fault) => return Err(fault),
        }
    }
    Err(WholeFault::TooLong)
}

// Takes at most `room` further bytes behind those that are there. `false` is the end of the input.
fn take_some<S: Source>(
    source: &mut S,
    bytes: &mut Vec<u8>,
    room: usize,
) -> Result<bool, WholeFault>
    requires some { 0 < room }
    requires fits { length bytes.old.items + room ≤ 4194305 }
    ensures takes { TakesSome result room bytes.old.items bytes.new.items (S.ended source.new) (S.left source.old) (S.left source.new) }
    ensures later { S.faults source.old ≤ S.faults source.new }
    ensures cause { result ≡ Err WholeFault.ReadFault → Rose (S.faults source.old) (S.faults source.new) }
    ensures quiet { result ≢ Err WholeFault.ReadFault → S.faults source.new ≡ S.faults source.old }
{
    let len = bytes.len();
    match grow(bytes, room) {
        Ok(()) => {}
        Err(_) => return Err(WholeFault::Memory),
    }
    match fill(source, bytes, len) {
        Ok(count) => {
            bytes.truncate(len + count);
            Ok(count > 0)
        }
        Err(Failed) => {
            bytes.truncate(len);
            Err(WholeFault::ReadFault)
        }
    }
}

// Adds so many bytes.
fn grow(bytes: &mut Vec<u8>, room: usize) -> Result<(), AllocError>
    requires { length bytes.old.items + room ≤ 4194305 }
    ensures ok { OnOk result (bytes.new.items ≡ bytes.old.items ++ replicate room 0) }
    ensures err { OnErr result (bytes.new.items ≡ bytes.old.items) }
{
    let len = bytes.len();
    bytes.resize(len + room, 0)
}

// Takes bytes to behind the first `len` of those that are there.
fn fill<S: Source>(source: &mut S, bytes: &mut Vec<u8>, len: usize) -> Result<usize, Failed>
    requires { len < length bytes.old.items }
    ensures kept { take len bytes.new.items ≡ take len bytes.old.items }
    ensures whole { length bytes.new.items ≡ length bytes.old.items }
    ensures within { IfOk result (λ n. len + n ≤ length bytes.old.items) }
    ensures bytes { IfOk result (λ n. S.left source.old ≡ before (take n (drop len bytes.new.items)) (S.left source.new)) }
    ensures err { OnErr result (S.left source.new ≡ S.left source.old) }
    ensures ended { S.ended source.new ≡ is_end result }
    ensures cause { HasCause (S.faults source.old) (S.faults source.new) result }
    ensures quiet { OnOk result (S.faults source.new ≡ S.faults source.old) }
{
    take_behind(source, bytes.as_mut_slice(), len)
}

// Takes bytes to behind the first `len` of a buffer.
fn take_behind<S: Source>(source: &mut S, buf: &mut [u8], len: usize) -> Result<usize, Failed>
    requires { len < length buf.old }
    ensures kept { take len buf.new ≡ take len buf.old }
    ensures whole { length buf.new ≡ length buf.old }
    ensures within { IfOk result (λ n. len + n ≤ length buf.old) }
    ensures bytes { IfOk result (λ n. S.left source.old ≡ before (take n (drop len buf.new)) (S.left source.new)) }
    ensures err { OnErr result (S.left source.new ≡ S.left source.old) }
    ensures ended { S.ended source.new ≡ is_end result }
    ensures cause { HasCause (S.faults source.old) (S.faults source.new) result }
    ensures quiet { OnOk result (S.faults source.new ≡ S.faults source.old) }
{
    source.take(&mut buf[len..])
}
