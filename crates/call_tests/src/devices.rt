//! Readers and writers over devices that fail, end, and take or give a piece at a time.
ghost use Rattle.std.specs.Prelude.{None, Some};

use crate::compare::compare;
use edge_io::{
    Cutter, Failed, LINE_LIMIT, Line, LineFault, LineReader, MemorySink, MemorySource, Sink,
    Source, StdSink, StdSource, put_all,
};
use std::alloc::Global;
use std::process::Abort;
use std::test::Fail;

fn text_of(bytes: &[u8]) -> &str {
    str::from_utf8(bytes).unwrap_or("?")
}

fn number(word: &str) -> u64 {
    word.parse::<u64>().unwrap_or(0)
}

fn fault_word(fault: LineFault) -> &'static str {
    match fault {
        LineFault::ReadFault => "R",
        LineFault::TooLong => "T",
        LineFault::Memory => "M",
    }
}

// Adds a line, a short one plainly and a long one by its length.
fn show_line(alloc: Global, line: &[u8], out: &mut String) -> Result<(), Fail> {
    if line.len() < 100 {
        out.push_str(text_of(line))?;
    } else {
        out.push_str(format!(in alloc; "{}", line.len())?.as_str())?;
    }
    Ok(())
}

// Adds an answer of a reader, and says whether it is a line: a line with `|` behind it, `#` for one that is too long,
// `.` for the end, and a letter for a fault.
fn show_answer(
    alloc: Global,
    answer: Result<Option<Line>, LineFault>,
    out: &mut String,
) -> Result<bool, Fail> {
    let word = match answer {
        Ok(Some(Line::Bytes(bytes))) => {
            show_line(alloc, bytes.as_slice(), out)?;
            "|"
        }
        Ok(Some(Line::Oversize)) => "#",
        Ok(None) => ".",
        Err(fault) => fault_word(fault),
    };
    out.push_str(word)?;
    Ok(word == "|" || word == "#")
}

// The answers of a reader up to the first that is no line, and the one behind it.
fn answers<S: Source>(alloc: Global, source: &mut S, most: u64) -> Result<String, Fail> {
    let mut reader = LineReader::new(alloc, most)?;
    let mut out = String::new(alloc);
    for _ in 0..16 {
        if !show_answer(alloc, reader.next_line(source), &mut out)? {
            break;
        }
    }
    show_answer(alloc, reader.next_line(source), &mut out)?;
    Ok(out)
}

// What a reader answers over these bytes in pieces, of which the read of a number fails.
fn answers_of(
    alloc: Global,
    text: &str,
    piece: usize,
    fails: u64,
    most: u64,
) -> Result<String, Fail> {
    let failing = [fails].to_vec(alloc)?;
    let mut source = MemorySource::new(text.as_bytes().to_vec(alloc)?, piece, failing);
    answers(alloc, &mut source, most)
}

// Bytes with `/` for LF, and their lines.
const LINES: &str = "\
a => a|..
 => ..
/ => |..
ab//c\r/last => ab||c\r|last|..
ab/cd/ => ab|cd|..";

fn compare_pieces(rt: &impl Abort, alloc: Global, row: &str) -> Result<(), Fail> {
    let (text, wanted) = row.split_once(" => ").unwrap_or((row, ""));
    let text = text.replace(alloc, "/", "\n")?;
    for piece in [0, 1, 3, 4096] {
        let found = answers_of(alloc, text.as_str(), piece, 1000, 100)?;
        compare(rt, row, found.as_str(), wanted);
    }
    Ok(())
}

#[test]
fn cuts_at_each_lf(rt: HostRuntime) -> Result<(), Fail> {
    for row in LINES.lines() {
        compare_pieces(&rt, rt.alloc(), row)?;
    }
    Ok(())
}

// The bytes `ab/cd` in pieces of one: the read that fails, the most bytes that are taken, and what comes.
const FAULTS: &str = "\
0 100 => RR
1 100 => RR
2 100 => RR
3 100 => ab|RR
4 100 => ab|RR
5 100 => ab|RR
6 100 => ab|cd|..
9 0 => TT
9 2 => TT
9 3 => ab|TT
9 5 => ab|TT
9 6 => ab|cd|..";

fn compare_fault(rt: &impl Abort, alloc: Global, row: &str) -> Result<(), Fail> {
    let (given, wanted) = row.split_once(" => ").unwrap_or((row, ""));
    let (fails, most) = given.split_once(' ').unwrap_or((given, ""));
    let found = answers_of(alloc, "ab\ncd", 1, number(fails), number(most))?;
    compare(rt, row, found.as_str(), wanted);
    Ok(())
}

#[test]
fn ends_with_a_fault(rt: HostRuntime) -> Result<(), Fail> {
    for row in FAULTS.lines() {
        compare_fault(&rt, rt.alloc(), row)?;
    }
    Ok(())
}

// The answers to a line of so many bytes.
fn long_line(alloc: Global, count: usize) -> Result<String, Fail> {
    let mut bytes = vec![in alloc; b'x'; count]?;
    bytes.push(b'\n')?;
    let mut source = MemorySource::new(bytes, 100_000, Vec::new(alloc));
    answers(alloc, &mut source, 10_000_000)
}

#[test]
fn keeps_no_line_past_the_limit(rt: HostRuntime) -> Result<(), Fail> {
    let at = long_line(rt.alloc(), LINE_LIMIT)?;
    compare(&rt, "at the limit", at.as_str(), "4194304|..");
    let above = long_line(rt.alloc(), LINE_LIMIT + 1)?;
    compare(&rt, "above the limit", above.as_str(), "#..");
    Ok(())
}

// A source without bytes that keeps the length of the buffer that it was lent last.
#[derive(Drop)]
struct Empty {
    lent: usize,
    ended: bool,
}

impl Source for Empty {
    ghost left = { λ _. None };

    ghost faults = { λ _. 0 };

    ghost ended = { λ s. s.ended };

    fn take(&mut self, buf: &mut [u8]) -> Result<usize, Failed> {
        self.lent = buf.len();
        self.ended = true;
        Ok(0)
    }
}

// The most bytes that a reader may take, and how many it lends room for at once.
const LENT: &str = "\
10000 => .. 4096
4097 => .. 4096
4096 => .. 4096
100 => .. 100";

// What a reader of so many bytes answers over no bytes, and the room that it lent.
fn lent(alloc: Global, most: u64) -> Result<String, Fail> {
    let mut source = Empty {
        lent: 0,
        ended: false,
    };
    let answers = answers(alloc, &mut source, most)?;
    Ok(format!(in alloc; "{answers} {}", source.lent)?)
}

#[test]
fn lends_no_more_than_it_may_take(rt: HostRuntime) -> Result<(), Fail> {
    for row in LENT.lines() {
        let (most, wanted) = row.split_once(" => ").unwrap_or((row, ""));
        let found = lent(rt.alloc(), number(most))?;
        compare(&rt, row, found.as_str(), wanted);
    }
    Ok(())
}

// A sink that takes at most two bytes a call.
#[derive(Drop)]
struct Narrow {
    inner: MemorySink,
}

impl Sink for Narrow {
    ghost written = { λ s. Some s.inner.bytes };

    ghost faults = { λ s. s.inner.calls.failed };

    fn put(&mut self, bytes: &[u8]) -> Result<usize, Failed> {
        self.inner.put(&bytes[..bytes.len().min(2)])
    }
}

// The write that fails, and what `abcde` comes to.
const WRITES: &str = "\
0 => failed
1 => ab failed
2 => abcd failed
3 => abcde";

fn written(alloc: Global, fails: u64) -> Result<String, Fail> {
    let mut sink = Narrow {
        inner: MemorySink::new(alloc, [fails].to_vec(alloc)?),
    };
    let word = match put_all(&mut sink, b"abcde") {
        Ok(()) => "",
        Err(Failed) => " failed",
    };
    Ok(format!(in alloc; "{}{word}", text_of(sink.inner.bytes()))?)
}

#[test]
fn writes_all_or_a_prefix(rt: HostRuntime) -> Result<(), Fail> {
    for row in WRITES.lines() {
        let (fails, wanted) = row.split_once(" => ").unwrap_or((row, ""));
        let found = written(rt.alloc(), number(fails))?;
        compare(&rt, row, found.as_str().trim_start(), wanted);
    }
    Ok(())
}

#[test]
fn takes_the_bytes_of_std(rt: HostRuntime) -> Result<(), Fail> {
    let mut source = StdSource::new(b"ab\nc".as_slice());
    let found = answers(rt.alloc(), &mut source, 100)?;
    compare(&rt, "ab/c", found.as_str(), "ab|c|..");
    Ok(())
}

#[test]
fn passes_bytes_to_std(rt: HostRuntime) -> Result<(), Fail> {
    let mut bytes = Vec::new(rt.alloc());
    let mut sink = StdSink::new(&mut bytes);
    put_all(&mut sink, b"abc")?;
    put_all(&mut sink, b"d")?;
    compare(&rt, "abc d", text_of(bytes.as_slice()), "abcd");
    Ok(())
}
