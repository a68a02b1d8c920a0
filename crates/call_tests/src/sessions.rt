//! Sessions of one thread, from bytes to bytes, over devices that fail, are slow, or are long at it. The expected lines
//! are written by hand from the protocol.
ghost use Rattle.std.specs.Prelude.{None};

use crate::compare::compare;
use edge_io::{Failed, MemorySink, MemorySource, OpenGate, Sink};
use serial_session::run::run;
use std::alloc::Global;
use std::process::Abort;
use std::test::Fail;

const FIRST: &str =
    "{\"op\":\"open\",\"file\":\"a.py\",\"version\":1,\"text\":\"x = 1\\nreveal_type(x)\\n\"}\n{\"op\":\"end\"}\n";

const FIRST_LIST: &str =
    "{\"file\":\"a.py\",\"kind\":\"list\",\"list\":[{\"at\":[1,12,1,13],\"rule\":\"reveal-type\",\"text\":\"Type is \\\"Literal[1]\\\"\"}],\"version\":1}\n";

const EMPTY: &str = "{\"op\":\"open\",\"file\":\"a.py\",\"version\":0,\"text\":\"\"}";

const EMPTY_LIST: &str = "{\"file\":\"a.py\",\"kind\":\"list\",\"list\":[],\"version\":0}\n";

const LONG_LIST: &str =
    "{\"file\":\"a.py\",\"kind\":\"list\",\"list\":[{\"at\":[0,0,0,0],\"rule\":\"limit\",\"text\":\"Text is longer than 524288 bytes\"}],\"version\":0}\n";

const BAD_JSON: &str = "{\"kind\":\"refused\",\"line\":0,\"name\":\"BadJson\",\"number\":1}\n";

const BAD_FILE: &str =
    "{\"field\":\"file\",\"kind\":\"refused\",\"line\":0,\"name\":\"BadField\",\"number\":2}\n";

/// The number of a call that is never made.
const NEVER: u64 = 100_000;

// What a run came to: the bytes that it took, and its status with the bytes that it wrote.
#[derive(Drop)]
struct Outcome {
    taken: u64,
    shown: String,
}

fn text_of(bytes: &[u8]) -> &str {
    str::from_utf8(bytes).unwrap_or("?")
}

fn words_of(alloc: Global, text: &str) -> Result<Vec<String>, Fail> {
    let mut words = Vec::new(alloc);
    for word in text.split_whitespace() {
        words.push(String::from_str(alloc, word)?)?;
    }
    Ok(words)
}

// Runs these words over the bytes in pieces, where one read and one write fail.
fn run_on(
    alloc: Global,
    words: &str,
    input: &str,
    piece: usize,
    read: u64,
    write: u64,
) -> Result<Outcome, Fail> {
    let words = words_of(alloc, words)?;
    let bytes = input.as_bytes().to_vec(alloc)?;
    let mut source = MemorySource::new(bytes, piece, [read].to_vec(alloc)?);
    let mut sink = MemorySink::new(alloc, [write].to_vec(alloc)?);
    let served = run(alloc, words.as_slice(), &mut source, &mut sink, &OpenGate);
    Ok(Outcome {
        taken: served.bytes_taken,
        shown: format!(in alloc; "{} {}", served.status, text_of(sink.bytes()))?,
    })
}

fn serve(alloc: Global, input: &str) -> Result<Outcome, Fail> {
    run_on(alloc, "serve", input, 4096, NEVER, NEVER)
}

// The words behind the program's name, and the status.
const WORDS: &str = "\
serve => 0
serve --workers 0 => 0
 => 2
serve --workers 1 => 2
serve --workers=0 => 2
serve --workers => 2
check => 2
--help => 2";

fn compare_words(rt: &impl Abort, alloc: Global, row: &str) -> Result<(), Fail> {
    let (words, status) = row.split_once(" => ").unwrap_or((row, ""));
    let written = if status == "0" { FIRST_LIST } else { "" };
    let outcome = run_on(alloc, words, FIRST, 4096, NEVER, NEVER)?;
    let wanted = format!(in alloc; "{status} {written}")?;
    compare(rt, row, outcome.shown.as_str(), wanted.as_str());
    Ok(())
}

#[test]
fn words(rt: HostRuntime) -> Result<(), Fail> {
    for row in WORDS.lines() {
        compare_words(&rt, rt.alloc(), row)?;
    }
    Ok(())
}

fn compare_pieces(rt: &impl Abort, alloc: Global, input: &str, list: &str) -> Result<(), Fail> {
    let wanted = format!(in alloc; "0 {list}")?;
    for piece in [1, 3, 4096] {
        let outcome = run_on(alloc, "serve", input, piece, NEVER, NEVER)?;
        compare(rt, input, outcome.shown.as_str(), wanted.as_str());
    }
    Ok(())
}

// No input, no last LF, and bytes behind the end.
#[test]
fn ends(rt: HostRuntime) -> Result<(), Fail> {
    let behind = format!(in rt.alloc(); "{FIRST}nonsense\n")?;
    compare_pieces(&rt, rt.alloc(), "", "")?;
    compare_pieces(&rt, rt.alloc(), EMPTY, EMPTY_LIST)?;
    compare_pieces(&rt, rt.alloc(), behind.as_str(), FIRST_LIST)
}

// The open line has 73 bytes, so it ends within the eighth piece of ten, and the ninth is the last.
fn wanted_of_read(alloc: Global, call: u64) -> Result<String, Fail> {
    let status = if call < 9 { 3 } else { 0 };
    let list = if call < 8 { "" } else { FIRST_LIST };
    let taken = (10 * call.min(8)) + if call < 9 { 0 } else { 6 };
    Ok(format!(in alloc; "{taken} {status} {list}")?)
}

fn compare_read(rt: &impl Abort, alloc: Global, call: u64) -> Result<(), Fail> {
    let outcome = run_on(alloc, "serve", FIRST, 10, call, NEVER)?;
    let found = format!(in alloc; "{} {}", outcome.taken, outcome.shown)?;
    let wanted = wanted_of_read(alloc, call)?;
    compare(rt, "a failed read", found.as_str(), wanted.as_str());
    Ok(())
}

#[test]
fn reads_that_fail(rt: HostRuntime) -> Result<(), Fail> {
    for call in 0..10 {
        compare_read(&rt, rt.alloc(), call)?;
    }
    Ok(())
}

fn compare_write(rt: &impl Abort, alloc: Global, call: u64, wanted: &str) -> Result<(), Fail> {
    let input = format!(in alloc; "nonsense\n{FIRST}")?;
    let outcome = run_on(alloc, "serve", input.as_str(), 4096, NEVER, call)?;
    compare(rt, "a failed write", outcome.shown.as_str(), wanted);
    Ok(())
}

#[test]
fn writes_that_fail(rt: HostRuntime) -> Result<(), Fail> {
    let alloc = rt.alloc();
    compare_write(&rt, alloc, 0, "4 ")?;
    compare_write(&rt, alloc, 1, format!(in alloc; "4 {BAD_JSON}")?.as_str())?;
    let whole = format!(in alloc; "0 {BAD_JSON}{FIRST_LIST}")?;
    compare_write(&rt, alloc, 2, whole.as_str())
}

// An `open` line of so many bytes without its LF. Its text is one comment, far above the limit of a text.
fn open_of(alloc: Global, bytes: usize) -> Result<String, Fail> {
    let before = "{\"op\":\"open\",\"file\":\"a.py\",\"version\":0,\"text\":\"";
    let comment = vec![in alloc; b'#'; bytes.saturating_sub(before.len()).saturating_sub(2)]?;
    let comment = text_of(comment.as_slice());
    Ok(format!(in alloc; "{before}{comment}\"}}\n")?)
}

#[test]
fn a_line_at_the_limit(rt: HostRuntime) -> Result<(), Fail> {
    let outcome = serve(rt.alloc(), open_of(rt.alloc(), 4_194_304)?.as_str())?;
    let wanted = format!(in rt.alloc(); "0 {LONG_LIST}")?;
    compare(&rt, "at the limit", outcome.shown.as_str(), wanted.as_str());
    Ok(())
}

#[test]
fn a_line_above_the_limit(rt: HostRuntime) -> Result<(), Fail> {
    let line = open_of(rt.alloc(), 4_194_305)?;
    let outcome = serve(
        rt.alloc(),
        format!(in rt.alloc(); "{line}{EMPTY}")?.as_str(),
    )?;
    let wanted = format!(in rt.alloc(); "0 {BAD_JSON}{EMPTY_LIST}")?;
    compare(
        &rt,
        "above the limit",
        outcome.shown.as_str(),
        wanted.as_str(),
    );
    Ok(())
}

// What a session of one `open` of an empty text writes.
fn opened(alloc: Global, file: &str, version: u64) -> Result<Outcome, Fail> {
    let line = format!(in alloc;
        "{{\"op\":\"open\",\"file\":\"{file}\",\"version\":{version},\"text\":\"\"}}\n"
    )?;
    serve(alloc, line.as_str())
}

fn compare_fields(rt: &impl Abort, alloc: Global, file: &str, version: u64) -> Result<(), Fail> {
    let wanted = format!(in alloc;
        "0 {{\"file\":\"{file}\",\"kind\":\"list\",\"list\":[],\"version\":{version}}}\n"
    )?;
    let outcome = opened(alloc, file, version)?;
    compare(
        rt,
        "a field at its limit",
        outcome.shown.as_str(),
        wanted.as_str(),
    );
    Ok(())
}

#[test]
fn fields_at_their_limits(rt: HostRuntime) -> Result<(), Fail> {
    let name = vec![in rt.alloc(); b'a'; 4096]?;
    compare_fields(&rt, rt.alloc(), "a", 4_294_967_295)?;
    compare_fields(&rt, rt.alloc(), text_of(name.as_slice()), 0)
}

#[test]
fn a_file_name_above_the_limit(rt: HostRuntime) -> Result<(), Fail> {
    let name = vec![in rt.alloc(); b'a'; 4097]?;
    let outcome = opened(rt.alloc(), text_of(name.as_slice()), 0)?;
    let wanted = format!(in rt.alloc(); "0 {BAD_FILE}")?;
    compare(&rt, "a long name", outcome.shown.as_str(), wanted.as_str());
    Ok(())
}

// A sink that takes at most five bytes of a piece, and tells nothing.
#[derive(Drop)]
struct SlowSink {
    bytes: Vec<u8>,
    faults: u64,
}

impl Sink for SlowSink {
    ghost written = { λ _. None };

    ghost faults = { λ s. s.faults };

    fn put(&mut self, bytes: &[u8]) -> Result<usize, Failed> {
        let count = bytes.len().min(5);
        if self.bytes.extend_from_slice(&bytes[..count]).is_err() {
            self.faults = self.faults.saturating_add(1);
            return Err(Failed);
        }
        Ok(count)
    }
}

fn slowly(alloc: Global) -> Result<String, Fail> {
    let bytes = FIRST.as_bytes().to_vec(alloc)?;
    let mut source = MemorySource::new(bytes, 7, Vec::new(alloc));
    let mut sink = SlowSink {
        bytes: Vec::new(alloc),
        faults: 0,
    };
    let words = words_of(alloc, "serve")?;
    let served = run(alloc, words.as_slice(), &mut source, &mut sink, &OpenGate);
    Ok(format!(in alloc; "{} {}", served.status, text_of(sink.bytes.as_slice()))?)
}

#[test]
fn a_slow_sink(rt: HostRuntime) -> Result<(), Fail> {
    let wanted = format!(in rt.alloc(); "0 {FIRST_LIST}")?;
    compare(&rt, "slowly", slowly(rt.alloc())?.as_str(), wanted.as_str());
    Ok(())
}
