//! `pyflow`, a checker of Python texts behind an editor: the words of the command line, the devices of
//! the process, and its exit status. All else is `serial_session`.
#![tactic(auto)]

use edge_io::{OpenGate, StdSink, StdSource};
use serial_session::Status;
use serial_session::run::run;
use std::alloc::Global;
use std::process::ExitCode;
use std::{env, io};

const USAGE: &str = "pyflow: usage: serve, check, sample, replay";

// The words behind the program's own name.
fn words(rt: &HostRuntime, alloc: Global) -> io::Result<Vec<String>> {
    let mut words = Vec::new(alloc);
    for word in env::args(rt)?.skip(1) {
        words.push(word)?;
    }
    Ok(words)
}

// Runs the command of the words. Words that are not UTF-8 are no command.
fn status_of(rt: &HostRuntime, alloc: Global) -> u8 {
    match words(rt, alloc) {
        Ok(words) => {
            let mut source = StdSource::new(rt.reader());
            let mut sink = StdSink::new(io::writer(rt));
            run(alloc, words.as_slice(), &mut source, &mut sink, &OpenGate).status
        }
        Err(error) if error.kind() == io::ErrorKind::OutOfMemory => Status::NoMemory.code(),
        Err(_) => Status::Usage.code(),
    }
}

fn main(rt: HostRuntime) -> ExitCode {
    let status = status_of(&rt, rt.alloc());
    if status == Status::Usage.code() {
        let _ = eprintln!(&rt; "{USAGE}");
    }
    ExitCode::from(status)
}
