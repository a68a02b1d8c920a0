//! Rows of a file.
//!
//! Blocks of lines are parted by an empty line, and the first block is the head. A block with a line `=>` is one row:
//! the source before it, its facts behind it, parted by `; ` or line by line. Each line of any other block is a row by
//! itself, `source => facts`, whose source has no line end.

use crate::facts::{Subject, facts};
use py_base::NoMemory;
use std::alloc::{AllocError, Global};
use std::io;

/// What a row writes for characters that wouldn't show, and what it stands for.
const ESCAPES: [(&str, &str); 7] = [
    ("$end\n", ""),
    ("$lf", "\n"),
    ("$cr", "\r"),
    ("$tab", "\t"),
    ("$ff", "\x0c"),
    ("$bom", "\u{feff}"),
    ("$sp", " "),
];

fn unescaped(alloc: Global, text: &str) -> Result<String, AllocError> {
    let mut out = String::from_str(alloc, text)?;
    if !text.contains('$') {
        return Ok(out);
    }
    for (escape, plain) in ESCAPES {
        out = out.as_str().replace(alloc, escape, plain)?;
    }
    Ok(out)
}

// Adds the facts of a line.
fn add_line(alloc: Global, line: &str, facts: &mut Vec<String>) -> Result<(), NoMemory> {
    for fact in line.split("; ") {
        facts.push(unescaped(alloc, fact)?)?;
    }
    Ok(())
}

// The facts that a row wants.
fn wanted(alloc: Global, lines: &str) -> Result<Vec<String>, NoMemory> {
    let mut facts = Vec::new(alloc);
    for line in lines.lines() {
        add_line(alloc, line, &mut facts)?;
    }
    Ok(facts)
}

// Facts line by line in the order of their texts, `none` where there is none.
fn listed(alloc: Global, mut facts: Vec<String>) -> Result<String, NoMemory> {
    if facts.is_empty() {
        facts.push(String::from_str(alloc, "none")?)?;
    }
    facts.sort()?;
    Ok(facts.as_slice().join(alloc, "\n")?)
}

// What a row wants, and what is found of its source.
fn both(
    alloc: Global,
    subject: Subject,
    source: &str,
    lines: &str,
) -> Result<(String, String), NoMemory> {
    let source = unescaped(alloc, source)?;
    let found = facts(alloc, subject, source.as_str())?;
    let wanted = wanted(alloc, lines)?;
    Ok((listed(alloc, wanted)?, listed(alloc, found)?))
}

fn compare(rt: &HostRuntime, source: &str, wanted: &str, found: &str) -> io::Result<()> {
    if wanted == found {
        return Ok(());
    }
    println!(rt; "{source}\nwanted:\n{wanted}\nfound:\n{found}\n")
}

fn check_row(rt: &HostRuntime, subject: Subject, source: &str, wanted: &str) -> io::Result<()> {
    match both(rt.alloc(), subject, source, wanted) {
        Ok((wanted, found)) => compare(rt, source, wanted.as_str(), found.as_str()),
        Err(NoMemory) => println!(rt; "{source}\nno memory\n"),
    }
}

// Checks a block of rows of a line, and gives their number.
fn check_lines(rt: &HostRuntime, subject: Subject, block: &str) -> io::Result<u32> {
    let mut count: u32 = 0;
    for line in block.lines() {
        let (source, wanted) = line.split_once(" => ").unwrap_or((line, ""));
        check_row(rt, subject, source, wanted)?;
        count = count.saturating_add(1);
    }
    Ok(count)
}

fn check_block(rt: &HostRuntime, subject: Subject, block: &str) -> io::Result<u32> {
    match block.split_once("=>\n") {
        Some((source, wanted)) => {
            check_row(rt, subject, source, wanted)?;
            Ok(1)
        }
        None => check_lines(rt, subject, block),
    }
}

/// Checks the rows of a file, prints those that don't hold, and gives their number.
pub fn check_file(rt: &HostRuntime, subject: Subject, text: &str) -> io::Result<u32> {
    let mut count: u32 = 0;
    for block in text.split("\n\n").skip(1) {
        count = count.saturating_add(check_block(rt, subject, block)?);
    }
    Ok(count)
}
