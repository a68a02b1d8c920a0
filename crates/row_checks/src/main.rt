//! Checks rows of texts: what the layers make of a text stands beside it, in the words of the text.
//!
//! The rows stand in `data/`, a file a subject, and each file says at its head how it is read. What is printed is
//! a line with the number of rows for each file, and before it each row that doesn't hold, with what was found in
//! the place of what was wanted. `stdout` has the numbers alone, so a wrong row makes the gate fail, and so does a
//! row that isn't counted there.
//!
//! A row says all facts of its subject: one that is found and not written is as wrong as one that is missing.
//! Nothing here is claimed but safety; the facts are worked by hand, and never copied from what is printed.
#![tactic(auto)]

mod builtins;
mod classes;
mod edges;
mod facts;
mod faults;
mod lines;
mod listing;
mod names;
mod nodes;
mod places;
mod references;
mod roles;
mod rows;
mod scopes;
mod sources;
mod symbols;
mod tokens;
mod trees;

use facts::Subject;
use std::{fs, io};

/// The files of rows, and what each is about.
const FILES: [(&str, Subject); 23] = [
    ("names", Subject::Names),
    ("places", Subject::Places),
    ("tokens", Subject::Tokens),
    ("expressions", Subject::Expressions),
    ("statements", Subject::Statements),
    ("faults", Subject::Faults),
    ("blocks", Subject::Blocks),
    ("spans", Subject::Spans),
    ("scopes", Subject::Scopes),
    ("symbols", Subject::Symbols),
    ("chains", Subject::Chains),
    ("casts", Subject::Casts),
    ("edges", Subject::Edges),
    ("graphs", Subject::Graphs),
    ("points", Subject::Points),
    ("reads", Subject::Reads),
    ("bindings", Subject::Bindings),
    ("occurrences", Subject::Occurrences),
    ("tested", Subject::Tested),
    ("cases", Subject::Cases),
    ("class_order", Subject::ClassOrder),
    ("builtins", Subject::Builtins),
    ("listing", Subject::Listing),
];

fn main(rt: HostRuntime) -> io::Result<()> {
    for (file, subject) in FILES {
        let text = fs::read_to_string(&rt, file)?;
        let count = rows::check_file(&rt, subject, text.as_str())?;
        println!(rt; "{file} {count}")?;
    }
    Ok(())
}
