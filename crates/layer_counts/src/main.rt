//! Counts what each layer makes of a text, so that `bench/layers.py` can time the layers one by one.
//!
//! The text is standard input, and the word behind the program's name says how far it goes:
//! `lines` (logical lines and tokens), `expressions` (each line read as an expression), `module` (the
//! module of the text), `scopes` (its symbols) and `flow` (the points and references of its graphs).
//! A number behind that word asks for so many copies of the text, one behind the other.
//! `nodes` and `names` take no text, but a number: so many nodes are added to a tree, or so many names.
//!
//! Its answers are tested, not proved: they are counts of what the layers below are proved to give.
#![tactic(auto)]

mod counts;

use py_base::NoMemory;
use std::{env, io};

fn main(rt: HostRuntime) -> io::Result<()> {
    let mut words = env::args(&rt)?.skip(1);
    let Some(layer) = words.next() else {
        return println!(rt;
            "layer_counts: usage: lines, expressions, module, scopes or flow, and N; nodes N, names N"
        );
    };
    let number = match words.next() {
        None => 0,
        Some(word) => word.as_str().parse::<u32>().unwrap_or(0),
    };
    match layer.as_str() {
        "nodes" => counts::nodes(rt, number),
        "names" => counts::names(rt, number),
        layer => {
            let text = io::read_to_string(rt.alloc(), rt.stdin())?;
            match counts::repeated(rt.alloc(), text.as_str(), number.max(1)) {
                Ok(copies) => counts::layers(rt, layer, copies.as_str()),
                Err(NoMemory) => println!(rt; "no memory"),
            }
        }
    }
}
