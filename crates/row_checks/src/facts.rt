//! What rows are about.

use crate::sources::flow_of;
use crate::{
    builtins, classes, edges, faults, lines, listing, names, places, references, roles, scopes,
    symbols, tokens, trees,
};
use py_base::NoMemory;
use std::alloc::Global;

/// What the rows of a file are about.
#[derive(Clone, Copy)]
pub enum Subject {
    /// The names of the language.
    Names,
    /// The lines and columns of a text's characters.
    Places,
    /// The logical lines of a text with their tokens.
    Tokens,
    /// The tree of an expression, behind the level at which it is read.
    Expressions,
    /// The tree of a line.
    Statements,
    /// The faulty lines of a text.
    Faults,
    /// The tree of a text.
    Blocks,
    /// The kinds and spans of a text's nodes.
    Spans,
    /// The owners of names, the symbols, and the members of classes.
    Scopes,
    /// The roles of names, and what stands in the table of each symbol.
    Symbols,
    /// The references that nodes stand for.
    Chains,
    /// The nodes that name `cast` of typing.
    Casts,
    /// The edges of code flow graphs.
    Edges,
    /// The ends of graphs, and their size.
    Graphs,
    /// The points of nodes.
    Points,
    /// What nodes read.
    Reads,
    /// What points bind.
    Bindings,
    /// What occurs in each graph.
    Occurrences,
    /// What the last statement tests.
    Tested,
    /// What cases test.
    Cases,
    /// The orders of class statements.
    ClassOrder,
    /// What the language brings along.
    Builtins,
    /// The list of a text.
    Listing,
}

/// All facts of a source that a subject has.
pub fn facts(alloc: Global, subject: Subject, source: &str) -> Result<Vec<String>, NoMemory> {
    match subject {
        Subject::Names => names::facts(alloc, source),
        Subject::Places => places::facts(alloc, source),
        Subject::Tokens => tokens::facts(alloc, source),
        Subject::Expressions => lines::expression_facts(alloc, source),
        Subject::Statements => lines::statement_facts(alloc, source),
        Subject::Faults => faults::facts(alloc, source),
        Subject::Blocks => trees::facts(alloc, source),
        Subject::Spans => trees::span_facts(alloc, source),
        Subject::Scopes => scopes::facts(alloc, source),
        Subject::Symbols => roles::facts(alloc, source),
        Subject::Chains => symbols::chain_facts(alloc, source),
        Subject::Casts => symbols::cast_facts(alloc, source),
        Subject::Tested => references::tested_facts(alloc, source),
        Subject::ClassOrder => classes::facts(alloc, source),
        Subject::Builtins => builtins::facts(alloc, source),
        Subject::Listing => listing::facts(alloc, source),
        _ => flow_facts(alloc, subject, source),
    }
}

// The same of code flow graphs.
fn flow_facts(alloc: Global, subject: Subject, source: &str) -> Result<Vec<String>, NoMemory> {
    let flow = flow_of(alloc, source)?;
    match subject {
        Subject::Graphs => references::graph_facts(alloc, &flow),
        Subject::Points => references::point_facts(alloc, &flow),
        Subject::Reads => references::read_facts(alloc, &flow),
        Subject::Bindings => references::binding_facts(alloc, &flow),
        Subject::Occurrences => references::occurrence_facts(alloc, &flow),
        Subject::Cases => references::case_facts(alloc, &flow),
        _ => edges::facts(alloc, &flow),
    }
}
