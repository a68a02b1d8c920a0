//! Lines of a text, and the tree of one.

use crate::nodes::{number, tree_text};
use py_base::{NoMemory, NodeId, Tree};
use py_exprs::expression;
use py_stmts::line_tree;
use py_tokens::{Cut, LogicalLine, cut};
use std::alloc::Global;

/// The most bytes that a text may have.
pub const MOST_BYTES: usize = 524_288;

/// The lines of a text.
pub fn cut_of(alloc: Global, source: &str) -> Result<Cut, NoMemory> {
    if source.len() > MOST_BYTES {
        return Err(NoMemory);
    }
    Ok(cut(alloc, source)?)
}

fn only(alloc: Global, fact: String) -> Result<Vec<String>, NoMemory> {
    let mut facts = Vec::new(alloc);
    facts.push(fact)?;
    Ok(facts)
}

// The tree of a node, `none` where there is none.
fn shown(alloc: Global, tree: &Tree, root: Option<NodeId>) -> Result<Vec<String>, NoMemory> {
    match root {
        Some(id) => only(alloc, tree_text(alloc, tree, id)?),
        None => Ok(Vec::new(alloc)),
    }
}

fn expression_of(alloc: Global, line: &LogicalLine, level: u8) -> Result<Vec<String>, NoMemory> {
    let mut tree = Tree::new(alloc)?;
    let root = expression(alloc, line.tokens.as_slice(), level, &mut tree)?;
    shown(alloc, &tree, root)
}

fn statement_of(alloc: Global, line: &LogicalLine) -> Result<Vec<String>, NoMemory> {
    let mut tree = Tree::new(alloc)?;
    let root = line_tree(alloc, line, &mut tree)?;
    shown(alloc, &tree, root)
}

fn fault(alloc: Global) -> Result<Vec<String>, NoMemory> {
    only(alloc, String::from_str(alloc, "fault")?)
}

/// The tree of an expression, behind the number of its level; `fault` where it is no one line of tokens.
pub fn expression_facts(alloc: Global, source: &str) -> Result<Vec<String>, NoMemory> {
    let (level, text) = source.split_once(' ').unwrap_or(("", source));
    let level = number(level).min(255) as u8;
    match cut_of(alloc, text)?.lines.as_slice() {
        [line] if line.fault.is_none() => expression_of(alloc, line, level),
        _ => fault(alloc),
    }
}

/// The tree of a line; `fault` where it is no one line of tokens.
pub fn statement_facts(alloc: Global, source: &str) -> Result<Vec<String>, NoMemory> {
    match cut_of(alloc, source)?.lines.as_slice() {
        [line] if line.fault.is_none() => statement_of(alloc, line),
        _ => fault(alloc),
    }
}
