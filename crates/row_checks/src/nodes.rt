//! Nodes of trees as words.

use py_base::{NoMemory, Node, NodeId, NodeKind, Tree, Word};
use std::alloc::{AllocError, Global};
use std::fmt::Write;

/// The number of a word, 0 where it is none.
pub fn number(word: &str) -> u32 {
    word.parse::<u32>().unwrap_or(0)
}

// What a node says, behind a mark.
fn show_word(out: &mut String, mark: &str, tree: &Tree, word: &Word) -> Result<(), AllocError> {
    match word {
        Word::Nothing => Ok(()),
        Word::Name(id) if (id.0 as usize) < tree.name_count() => {
            write!(out, "{mark}{}", tree.name(*id))
        }
        Word::Name(_) => write!(out, "{mark}?"),
        Word::Int(value) => write!(out, "{mark}{value}"),
        Word::Chars(text) => write!(out, "{mark}'{}'", text.as_str()),
        Word::Bytes(bytes) => write!(out, "{mark}{:?}", bytes.as_slice()),
        Word::Op(op) => write!(out, "{mark}{op:?}"),
    }
}

fn show_parts(out: &mut String, parts: &[NodeId], older: &[String]) -> Result<(), AllocError> {
    for id in parts {
        match older.get(id.0 as usize) {
            Some(part) => write!(out, " {part}")?,
            None => write!(out, " ?")?,
        }
    }
    Ok(())
}

fn show_form(
    out: &mut String,
    tree: &Tree,
    node: &Node,
    older: &[String],
) -> Result<(), AllocError> {
    write!(out, "({:?}", node.kind)?;
    show_word(out, ":", tree, &node.word)?;
    show_parts(out, node.parts.as_slice(), older)?;
    write!(out, ")")
}

// A node over the texts of older ones: a name or an integer plainly, any other with its kind.
fn node_text(
    alloc: Global,
    tree: &Tree,
    node: &Node,
    older: &[String],
) -> Result<String, AllocError> {
    let mut out = String::new(alloc);
    match node.kind {
        NodeKind::Name | NodeKind::Int => show_word(&mut out, "", tree, &node.word)?,
        _ => show_form(&mut out, tree, node, older)?,
    }
    Ok(out)
}

/// The tree of a node as one line.
pub fn tree_text(alloc: Global, tree: &Tree, id: NodeId) -> Result<String, NoMemory> {
    let mut texts = Vec::new(alloc);
    for at in 0..tree.node_count() {
        let text = node_text(alloc, tree, tree.node(NodeId(at as u32)), texts.as_slice())?;
        texts.push(text)?;
    }
    match texts.get(id.0 as usize) {
        Some(text) => Ok(text.clone()?),
        None => Ok(String::new(alloc)),
    }
}
