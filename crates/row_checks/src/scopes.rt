//! Owners of names, symbols, and members of classes.
ghost use Rattle.std.specs.Prelude.{◌≡◌, ◌<◌, length};

use crate::sources::{Named, named_of, show_node, words_of};
use crate::symbols::show_symbol;
use py_base::{NameId, NoMemory, NodeId, NodeKind, SymId};
use py_scopes::Owner;
use std::alloc::{AllocError, Global};
use std::fmt::Write;

fn show_owner(out: &mut String, named: &Named, owner: Owner) -> Result<(), AllocError>
    requires { length named.now.scopes.owners ≡ length named.now.tree.nodes }
{
    let (word, symbol) = match owner {
        Owner::Local(symbol) => ("local ", symbol),
        Owner::Outer(symbol) => ("outer ", symbol),
        Owner::Builtin(_) => return write!(out, "builtin"),
        Owner::Undefined => return write!(out, "undefined"),
    };
    write!(out, "{word}")?;
    show_symbol(out, named, symbol)
}

// Whose the name at a node is.
fn name_fact(alloc: Global, named: &Named, node: NodeId) -> Result<String, AllocError>
    requires owned { length named.now.scopes.owners ≡ length named.now.tree.nodes }
    requires node { node.0 < length named.now.tree.nodes }
{
    let mut out = String::new(alloc);
    show_node(&mut out, named, node)?;
    write!(out, ": ")?;
    show_owner(&mut out, named, named.scopes.owner(node))?;
    Ok(out)
}

// The members of a class.
fn class_fact(alloc: Global, named: &Named, class: NodeId) -> Result<String, AllocError>
    requires owned { length named.now.scopes.owners ≡ length named.now.tree.nodes }
    requires node { class.0 < length named.now.tree.nodes }
{
    let mut out = format!(in alloc; "{} has", words_of(named, class))?;
    for (_, symbol) in named.scopes.members(class) {
        write!(out, " ")?;
        show_symbol(&mut out, named, *symbol)?;
    }
    Ok(out)
}

// How often a symbol is bound, and whether it is declared.
fn symbol_fact(alloc: Global, named: &Named, symbol: SymId) -> Result<String, AllocError>
    requires owned { length named.now.scopes.owners ≡ length named.now.tree.nodes }
    requires symbol { symbol.0 < length named.now.scopes.bound }
{
    let mut out = String::new(alloc);
    show_symbol(&mut out, named, symbol)?;
    write!(out, " bound {}", named.scopes.bindings(symbol).len())?;
    if named.scopes.declaration(symbol).is_some() {
        write!(out, " declared")?;
    }
    Ok(out)
}

fn add_node(
    alloc: Global,
    named: &Named,
    node: NodeId,
    facts: &mut Vec<String>,
) -> Result<(), NoMemory>
    requires owned { length named.now.scopes.owners ≡ length named.now.tree.nodes }
    requires node { node.0 < length named.now.tree.nodes }
{
    match named.tree.kind(node) {
        NodeKind::Name => Ok(facts.push(name_fact(alloc, named, node)?)?),
        NodeKind::ClassStatement => Ok(facts.push(class_fact(alloc, named, node)?)?),
        _ => Ok(()),
    }
}

/// A fact for each name, each symbol and each class.
pub fn facts(alloc: Global, source: &str) -> Result<Vec<String>, NoMemory> {
    let named = named_of(alloc, source)?;
    let mut facts = Vec::new(alloc);
    for node in 0..named.tree.node_count() {
        add_node(alloc, &named, NodeId(node as u32), &mut facts)?;
    }
    for symbol in 0..named.scopes.symbols() {
        facts.push(symbol_fact(alloc, &named, SymId(symbol))?)?;
    }
    Ok(facts)
}
