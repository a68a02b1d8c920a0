//! Symbols and chains of names as words.
ghost use Rattle.std.specs.Prelude.{◌≡◌, ◌<◌, length};

use crate::sources::{Named, is_of_kind, named_of, show_node};
use node_references::{NodeReferences, Root, at, casts, node_references};
use py_base::{NameId, NoMemory, NodeId, NodeKind, RefId, SymId, Tree};
use py_scopes::Owner;
use std::alloc::{AllocError, Global};
use std::fmt::Write;

// Whether a node is a name of this symbol.
fn is_name_of(named: &Named, node: NodeId, symbol: SymId) -> bool
    requires owned { length named.now.scopes.owners ≡ length named.now.tree.nodes }
    requires node { node.0 < length named.now.tree.nodes }
{
    if !is_of_kind(&named.tree, node, NodeKind::Name) {
        return false;
    }
    match named.scopes.owner(node) {
        Owner::Local(found) | Owner::Outer(found) => found.0 == symbol.0,
        Owner::Builtin(_) | Owner::Undefined => false,
    }
}

// The first name of a symbol.
fn name_of(named: &Named, symbol: SymId) -> Option<NodeId>
    requires { length named.now.scopes.owners ≡ length named.now.tree.nodes }
{
    for node in 0..named.tree.node_count() {
        if is_name_of(named, NodeId(node as u32), symbol) {
            return Some(NodeId(node as u32));
        }
    }
    None
}

// The first binding of a symbol.
fn binding_of(named: &Named, symbol: SymId) -> Option<NodeId> {
    if symbol.0 >= named.scopes.symbols() {
        return None;
    }
    named.scopes.bindings(symbol).first().copied()
}

/// A symbol by its first name, and a member that has none by its first binding.
pub fn show_symbol(out: &mut String, named: &Named, symbol: SymId) -> Result<(), AllocError>
    requires { length named.now.scopes.owners ≡ length named.now.tree.nodes }
{
    match name_of(named, symbol).or(binding_of(named, symbol)) {
        Some(node) => show_node(out, named, node),
        None => write!(out, "?"),
    }
}

/// Names, each behind a dot.
pub fn show_names(out: &mut String, tree: &Tree, names: &[NameId]) -> Result<(), AllocError> {
    for name in names {
        if (name.0 as usize) < tree.name_count() {
            write!(out, ".{}", tree.name(*name))?;
        }
    }
    Ok(())
}

fn show_root(out: &mut String, named: &Named, root: Root) -> Result<(), AllocError>
    requires { length named.now.scopes.owners ≡ length named.now.tree.nodes }
{
    match root {
        Root::Symbol(symbol) => show_symbol(out, named, symbol),
        Root::Subject(_) => write!(out, "~"),
    }
}

fn show_chain(
    out: &mut String,
    named: &Named,
    references: &NodeReferences,
    id: RefId,
) -> Result<(), AllocError>
    requires { length named.now.scopes.owners ≡ length named.now.tree.nodes }
{
    match references.list.get(id) {
        Some((root, names)) => {
            show_root(out, named, root)?;
            show_names(out, &named.tree, names)
        }
        None => write!(out, "?"),
    }
}

fn chain_fact(
    alloc: Global,
    named: &Named,
    references: &NodeReferences,
    node: NodeId,
    id: RefId,
) -> Result<String, AllocError>
    requires { length named.now.scopes.owners ≡ length named.now.tree.nodes }
{
    let mut out = String::new(alloc);
    show_node(&mut out, named, node)?;
    write!(out, ": ")?;
    show_chain(&mut out, named, references, id)?;
    Ok(out)
}

/// A fact for each node that stands for a reference, and how many references there are.
pub fn chain_facts(alloc: Global, source: &str) -> Result<Vec<String>, NoMemory> {
    let named = named_of(alloc, source)?;
    let references = node_references(alloc, &named.tree, &named.scopes)?;
    let mut facts = Vec::new(alloc);
    facts.push(format!(in alloc; "{} references", references.list.len())?)?;
    for node in 0..named.tree.node_count() {
        if let Some(id) = at(references.numbers.as_slice(), node as u32) {
            let node = NodeId(node as u32);
            facts.push(chain_fact(alloc, &named, &references, node, id)?)?;
        }
    }
    Ok(facts)
}

fn node_fact(alloc: Global, named: &Named, node: NodeId) -> Result<String, AllocError> {
    let mut out = String::new(alloc);
    show_node(&mut out, named, node)?;
    Ok(out)
}

/// A fact for each node that names `cast` of typing.
pub fn cast_facts(alloc: Global, source: &str) -> Result<Vec<String>, NoMemory> {
    let named = named_of(alloc, source)?;
    let references = node_references(alloc, &named.tree, &named.scopes)?;
    let marks = casts(alloc, &named.tree, &named.scopes, &references)?;
    let mut facts = Vec::new(alloc);
    for node in 0..named.tree.node_count() {
        if marks.get(node).copied().unwrap_or(false) {
            facts.push(node_fact(alloc, &named, NodeId(node as u32))?)?;
        }
    }
    Ok(facts)
}
