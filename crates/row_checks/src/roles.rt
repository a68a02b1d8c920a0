//! The roles of names, and what the table of scopes says of each symbol.
ghost use Rattle.std.specs.Prelude.{◌≡◌, ◌<◌, length};

use crate::sources::{Named, named_of, show_node, words_of};
use crate::symbols::show_symbol;
use py_base::{NoMemory, NodeId, SymId};
use py_scopes::{Annotation, Behind, NameRole, Scope, ScopeKind, Star, SymbolFacts};
use std::alloc::{AllocError, Global};
use std::fmt::Write;

fn role_words(role: NameRole) -> &'static str {
    match role {
        NameRole::Read => "read",
        NameRole::Bound => "bound",
        NameRole::Augmented => "augmented",
        NameRole::Annotated => "annotated",
        NameRole::TypeName => "type name",
        NameRole::Deleted => "deleted",
        NameRole::Global => "global",
        NameRole::Nonlocal => "nonlocal",
    }
}

fn role_fact(
    alloc: Global,
    named: &Named,
    node: NodeId,
    role: NameRole,
) -> Result<String, AllocError> {
    let mut out = String::new(alloc);
    show_node(&mut out, named, node)?;
    write!(out, ": {}", role_words(role))?;
    Ok(out)
}

fn scope_words(kind: ScopeKind) -> &'static str {
    match kind {
        ScopeKind::TypeParameters => " in types of ",
        _ => " in ",
    }
}

fn show_scope(out: &mut String, named: &Named, scope: Scope) -> Result<(), AllocError> {
    write!(out, "{}", scope_words(scope.kind))?;
    show_node(out, named, scope.node)
}

fn show_hides(out: &mut String, facts: SymbolFacts) -> Result<(), AllocError> {
    match facts.symbol.scope.kind {
        ScopeKind::Class if facts.hides => write!(out, ", hides"),
        _ => Ok(()),
    }
}

fn show_behind(out: &mut String, named: &Named, behind: Behind) -> Result<(), AllocError>
    requires { length named.now.scopes.owners ≡ length named.now.tree.nodes }
{
    if let Some(symbol) = behind.symbol {
        write!(out, ", else ")?;
        show_symbol(out, named, symbol)?;
    }
    match behind.builtin {
        Some(_) => write!(out, ", else builtin"),
        None => Ok(()),
    }
}

fn star_words(star: Star) -> &'static str {
    match star {
        Star::Plain => "",
        Star::Single => "*",
        Star::Double => "**",
    }
}

fn show_annotation(
    out: &mut String,
    named: &Named,
    annotation: Option<Annotation>,
) -> Result<(), AllocError> {
    match annotation {
        Some(annotation) => {
            let words = words_of(named, annotation.node);
            write!(out, ", declared {}{words}", star_words(annotation.star))
        }
        None => Ok(()),
    }
}

fn symbol_fact(alloc: Global, named: &Named, symbol: SymId) -> Result<String, AllocError>
    requires owned { length named.now.scopes.owners ≡ length named.now.tree.nodes }
    requires symbol { symbol.0 < length named.now.scopes.bound }
{
    let facts = named.scopes.symbol(symbol);
    let mut out = String::new(alloc);
    show_symbol(&mut out, named, symbol)?;
    show_scope(&mut out, named, facts.symbol.scope)?;
    write!(out, " by ")?;
    show_node(&mut out, named, facts.graph)?;
    show_hides(&mut out, facts)?;
    show_behind(&mut out, named, facts.behind)?;
    show_annotation(&mut out, named, named.scopes.annotation(symbol))?;
    Ok(out)
}

fn add_role(
    alloc: Global,
    named: &Named,
    node: NodeId,
    facts: &mut Vec<String>,
) -> Result<(), NoMemory>
    requires owned { length named.now.scopes.owners ≡ length named.now.tree.nodes }
    requires node { node.0 < length named.now.tree.nodes }
{
    match named.scopes.role(node) {
        Some(role) => Ok(facts.push(role_fact(alloc, named, node, role)?)?),
        None => Ok(()),
    }
}

/// A fact for each name that has a role, and one for each symbol.
pub fn facts(alloc: Global, source: &str) -> Result<Vec<String>, NoMemory> {
    let named = named_of(alloc, source)?;
    let mut facts = Vec::new(alloc);
    for node in 0..named.tree.node_count() {
        add_role(alloc, &named, NodeId(node as u32), &mut facts)?;
    }
    for symbol in 0..named.scopes.symbols() {
        facts.push(symbol_fact(alloc, &named, SymId(symbol))?)?;
    }
    Ok(facts)
}
