//! Sources with what the layers make of them, and the words of nodes and points.
ghost use Rattle.std.specs.Prelude.{◌≡◌, length, IfOk};

use crate::lines::cut_of;
use flow_graph::{Graph, Point, Role, build};
use py_base::{NoMemory, NodeId, NodeKind, PointId, Tree};
use py_scopes::{Scopes, scopes};
use py_stmts::{Module, blocks};
use std::alloc::{AllocError, Global};
use std::fmt::Write;

/// A source with its tree and its scopes.
#[derive(Drop)]
pub struct Named<'a> {
    pub source: &'a str,
    pub tree: Tree,
    pub scopes: Scopes,
}

/// The same with its graphs.
#[derive(Drop)]
pub struct Flow<'a> {
    pub named: Named<'a>,
    pub graph: Graph,
}

/// The module of a source.
pub fn module_of(alloc: Global, source: &str) -> Result<Module, NoMemory> {
    Ok(blocks(alloc, &cut_of(alloc, source)?)?)
}

/// The tree and the scopes of a source.
pub fn named_of<'a>(alloc: Global, source: &'a str) -> Result<Named<'a>, NoMemory>
    ensures { IfOk result (λ n. length n.scopes.owners ≡ length n.tree.nodes) }
{
    let tree = module_of(alloc, source)?.tree;
    let scopes = scopes(alloc, &tree)?;
    Ok(Named {
        source,
        tree,
        scopes,
    })
}

/// What the layers make of a source.
pub fn flow_of<'a>(alloc: Global, source: &'a str) -> Result<Flow<'a>, NoMemory> {
    let named = named_of(alloc, source)?;
    let graph = build(alloc, &named.tree, &named.scopes)?;
    Ok(Flow { named, graph })
}

/// The first line of a text.
pub fn first_line(text: &str) -> &str {
    text.lines().next().unwrap_or("")
}

/// The first line of a node's words; such sources are ASCII, so characters are bytes.
pub fn words_of<'a>(named: &Named<'a>, node: NodeId) -> &'a str {
    let span = named.tree.span(node);
    let words = named.source.get(span.from as usize..span.to as usize);
    first_line(words.unwrap_or("?"))
}

/// Whether a node is of this kind.
pub fn is_of_kind(tree: &Tree, node: NodeId, kind: NodeKind) -> bool {
    tree.kind(node) == kind
}

// Whether a node is a name of these words.
fn is_name_of(named: &Named, node: NodeId, words: &str) -> bool {
    is_of_kind(&named.tree, node, NodeKind::Name) && words_of(named, node) == words
}

// How many names of the same words stand before a node.
fn names_before(named: &Named, node: NodeId) -> usize {
    let words = words_of(named, node);
    let mut count: usize = 0;
    for earlier in 0..node.0 {
        let is_same = is_name_of(named, NodeId(earlier), words);
        count = count.saturating_add(is_same as usize);
    }
    count
}

// The number of a name that stood before.
fn show_number(out: &mut String, before: usize) -> Result<(), AllocError> {
    if before > 0 {
        write!(out, " #{}", before.saturating_add(1))
    } else {
        Ok(())
    }
}

fn show_words(out: &mut String, named: &Named, node: NodeId) -> Result<(), AllocError> {
    write!(out, "{}", words_of(named, node))?;
    if is_of_kind(&named.tree, node, NodeKind::Name) {
        show_number(out, names_before(named, node))
    } else {
        Ok(())
    }
}

/// The words of a node; of a name that stood before with its number.
pub fn show_node(out: &mut String, named: &Named, node: NodeId) -> Result<(), AllocError> {
    if is_of_kind(&named.tree, node, NodeKind::Module) {
        write!(out, "module")
    } else {
        show_words(out, named, node)
    }
}

fn role_words(role: Role) -> &'static str {
    match role {
        Role::Own => "",
        Role::Again => " again",
        Role::Behind => " behind",
        Role::Fail => " fail",
        Role::Handlers => " handlers",
        Role::Start => " start",
    }
}

fn show_copy(out: &mut String, copy: u32) -> Result<(), AllocError> {
    if copy > 0 {
        write!(out, " /{copy}")
    } else {
        Ok(())
    }
}

fn show_place(out: &mut String, named: &Named, place: Point) -> Result<(), AllocError> {
    show_node(out, named, place.node)?;
    write!(out, "{}", role_words(place.role))?;
    show_copy(out, place.copy)
}

/// The words of a point.
pub fn show_point(out: &mut String, flow: &Flow, point: PointId) -> Result<(), AllocError> {
    match flow.graph.place(point) {
        Some(place) => show_place(out, &flow.named, place),
        None => write!(out, "?"),
    }
}
