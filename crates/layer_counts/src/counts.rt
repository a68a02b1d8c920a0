//! One line of counts for each layer.
ghost use Rattle.std.specs.Prelude.{◌≡◌, length};

use flow_graph::build;
use py_base::tree::TREE_ROOM;
use py_base::{List, NoMemory, Node, NodeKind, Span, Tree, Word};
use py_exprs::expression;
use py_scopes::{Scopes, scopes};
use py_stmts::blocks;
use py_tokens::{Cut, cut};
use std::alloc::Global;
use std::io;

/// The most bytes that a text may have.
const MOST_BYTES: usize = 524_288;

// Adds that many leaves.
fn add_nodes(alloc: Global, number: u32) -> Result<usize, NoMemory> {
    let mut tree = Tree::new(alloc)?;
    for _ in 0..number {
        if tree.node_count() + 1 >= TREE_ROOM {
            return Err(NoMemory);
        }
        tree.add(Node {
            kind: NodeKind::Name,
            span: Span { from: 0, to: 1 },
            parts: List::new(alloc),
            word: Word::Nothing,
        })?;
    }
    Ok(tree.node_count())
}

// Adds that many names.
fn add_names(alloc: Global, number: u32) -> Result<usize, NoMemory> {
    let mut tree = Tree::new(alloc)?;
    for at in 0..number {
        let name = format!(in alloc; "name_{at}")?;
        if tree.name_count() + 1 >= TREE_ROOM {
            return Err(NoMemory);
        }
        tree.intern(name.as_str())?;
    }
    Ok(tree.name_count())
}

// How many tokens the lines have.
fn token_count(cut: &Cut) -> usize {
    let mut count: usize = 0;
    for line in cut.lines.as_slice() {
        count = count.saturating_add(line.tokens.len());
    }
    count
}

// Reads each line as an expression, and gives the tree of all.
fn expressions(alloc: Global, cut: &Cut) -> Result<Tree, NoMemory> {
    let mut tree = Tree::new(alloc)?;
    for line in cut.lines.as_slice() {
        expression(alloc, line.tokens.as_slice(), 0, &mut tree)?;
    }
    Ok(tree)
}

/// Adds so many nodes to a tree, and prints how many it has.
pub fn nodes(rt: HostRuntime, number: u32) -> io::Result<()> {
    match add_nodes(rt.alloc(), number) {
        Ok(count) => println!(rt; "nodes {count}"),
        Err(NoMemory) => println!(rt; "no memory"),
    }
}

/// Adds so many names to a tree, and prints how many it has, those of the language included.
pub fn names(rt: HostRuntime, number: u32) -> io::Result<()> {
    match add_names(rt.alloc(), number) {
        Ok(count) => println!(rt; "names {count}"),
        Err(NoMemory) => println!(rt; "no memory"),
    }
}

/// So many copies of a text, one behind the other.
pub fn repeated(alloc: Global, text: &str, times: u32) -> Result<String, NoMemory> {
    let mut out = String::new(alloc);
    for _ in 0..times {
        out.push_str(text)?;
    }
    Ok(out)
}

/// Prints what the layers up to the one of this name make of a text.
pub fn layers(rt: HostRuntime, layer: &str, text: &str) -> io::Result<()> {
    if text.len() > MOST_BYTES {
        return println!(rt; "the text has more than {MOST_BYTES} bytes");
    }
    let alloc = rt.alloc();
    let Ok(cut) = cut(alloc, text) else {
        return println!(rt; "no memory");
    };
    println!(rt; "lines {} tokens {}", cut.lines.len(), token_count(&cut))?;
    match layer {
        "lines" => Ok(()),
        "expressions" => match expressions(alloc, &cut) {
            Ok(tree) => println!(rt;
                "expressions: nodes {} names {}",
                tree.node_count(),
                tree.name_count()
            ),
            Err(NoMemory) => println!(rt; "no memory"),
        },
        _ => module(rt, layer, &cut),
    }
}

// Prints what the layers behind tokens make of a cut text.
fn module(rt: HostRuntime, layer: &str, cut: &Cut) -> io::Result<()> {
    let alloc = rt.alloc();
    let Ok(module) = blocks(alloc, cut) else {
        return println!(rt; "no memory");
    };
    println!(rt;
        "faults {} nodes {}",
        module.faults.as_slice().len(),
        module.tree.node_count()
    )?;
    if layer == "module" {
        return Ok(());
    }
    let Ok(scopes) = scopes(alloc, &module.tree) else {
        return println!(rt; "no memory");
    };
    println!(rt; "symbols {}", scopes.symbols())?;
    if layer == "scopes" {
        return Ok(());
    }
    flow(rt, &module.tree, &scopes)
}

// Prints what the flow graphs of a tree have.
fn flow(rt: HostRuntime, tree: &Tree, scopes: &Scopes) -> io::Result<()>
    requires { length scopes.now.owners ≡ length tree.now.nodes }
{
    match build(rt.alloc(), tree, scopes) {
        Ok(graph) => println!(rt;
            "points {} references {} size {}",
            graph.len(),
            graph.reference_count(),
            graph.size()
        ),
        Err(NoMemory) => println!(rt; "no memory"),
    }
}
