//! What the rules of blocks see of a logical line.
ghost use Rattle.std.specs.Prelude.{◌≡◌, ◌<◌, length, map, IfOk};
ghost use Rattle.py_base.specs.Tree.{tree_of, IsLinked};
ghost use Rattle.py_blocks.specs.Facts.{facts_without, facts_with, facts_of};
ghost use Rattle.py_blocks.specs.Faults.{row_of, rows_of, IsNodeOf, AreNodesOf};

use crate::fault::BlockLine;
use crate::fits::tree_fits;
use crate::names::names_in;
use crate::role::Role;
use crate::walk::{Sought, has_word, header_of, is_bare_except, node_of, opens_block};
use py_base::{List, NoMemory, NodeId, NodeKind, Text, Tree};
use py_tokens::TokenFault;
use std::alloc::Global;

/// What the rules of blocks see of a logical line.
#[derive(Debug, Drop)]
pub struct LineFacts {
    pub column: u32,
    pub fault: Option<TokenFault>,
    /// The kind of its tree, that of the header behind `async`. `None` where it has a token fault or
    /// no tree.
    pub kind: Option<NodeKind>,
    /// Whether it is a header that ends its line.
    pub opens: bool,
    /// Whether it is an `except` without a class.
    pub bare: bool,
    /// Whether `return` stands in it.
    pub returns: bool,
    /// Whether `break` or `continue` stands in it.
    pub jumps: bool,
    /// Whether its parameters and captures are as they should be.
    pub fits: bool,
    /// The parameters of a def.
    pub parameters: List<Text>,
    /// What the statements in the line of a def or class bind in it.
    pub suite: List<Text>,
    /// What the line binds in the scope around.
    pub bound: List<Text>,
    /// The names of its `nonlocal` statements.
    pub nonlocals: List<Text>,
    /// The names of its `global` and `nonlocal` statements.
    pub declared: List<Text>,
}

// What is seen of a line with a token fault or without a tree.
fn facts_without(alloc: Global, column: u32, fault: Option<TokenFault>) -> LineFacts
    ensures { result ≡ facts_without column fault }
{
    LineFacts {
        column,
        fault,
        kind: None,
        opens: false,
        bare: false,
        returns: false,
        jumps: false,
        fits: true,
        parameters: List::new(alloc),
        suite: List::new(alloc),
        bound: List::new(alloc),
        nonlocals: List::new(alloc),
        declared: List::new(alloc),
    }
}

// What is seen of a line with a tree.
fn facts_with(alloc: Global, tree: &Tree, column: u32, id: NodeId) -> Result<LineFacts, NoMemory>
    requires linked { IsLinked tree.now }
    requires within { id.0 < length tree.now.nodes }
    ensures { IfOk result (λ facts. facts ≡ facts_with column (tree_of tree.now id)) }
{
    let fits = tree_fits(alloc, tree, id)?;
    let parameters = names_in(alloc, tree, Role::Signature, id)?;
    let suite = names_in(alloc, tree, Role::Suite, id)?;
    let bound = names_in(alloc, tree, Role::Value, id)?;
    let nonlocals = names_in(alloc, tree, Role::Nonlocal, id)?;
    let declared = names_in(alloc, tree, Role::Declared, id)?;
    let header = header_of(tree, id);
    Ok(LineFacts {
        column,
        fault: None,
        kind: Some(node_of(tree, header).kind),
        opens: opens_block(tree, header),
        bare: is_bare_except(tree, header),
        returns: has_word(tree, Sought::Return, id),
        jumps: has_word(tree, Sought::Jump, id),
        fits,
        parameters,
        suite,
        bound,
        nonlocals,
        declared,
    })
}

fn facts_of(alloc: Global, tree: &Tree, line: &BlockLine) -> Result<LineFacts, NoMemory>
    requires linked { IsLinked tree.now }
    requires within { IsNodeOf (length tree.now.nodes) line.now.tree }
    ensures { IfOk result (λ facts. facts ≡ facts_of (row_of tree.now line.now)) }
{
    match (line.fault, line.tree) {
        (Some(fault), _) => Ok(facts_without(alloc, line.column, Some(fault))),
        (None, None) => Ok(facts_without(alloc, line.column, None)),
        (None, Some(id)) => facts_with(alloc, tree, line.column, id),
    }
}

/// What the rules see of each line of a text. `NoMemory` where it could not be stored.
pub fn facts_of_lines(
    alloc: Global,
    tree: &Tree,
    lines: &[BlockLine],
) -> Result<List<LineFacts>, NoMemory>
    requires linked { IsLinked tree.now }
    requires within { AreNodesOf (length tree.now.nodes) lines.now }
    ensures { IfOk result (λ facts. facts ≡ map facts_of (rows_of tree.now lines.now)) }
{
    let mut facts = List::new(alloc);
    for line in lines {
        let fact = facts_of(alloc, tree, line)?;
        facts.push(fact)?;
    }
    Ok(facts)
}
