//! What the table says of a symbol.
ghost use Rattle.std.specs.Prelude.{◌≡◌, ◌<◌, ◌-◌, ◌++◌, length, map, slice_get, IfOk, IfSome};
ghost use Rattle.py_scopes.specs.Members.{hides};
ghost use Rattle.py_scopes.specs.Scopes.{from_first, has_graph};
ghost use Rattle.py_scopes.specs.Table.{number_of, builtin_of, root, node_or, graph_of, sym_of, of_module, behind_by, facts_by, facts_of};
ghost use Rattle.py_scopes.specs.Tables.{steps_outward, HasHiders};

use crate::around::scopes_along;
use crate::members::{Instances, hiders};
use crate::occurrence::{is_builtin, text_of};
use crate::scope::{Scope, ScopeKind, Symbol, from_graph, has_graph};
use crate::way::{Step, way_out};
use indexmap::IndexSet;
use py_base::{List, NameId, NoMemory, NodeId, SymId, Tree};
use std::alloc::Global;

/// What a read stands for of a name that its own class or module has not bound yet, each where there
/// is one.
///
/// Python 3.12 language reference, 4.2.2, "Resolution of names".
#[derive(Clone, Copy)]
pub struct Behind {
    /// Behind a class's name: the module's symbol of that name.
    pub symbol: Option<SymId>,
    /// Behind a class's and the module's name: the name, if it is that of a builtin.
    pub builtin: Option<NameId>,
}

/// What the table says of a symbol, beside its declaration and its bindings.
#[derive(Clone, Copy)]
pub struct SymbolFacts {
    /// Its scope and its name.
    pub symbol: Symbol,
    /// The graph that runs its scope, by its node: a def's, a lambda's or the module's.
    pub graph: NodeId,
    /// Of a member of a class: whether it hides those of its name in the classes behind its own. It
    /// does where it is declared, and where it gets a value otherwise than as `p.m`, or as a plain
    /// `p.m` of the first parameter of an `__init__`.
    pub hides: bool,
    /// What stands behind it.
    pub behind: Behind,
}

/// The number of a symbol.
pub(crate) fn number_of(numbers: &IndexSet<Symbol>, symbol: Symbol) -> Option<usize>
    ensures value { result ≡ number_of numbers.now.keys symbol }
    ensures within { IfSome result (λ k. k < length numbers.now.keys) }
{
    numbers.get_index_of(&symbol)
}

/// The name, if it is that of a builtin.
pub(crate) fn builtin_of(tree: &Tree, name: NameId) -> Option<NameId>
    ensures { result ≡ builtin_of tree.now name }
{
    if is_builtin(text_of(tree, name)) {
        Some(name)
    } else {
        None
    }
}

// The module's node, which is the newest.
fn root(tree: &Tree) -> NodeId
    ensures { result ≡ root tree.now }
{
    NodeId(tree.node_count().saturating_sub(1) as u32)
}

fn node_or(other: NodeId, scopes: &[Scope]) -> NodeId
    ensures { result ≡ node_or other scopes.now }
{
    match scopes.split_first() {
        Some((scope, _)) => scope.node,
        None => other,
    }
}

// The graph that runs a scope.
fn graph_of(
    alloc: Global,
    tree: &Tree,
    outward: &[Option<Step>],
    scope: Scope,
) -> Result<NodeId, NoMemory>
    requires { outward.now ≡ steps_outward tree.now }
    ensures { IfOk result (λ graph. graph ≡ graph_of tree.now scope) }
{
    if has_graph(scope.kind) {
        return Ok(scope.node);
    }
    let way = way_out(alloc, tree, outward, scope.node)?;
    let around = scopes_along(alloc, way.as_slice())?.into_list();
    Ok(node_or(root(tree), from_graph(around.as_slice())))
}

fn sym_of(number: Option<usize>) -> Option<SymId>
    requires { IfSome number (λ k. k < 33554432) }
    ensures { result ≡ sym_of number }
{
    match number {
        Some(number) => Some(SymId(number as u32)),
        None => None,
    }
}

// The module's symbol of a name.
fn of_module(tree: &Tree, numbers: &IndexSet<Symbol>, name: NameId) -> Option<SymId>
    requires { length numbers.now.keys < 33554432 }
    ensures { result ≡ of_module tree.now numbers.now.keys name }
{
    let scope = Scope {
        node: root(tree),
        kind: ScopeKind::Module,
    };
    sym_of(number_of(numbers, Symbol { scope, name }))
}

// What stands behind a symbol of this name in a scope of this kind.
fn behind_by(tree: &Tree, numbers: &IndexSet<Symbol>, kind: ScopeKind, name: NameId) -> Behind
    requires { length numbers.now.keys < 33554432 }
    ensures { result ≡ behind_by tree.now numbers.now.keys kind name }
{
    match kind {
        ScopeKind::Class => Behind {
            symbol: of_module(tree, numbers, name),
            builtin: builtin_of(tree, name),
        },
        ScopeKind::Module => Behind {
            symbol: None,
            builtin: builtin_of(tree, name),
        },
        _ => Behind {
            symbol: None,
            builtin: None,
        },
    }
}

// What the table says of a symbol that hides members or doesn't.
fn facts_by(
    alloc: Global,
    tree: &Tree,
    outward: &[Option<Step>],
    numbers: &IndexSet<Symbol>,
    symbol: Symbol,
    hides: bool,
) -> Result<SymbolFacts, NoMemory>
    requires outward { outward.now ≡ steps_outward tree.now }
    requires room { length numbers.now.keys < 33554432 }
    ensures { IfOk result (λ facts. facts ≡ facts_by tree.now numbers.now.keys symbol hides) }
{
    Ok(SymbolFacts {
        symbol,
        graph: graph_of(alloc, tree, outward, symbol.scope)?,
        hides,
        behind: behind_by(tree, numbers, symbol.scope.kind, symbol.name),
    })
}

/// What the table says of each symbol. `NoMemory` where it could not be stored.
pub(crate) fn facts(
    alloc: Global,
    tree: &Tree,
    outward: &[Option<Step>],
    instances: &Instances,
    numbers: &IndexSet<Symbol>,
) -> Result<List<SymbolFacts>, NoMemory>
    requires outward { outward.now ≡ steps_outward tree.now }
    requires room { length numbers.now.keys < 33554432 }
    ensures { IfOk result (λ facts. facts ≡ map (facts_of tree.now instances.now numbers.now.keys) numbers.now.keys) }
{
    let hiders = hiders(alloc, instances)?;
    let mut facts = List::new(alloc);
    let symbols = numbers.as_slice();
    for symbol in symbols {
        let hides = hiders.contains(symbol);
        facts.push(facts_by(alloc, tree, outward, numbers, *symbol, hides)?)?;
    }
    Ok(facts)
}
