//! Scopes, and the symbols in them.
ghost use Rattle.std.specs.Prelude.{◌≡◌, ◌++◌};
ghost use Rattle.std.specs.Cmp.{partial_equiv_from_equiv};
ghost use Rattle.std.specs.Hash as fed;
ghost use Rattle.py_scopes.specs.Same.{symbol_equiv, symbol_alike};
ghost use Rattle.py_scopes.specs.Scopes.{is_of_types, same_scope, is_innermost, from_first, is_module, is_class, is_def, hides_classes, takes_named, has_graph, same_graph};
ghost use Rattle.py_scopes.specs.Owner.{same_name, same_symbol};
ghost use Rattle.py_scopes.specs.Members.{class_only, member_of};

use py_base::{NameId, NodeId};
use std::hash::{Hash, Hasher};

/// What a scope belongs to.
#[derive(Clone, Copy, Debug)]
pub enum ScopeKind {
    Module,
    Class,
    Def,
    Lambda,
    Comprehension,
    /// A list of type parameters.
    TypeParameters,
    /// The place of such a list in a form that has none. Nothing is bound in it.
    NoTypeParameters,
}

/// A scope: the node that it belongs to, and what of that node it is.
#[derive(Clone, Copy, Debug)]
pub struct Scope {
    pub node: NodeId,
    pub kind: ScopeKind,
}

/// A name of a scope. Two are equal where the names and the scopes are.
#[derive(Clone, Copy, Debug)]
pub struct Symbol {
    pub scope: Scope,
    pub name: NameId,
}

impl PartialEq for Symbol {
    ghost eq = { same_symbol };

    ghost laws = { partial_equiv_from_equiv symbol_equiv };

    fn eq(&self, other: &Symbol) -> bool {
        is_same_symbol(*self, *other)
    }
}

impl Eq for Symbol {
    ghost laws = { symbol_equiv };
}

// By the name and the node: a node has no more than two scopes.
impl Hash for Symbol {
    ghost hash_input = { λ s. fed.u32 s.name.0 ++ fed.u32 s.scope.node.0 };

    ghost respects_eq = { symbol_alike };

    fn hash<H: Hasher>(&self, state: &mut H) {
        self.name.0.hash(state);
        self.scope.node.0.hash(state);
    }
}

fn is_of_types(kind: ScopeKind) -> bool
    ensures { result ≡ is_of_types kind }
{
    matches!(
        kind,
        ScopeKind::TypeParameters | ScopeKind::NoTypeParameters
    )
}

fn is_same_scope(one: Scope, other: Scope) -> bool
    ensures { result ≡ same_scope one other }
{
    one.node.0 == other.node.0 && is_of_types(one.kind) == is_of_types(other.kind)
}

fn is_same_name(one: NameId, other: NameId) -> bool
    ensures { result ≡ same_name one other }
{
    one.0 == other.0
}

fn is_same_symbol(one: Symbol, other: Symbol) -> bool
    ensures { result ≡ same_symbol one other }
{
    is_same_name(one.name, other.name) && is_same_scope(one.scope, other.scope)
}

// Whether the scope is the innermost of these.
fn is_innermost(scope: Scope, scopes: &[Scope]) -> bool
    ensures { result ≡ is_innermost scope scopes.now }
{
    match scopes.split_first() {
        Some((first, _)) => is_same_scope(scope, *first),
        None => false,
    }
}

fn is_module(kind: ScopeKind) -> bool
    ensures { result ≡ is_module kind }
{
    matches!(kind, ScopeKind::Module)
}

pub(crate) fn is_class(kind: ScopeKind) -> bool
    ensures { result ≡ is_class kind }
{
    matches!(kind, ScopeKind::Class)
}

pub(crate) fn is_def(kind: ScopeKind) -> bool
    ensures { result ≡ is_def kind }
{
    matches!(kind, ScopeKind::Def)
}

/// Whether no class is seen behind such a scope.
pub(crate) fn does_hide_classes(kind: ScopeKind) -> bool
    ensures { result ≡ hides_classes kind }
{
    matches!(
        kind,
        ScopeKind::Def | ScopeKind::Lambda | ScopeKind::Comprehension
    )
}

fn does_take_named(kind: ScopeKind) -> bool
    ensures { result ≡ takes_named kind }
{
    !matches!(kind, ScopeKind::Comprehension | ScopeKind::NoTypeParameters)
}

/// Whether such a scope is run by a graph of its own.
pub(crate) fn has_graph(kind: ScopeKind) -> bool
    ensures { result ≡ has_graph kind }
{
    matches!(kind, ScopeKind::Module | ScopeKind::Def | ScopeKind::Lambda)
}

/// From the module outward: the module alone, or nothing.
pub(crate) fn from_module(scopes: &[Scope]) -> &[Scope]
    ensures { result.now ≡ from_first is_module scopes.now }
{
    match scopes.split_first() {
        Some((first, rest)) if !is_module(first.kind) => from_module(rest),
        _ => scopes,
    }
}

/// From the scope outward in which a named expression binds.
pub(crate) fn from_taker(scopes: &[Scope]) -> &[Scope]
    ensures { result.now ≡ from_first takes_named scopes.now }
{
    match scopes.split_first() {
        Some((first, rest)) if !does_take_named(first.kind) => from_taker(rest),
        _ => scopes,
    }
}

/// From the first scope that has a graph outward.
pub(crate) fn from_graph(scopes: &[Scope]) -> &[Scope]
    ensures { result.now ≡ from_first has_graph scopes.now }
{
    match scopes.split_first() {
        Some((first, rest)) if !has_graph(first.kind) => from_graph(rest),
        _ => scopes,
    }
}

/// Whether both are run by one graph.
pub(crate) fn is_same_graph(one: &[Scope], other: &[Scope]) -> bool
    ensures { result ≡ same_graph one.now other.now }
{
    match from_graph(one).split_first() {
        Some((first, _)) => is_innermost(*first, from_graph(other)),
        None => false,
    }
}

/// The scope, if it is a class.
pub(crate) fn class_only(scope: Option<Scope>) -> Option<Scope>
    ensures { result ≡ class_only scope }
{
    let scope = scope?;
    if is_class(scope.kind) {
        Some(scope)
    } else {
        None
    }
}

/// The member of a class, if there is one, that has this name.
pub(crate) fn member_of(name: NameId, class: Option<Scope>) -> Option<Symbol>
    ensures { result ≡ member_of name class }
{
    match class {
        Some(scope) => Some(Symbol { scope, name }),
        None => None,
    }
}
