//! What decorators leave of a def or a class.
ghost use Rattle.std.specs.Prelude.{◌≡◌, ◌&&◌, ◌||◌, Some, map, slice_get, fold, codes};
ghost use Rattle.std.specs.Option.{option_map};
ghost use Rattle.std.specs.List.{list_any};
ghost use Rattle.py_base.specs.Tree.{name_at};
ghost use Rattle.node_shapes.specs.Definitions.{decorator_in, decorators_of};
ghost use Rattle.binding_sources.specs.Meanings.{meaning_of};
ghost use Rattle.binding_sources.specs.Sources.{source_of};
ghost use Rattle.binding_sources.specs.Verdicts.{is_named, of_builtin, is_module, is_kept, of_imported, by_named, is_property, binds_property, has_property, owns_property, setter_or, decorator_of, kind_or, decoration_of, under, decorated, binding_source};
ghost use Rattle.binding_sources.specs.Joining.{decorator_behind, decorator_short, has_property_decorator, setter_behind, setter_short, with_verdict, decorated_by, with_below};

use crate::chains::{NamesBehind, ShortChain, chain_at};
use crate::meanings::{Meaning, ShortMeaning, imported_short, meaning_of};
use crate::names::Names;
use crate::sources::{Source, source_of};
use node_shapes::decorators_in;
use py_base::{NameId, NodeId, NodeKind, SymId, Tree};
use py_scopes::Owner;

/// What a decorator is (Python 3.12 language reference, 8.7).
#[derive(Clone, Copy)]
pub enum Decorator {
    StaticMethod,
    ClassMethod,
    Property,
    /// `p.setter` of a property, by the `Name` of `p`.
    Setter(NodeId),
    /// `abstractmethod`, `override`, `final`.
    Kept,
    Unknown,
}

/// What the name of a def or a class is bound to.
#[derive(Clone, Copy)]
pub enum Verdict {
    /// The def or the class.
    Itself,
    /// What the property was, by the `Name` of `p` in `p.setter`.
    Setter(NodeId),
    Unknown,
}

/// Which of the builtin decorators stands nearest to a def.
#[derive(Clone, Copy)]
pub enum DefKind {
    /// None of them.
    Plain,
    StaticMethod,
    ClassMethod,
    Property,
}

/// What the decorators of a def or a class say.
#[derive(Clone, Copy)]
pub struct Decoration {
    pub verdict: Verdict,
    pub kind: DefKind,
}

// The text of a name; empty where the tree has no such name.
fn name_text(tree: &Tree, name: NameId) -> &str
    ensures { result.now ≡ name_at tree.now.names name.0 }
{
    if (name.0 as usize) < tree.name_count() {
        tree.name(name)
    } else {
        ""
    }
}

fn is_named(tree: &Tree, name: NameId, text: &str) -> bool
    ensures { result ≡ is_named tree.now name text.now }
{
    name_text(tree, name) == text
}

fn of_builtin(tree: &Tree, name: NameId) -> Decorator
    ensures { result ≡ of_builtin tree.now name }
{
    if is_named(tree, name, "staticmethod") {
        Decorator::StaticMethod
    } else if is_named(tree, name, "classmethod") {
        Decorator::ClassMethod
    } else if is_named(tree, name, "property") {
        Decorator::Property
    } else {
        Decorator::Unknown
    }
}

// Whether the module of this one word is spelled at a node.
fn is_module(tree: &Tree, module: NodeId, text: &str) -> bool
    ensures { result ≡ is_module tree.now «module» text.now }
{
    match (tree.kind(module), tree.name_of(module)) {
        (NodeKind::Name, Some(name)) => is_named(tree, name, text),
        _ => false,
    }
}

fn is_typing(tree: &Tree, module: NodeId) -> bool
    ensures { result ≡ (is_module tree.now «module» (codes "typing") || is_module tree.now «module» (codes "typing_extensions")) }
{
    is_module(tree, module, "typing") || is_module(tree, module, "typing_extensions")
}

// Whether it leaves what it decorates.
fn is_kept(tree: &Tree, module: NodeId, name: NameId) -> bool
    ensures { result ≡ is_kept tree.now «module» name }
{
    let is_abstract = is_module(tree, module, "abc") && is_named(tree, name, "abstractmethod");
    let is_said = is_named(tree, name, "override") || is_named(tree, name, "final");
    is_abstract || (is_typing(tree, module) && is_said)
}

fn of_imported(tree: &Tree, imported: Option<(NodeId, NameId)>) -> Decorator
    ensures { result ≡ of_imported tree.now imported }
{
    match imported {
        Some((module, name)) => {
            if is_kept(tree, module, name) {
                Decorator::Kept
            } else {
                Decorator::Unknown
            }
        }
        None => Decorator::Unknown,
    }
}

fn decorator_behind(
    tree: &Tree,
    meaning: ShortMeaning,
    imported: Option<(NodeId, NameId)>,
) -> Decorator
    ensures { result ≡ decorator_behind tree.now meaning.meaning meaning.behind imported }
{
    match (meaning.meaning, meaning.behind) {
        (Meaning::Builtin(name), NamesBehind::Nothing) => of_builtin(tree, name),
        _ => of_imported(tree, imported),
    }
}

fn decorator_short(names: &Names, meaning: Option<ShortMeaning>) -> Decorator
    ensures { result ≡ decorator_short names.now.arena meaning }
{
    match meaning {
        Some(found) => decorator_behind(names.tree(), found, imported_short(names, meaning)),
        None => Decorator::Unknown,
    }
}

// What a decorator is by what its expression stands for.
fn named_decorator(names: &Names, node: NodeId) -> Decorator
    ensures { result ≡ by_named names.now.arena (meaning_of names.now.arena names.now.table node) }
{
    decorator_short(names, meaning_of(names, node))
}

fn is_property(decorator: Decorator) -> bool
    ensures { result ≡ is_property decorator }
{
    matches!(decorator, Decorator::Property)
}

fn is_property_decorator(names: &Names, node: NodeId) -> bool
    ensures { result ≡ has_property_decorator names.now.arena names.now.table node }
{
    is_property(named_decorator(names, node))
}

fn has_property_among(names: &Names, decorators: &[NodeId]) -> bool
    ensures { result ≡ list_any (has_property_decorator names.now.arena names.now.table) decorators.now }
{
    decorators
        .iter()
        .any(|decorator| is_property_decorator(names, *decorator))
}

// Whether a part is a decorator `property`.
fn is_property_part(names: &Names, part: NodeId) -> bool
    ensures { result ≡ list_any (has_property_decorator names.now.arena names.now.table) (decorator_in names.now.arena.nodes part) }
{
    has_property_among(names, decorators_in(names.tree(), part))
}

fn has_property_part(names: &Names, parts: &[NodeId]) -> bool
    ensures { result ≡ list_any (λ part. list_any (has_property_decorator names.now.arena names.now.table) (decorator_in names.now.arena.nodes part)) parts.now }
{
    parts.iter().any(|part| is_property_part(names, *part))
}

// Whether a def stands under `property`.
fn is_property_def(names: &Names, statement: NodeId) -> bool
    ensures { result ≡ list_any (has_property_decorator names.now.arena names.now.table) (decorators_of names.now.arena.nodes statement) }
{
    has_property_part(names, names.tree().parts(statement))
}

fn binds_property(names: &Names, node: NodeId) -> bool
    ensures { result ≡ binds_property names.now.arena names.now.table (source_of names.now.arena node) }
{
    match source_of(names.steps(), node) {
        Some(Source::Def(statement)) => is_property_def(names, statement),
        _ => false,
    }
}

fn has_property_binding(names: &Names, bound: &[NodeId]) -> bool
    ensures { result ≡ has_property names.now.arena names.now.table (Some bound.now) }
{
    bound.iter().any(|node| binds_property(names, *node))
}

// Whether a symbol is a property: one of its bindings is a def under `property`.
fn has_property(names: &Names, symbol: SymId) -> bool
    ensures { result ≡ has_property names.now.arena names.now.table (slice_get names.now.table.bound symbol.0) }
{
    let scopes = names.scopes();
    symbol.0 < scopes.symbols() && has_property_binding(names, scopes.bindings(symbol))
}

fn owns_property(names: &Names, owner: Option<Owner>) -> bool
    ensures { result ≡ owns_property names.now.arena names.now.table owner }
{
    match owner {
        Some(Owner::Local(symbol) | Owner::Outer(symbol)) => has_property(names, symbol),
        _ => false,
    }
}

fn is_setter(names: &Names, first: NodeId, name: NameId) -> bool
    ensures { result ≡ (is_named names.now.arena name (codes "setter") && owns_property names.now.arena names.now.table (slice_get names.now.table.owners first.0)) }
{
    is_named(names.tree(), name, "setter") && owns_property(names, names.owner(first))
}

fn setter_or(is_setter: bool, property: NodeId, other: Decorator) -> Decorator
    ensures { result ≡ setter_or is_setter property other }
{
    if is_setter {
        Decorator::Setter(property)
    } else {
        other
    }
}

fn setter_short(names: &Names, chain: Option<ShortChain>, other: Decorator) -> Decorator
    ensures { result ≡ setter_short names.now.arena names.now.table chain other }
{
    match chain {
        Some(
            ShortChain {
                first,
                behind: NamesBehind::Name(name),
            },
        ) => setter_or(is_setter(names, first, name), first, other),
        _ => other,
    }
}

/// What a decorator is, by its expression.
pub fn decorator_of(names: &Names, node: NodeId) -> Decorator
    ensures { result ≡ decorator_of names.now.arena names.now.table node }
{
    setter_short(
        names,
        chain_at(names.tree(), node),
        named_decorator(names, node),
    )
}

// What decorators above say, and those below.
fn with_verdict(above: Verdict, below: Verdict) -> Verdict
    ensures { result ≡ with_verdict above below }
{
    match (above, below) {
        (Verdict::Itself, _) => below,
        (Verdict::Setter(_), Verdict::Unknown) => Verdict::Unknown,
        (Verdict::Setter(_), _) => above,
        (Verdict::Unknown, _) => Verdict::Unknown,
    }
}

fn decorated_by(decorator: Decorator) -> Verdict
    ensures { result ≡ decorated_by decorator }
{
    match decorator {
        Decorator::Unknown => Verdict::Unknown,
        Decorator::Setter(property) => Verdict::Setter(property),
        _ => Verdict::Itself,
    }
}

fn kind_or(decorator: Decorator, other: DefKind) -> DefKind
    ensures { result ≡ kind_or decorator other }
{
    match decorator {
        Decorator::StaticMethod => DefKind::StaticMethod,
        Decorator::ClassMethod => DefKind::ClassMethod,
        Decorator::Property => DefKind::Property,
        _ => other,
    }
}

// With one more decorator below.
fn with_below(above: Decoration, decorator: Decorator) -> Decoration
    ensures { result ≡ with_below above decorator }
{
    Decoration {
        verdict: with_verdict(above.verdict, decorated_by(decorator)),
        kind: kind_or(decorator, above.kind),
    }
}

fn with_decorators(names: &Names, above: Decoration, decorators: &[NodeId]) -> Decoration
    ensures { result ≡ fold with_below above (map (decorator_of names.now.arena names.now.table) decorators.now) }
{
    let mut decoration = above;
    for decorator in decorators {
        decoration = with_below(decoration, decorator_of(names, *decorator));
    }
    decoration
}

/// The verdict on the decorators of a def or a class: what its name is bound to, and the kind of the def by the one of `staticmethod`, `classmethod` and
/// `property` that stands nearest to it.
pub fn decoration_of(names: &Names, statement: NodeId) -> Decoration
    ensures { result ≡ decoration_of names.now.arena names.now.table statement }
{
    let mut decoration = Decoration {
        verdict: Verdict::Itself,
        kind: DefKind::Plain,
    };
    let parts = names.tree().parts(statement);
    for part in parts {
        decoration = with_decorators(names, decoration, decorators_in(names.tree(), *part));
    }
    decoration
}

// As decorators leave it.
fn under(verdict: Verdict, given: Source) -> Source
    ensures { result ≡ under verdict given }
{
    match verdict {
        Verdict::Itself => given,
        Verdict::Setter(property) => Source::Value(property),
        Verdict::Unknown => Source::Unknown,
    }
}

fn decorated(names: &Names, given: Source) -> Source
    ensures { result ≡ decorated names.now.arena names.now.table given }
{
    match given {
        Source::Def(statement) | Source::Class(statement) => {
            under(decoration_of(names, statement).verdict, given)
        }
        _ => given,
    }
}

/// The source of a bound node under the verdict on decorators: a def or a class under an unknown one is Unknown, and the name under `p.setter` has the
/// value of `p`. `None` exactly where `source_of` gives none.
pub fn binding_source(names: &Names, node: NodeId) -> Option<Source>
    ensures { result ≡ binding_source names.now.arena names.now.table node }
{
    match source_of(names.steps(), node) {
        Some(given) => Some(decorated(names, given)),
        None => None,
    }
}
