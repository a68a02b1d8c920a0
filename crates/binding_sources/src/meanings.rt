//! What a name stands for by its only binding.
ghost use Rattle.std.specs.Prelude.{◌≡◌, Bool, None, Some};
ghost use Rattle.std.specs.List.{list_all};
ghost use Rattle.std.specs.Option.{option_map};
ghost use Rattle.py_base.specs.Nodes.{kind_at};
ghost use Rattle.node_shapes.specs.Parts.{first_of};
ghost use Rattle.binding_sources.specs.Meanings.{module_by, member_by, member_from, brought_at, brought_by, brought_of_source, brought_of, only_binding, meaning_of_owner, meaning_of, short_meaning, imported_name, is_unknown_brought, are_unknown, is_unknown_import};
ghost use Rattle.binding_sources.specs.Sources.{source_of};
ghost use Rattle.binding_sources.specs.declared.meanings.Brought.{Brought};
ghost use Rattle.binding_sources.specs.Joining.{short_named, imported_behind, imported_short};
ghost use Rattle.binding_sources.specs.declared.meanings.Meaning.TheVariants as meanings;

use crate::chains::{NamesBehind, ShortChain, chain_at};
use crate::names::Names;
use crate::sources::{Source, source_of};
use node_shapes::{ImportItem, Outward, import_item};
use py_base::{NameId, NodeId, NodeKind, SymId, Tree};
use py_scopes::{Owner, Scopes};

/// What an item of an import brings (Python 3.12 language reference, 7.11). A module is told by the node that spells its name.
#[derive(Clone, Copy)]
pub enum Brought {
    Module(NodeId),
    /// A name of a module.
    Member(NodeId, NameId),
    /// A relative import, or `import a.b`, which binds `a`.
    Unknown,
}

/// What a name stands for.
#[derive(Clone, Copy)]
pub enum Meaning {
    /// A builtin name that nobody binds.
    Builtin(NameId),
    /// What is bound at this node, the only binding of the name's symbol: its source says what.
    Bound(NodeId),
}

fn module_by(tree: &Tree, item: ImportItem) -> Brought
    ensures { result ≡ module_by (kind_at tree.now.nodes item.imported) item }
{
    match tree.kind(item.imported) {
        NodeKind::DottedName => {
            if item.renamed {
                Brought::Module(item.imported)
            } else {
                Brought::Unknown
            }
        }
        _ => Brought::Module(item.imported),
    }
}

fn member_by(tree: &Tree, name: Option<NameId>, origin: NodeId) -> Brought
    ensures { result ≡ member_by name origin (kind_at tree.now.nodes origin) }
{
    match (name, tree.kind(origin)) {
        (Some(_), NodeKind::RelativeSource) => Brought::Unknown,
        (Some(name), _) => Brought::Member(origin, name),
        (None, _) => Brought::Unknown,
    }
}

fn member_from(tree: &Tree, name: Option<NameId>, origin: Option<NodeId>) -> Brought
    ensures { result ≡ member_from tree.now name origin }
{
    match origin {
        Some(origin) => member_by(tree, name, origin),
        None => Brought::Unknown,
    }
}

fn first_part(tree: &Tree, node: NodeId) -> Option<NodeId>
    ensures { result ≡ first_of tree.now.nodes node }
{
    match tree.parts(node) {
        [first, ..] => Some(*first),
        [] => None,
    }
}

fn brought_at(tree: &Tree, item: ImportItem, around: NodeId, kind: NodeKind) -> Option<Brought>
    ensures { result ≡ brought_at tree.now item kind around }
{
    match kind {
        NodeKind::Import => Some(module_by(tree, item)),
        NodeKind::ImportFrom => {
            let name = tree.name_of(item.imported);
            Some(member_from(tree, name, first_part(tree, around)))
        }
        _ => None,
    }
}

/// What an item of an import brings; `None` exactly for another node.
pub fn brought_by(steps: &Outward, item: NodeId) -> Option<Brought>
    ensures { result ≡ brought_by steps.now item }
{
    match (import_item(steps.tree(), item), steps.step(item)) {
        (Some(item), Some(step)) => brought_at(steps.tree(), item, step.around, step.kind),
        _ => None,
    }
}

/// What the import brings that a source is; `None` exactly where it is none.
pub fn brought_of_source(steps: &Outward, source: Option<Source>) -> Option<Brought>
    ensures { result ≡ brought_of_source steps.now source }
{
    match source {
        Some(Source::Imported(item)) => brought_by(steps, item),
        _ => None,
    }
}

/// What the import brings that is bound where a name has its meaning; `None` exactly where it is none.
pub fn brought_of(steps: &Outward, meaning: Meaning) -> Option<Brought>
    ensures { result ≡ brought_of steps.now meaning }
{
    match meaning {
        Meaning::Bound(node) => brought_of_source(steps, source_of(steps, node)),
        Meaning::Builtin(_) => None,
    }
}

/// The only binding of a symbol; `None` exactly where it has none or several.
pub fn only_binding(scopes: &Scopes, symbol: SymId) -> Option<NodeId>
    ensures { result ≡ only_binding scopes.now symbol }
{
    if symbol.0 >= scopes.symbols() {
        return None;
    }
    match scopes.bindings(symbol) {
        [binding] => Some(*binding),
        _ => None,
    }
}

fn bound_meaning(scopes: &Scopes, symbol: SymId) -> Option<Meaning>
    ensures { result ≡ option_map meanings.Bound (only_binding scopes.now symbol) }
{
    match only_binding(scopes, symbol) {
        Some(node) => Some(Meaning::Bound(node)),
        None => None,
    }
}

/// What the owner of a name stands for: what is bound at its symbol's only binding, or the builtin that nobody binds.
/// `None` exactly where it has no only binding, or nobody owns the name.
pub fn meaning_of_owner(scopes: &Scopes, owner: Owner) -> Option<Meaning>
    ensures { result ≡ meaning_of_owner scopes.now (Some owner) }
{
    match owner {
        Owner::Local(symbol) | Owner::Outer(symbol) => bound_meaning(scopes, symbol),
        Owner::Builtin(name) => Some(Meaning::Builtin(name)),
        Owner::Undefined => None,
    }
}

/// What a name or a chain stands for: what its first name does, and the names behind that, which are members of it.
#[derive(Clone, Copy)]
pub struct ShortMeaning {
    pub meaning: Meaning,
    /// The names behind, as far as one.
    pub behind: NamesBehind,
}

fn meaning_by(names: &Names, chain: Option<ShortChain>) -> Option<ShortMeaning>
    ensures { result ≡ short_named names.now.table chain }
{
    let chain = chain?;
    let meaning = meaning_of_owner(names.scopes(), names.owner(chain.first)?)?;
    Some(ShortMeaning {
        meaning,
        behind: chain.behind,
    })
}

/// What a name or a chain stands for; `None` exactly where it is no chain, or where its first name has no only binding
/// and is no builtin.
#[tactic(auto, unfolding(crate::specs::Meanings::meaning_of))]
pub fn meaning_of(names: &Names, node: NodeId) -> Option<ShortMeaning>
    ensures { result ≡ option_map short_meaning (meaning_of names.now.arena names.now.table node) }
{
    meaning_by(names, chain_at(names.tree(), node))
}

fn imported_behind(brought: Option<Brought>, behind: NamesBehind) -> Option<(NodeId, NameId)>
    ensures { result ≡ imported_behind brought behind }
{
    match (brought, behind) {
        (Some(Brought::Member(module, name)), NamesBehind::Nothing) => Some((module, name)),
        (Some(Brought::Module(module)), NamesBehind::Name(name)) => Some((module, name)),
        _ => None,
    }
}

pub(crate) fn imported_short(
    names: &Names,
    meaning: Option<ShortMeaning>,
) -> Option<(NodeId, NameId)>
    ensures { result ≡ imported_short names.now.arena meaning }
{
    let meaning = meaning?;
    imported_behind(brought_of(names.steps(), meaning.meaning), meaning.behind)
}

/// The name of a module that a name or a chain stands for, with the node that spells the module: `n` of `from m import n`, `m.n` of
/// `import m`. `None` exactly where it stands for none.
pub fn imported_name(names: &Names, node: NodeId) -> Option<(NodeId, NameId)>
    ensures { result ≡ imported_name names.now.arena names.now.table node }
{
    imported_short(names, meaning_of(names, node))
}

/// Which modules and which names of theirs are known: those that the rows of modules or the files of a project have.
pub trait KnownImports {
    ghost known: { Self → Brought → Bool };

    /// Whether this is known. It isn't asked of what is Unknown.
    fn is_known(&self, brought: Brought) -> bool
        ensures { result ≡ known self.now brought };
}

fn is_unknown_brought<K: KnownImports>(known: &K, brought: Option<Brought>) -> bool
    ensures { result ≡ is_unknown_brought (K.known known.now) brought }
{
    match brought {
        Some(Brought::Unknown) => true,
        Some(brought) => !known.is_known(brought),
        None => false,
    }
}

fn is_unknown_binding<K: KnownImports>(known: &K, steps: &Outward, node: NodeId) -> bool
    ensures { result ≡ is_unknown_brought (K.known known.now) (brought_of_source steps.now (source_of steps.now node)) }
{
    let brought = brought_of_source(steps, source_of(steps, node));
    is_unknown_brought(known, brought)
}

fn are_all_unknown<K: KnownImports>(known: &K, steps: &Outward, bound: &[NodeId]) -> bool
    ensures { result ≡ list_all (λ node. is_unknown_brought (K.known known.now) (brought_of_source steps.now (source_of steps.now node))) bound.now }
{
    bound
        .iter()
        .all(|node| is_unknown_binding(known, steps, *node))
}

fn are_unknown<K: KnownImports>(known: &K, steps: &Outward, bound: &[NodeId]) -> bool
    ensures { result ≡ are_unknown (K.known known.now) steps.now (Some bound.now) }
{
    match bound {
        [] => false,
        [_, ..] => are_all_unknown(known, steps, bound),
    }
}

/// Whether a symbol is a name of an unknown import: it has bindings, and each is an import of which nothing is known.
pub fn is_unknown_import<K: KnownImports>(known: &K, names: &Names, symbol: SymId) -> bool
    ensures { result ≡ is_unknown_import (K.known known.now) names.now.arena names.now.table symbol }
{
    let scopes = names.scopes();
    symbol.0 < scopes.symbols() && are_unknown(known, names.steps(), scopes.bindings(symbol))
}
