//! The table of a module.

ghost use Rattle.std.specs.Prelude.{◌≡◌};
ghost use Rattle.py_scopes.specs.Table.{node_of};

use crate::facts::SymbolFacts;
use crate::occurrence::Annotation;
use crate::owner::Owner;
use crate::roles::NameRole;
use py_base::{List, NameId, NodeId, SymId};
use std::marker::Model;

/// For each node of a module the owner and the role of the name there, for each symbol its scope, its
/// declaration, its bindings and what stands behind it, and for each class statement its members. A
/// contract sees it as these lists.
///
/// Symbols are numbered from 0, in the order of the nodes that first bind them.
#[derive(Drop)]
pub struct Scopes {
    pub(crate) owners: List<Owner>,
    pub(crate) roles: List<Option<NameRole>>,
    pub(crate) facts: List<SymbolFacts>,
    pub(crate) declared: List<Option<Annotation>>,
    pub(crate) bound: List<List<NodeId>>,
    pub(crate) members: List<List<(NameId, SymId)>>,
}

impl Model for Scopes {
    ghost use Rattle.py_scopes.specs.Table.{ScopeTable, IsWhole};

    ghost Value = { ScopeTable };

    ghost view = { λ s. record { owners = s.owners; roles = s.roles; facts = s.facts; declared = s.declared; bound = s.bound; members = s.members } };

    ghost invariant = { λ s. IsWhole (record { owners = s.owners; roles = s.roles; facts = s.facts; declared = s.declared; bound = s.bound; members = s.members }) };
}

fn node_of(annotation: Option<Annotation>) -> Option<NodeId>
    ensures { result ≡ node_of annotation }
{
    match annotation {
        Some(annotation) => Some(annotation.node),
        None => None,
    }
}

impl Scopes {
    ghost use Rattle.std.specs.Prelude.{◌≡◌, ◌<◌, Some, IfSome, length, option_map, slice_get};
    ghost use Rattle.py_base.specs.Tree.{AreOlder};
    ghost use Rattle.py_scopes.specs.Table.{node_of, IsNumbered, AreNumbered};

    /// Whose the name at a node is.
    pub fn owner(&self, node: NodeId) -> Owner
        requires { node.0 < length self.now.owners }
        ensures value { slice_get self.now.owners node.0 ≡ Some result }
        ensures numbered { IsNumbered (length self.now.bound) result }
    {
        self.owners.as_slice()[node.0 as usize]
    }

    /// What the name at a node does there. `None` exactly where no name of a scope stands there: other
    /// nodes, names that only spell (of a module, an attribute or an argument), and `_` in a pattern.
    pub fn role(&self, node: NodeId) -> Option<NameRole>
        requires { node.0 < length self.now.owners }
        ensures { slice_get self.now.roles node.0 ≡ Some result }
    {
        self.roles.as_slice()[node.0 as usize]
    }

    /// The scope and the name of a symbol, the graph that runs its scope, whether it hides members
    /// behind it, and what stands behind it.
    pub fn symbol(&self, sym: SymId) -> SymbolFacts
        requires { sym.0 < length self.now.bound }
        ensures value { slice_get self.now.facts sym.0 ≡ Some result }
        ensures behind { IfSome result.behind.symbol (λ k. k.0 < length self.now.bound) }
    {
        self.facts.as_slice()[sym.0 as usize]
    }

    /// The annotation of a symbol that stands first in the text, with its stars, `None` exactly where
    /// the symbol has none.
    pub fn annotation(&self, sym: SymId) -> Option<Annotation>
        requires { sym.0 < length self.now.bound }
        ensures value { slice_get self.now.declared sym.0 ≡ Some result }
        ensures node { IfSome result (λ y. y.node.0 < length self.now.owners) }
    {
        self.declared.as_slice()[sym.0 as usize]
    }

    /// The node of that annotation.
    pub fn declaration(&self, sym: SymId) -> Option<NodeId>
        requires { sym.0 < length self.now.bound }
        ensures value { option_map node_of (slice_get self.now.declared sym.0) ≡ Some result }
        ensures node { IfSome result (λ id. id.0 < length self.now.owners) }
    {
        node_of(self.annotation(sym))
    }

    /// Where a symbol gets a value, by the numbers of the names: the names, and for a member `p.m` the
    /// attributes.
    pub fn bindings(&self, sym: SymId) -> &[NodeId]
        requires { sym.0 < length self.now.bound }
        ensures value { slice_get self.now.bound sym.0 ≡ Some result.now }
        ensures nodes { AreOlder (length self.now.owners) result.now }
    {
        self.bound.as_slice()[sym.0 as usize].as_slice()
    }

    /// How many symbols there are.
    pub fn symbols(&self) -> u32
        ensures count { result ≡ length self.now.bound }
        ensures room { result < 33554432 }
    {
        self.bound.len() as u32
    }

    /// The member symbols of a class statement, each once, by their numbers. Of another node it gives
    /// none.
    pub fn members(&self, class: NodeId) -> &[(NameId, SymId)]
        requires { class.0 < length self.now.owners }
        ensures value { slice_get self.now.members class.0 ≡ Some result.now }
        ensures numbered { AreNumbered (length self.now.bound) result.now }
    {
        self.members.as_slice()[class.0 as usize].as_slice()
    }
}
