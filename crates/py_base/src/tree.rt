//! The arena in which a text's tree stands.
use crate::ids::{NameId, NodeId};
use crate::language_names::LANGUAGE_NAMES;
use crate::node::{Node, NodeKind, Word};
use crate::span::Span;
use crate::stop::NoMemory;
use indexmap::IndexSet;
use std::alloc::Global;
use std::marker::Model;

/// The nodes of a tree are fewer than this, and so are its names.
pub const TREE_ROOM: usize = 33_554_432;

/// The nodes of a tree by their numbers, and its names by theirs. The parts of a node are older
/// nodes. Names are compared as bytes, and equal ones have one number; those of the language come
/// first and have the same numbers in each tree. It keeps its allocator.
///
/// A contract sees the names and the nodes in the order of their numbers; the tree that a node
/// stands for is `tree_of`.
#[derive(Debug, Drop)]
pub struct Tree {
    alloc: Global,
    names: IndexSet<String>,
    nodes: Vec<Node>,
    // Always `Nothing`: what is lent as the word of a number that is no node's.
    nothing: Word,
}

impl Model for Tree {
    ghost use Rattle.std.specs.Prelude.{◌≡◌, ◌<◌, map, length, string_bytes};
    ghost use Rattle.py_base.specs.declared.node.Word.TheVariants as words;
    ghost use Rattle.py_base.specs.Tree.{Arena, IsLinked};

    ghost Value = { Arena };

    ghost view = { λ t. record { names = map string_bytes t.names.keys; nodes = t.nodes.items } };

    ghost invariant = { λ t. IsLinked (record { names = map string_bytes t.names.keys; nodes = t.nodes.items }) × (length t.names.keys < 33554432) × (length t.nodes.items < 33554432) × (t.nothing ≡ words.Nothing) };
}

impl Tree {
    ghost use Rattle.std.specs.Prelude.{◌≡◌, [], ◌∷◌, ◌++◌, ◌+◌, ◌<◌, ◌≤◌, ◌-◌, suc, map, length, take, slice_get, IfOk, OnOk, OnErr};
    ghost use Rattle.std.specs.Option.{option_copied};
    ghost use Rattle.py_base.specs.LanguageNames.{language_names};
    ghost use Rattle.py_base.specs.Nodes.{kind_at, span_at, parts_at, word_at, name_word, name_of};
    ghost use Rattle.py_base.specs.Tree.{Arena, AreOlder, IsNamed, IsLinked, with_name, with_names, number_of_name};

    /// A tree without nodes, with the names of the language.
    pub fn new(alloc: Global) -> Result<Tree, NoMemory>
        ensures { IfOk result (λ t. t ≡ record { names = language_names; nodes = [] }) }
    {
        let mut tree = Tree {
            alloc,
            names: IndexSet::new(alloc),
            nodes: Vec::new(alloc),
            nothing: Word::Nothing,
        };
        tree.intern_all(&LANGUAGE_NAMES)?;
        Ok(tree)
    }

    // Interns each of the names in turn.
    fn intern_all(&mut self, names: &[&str]) -> Result<(), NoMemory>
        requires room { length self.old.names + length names.now < 33554432 }
        ensures { OnOk result (self.new ≡ record self.old { names = with_names self.old.names (map (λ n. n.now) names.now) }) }
    {
        for name in names {
            self.intern(*name)?;
        }
        Ok(())
    }

    /// Adds the newest node. `NoMemory` where it could not be stored; then the tree is as before.
    pub fn add(&mut self, node: Node) -> Result<NodeId, NoMemory>
        // With it the nodes are fewer than `TREE_ROOM`.
        requires room { length self.old.nodes + 1 < 33554432 }
        // Its parts and its name are of this tree.
        requires parts { AreOlder (length self.old.nodes) node.parts }
        requires name { IsNamed (length self.old.names) node.word }
        ensures id { IfOk result (λ id. id.0 ≡ length self.old.nodes) }
        ensures ok { OnOk result (self.new ≡ record self.old { nodes = self.old.nodes ++ node ∷ [] }) }
        ensures err { OnErr result (self.new ≡ self.old) }
    {
        let at = self.nodes.len();
        let Ok(()) = self.nodes.push(node) else {
            return Err(NoMemory);
        };
        Ok(NodeId(at as u32))
    }

    /// The number of a name. A name that the tree lacks becomes its newest one. `NoMemory` where
    /// it could not be stored; then the tree is as before.
    pub fn intern(&mut self, name: &str) -> Result<NameId, NoMemory>
        // With one more the names are fewer than `TREE_ROOM`.
        requires room { length self.old.names + 1 < 33554432 }
        ensures id { IfOk result (λ id. id.0 ≡ number_of_name self.old.names name.now) }
        ensures stored { IfOk result (λ id. slice_get self.new.names id.0 ≡ Some name.now) }
        ensures ok { OnOk result (self.new ≡ record self.old { names = with_name self.old.names name.now }) }
        ensures err { OnErr result (self.new ≡ self.old) }
    {
        if let Some(at) = self.names.get_index_of(name) {
            return Ok(NameId(at as u32));
        }
        let at = self.names.len();
        let Ok(owned) = String::from_str(self.alloc, name) else {
            return Err(NoMemory);
        };
        let Ok(_) = self.names.insert(owned) else {
            return Err(NoMemory);
        };
        Ok(NameId(at as u32))
    }

    /// A node of the tree.
    pub fn node(&self, id: NodeId) -> &Node
        requires { id.0 < length self.now.nodes }
        ensures value { slice_get self.now.nodes id.0 ≡ Some result.now }
        ensures older { AreOlder id.0 result.now.parts }
    {
        &self.nodes[id.0 as usize]
    }

    /// The node of this number; `None` exactly where the tree has none.
    pub fn get(&self, id: NodeId) -> Option<&Node>
        ensures { option_copied result ≡ slice_get self.now.nodes id.0 }
    {
        self.nodes.get(id.0 as usize)
    }

    /// The kind of a node, `Fault` for a number that is no node's.
    pub fn kind(&self, id: NodeId) -> NodeKind
        ensures { result ≡ kind_at self.now.nodes id }
    {
        match self.get(id) {
            Some(node) => node.kind,
            None => NodeKind::Fault,
        }
    }

    /// Where a node stands, an empty span at the front for a number that is no node's.
    pub fn span(&self, id: NodeId) -> Span
        ensures { result ≡ span_at self.now.nodes id }
    {
        match self.get(id) {
            Some(node) => node.span,
            None => Span { from: 0, to: 0 },
        }
    }

    /// The parts of a node in the order of the text, none for a number that is no node's.
    pub fn parts(&self, id: NodeId) -> &[NodeId]
        ensures { result.now ≡ parts_at self.now.nodes id }
    {
        match self.get(id) {
            Some(node) => node.parts.as_slice(),
            None => &[],
        }
    }

    /// What a node says beside its kind and its parts, `Nothing` for a number that is no node's.
    pub fn word(&self, id: NodeId) -> &Word
        ensures { result.now ≡ word_at self.now.nodes id }
    {
        match self.get(id) {
            Some(node) => &node.word,
            None => &self.nothing,
        }
    }

    /// The name that the word of a node is; `None` exactly where it is no name.
    pub fn name_of(&self, id: NodeId) -> Option<NameId>
        ensures { result ≡ name_of self.now.nodes id }
    {
        match self.word(id) {
            Word::Name(name) => Some(*name),
            _ => None,
        }
    }

    /// The newest node.
    pub fn root(&self) -> NodeId
        requires { 0 < length self.now.nodes }
        ensures { suc result.0 ≡ length self.now.nodes }
    {
        NodeId((self.nodes.len() - 1) as u32)
    }

    /// The text of a name of the tree.
    pub fn name(&self, id: NameId) -> &str
        requires { id.0 < length self.now.names }
        ensures { slice_get self.now.names id.0 ≡ Some result.now }
    {
        match self.names.get_index(id.0 as usize) {
            Some(name) => name.as_str(),
            None => unreachable!(),
        }
    }

    /// How many nodes the tree has.
    pub fn node_count(&self) -> usize
        ensures count { result ≡ length self.now.nodes }
        ensures room { result < 33554432 }
        ensures linked { IsLinked self.now }
    {
        self.nodes.len()
    }

    /// How many names the tree has, those of the language included.
    pub fn name_count(&self) -> usize
        ensures count { result ≡ length self.now.names }
        ensures room { result < 33554432 }
    {
        self.names.len()
    }

    /// Takes away the newest nodes and names, down to as many as are told.
    pub fn shrink(&mut self, nodes: usize, names: usize)
        // The nodes that stay have names that stay.
        requires { IsLinked (record { names = take names self.old.names; nodes = take nodes self.old.nodes }) }
        ensures { self.new ≡ record { names = take names self.old.names; nodes = take nodes self.old.nodes } }
    {
        self.nodes.truncate(nodes);
        self.names.truncate(names);
    }
}
