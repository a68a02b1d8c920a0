//! A tree with its table of scopes.
ghost use Rattle.std.specs.Prelude.{◌≡◌, length, slice_get};

use node_shapes::Outward;
use py_base::{NodeId, Tree};
use py_scopes::{Owner, Scopes};
use std::marker::Model;

/// A tree, the steps outward from its nodes, and its table of scopes. A contract sees the tree and the table.
#[derive(Drop)]
pub struct Names<'a> {
    steps: &'a Outward<'a>,
    scopes: &'a Scopes,
}

impl<'a> Model for Names<'a> {
    ghost use Rattle.std.specs.Prelude.{◌≡◌, length};
    ghost use Rattle.binding_sources.specs.Meanings.{Scoped};

    ghost Value = { Scoped };

    ghost view = { λ names. record { arena = names.steps.now; table = names.scopes.now } };

    ghost invariant = { λ names. length names.scopes.now.owners ≡ length names.steps.now.nodes };
}

impl<'a> Names<'a> {
    /// Both of one tree.
    pub fn new(steps: &'a Outward<'a>, scopes: &'a Scopes) -> Names<'a>
        // The table is that of the tree.
        requires { length scopes.now.owners ≡ length steps.now.nodes }
        ensures { result ≡ record { arena = steps.now; table = scopes.now } }
    {
        Names { steps, scopes }
    }

    /// The steps outward in the tree.
    pub fn steps(&self) -> &'a Outward<'a>
        ensures { result.now ≡ self.now.arena }
    {
        self.steps
    }

    /// The tree.
    pub fn tree(&self) -> &'a Tree
        ensures { result.now ≡ self.now.arena }
    {
        self.steps.tree()
    }

    /// The table.
    pub fn scopes(&self) -> &'a Scopes
        ensures { result.now ≡ self.now.table }
    {
        self.scopes
    }

    /// Whose the name at a node is; `None` exactly for what is no node.
    pub fn owner(&self, node: NodeId) -> Option<Owner>
        ensures { result ≡ slice_get self.now.table.owners node.0 }
    {
        if (node.0 as usize) < self.tree().node_count() {
            Some(self.scopes.owner(node))
        } else {
            None
        }
    }
}
