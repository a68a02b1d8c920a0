//! The functions and the classes of a text, by their numbers.
ghost use Rattle.std.specs.Prelude.{◌≡◌, [], ◌∷◌, ◌++◌, ◌<◌, ◌≤◌, IfOk, OnOk, length, slice_get, if◌then◌else◌};
ghost use Rattle.std.specs.List.Sorted.{IsPartitionPoint};
ghost use Rattle.node_shapes.specs.Around.{is_sought};
ghost use Rattle.node_shapes.specs.Items.{nodes_of, numbering, number_among, function_number, class_number};
ghost use Rattle.node_shapes.specs.Tables.{IsRising};

use crate::surroundings::{Sought, is_sought};
use py_base::{ClassId, FuncId, List, NoMemory, NodeId, Tree};
use std::alloc::Global;
use std::marker::Model;

/// How many classes are builtin.
const BUILTIN_CLASSES: u32 = 53;

/// The functions and the class statements of a tree, in the order of their nodes. A contract sees both lists.
#[derive(Drop)]
pub struct Items {
    functions: List<NodeId>,
    classes: List<NodeId>,
}

impl Model for Items {
    ghost use Rattle.std.specs.Prelude.{◌<◌, length};
    ghost use Rattle.node_shapes.specs.Items.{Numbering};
    ghost use Rattle.node_shapes.specs.Tables.{IsRising};

    ghost Value = { Numbering };

    ghost view = { λ items. record { functions = items.functions; classes = items.classes } };

    ghost invariant = { λ items. IsRising items.functions × IsRising items.classes × (length items.functions < 33554432) × (length items.classes < 33554432) };
}

fn push_if(nodes: &mut List<NodeId>, node: NodeId, is_wanted: bool) -> Result<(), NoMemory>
    ensures { OnOk result (nodes.new ≡ nodes.old ++ (if is_wanted then node ∷ [] else [])) }
{
    if is_wanted {
        nodes.push(node)?;
    }
    Ok(())
}

// The nodes of some kinds in the order of their numbers.
fn nodes_of(alloc: Global, tree: &Tree, sought: Sought) -> Result<List<NodeId>, NoMemory>
    ensures nodes { IfOk result (λ nodes. nodes ≡ nodes_of (is_sought sought) tree.now.nodes) }
    ensures rising { IfOk result (λ nodes. IsRising nodes × (length nodes < 33554432)) }
{
    let mut nodes = List::new(alloc);
    for number in 0..tree.node_count() {
        let node = NodeId(number as u32);
        push_if(&mut nodes, node, is_sought(sought, tree.kind(node)))?;
    }
    Ok(nodes)
}

// How many nodes stand before one. It is found by halving.
fn count_below(rising: &[NodeId], node: NodeId) -> usize
    requires { IsRising rising.now }
    ensures within { result ≤ length rising.now }
    ensures parts { IsPartitionPoint (λ other. other.0 < node.0) (λ other. node.0 ≤ other.0) rising.now result }
{
    rising.partition_point(|other| other.0 < node.0)
}

fn node_at(nodes: &[NodeId], at: usize) -> Option<NodeId>
    ensures { result ≡ slice_get nodes.now at }
{
    match nodes.get(at) {
        Some(node) => Some(*node),
        None => None,
    }
}

// Which of these nodes one is.
fn number_among(rising: &[NodeId], node: NodeId) -> Option<usize>
    requires { IsRising rising.now }
    ensures { result ≡ number_among rising.now node }
{
    let number = count_below(rising, node);
    match node_at(rising, number) {
        Some(other) => {
            if other.0 == node.0 {
                Some(number)
            } else {
                None
            }
        }
        None => None,
    }
}

impl Items {
    /// The functions and the classes of a tree. `NoMemory` where they could not be stored.
    pub fn new(alloc: Global, tree: &Tree) -> Result<Items, NoMemory>
        ensures { IfOk result (λ items. items ≡ numbering tree.now.nodes) }
    {
        let functions = nodes_of(alloc, tree, Sought::Function)?;
        let classes = nodes_of(alloc, tree, Sought::Class)?;
        Ok(Items { functions, classes })
    }

    /// All def statements and lambdas, by their numbers.
    pub fn functions(&self) -> &[NodeId]
        ensures { result.now ≡ self.now.functions }
    {
        self.functions.as_slice()
    }

    /// All class statements, whose numbers begin behind those of the 53 builtin classes.
    pub fn classes(&self) -> &[NodeId]
        ensures { result.now ≡ self.now.classes }
    {
        self.classes.as_slice()
    }

    /// The number of a def statement or a lambda; `None` exactly for another node.
    pub fn func_at(&self, node: NodeId) -> Option<FuncId>
        ensures { result ≡ function_number self.now node }
    {
        let number = number_among(self.functions.as_slice(), node)?;
        Some(FuncId(number as u32))
    }

    /// The number of the class of a class statement; `None` exactly for another node.
    pub fn class_at(&self, statement: NodeId) -> Option<ClassId>
        ensures { result ≡ class_number self.now statement }
    {
        let number = number_among(self.classes.as_slice(), statement)?;
        Some(ClassId(BUILTIN_CLASSES + number as u32))
    }
}
