//! The references that the nodes of a tree stand for.
ghost use Rattle.std.specs.Prelude.{◌≡◌, ◌<◌, [], Option, IfOk, OnOk, Some, slice_get, length};
ghost use Rattle.py_base.specs.declared.ids.NodeId.{NodeId};
ghost use Rattle.node_references.specs.Reference.{Reference};
ghost use Rattle.std.specs.Option.{option_copied};
ghost use Rattle.node_references.specs.References.{of_owner, of_attribute, by_shape};
ghost use Rattle.node_references.specs.Numbers.{flat, IsNumberOf, AreInOrder, AreNodeReferences};
ghost use Rattle.node_references.specs.Numbering.{Keeps, GrowsBy, AreOfNodes, AreLinked, AreNumbersOf, IsBelow, IsPartBelow, AreKnown};

use crate::nodes::name_of;
use crate::numbering::{Link, Numbering, number, prefixes};
use crate::reference::Root;
use crate::reference_list::ReferenceList;
use crate::shape::{Shape, shape_of};
use indexmap::IndexSet;
use py_base::{List, NameId, NoMemory, NodeId, RefId, SymId, Tree};
use py_scopes::{Owner, Scopes};
use std::alloc::Global;

/// The references that the nodes of a tree stand for.
#[derive(Drop)]
pub struct NodeReferences {
    /// The references by their numbers, each once.
    pub list: ReferenceList,
    /// For each of these, where names stand behind its root, the one before its last name, and that name.
    pub prefixes: List<Option<(RefId, NameId)>>,
    /// For each node the number of the reference that it stands for, if it stands for one.
    pub numbers: List<Option<RefId>>,
}

/// What a list has at a number, nothing where it has none.
pub fn at<T: Copy>(list: &[Option<T>], number: u32) -> Option<T>
    ensures { result ≡ flat (slice_get list.now number) }
{
    match list.get(number as usize) {
        None => None,
        Some(item) => *item,
    }
}

// The number of the reference of a name.
fn number_of_name(owner: Owner, numbering: &mut Numbering) -> Result<Option<RefId>, NoMemory>
    requires linked { AreLinked numbering.old.links.keys numbering.old.list }
    ensures at { IfOk result (λ id. IsNumberOf numbering.new.list id (of_owner (Some owner))) }
    ensures keeps { OnOk result (Keeps numbering.old.list numbering.new.list) }
    ensures linked { OnOk result (AreLinked numbering.new.links.keys numbering.new.list) }
    ensures alone { IfOk result (λ id. GrowsBy numbering.old.list numbering.new.list id) }
{
    match owner {
        Owner::Local(symbol) | Owner::Outer(symbol) => {
            let link = Link::Root(Root::Symbol(symbol));
            Ok(Some(number(numbering, link)?))
        }
        Owner::Builtin(_) | Owner::Undefined => Ok(None),
    }
}

// The number of the reference of an attribute, by the one before its name.
fn number_of_attribute(
    before: Option<RefId>,
    name: Option<NameId>,
    numbering: &mut Numbering,
) -> Result<Option<RefId>, NoMemory>
    requires linked { AreLinked numbering.old.links.keys numbering.old.list }
    requires within { IsBelow (length numbering.old.list) before }
    ensures at { IfOk result (λ id. (r : Option Reference) → IsNumberOf numbering.old.list before r → IsNumberOf numbering.new.list id (of_attribute r name)) }
    ensures keeps { OnOk result (Keeps numbering.old.list numbering.new.list) }
    ensures linked { OnOk result (AreLinked numbering.new.links.keys numbering.new.list) }
    ensures alone { IfOk result (λ id. GrowsBy numbering.old.list numbering.new.list id) }
{
    match (before, name) {
        (Some(before), Some(name)) => Ok(Some(number(numbering, Link::Member(before, name))?)),
        _ => Ok(None),
    }
}

// The number of the reference of a node of this shape.
fn number_of_shape(
    tree: &Tree,
    scopes: &Scopes,
    table: &[Option<RefId>],
    node: NodeId,
    shape: Shape,
    numbering: &mut Numbering,
) -> Result<Option<RefId>, NoMemory>
    requires owned { node.0 < length scopes.now.owners }
    requires linked { AreLinked numbering.old.links.keys numbering.old.list }
    requires within { IsPartBelow (length numbering.old.list) table.now shape }
    ensures at { IfOk result (λ id. (inner : NodeId → Option Reference) → AreNumbersOf numbering.old.list table.now shape inner → IsNumberOf numbering.new.list id (by_shape inner tree.now scopes.now.owners node shape)) }
    ensures keeps { OnOk result (Keeps numbering.old.list numbering.new.list) }
    ensures linked { OnOk result (AreLinked numbering.new.links.keys numbering.new.list) }
    ensures alone { IfOk result (λ id. GrowsBy numbering.old.list numbering.new.list id) }
{
    match shape {
        Shape::Name => number_of_name(scopes.owner(node), numbering),
        Shape::Attribute(part) => {
            let before = at(table, part.0);
            number_of_attribute(before, name_of(tree, node), numbering)
        }
        Shape::Group(part) => Ok(at(table, part.0)),
        Shape::Match => {
            let link = Link::Root(Root::Subject(node));
            Ok(Some(number(numbering, link)?))
        }
        Shape::Other => Ok(None),
    }
}

// The number of the reference that each node stands for, for those that stand for one.
fn referred(
    alloc: Global,
    tree: &Tree,
    scopes: &Scopes,
    numbering: &mut Numbering,
) -> Result<List<Option<RefId>>, NoMemory>
    requires owned { length scopes.now.owners ≡ length tree.now.nodes }
    requires linked { AreLinked numbering.old.links.keys numbering.old.list }
    ensures long { IfOk result (λ table. length table ≡ length tree.now.nodes) }
    ensures known { IfOk result (λ table. AreKnown tree.now scopes.now.owners numbering.new.list table) }
    ensures linked { OnOk result (AreLinked numbering.new.links.keys numbering.new.list) }
    ensures each { OnOk result (numbering.old.list ≡ [] → AreOfNodes tree.now scopes.now.owners numbering.new.list (length tree.now.nodes)) }
    ensures ordered { OnOk result (numbering.old.list ≡ [] → AreInOrder tree.now scopes.now.owners numbering.new.list) }
{
    let mut table = List::new(alloc);
    for place in 0..tree.node_count() {
        let node = NodeId(place as u32);
        let shape = shape_of(tree.kind(node), tree.parts(node));
        let id = number_of_shape(tree, scopes, table.as_slice(), node, shape, numbering)?;
        table.push(id)?;
    }
    Ok(table)
}

/// The references that the nodes of a tree stand for. The scopes are those of the tree. References are numbered
/// in the order of the nodes where they first stand, also where such a node doesn't run. `NoMemory` where they
/// could not be stored, or where there is no further number.
pub fn node_references(
    alloc: Global,
    tree: &Tree,
    scopes: &Scopes,
) -> Result<NodeReferences, NoMemory>
    requires { length scopes.now.owners ≡ length tree.now.nodes }
    ensures { IfOk result (λ r. AreNodeReferences tree.now scopes.now.owners r) }
{
    let mut numbering = Numbering {
        links: IndexSet::new(alloc),
        list: ReferenceList::new(alloc),
    };
    let numbers = referred(alloc, tree, scopes, &mut numbering)?;
    let prefixes = prefixes(alloc, numbering.links.as_slice())?;
    Ok(NodeReferences {
        list: numbering.list,
        prefixes,
        numbers,
    })
}
