//! The numbers of references.
ghost use Rattle.std.specs.Prelude.{◌≡◌, ◌<◌, [], ◌++◌, ◌∷◌, IfOk, OnOk, Some, slice_get, length, map};
ghost use Rattle.node_references.specs.Reference.{Reference};
ghost use Rattle.node_references.specs.Numbering.{Keeps, GrowsBy, AreLinked, IsWithin, IsOf, prefix_of};

use crate::reference::Root;
use crate::reference_list::ReferenceList;
use indexmap::IndexSet;
use py_base::{List, NameId, NoMemory, RefId};
use std::alloc::Global;

/// How many references a tree can have: there are fewer than this.
const REFERENCE_ROOM: usize = 4_294_967_295;

/// A reference by the number of the one before its last name, so that a chain costs one step.
#[derive(Clone, Copy, Debug, PartialEq, Eq, Hash)]
pub enum Link {
    Root(Root),
    /// The attribute of a reference.
    Member(RefId, NameId),
}

/// The references by their numbers, each as a link too.
#[derive(Drop)]
pub struct Numbering {
    pub links: IndexSet<Link>,
    pub list: ReferenceList,
}

// Adds the reference of a link.
fn push_link(list: &mut ReferenceList, link: Link) -> Result<(), NoMemory>
    requires { IsWithin (length list.old) link }
    ensures { OnOk result ((r : Reference) × IsOf list.old link r × (list.new ≡ list.old ++ r ∷ [])) }
{
    match link {
        Link::Root(root) => list.push_root(root),
        Link::Member(of, name) => list.push_member(of, name),
    }
}

/// The number of the reference of a link, which gets the next one if it has none. `NoMemory` where there is
/// no further number too.
pub(crate) fn number(numbering: &mut Numbering, link: Link) -> Result<RefId, NoMemory>
    requires linked { AreLinked numbering.old.links.keys numbering.old.list }
    requires within { IsWithin (length numbering.old.list) link }
    ensures at { IfOk result (λ id. (r : Reference) × (slice_get numbering.new.list id.0 ≡ Some r) × IsOf numbering.old.list link r) }
    ensures keeps { OnOk result (Keeps numbering.old.list numbering.new.list) }
    ensures linked { OnOk result (AreLinked numbering.new.links.keys numbering.new.list) }
    ensures alone { IfOk result (λ id. GrowsBy numbering.old.list numbering.new.list (Some id)) }
{
    if numbering.links.len() >= REFERENCE_ROOM {
        return Err(NoMemory);
    }
    let (at, is_new) = numbering.links.insert_full(link)?;
    if !is_new {
        return Ok(RefId(at as u32));
    }
    push_link(&mut numbering.list, link)?;
    Ok(RefId(at as u32))
}

// What a link adds its name to, and the name.
fn prefix_of(link: Link) -> Option<(RefId, NameId)>
    ensures { result ≡ prefix_of link }
{
    match link {
        Link::Root(_) => None,
        Link::Member(of, name) => Some((of, name)),
    }
}

/// For each link the number of the reference that it adds its name to, and the name, where it adds one. `NoMemory`
/// where that could not be stored.
pub(crate) fn prefixes(
    alloc: Global,
    links: &[Link],
) -> Result<List<Option<(RefId, NameId)>>, NoMemory>
    ensures { IfOk result (λ list. list ≡ map prefix_of links.now) }
{
    let mut list = List::new(alloc);
    for link in links {
        list.push(prefix_of(*link))?;
    }
    Ok(list)
}
