//! References by their numbers, with the names of all in one list.
ghost use Rattle.std.specs.Prelude.{◌≡◌, ◌<◌, ◌≤◌, [], ◌∷◌, ◌++◌, drop, length, IfOk, OnOk, OnErr, Some, slice_get};
ghost use Rattle.node_references.specs.Chains.{between, IsLonger};

use crate::reference::Root;
use py_base::{List, NameId, NoMemory, RefId};
use std::alloc::Global;
use std::marker::Model;

/// Where a reference stands: what it begins with, and the run of its names in the list of all names.
#[derive(Clone, Copy, Debug, PartialEq, Eq)]
pub struct Chain {
    pub root: Root,
    pub from: usize,
    pub to: usize,
}

/// References by their numbers, from 0 on. A contract sees it as the list of them.
///
/// What a code flow graph keeps a type for at each of its points is a reference: a symbol, or what the
/// names behind it lead to, as `symbol.name.name`. The names of all references stand in one list. An
/// attribute of the reference whose names stand last there shares them and adds its own name alone, so the
/// beginnings of a chain that come one after another take no more memory than the whole chain; any other
/// attribute gets a copy of the names before its own.
#[derive(Debug, Drop)]
pub struct ReferenceList {
    names: List<NameId>,
    chains: List<Chain>,
}

impl Model for ReferenceList {
    ghost use Rattle.std.specs.Prelude.{List, length};
    ghost use Rattle.node_references.specs.Reference.{Reference};
    ghost use Rattle.node_references.specs.Chains.{references_of, AreRuns};

    ghost Value = { List Reference };

    ghost view = { λ l. references_of l.names l.chains };

    ghost invariant = { λ l. AreRuns (length l.names) l.chains };
}

// The item at a place.
fn item_at<T: Copy>(items: &[T], at: usize) -> T
    requires { at < length items.now }
    ensures { slice_get items.now at ≡ Some result }
{
    items[at]
}

// The names of a run.
fn names_between(names: &[NameId], from: usize, to: usize) -> &[NameId]
    requires ordered { from ≤ to }
    requires within { to ≤ length names.now }
    ensures { result.now ≡ between from to names.now }
{
    &names[from..to]
}

// Adds a copy of a run of names. After `NoMemory` a part of it may stand at the end.
fn copy_run(names: &mut List<NameId>, from: usize, to: usize) -> Result<(), NoMemory>
    requires ordered { from ≤ to }
    requires within { to ≤ length names.old }
    ensures run { OnOk result (names.new ≡ names.old ++ between from to names.old) }
    ensures front { IsLonger names.old names.new }
{
    for at in from..to {
        let name = item_at(names.as_slice(), at);
        names.push(name)?;
    }
    Ok(())
}

// Where a run of names begins that ends with the list: the run itself, if it does, and else a copy of it.
fn last_run(names: &mut List<NameId>, from: usize, to: usize) -> Result<usize, NoMemory>
    requires ordered { from ≤ to }
    requires within { to ≤ length names.old }
    ensures run { IfOk result (λ start. drop start names.new ≡ between from to names.old) }
    ensures within { IfOk result (λ start. start ≤ length names.new) }
    ensures front { IsLonger names.old names.new }
{
    let end = names.len();
    if to == end {
        return Ok(from);
    }
    copy_run(names, from, to)?;
    Ok(end)
}

// Adds a name behind a run of names, and gives where the longer run begins; it ends with the list.
fn lengthen(
    names: &mut List<NameId>,
    from: usize,
    to: usize,
    name: NameId,
) -> Result<usize, NoMemory>
    requires ordered { from ≤ to }
    requires within { to ≤ length names.old }
    ensures run { IfOk result (λ start. drop start names.new ≡ between from to names.old ++ name ∷ []) }
    ensures within { IfOk result (λ start. start ≤ length names.new) }
    ensures front { IsLonger names.old names.new }
{
    let start = last_run(names, from, to)?;
    names.push(name)?;
    Ok(start)
}

impl ReferenceList {
    ghost use Rattle.std.specs.Prelude.{◌≡◌, ◌<◌, [], ◌∷◌, ◌++◌, length, OnOk, OnErr, Some, slice_get};
    ghost use Rattle.std.specs.Option.{option_map};
    ghost use Rattle.node_references.specs.Reference.{Reference, reference, lent};
    ghost use Rattle.node_references.specs.References.{bare, member};

    /// No references. Takes no memory; the allocator is kept for later calls.
    pub fn new(alloc: Global) -> ReferenceList
        ensures { result ≡ [] }
    {
        ReferenceList {
            names: List::new(alloc),
            chains: List::new(alloc),
        }
    }

    /// How many references there are.
    pub fn len(&self) -> usize
        ensures { result ≡ length self.now }
    {
        self.chains.len()
    }

    /// What the reference of a number begins with, and the names behind that.
    pub fn reference(&self, id: RefId) -> (Root, &[NameId])
        requires { id.0 < length self.now }
        ensures { slice_get self.now id.0 ≡ Some (lent result) }
    {
        let chain = item_at(self.chains.as_slice(), id.0 as usize);
        let names = names_between(self.names.as_slice(), chain.from, chain.to);
        (chain.root, names)
    }

    /// What the reference of a number begins with, and the names behind that; `None` exactly where no
    /// reference has the number.
    pub fn get(&self, id: RefId) -> Option<(Root, &[NameId])>
        ensures { option_map lent result ≡ slice_get self.now id.0 }
    {
        if (id.0 as usize) < self.len() {
            Some(self.reference(id))
        } else {
            None
        }
    }

    /// Adds a reference without names. After `NoMemory` the list is as before.
    pub fn push_root(&mut self, root: Root) -> Result<(), NoMemory>
        ensures ok { OnOk result (self.new ≡ self.old ++ bare root ∷ []) }
        ensures err { OnErr result (self.new ≡ self.old) }
    {
        self.chains.push(Chain {
            root,
            from: 0,
            to: 0,
        })?;
        Ok(())
    }

    /// Adds an attribute of a reference that is in the list. After `NoMemory` the list is as before.
    pub fn push_member(&mut self, of: RefId, name: NameId) -> Result<(), NoMemory>
        requires { of.0 < length self.old }
        ensures ok { OnOk result ((r : Reference) × (slice_get self.old of.0 ≡ Some r) × (self.new ≡ self.old ++ member r name ∷ [])) }
        ensures err { OnErr result (self.new ≡ self.old) }
    {
        let chain = item_at(self.chains.as_slice(), of.0 as usize);
        let from = lengthen(&mut self.names, chain.from, chain.to, name)?;
        let to = self.names.len();
        self.chains.push(Chain {
            root: chain.root,
            from,
            to,
        })?;
        Ok(())
    }
}
