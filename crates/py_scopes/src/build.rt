//! The making of the table of a module, in one pass over the nodes, the occurrences and the symbols for
//! each of its lists.
ghost use Rattle.std.specs.Prelude.{◌≡◌, ◌<◌, ◌+◌, [], map, length, Some, slice_get, option_map, IfOk, OnOk, IfSome};
ghost use Rattle.py_scopes.specs.Occurrences.{first_ids, node_ids, occurrences, role_at};
ghost use Rattle.std.specs.List.{IsDistinct, cons_option};
ghost use Rattle.py_scopes.specs.Owner.{same_symbol};
ghost use Rattle.py_scopes.specs.Members.{symbols};
ghost use Rattle.py_scopes.specs.Table.{owner_by, owner_if, owner_at, declaration, bindings, members_from, table_of, IsTable};
ghost use Rattle.py_scopes.specs.Tables.{steps_outward, AreBelow, number_bound, PutsAt, AddsBinding, AddsAnnotation, AddsMember, no_items, no_annotation, earliest_to, if_node};

use crate::facts::{builtin_of, facts, number_of};
use crate::members::{Instances, bound_symbol, symbols};
use crate::occurrence::{Annotation, Occurrence, occurrences};
use crate::owner::{Owner, owner_as, unbound_owner};
use crate::roles::{NameRole, bound_node, does_give_value, earlier};
use crate::scope::{Symbol, is_class, is_same_graph};
use crate::table::Scopes;
use crate::way::{Step, steps_outward};
use indexmap::IndexSet;
use py_base::{List, NameId, NoMemory, NodeId, SymId, Tree};
use std::alloc::Global;

/// The table of a module: whose each name is, and what is declared and bound where. `NoMemory` where
/// it could not be stored.
///
/// The tree is that of a module: its newest node is the `Module`, and each other node is a part of
/// just one. Where it isn't, a node counts as a part of the first node that has it.
pub fn scopes(alloc: Global, tree: &Tree) -> Result<Scopes, NoMemory>
    ensures table { IfOk result (IsTable tree.now) }
    ensures owners { IfOk result (λ t. length t.owners ≡ length tree.now.nodes) }
{
    let outward = steps_outward(alloc, tree)?;
    let found = occurrences(alloc, tree, outward.as_slice())?;
    let instances = Instances::new(alloc, found.all)?;
    let numbers = symbols(alloc, &instances)?;
    table_of(
        alloc,
        tree,
        outward.as_slice(),
        found.roles,
        &instances,
        &numbers,
    )
}

// The table over all occurrences, with the roles of the nodes and the symbols by their numbers.
fn table_of(
    alloc: Global,
    tree: &Tree,
    outward: &[Option<Step>],
    roles: List<Option<NameRole>>,
    instances: &Instances,
    numbers: &IndexSet<Symbol>,
) -> Result<Scopes, NoMemory>
    requires outward { outward.now ≡ steps_outward tree.now }
    requires all { instances.now ≡ occurrences tree.now }
    requires roles { roles ≡ map (role_at tree.now) (node_ids tree.now) }
    requires room { length numbers.now.keys < 33554432 }
    requires below { AreBelow (length tree.now.nodes) instances.now }
    ensures { IfOk result (λ t. t ≡ table_of tree.now instances.now numbers.now.keys) }
{
    Ok(Scopes {
        owners: owners(alloc, tree, instances, numbers)?,
        roles,
        facts: facts(alloc, tree, outward, instances, numbers)?,
        declared: annotations(alloc, instances, numbers)?,
        bound: all_bindings(alloc, instances, numbers)?,
        members: all_members(alloc, tree, numbers)?,
    })
}

// The owner of a name whose symbol is this one.
fn owner_by(
    tree: &Tree,
    instances: &Instances,
    numbers: &IndexSet<Symbol>,
    occurrence: &Occurrence,
    symbol: Option<Symbol>,
) -> Owner
    requires { length numbers.now.keys < 33554432 }
    ensures { result ≡ owner_by tree.now instances.now numbers.now.keys occurrence.now symbol }
{
    match symbol {
        Some(symbol) => {
            let scopes = instances.owner_scopes(occurrence);
            let is_local = is_same_graph(scopes, occurrence.scopes.as_slice());
            owner_as(is_local, number_of(numbers, symbol))
        }
        None => unbound_owner(builtin_of(tree, occurrence.name)),
    }
}

fn owner_if(
    tree: &Tree,
    instances: &Instances,
    numbers: &IndexSet<Symbol>,
    occurrence: Option<&Occurrence>,
) -> Owner
    requires { length numbers.now.keys < 33554432 }
    ensures { result ≡ owner_if tree.now instances.now numbers.now.keys (option_map (λ o. o.now) occurrence.entry) }
{
    match occurrence {
        Some(occurrence) => {
            let symbol = instances.symbol_of(occurrence);
            owner_by(tree, instances, numbers, occurrence, symbol)
        }
        None => Owner::Undefined,
    }
}

// The occurrence of this number, where it is at the node.
fn occurrence_if(all: &[Occurrence], number: usize, id: NodeId) -> Option<&Occurrence>
    ensures { option_map (λ o. o.now) result ≡ if_node id (slice_get all.now number) }
{
    let occurrence = all.get(number)?;
    if occurrence.node.0 == id.0 {
        Some(occurrence)
    } else {
        None
    }
}

// The number behind an occurrence, and the same where there is none.
fn behind(passed: usize, occurrence: Option<&Occurrence>) -> usize
    requires { passed < 33554432 }
    ensures { result ≡ passed + length (cons_option (option_map (λ o. o.now) occurrence.entry) []) }
{
    match occurrence {
        Some(_) => passed + 1,
        None => passed,
    }
}

// The owners of nodes. All occurrences stand in the order of their nodes.
fn owners(
    alloc: Global,
    tree: &Tree,
    instances: &Instances,
    numbers: &IndexSet<Symbol>,
) -> Result<List<Owner>, NoMemory>
    requires all { instances.now ≡ occurrences tree.now }
    requires room { length numbers.now.keys < 33554432 }
    ensures { IfOk result (λ owners. owners ≡ map (owner_at tree.now instances.now numbers.now.keys) (node_ids tree.now)) }
{
    let mut owners = List::new(alloc);
    let mut passed = 0;
    let all = instances.occurrences();
    for number in 0..tree.node_count() {
        let occurrence = occurrence_if(all, passed, NodeId(number as u32));
        owners.push(owner_if(tree, instances, numbers, occurrence))?;
        passed = behind(passed, occurrence);
    }
    Ok(owners)
}

// The number of the symbol that is bound at the occurrence.
fn number_bound(
    instances: &Instances,
    numbers: &IndexSet<Symbol>,
    occurrence: &Occurrence,
) -> Option<usize>
    ensures value { result ≡ number_bound instances.now numbers.now.keys occurrence.now }
    ensures within { IfSome result (λ k. k < length numbers.now.keys) }
{
    match bound_symbol(instances, occurrence) {
        Some(symbol) => number_of(numbers, symbol),
        None => None,
    }
}

// The annotation that stands first in the text, of the one that did so far and another.
fn earliest_to(so_far: Option<Annotation>, other: Annotation) -> Annotation
    ensures { result ≡ earliest_to so_far other }
{
    match so_far {
        Some(one) => earlier(one, other),
        None => other,
    }
}

fn no_annotations(alloc: Global, count: usize) -> Result<List<Option<Annotation>>, NoMemory>
    requires { count < 33554432 }
    ensures { IfOk result (λ annotations. annotations ≡ map no_annotation (first_ids count)) }
{
    let mut annotations = List::new(alloc);
    for _ in 0..count {
        annotations.push(None)?;
    }
    Ok(annotations)
}

fn so_far(earliest: &[Option<Annotation>], number: usize) -> Option<Annotation>
    requires { number < length earliest.now }
    ensures { slice_get earliest.now number ≡ Some result }
{
    earliest[number]
}

// Adds the annotation of what is bound at an occurrence to what is known of its symbol.
fn add_annotation(
    instances: &Instances,
    numbers: &IndexSet<Symbol>,
    occurrence: &Occurrence,
    earliest: &mut List<Option<Annotation>>,
)
    requires unique { IsDistinct same_symbol numbers.now.keys }
    requires count { length earliest.old ≡ length numbers.now.keys }
    ensures adds { AddsAnnotation instances.now numbers.now.keys occurrence.now earliest.old earliest.new }
    ensures count { length earliest.new ≡ length earliest.old }
{
    let Some(annotation) = occurrence.annotation else {
        return;
    };
    if let Some(number) = number_bound(instances, numbers, occurrence) {
        let first = earliest_to(so_far(earliest.as_slice(), number), annotation);
        earliest.set(number, Some(first));
    }
}

// The annotation of each symbol that stands first in the text.
fn annotations(
    alloc: Global,
    instances: &Instances,
    numbers: &IndexSet<Symbol>,
) -> Result<List<Option<Annotation>>, NoMemory>
    requires { length numbers.now.keys < 33554432 }
    ensures { IfOk result (λ earliest. earliest ≡ map (declaration instances.now) numbers.now.keys) }
{
    let mut earliest = no_annotations(alloc, numbers.len())?;
    let all = instances.occurrences();
    for occurrence in all {
        add_annotation(instances, numbers, occurrence, &mut earliest);
    }
    Ok(earliest)
}

// As many empty lists as are told.
fn no_bindings(alloc: Global, count: usize) -> Result<Vec<List<NodeId>>, NoMemory>
    requires { count < 33554432 }
    ensures { IfOk result (λ lists. lists.items ≡ map no_items (first_ids count)) }
{
    let mut lists = Vec::new(alloc);
    for _ in 0..count {
        lists.push(List::new(alloc))?;
    }
    Ok(lists)
}

fn put_binding(lists: &mut Vec<List<NodeId>>, at: usize, node: NodeId) -> Result<(), NoMemory>
    requires { at < length lists.old.items }
    ensures puts { OnOk result (PutsAt at node lists.old.items lists.new.items) }
    ensures count { OnOk result (length lists.new.items ≡ length lists.old.items) }
{
    lists[at].push(node)?;
    Ok(())
}

// Adds the binding at an occurrence to those of its symbol.
fn add_binding(
    instances: &Instances,
    numbers: &IndexSet<Symbol>,
    occurrence: &Occurrence,
    bound: &mut Vec<List<NodeId>>,
) -> Result<(), NoMemory>
    requires unique { IsDistinct same_symbol numbers.now.keys }
    requires count { length bound.old.items ≡ length numbers.now.keys }
    ensures adds { OnOk result (AddsBinding instances.now numbers.now.keys occurrence.now bound.old.items bound.new.items) }
    ensures count { OnOk result (length bound.new.items ≡ length bound.old.items) }
{
    if !does_give_value(occurrence.effect) {
        return Ok(());
    }
    match number_bound(instances, numbers, occurrence) {
        Some(number) => put_binding(bound, number, bound_node(occurrence.node, occurrence.role)),
        None => Ok(()),
    }
}

fn all_bindings(
    alloc: Global,
    instances: &Instances,
    numbers: &IndexSet<Symbol>,
) -> Result<List<List<NodeId>>, NoMemory>
    requires { length numbers.now.keys < 33554432 }
    ensures { IfOk result (λ bound. bound ≡ map (bindings instances.now) numbers.now.keys) }
{
    let mut bound = no_bindings(alloc, numbers.len())?;
    let all = instances.occurrences();
    for occurrence in all {
        add_binding(instances, numbers, occurrence, &mut bound)?;
    }
    Ok(List::from_vec(bound))
}

fn no_members(alloc: Global, count: usize) -> Result<Vec<List<(NameId, SymId)>>, NoMemory>
    requires { count < 33554432 }
    ensures { IfOk result (λ lists. lists.items ≡ map no_items (first_ids count)) }
{
    let mut lists = Vec::new(alloc);
    for _ in 0..count {
        lists.push(List::new(alloc))?;
    }
    Ok(lists)
}

fn put_member(
    lists: &mut Vec<List<(NameId, SymId)>>,
    at: usize,
    member: (NameId, SymId),
) -> Result<(), NoMemory>
    requires { at < length lists.old.items }
    ensures puts { OnOk result (PutsAt at member lists.old.items lists.new.items) }
    ensures count { OnOk result (length lists.new.items ≡ length lists.old.items) }
{
    lists[at].push(member)?;
    Ok(())
}

// Adds a symbol of this number to the members of the class whose name it is, if it is one's.
fn add_member(
    symbol: Symbol,
    number: SymId,
    members: &mut Vec<List<(NameId, SymId)>>,
) -> Result<(), NoMemory>
    ensures adds { OnOk result (AddsMember symbol number members.old.items members.new.items) }
    ensures count { OnOk result (length members.new.items ≡ length members.old.items) }
{
    let class = symbol.scope.node.0 as usize;
    if !is_class(symbol.scope.kind) || class >= members.len() {
        return Ok(());
    }
    put_member(members, class, (symbol.name, number))
}

fn all_members(
    alloc: Global,
    tree: &Tree,
    numbers: &IndexSet<Symbol>,
) -> Result<List<List<(NameId, SymId)>>, NoMemory>
    requires { length numbers.now.keys < 33554432 }
    ensures { IfOk result (λ members. members ≡ map (λ id. members_from id 0 numbers.now.keys) (node_ids tree.now)) }
{
    let mut members = no_members(alloc, tree.node_count())?;
    for (number, symbol) in numbers.as_slice().iter().enumerate() {
        add_member(*symbol, SymId(number as u32), &mut members)?;
    }
    Ok(List::from_vec(members))
}
