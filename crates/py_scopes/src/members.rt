//! The symbols that are bound, members of classes among them, by tables of the static methods and of the
//! first parameters.
ghost use Rattle.std.specs.Prelude.{◌≡◌, ◌≤◌, Option, Some, length, slice_get, IfOk, OnOk};
ghost use Rattle.indexmap.specs.IndexMap.{get};
ghost use Rattle.py_scopes.specs.Owner.{owner_scopes, symbol_of};
ghost use Rattle.py_scopes.specs.Members.{class_only, class_of, member_if, bound_symbol, is_init_symbol, is_own_value, makes_hide, hider_at, symbols};
ghost use Rattle.py_scopes.specs.Tables.{static_method_at, HasStatics, HasClasses, HasHiders, instance_at, AddsStatic, AddsClass};

use crate::occurrence::{Occurrence, Role};
use crate::roles::{does_give_value, is_augmented, is_first};
use crate::said::{add_symbol, symbol_in};
use crate::scope::{Scope, Symbol, class_only, member_of};
use crate::search::{Search, owner_scopes, symbol_of};
use indexmap::{IndexMap, IndexSet};
use py_base::{List, NameId, NoMemory, NodeId};
use std::alloc::Global;
use std::marker::Model;

// The def that is made a static method here.
fn static_method_at(search: &Search, occurrence: &Occurrence) -> Option<NodeId>
    ensures { result ≡ static_method_at search.now occurrence.now }
{
    match occurrence.role {
        Role::Static(def) if symbol_of(search, occurrence).is_none() => Some(def),
        _ => None,
    }
}

fn add_static(statics: &mut IndexSet<NodeId>, def: Option<NodeId>) -> Result<(), NoMemory>
    ensures { OnOk result (AddsStatic def statics.old.keys statics.new.keys) }
{
    if let Some(def) = def {
        statics.insert(def)?;
    }
    Ok(())
}

// The static methods.
fn all_statics(alloc: Global, search: &Search) -> Result<IndexSet<NodeId>, NoMemory>
    ensures { IfOk result (λ statics. HasStatics search.now statics.keys) }
{
    let mut statics = IndexSet::new(alloc);
    let all = search.occurrences();
    for occurrence in all {
        add_static(&mut statics, static_method_at(search, occurrence))?;
    }
    Ok(statics)
}

// The symbol of the first parameter here, of a def that isn't static.
fn instance_at(
    search: &Search,
    statics: &IndexSet<NodeId>,
    occurrence: &Occurrence,
) -> Option<Symbol>
    requires { HasStatics search.now statics.now.keys }
    ensures { result ≡ instance_at search.now occurrence.now }
{
    if !is_first(occurrence.role) {
        return None;
    }
    let symbol = symbol_in(occurrence.name, occurrence.scopes.as_slice())?;
    if statics.contains(&symbol.scope.node) {
        None
    } else {
        Some(symbol)
    }
}

// The class that the def of a first parameter stands directly in: outside of the def's own scope and of
// its type parameters.
fn class_at(occurrence: &Occurrence) -> Option<Scope>
    ensures { result ≡ class_only (slice_get occurrence.now.scopes 2) }
{
    class_only(occurrence.scopes.as_slice().get(2).copied())
}

// Adds the class whose instance a symbol is, if both are there and it has none yet.
fn add_class(
    classes: &mut IndexMap<Symbol, Scope>,
    instance: Option<Symbol>,
    class: Option<Scope>,
) -> Result<(), NoMemory>
    ensures { OnOk result (AddsClass instance class classes.old classes.new) }
{
    match (instance, class) {
        (Some(symbol), Some(class)) if !classes.contains_key(&symbol) => {
            classes.insert(symbol, class)?;
            Ok(())
        }
        _ => Ok(()),
    }
}

// The class whose instance each symbol is.
fn all_classes(
    alloc: Global,
    search: &Search,
    statics: &IndexSet<NodeId>,
) -> Result<IndexMap<Symbol, Scope>, NoMemory>
    requires { HasStatics search.now statics.now.keys }
    ensures { IfOk result (λ classes. HasClasses search.now classes) }
{
    let mut classes = IndexMap::new(alloc);
    let all = search.occurrences();
    for occurrence in all {
        let class = class_at(occurrence);
        let instance = instance_at(search, statics, occurrence);
        add_class(&mut classes, instance, class)?;
    }
    Ok(classes)
}

/// All occurrences, what they say, and the class whose instance each symbol is. A contract sees the
/// occurrences.
#[derive(Drop)]
pub(crate) struct Instances {
    search: Search,
    classes: IndexMap<Symbol, Scope>,
}

impl Model for Instances {
    ghost use Rattle.std.specs.Prelude.{List};
    ghost use Rattle.py_scopes.specs.declared.occurrence.Occurrence.{Occurrence};
    ghost use Rattle.py_scopes.specs.Tables.{HasClasses};

    ghost Value = { List Occurrence };

    ghost view = { λ s. s.search };

    ghost invariant = { λ s. HasClasses s.search s.classes };
}

impl Instances {
    /// What these occurrences say. `NoMemory` where it could not be stored.
    pub(crate) fn new(alloc: Global, all: List<Occurrence>) -> Result<Instances, NoMemory>
        ensures { IfOk result (λ instances. instances ≡ all) }
    {
        let search = Search::new(alloc, all)?;
        let statics = all_statics(alloc, &search)?;
        let classes = all_classes(alloc, &search, &statics)?;
        Ok(Instances { search, classes })
    }

    /// All occurrences.
    pub(crate) fn occurrences(&self) -> &[Occurrence]
        ensures { result.now ≡ self.now }
    {
        self.search.occurrences()
    }

    /// The symbol that a name stands for, `None` exactly where nobody binds it.
    pub(crate) fn symbol_of(&self, occurrence: &Occurrence) -> Option<Symbol>
        ensures { result ≡ symbol_of self.now occurrence.now }
    {
        symbol_of(&self.search, occurrence)
    }

    /// From the scope outward whose name stands here.
    pub(crate) fn owner_scopes<'a>(&self, occurrence: &'a Occurrence) -> &'a [Scope]
        ensures { result.now ≡ owner_scopes self.now occurrence.now }
    {
        owner_scopes(&self.search, occurrence)
    }

    // The class whose instance a symbol is.
    fn class_of(&self, symbol: Symbol) -> Option<Scope>
        ensures { result ≡ class_of self.now symbol }
    {
        self.classes.get(&symbol).copied()
    }
}

fn member_if(instances: &Instances, name: NameId, object: Option<Symbol>) -> Option<Symbol>
    ensures { result ≡ member_if instances.now name object }
{
    match object {
        Some(symbol) => member_of(name, instances.class_of(symbol)),
        None => None,
    }
}

/// The symbol that is bound at an occurrence or at the target whose `p` it is, `None` exactly where
/// none is.
pub(crate) fn bound_symbol(instances: &Instances, occurrence: &Occurrence) -> Option<Symbol>
    ensures { result ≡ bound_symbol instances.now occurrence.now }
{
    match occurrence.role {
        Role::Binding | Role::FirstParameter(_) => instances.symbol_of(occurrence),
        Role::Object(_, name) => member_if(instances, name, instances.symbol_of(occurrence)),
        _ => None,
    }
}

// Whether the symbol is the first parameter of an `__init__`.
fn is_init_symbol(instances: &Instances, symbol: Option<Symbol>) -> bool
    ensures { result ≡ is_init_symbol instances.now symbol }
{
    match symbol {
        Some(symbol) => instances.search.is_init(symbol.scope, symbol.name),
        None => false,
    }
}

// Whether a value isn't given through an instance, or by a plain target of an `__init__`.
fn is_own_value(instances: &Instances, occurrence: &Occurrence) -> bool
    ensures { result ≡ is_own_value instances.now occurrence.now occurrence.now.role }
{
    match occurrence.role {
        Role::Object(_, _) => {
            !is_augmented(occurrence.effect)
                && is_init_symbol(instances, instances.symbol_of(occurrence))
        }
        _ => true,
    }
}

fn does_make_hide(instances: &Instances, occurrence: &Occurrence) -> bool
    ensures { result ≡ makes_hide instances.now occurrence.now }
{
    occurrence.annotation.is_some()
        || (does_give_value(occurrence.effect) && is_own_value(instances, occurrence))
}

// The symbol that is bound here and hides those of its name behind it, if one is.
fn hider_at(instances: &Instances, occurrence: &Occurrence) -> Option<Symbol>
    ensures { result ≡ hider_at instances.now occurrence.now }
{
    if does_make_hide(instances, occurrence) {
        bound_symbol(instances, occurrence)
    } else {
        None
    }
}

/// The symbols that hide those of their names behind them. `NoMemory` where they could not be
/// stored.
pub(crate) fn hiders(alloc: Global, instances: &Instances) -> Result<IndexSet<Symbol>, NoMemory>
    ensures { IfOk result (λ hiders. HasHiders instances.now hiders.keys) }
{
    let mut hiders = IndexSet::new(alloc);
    let all = instances.occurrences();
    for occurrence in all {
        add_symbol(&mut hiders, hider_at(instances, occurrence))?;
    }
    Ok(hiders)
}

/// The symbols by their numbers, in the order of the occurrences that first bind them. `NoMemory`
/// where they could not be stored.
pub(crate) fn symbols(alloc: Global, instances: &Instances) -> Result<IndexSet<Symbol>, NoMemory>
    ensures symbols { IfOk result (λ numbers. numbers.keys ≡ symbols instances.now) }
    ensures room { IfOk result (λ numbers. length numbers.keys ≤ length instances.now) }
{
    let mut numbers = IndexSet::new(alloc);
    let all = instances.occurrences();
    for occurrence in all {
        add_symbol(&mut numbers, bound_symbol(instances, occurrence))?;
    }
    Ok(numbers)
}
