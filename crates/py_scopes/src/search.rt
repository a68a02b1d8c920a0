//! The search for the owner of a name, which asks tables of what is said in each scope.
ghost use Rattle.std.specs.Prelude.{◌≡◌, IfOk};
ghost use Rattle.py_scopes.specs.Owner.{is_global_name, is_nonlocal_name, is_said, owns, owning, home, has_symbol, decides, search_out, owner_scopes, symbol_if, symbol_of};
ghost use Rattle.py_scopes.specs.Members.{is_of_init};
ghost use Rattle.py_scopes.specs.Tables.{symbol_at, all_symbols};

use crate::occurrence::Occurrence;
use crate::roles::is_binding;
use crate::said::{Said, add_symbol, symbol_in};
use crate::scope::{Scope, Symbol, does_hide_classes, from_module, is_class, is_def};
use indexmap::IndexSet;
use py_base::{List, NameId, NoMemory};
use std::alloc::Global;
use std::marker::Model;

// Whether the scope is a def that has the name for its own.
fn does_own(said: &Said, name: NameId, scope: Scope) -> bool
    ensures { result ≡ owns said.now name scope }
{
    is_def(scope.kind)
        && said.is_bound(scope, name)
        && !said.is_global(scope, name)
        && !said.is_nonlocal(scope, name)
}

fn owning<'a>(said: &Said, name: NameId, scopes: &'a [Scope]) -> &'a [Scope]
    ensures { result.now ≡ owning said.now name scopes.now }
{
    match scopes.split_first() {
        Some((scope, outside)) => {
            if does_own(said, name, *scope) {
                scopes
            } else {
                owning(said, name, outside)
            }
        }
        None => scopes,
    }
}

// From the scope outward whose name it is in a scope that binds or declares it, the first of these.
fn home<'a>(said: &Said, name: NameId, scopes: &'a [Scope]) -> &'a [Scope]
    ensures { result.now ≡ home said.now name scopes.now }
{
    match scopes.split_first() {
        Some((scope, outside)) => {
            if said.is_global(*scope, name) {
                from_module(scopes)
            } else if said.is_nonlocal(*scope, name) {
                owning(said, name, outside)
            } else {
                scopes
            }
        }
        None => scopes,
    }
}

// The symbol that a binding belongs to.
fn symbol_at(said: &Said, occurrence: &Occurrence) -> Option<Symbol>
    ensures { result ≡ symbol_at said.now occurrence.now }
{
    if is_binding(occurrence.role) {
        let scopes = occurrence.scopes.as_slice();
        symbol_in(occurrence.name, home(said, occurrence.name, scopes))
    } else {
        None
    }
}

// The symbols that bindings belong to.
fn all_symbols(alloc: Global, said: &Said) -> Result<IndexSet<Symbol>, NoMemory>
    ensures { IfOk result (λ symbols. symbols.keys ≡ all_symbols said.now) }
{
    let mut symbols = IndexSet::new(alloc);
    let all = said.occurrences();
    for occurrence in all {
        add_symbol(&mut symbols, symbol_at(said, occurrence))?;
    }
    Ok(symbols)
}

/// All occurrences, what they say of names, and the symbols that bindings belong to. A contract sees
/// the occurrences.
#[derive(Drop)]
pub(crate) struct Search {
    said: Said,
    symbols: IndexSet<Symbol>,
}

impl Model for Search {
    ghost use Rattle.std.specs.Prelude.{List};
    ghost use Rattle.py_scopes.specs.declared.occurrence.Occurrence.{Occurrence};
    ghost use Rattle.py_scopes.specs.Tables.{HasSymbols};

    ghost Value = { List Occurrence };

    ghost view = { λ s. s.said };

    ghost invariant = { λ s. HasSymbols s.said s.symbols.keys };
}

impl Search {
    /// A search among these occurrences. `NoMemory` where what they say could not be stored.
    pub(crate) fn new(alloc: Global, all: List<Occurrence>) -> Result<Search, NoMemory>
        ensures { IfOk result (λ search. search ≡ all) }
    {
        let said = Said::new(alloc, all)?;
        let symbols = all_symbols(alloc, &said)?;
        Ok(Search { said, symbols })
    }

    /// All occurrences.
    pub(crate) fn occurrences(&self) -> &[Occurrence]
        ensures { result.now ≡ self.now }
    {
        self.said.occurrences()
    }

    // Whether some binding of the name belongs to the scope.
    fn has_symbol(&self, scope: Scope, name: NameId) -> bool
        ensures { result ≡ has_symbol self.now scope name }
    {
        self.symbols.contains(&Symbol { scope, name })
    }

    // Whether the name is declared global directly in the scope.
    fn is_global(&self, scope: Scope, name: NameId) -> bool
        ensures { result ≡ is_said is_global_name self.now scope name }
    {
        self.said.is_global(scope, name)
    }

    // Whether the name is declared nonlocal directly in the scope.
    fn is_nonlocal(&self, scope: Scope, name: NameId) -> bool
        ensures { result ≡ is_said is_nonlocal_name self.now scope name }
    {
        self.said.is_nonlocal(scope, name)
    }

    /// Whether the name is the first parameter of an `__init__`, whose scope it is.
    pub(crate) fn is_init(&self, scope: Scope, name: NameId) -> bool
        ensures { result ≡ is_said is_of_init self.now scope name }
    {
        self.said.is_init(scope, name)
    }

    // From the scope outward whose name it is in a scope that binds or declares it.
    fn home<'a>(&self, name: NameId, scopes: &'a [Scope]) -> &'a [Scope]
        ensures { result.now ≡ home self.now name scopes.now }
    {
        home(&self.said, name, scopes)
    }
}

// Whether the scope says whose the name is.
fn does_decide(search: &Search, name: NameId, scope: Scope) -> bool
    ensures { result ≡ decides search.now name scope }
{
    search.is_global(scope, name)
        || search.is_nonlocal(scope, name)
        || search.has_symbol(scope, name)
}

// From the innermost scope outward that is seen and decides; classes are hidden, or they aren't.
fn search_out<'a>(search: &Search, name: NameId, hidden: bool, scopes: &'a [Scope]) -> &'a [Scope]
    ensures { result.now ≡ search_out search.now name hidden scopes.now }
{
    match scopes.split_first() {
        Some((scope, outside)) => {
            if !(hidden && is_class(scope.kind)) && does_decide(search, name, *scope) {
                scopes
            } else {
                search_out(
                    search,
                    name,
                    hidden || does_hide_classes(scope.kind),
                    outside,
                )
            }
        }
        None => scopes,
    }
}

/// From the scope outward whose name stands here.
pub(crate) fn owner_scopes<'a>(search: &Search, occurrence: &'a Occurrence) -> &'a [Scope]
    ensures { result.now ≡ owner_scopes search.now occurrence.now }
{
    let scopes = occurrence.scopes.as_slice();
    if is_binding(occurrence.role) {
        search.home(occurrence.name, scopes)
    } else {
        search.home(
            occurrence.name,
            search_out(search, occurrence.name, false, scopes),
        )
    }
}

fn symbol_if(search: &Search, name: NameId, scopes: &[Scope]) -> Option<Symbol>
    ensures { result ≡ symbol_if search.now name scopes.now }
{
    let (scope, _) = scopes.split_first()?;
    if search.has_symbol(*scope, name) {
        Some(Symbol {
            scope: *scope,
            name,
        })
    } else {
        None
    }
}

/// The symbol that a name stands for, `None` exactly where nobody binds it.
pub(crate) fn symbol_of(search: &Search, occurrence: &Occurrence) -> Option<Symbol>
    ensures { result ≡ symbol_of search.now occurrence.now }
{
    symbol_if(search, occurrence.name, owner_scopes(search, occurrence))
}
