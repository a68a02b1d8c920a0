//! Which names are bound, declared `global` and declared `nonlocal` directly in each scope, gathered in
//! one pass over all occurrences.
ghost use Rattle.std.specs.Prelude.{◌≡◌, fold, IfOk, OnOk};
ghost use Rattle.std.specs.Option.{option_to_list};
ghost use Rattle.py_scopes.specs.Owner.{is_binding, is_global_name, is_nonlocal_name, is_said};
ghost use Rattle.py_scopes.specs.Members.{is_of_init, with_symbol};
ghost use Rattle.py_scopes.specs.Tables.{symbol_in, names_said, AddsSaid};

use crate::occurrence::{Occurrence, Role};
use crate::scope::{Scope, Symbol};
use indexmap::IndexSet;
use py_base::{List, NameId, NoMemory};
use std::alloc::Global;
use std::marker::Model;

/// The names that are said something of, each with the scope that it stands directly in.
#[derive(Drop)]
struct Names {
    bound: IndexSet<Symbol>,
    globals: IndexSet<Symbol>,
    nonlocals: IndexSet<Symbol>,
    inits: IndexSet<Symbol>,
}

/// All occurrences, and what they say of names in scopes. A contract sees the occurrences.
#[derive(Drop)]
pub(crate) struct Said {
    all: List<Occurrence>,
    names: Names,
}

impl Model for Said {
    ghost use Rattle.std.specs.Prelude.{List};
    ghost use Rattle.py_scopes.specs.declared.occurrence.Occurrence.{Occurrence};
    ghost use Rattle.py_scopes.specs.Owner.{is_binding, is_global_name, is_nonlocal_name};
    ghost use Rattle.py_scopes.specs.Members.{is_of_init};
    ghost use Rattle.py_scopes.specs.Tables.{HasSaid};

    ghost Value = { List Occurrence };

    ghost view = { λ s. s.all };

    ghost invariant = { λ s. HasSaid is_binding s.all s.names.bound.keys × HasSaid is_global_name s.all s.names.globals.keys × HasSaid is_nonlocal_name s.all s.names.nonlocals.keys × HasSaid is_of_init s.all s.names.inits.keys };
}

/// The name in the innermost of these scopes.
pub(crate) fn symbol_in(name: NameId, scopes: &[Scope]) -> Option<Symbol>
    ensures { result ≡ symbol_in name scopes.now }
{
    let (scope, _) = scopes.split_first()?;
    Some(Symbol {
        scope: *scope,
        name,
    })
}

/// Adds a symbol, if there is one and it isn't there yet. `NoMemory` where it could not be stored.
pub(crate) fn add_symbol(
    symbols: &mut IndexSet<Symbol>,
    symbol: Option<Symbol>,
) -> Result<(), NoMemory>
    ensures { OnOk result (symbols.new.keys ≡ fold with_symbol symbols.old.keys (option_to_list symbol)) }
{
    if let Some(symbol) = symbol {
        symbols.insert(symbol)?;
    }
    Ok(())
}

// Adds what an occurrence says.
fn add_said(names: &mut Names, occurrence: &Occurrence) -> Result<(), NoMemory>
    ensures bound { OnOk result (AddsSaid is_binding occurrence.now names.old.bound.keys names.new.bound.keys) }
    ensures globals { OnOk result (AddsSaid is_global_name occurrence.now names.old.globals.keys names.new.globals.keys) }
    ensures nonlocals { OnOk result (AddsSaid is_nonlocal_name occurrence.now names.old.nonlocals.keys names.new.nonlocals.keys) }
    ensures inits { OnOk result (AddsSaid is_of_init occurrence.now names.old.inits.keys names.new.inits.keys) }
{
    let symbol = symbol_in(occurrence.name, occurrence.scopes.as_slice());
    match occurrence.role {
        Role::Binding | Role::FirstParameter(false) => add_symbol(&mut names.bound, symbol),
        Role::FirstParameter(true) => {
            add_symbol(&mut names.bound, symbol)?;
            add_symbol(&mut names.inits, symbol)
        }
        Role::Global => add_symbol(&mut names.globals, symbol),
        Role::Nonlocal => add_symbol(&mut names.nonlocals, symbol),
        _ => Ok(()),
    }
}

// What all occurrences say.
fn names_said(alloc: Global, all: &[Occurrence]) -> Result<Names, NoMemory>
    ensures bound { IfOk result (λ names. names.bound.keys ≡ names_said is_binding all.now) }
    ensures globals { IfOk result (λ names. names.globals.keys ≡ names_said is_global_name all.now) }
    ensures nonlocals { IfOk result (λ names. names.nonlocals.keys ≡ names_said is_nonlocal_name all.now) }
    ensures inits { IfOk result (λ names. names.inits.keys ≡ names_said is_of_init all.now) }
{
    let mut names = Names {
        bound: IndexSet::new(alloc),
        globals: IndexSet::new(alloc),
        nonlocals: IndexSet::new(alloc),
        inits: IndexSet::new(alloc),
    };
    for occurrence in all {
        add_said(&mut names, occurrence)?;
    }
    Ok(names)
}

impl Said {
    /// What these occurrences say. `NoMemory` where it could not be stored.
    pub(crate) fn new(alloc: Global, all: List<Occurrence>) -> Result<Said, NoMemory>
        ensures { IfOk result (λ said. said ≡ all) }
    {
        let names = names_said(alloc, all.as_slice())?;
        Ok(Said { all, names })
    }

    /// All occurrences.
    pub(crate) fn occurrences(&self) -> &[Occurrence]
        ensures { result.now ≡ self.now }
    {
        self.all.as_slice()
    }

    /// Whether the name is bound directly in the scope.
    pub(crate) fn is_bound(&self, scope: Scope, name: NameId) -> bool
        ensures { result ≡ is_said is_binding self.now scope name }
    {
        self.names.bound.contains(&Symbol { scope, name })
    }

    /// Whether the name is declared global directly in the scope.
    pub(crate) fn is_global(&self, scope: Scope, name: NameId) -> bool
        ensures { result ≡ is_said is_global_name self.now scope name }
    {
        self.names.globals.contains(&Symbol { scope, name })
    }

    /// Whether the name is declared nonlocal directly in the scope.
    pub(crate) fn is_nonlocal(&self, scope: Scope, name: NameId) -> bool
        ensures { result ≡ is_said is_nonlocal_name self.now scope name }
    {
        self.names.nonlocals.contains(&Symbol { scope, name })
    }

    /// Whether the name is the first parameter of an `__init__`, whose scope it is.
    pub(crate) fn is_init(&self, scope: Scope, name: NameId) -> bool
        ensures { result ≡ is_said is_of_init self.now scope name }
    {
        self.names.inits.contains(&Symbol { scope, name })
    }
}
