//! The names that each def or class has, found in one pass for each way to have them.
ghost use Rattle.std.specs.Prelude.{◌≡◌, ◌==◌, ◌&&◌, ◌||◌, ℕ, List, IfOk, OnOk};
ghost use Rattle.std.specs.BTreeSet.{BTreeSet};
ghost use Rattle.py_blocks.specs.Facts.{among};
ghost use Rattle.py_blocks.specs.Innermost.{scopes_of, has_one};
ghost use Rattle.py_blocks.specs.NameSets.{holds, IsSetOf, AreNameSets, body_in, holder_in, names_of};
ghost use Rattle.std.specs.Str.{bytes_eq};

use crate::facts::LineFacts;
use crate::innermost::scope_in;
use crate::lines::is_a;
use crate::sort::Sort;
use py_base::{NoMemory, Text};
use std::alloc::Global;
use std::collections::BTreeSet;

/// A name of a def or class.
#[derive(Clone, Copy, Debug, PartialEq, Eq, PartialOrd, Ord)]
pub struct ScopeName<'a> {
    /// The line of the def or class.
    pub scope: usize,
    pub name: &'a str,
}

/// How a name comes to a def or class.
#[derive(Clone, Copy, Debug, PartialEq, Eq)]
pub enum Naming {
    /// As a parameter.
    Parameter,
    /// Bound in the line of its header.
    Suite,
    /// Bound in a line of its body.
    Bound,
    /// Declared global or nonlocal in its body.
    Declared,
}

/// Names of defs and classes.
pub type NameSet<'a> = BTreeSet<ScopeName<'a>>;

/// The names of all defs and classes of a text.
#[derive(Drop)]
pub struct NameSets<'a> {
    pub parameters: NameSet<'a>,
    pub suites: NameSet<'a>,
    pub bound: NameSet<'a>,
    pub declared: NameSet<'a>,
}

/// The def or class in whose body the statements of a line stand.
pub fn body_in(lines: &[LineFacts], scopes: &[Option<usize>], at: usize) -> Option<usize>
    ensures { result ≡ body_in lines.now scopes.now at }
{
    if is_a(lines, at, Sort::Scope) {
        Some(at)
    } else {
        scope_in(scopes, at)
    }
}

// The def or class that a line gives names to.
fn holder_in(
    lines: &[LineFacts],
    scopes: &[Option<usize>],
    naming: Naming,
    at: usize,
) -> Option<usize>
    ensures { result ≡ holder_in lines.now scopes.now naming at }
{
    match naming {
        Naming::Parameter | Naming::Suite => Some(at),
        Naming::Bound => scope_in(scopes, at),
        Naming::Declared => body_in(lines, scopes, at),
    }
}

fn names_of(line: &LineFacts, naming: Naming) -> &[Text]
    ensures { result.now ≡ names_of line.now naming }
{
    match naming {
        Naming::Parameter => line.parameters.as_slice(),
        Naming::Suite => line.suite.as_slice(),
        Naming::Bound => line.bound.as_slice(),
        Naming::Declared => line.declared.as_slice(),
    }
}

fn add_name<'a>(set: &mut NameSet<'a>, scope: usize, name: &'a str) -> Result<(), NoMemory>
    ensures { OnOk result ((n : List ℕ) (d : ℕ) → holds set.new n d ≡ (holds set.old n d || (scope == d && bytes_eq n name.now))) }
{
    set.insert(ScopeName { scope, name })?;
    Ok(())
}

fn add_names<'a>(set: &mut NameSet<'a>, scope: usize, names: &'a [Text]) -> Result<(), NoMemory>
    ensures { OnOk result ((n : List ℕ) (d : ℕ) → holds set.new n d ≡ (holds set.old n d || (scope == d && among n names.now))) }
{
    for name in names {
        add_name(set, scope, name.as_str())?;
    }
    Ok(())
}

// Adds names of a def or class, if there is one.
fn add_held<'a>(
    set: &mut NameSet<'a>,
    holder: Option<usize>,
    names: &'a [Text],
) -> Result<(), NoMemory>
    ensures { OnOk result ((n : List ℕ) (d : ℕ) → holds set.new n d ≡ (holds set.old n d || (has_one (λ k. k == d) holder && among n names.now))) }
{
    match holder {
        Some(scope) => add_names(set, scope, names),
        None => Ok(()),
    }
}

// All names that come to defs and classes in one way.
fn set_of<'a>(
    alloc: Global,
    lines: &'a [LineFacts],
    scopes: &[Option<usize>],
    naming: Naming,
) -> Result<NameSet<'a>, NoMemory>
    requires { scopes.now ≡ scopes_of lines.now }
    ensures { IfOk result (IsSetOf lines.now naming) }
{
    let mut set = BTreeSet::new(alloc);
    for at in 0..lines.len() {
        let holder = holder_in(lines, scopes, naming, at);
        add_held(&mut set, holder, names_of(&lines[at], naming))?;
    }
    Ok(set)
}

/// The names of all defs and classes of a text. `NoMemory` where they could not be stored.
pub fn name_sets<'a>(
    alloc: Global,
    lines: &'a [LineFacts],
    scopes: &[Option<usize>],
) -> Result<NameSets<'a>, NoMemory>
    requires { scopes.now ≡ scopes_of lines.now }
    ensures { IfOk result (AreNameSets lines.now) }
{
    let parameters = set_of(alloc, lines, scopes, Naming::Parameter)?;
    let suites = set_of(alloc, lines, scopes, Naming::Suite)?;
    let bound = set_of(alloc, lines, scopes, Naming::Bound)?;
    let declared = set_of(alloc, lines, scopes, Naming::Declared)?;
    Ok(NameSets {
        parameters,
        suites,
        bound,
        declared,
    })
}

/// Whether a def or class has a name.
pub fn has_name<'a>(set: &NameSet<'a>, name: &'a str, scope: usize) -> bool
    ensures { result ≡ holds set.now name.now scope }
{
    set.contains(&ScopeName { scope, name })
}
