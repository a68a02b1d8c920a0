//! Tests by the class of a member: `isinstance`, `issubclass`, `type(x) is T` and `callable`.
ghost use Rattle.std.specs.Prelude.{◌≡◌, ◌++◌, filter, Some, IfOk, OnOk, OnErr};
ghost use Rattle.std.specs.List.{list_any, flat_map};
ghost use Rattle.type_terms.specs.declared.atom.Atom.{out-Atom};
ghost use Rattle.class_rows.specs.Rows.{is_sub_of};
ghost use Rattle.narrow_rules.specs.Ground as ground;
ghost use Rattle.narrow_rules.specs.Keep as spec;

use crate::ground::{class_of, has_call, push_instances};
use crate::sides::{Kept, only_false, only_true, push};
use class_rows::ClassRows;
use py_base::{Builtin, ClassId, NoMemory};
use std::alloc::Global;
use type_terms::Atom;
use type_terms::facts::Names;

/// What stands for a class that a test names: its instances, or the class itself.
#[derive(Clone, Copy)]
pub(crate) enum Standing {
    Instances,
    Class,
}

/// Adds what stands for a class.
fn push_standing<N: Names>(
    alloc: Global,
    atoms: &mut Vec<Atom>,
    standing: Standing,
    class: ClassId,
    names: &N,
) -> Result<(), NoMemory>
    ensures { OnOk result (atoms.new.items ≡ atoms.old.items ++ spec.standing (N.names names.now) standing class) }
{
    match standing {
        Standing::Instances => push_instances(alloc, atoms, class, names),
        Standing::Class => push(atoms, Atom::Class(class)),
    }
}

/// Whether the class is one of the listed ones or below one.
fn is_under_any(class: ClassId, listed: &[ClassId], classes: &ClassRows) -> bool
    ensures { result ≡ list_any (is_sub_of classes.now class) listed.now }
{
    for high in listed {
        if classes.is_sub(class, *high) {
            return true;
        }
    }
    false
}

/// What stands for each of the listed classes.
fn all_of<N: Names>(
    alloc: Global,
    standing: Standing,
    listed: &[ClassId],
    names: &N,
) -> Result<Kept, NoMemory>
    ensures value { IfOk result (λ kept. kept ≡ spec.instead_of (flat_map (spec.standing (N.names names.now) standing) listed.now)) }
    ensures free { OnErr result (spec.IsOthers (spec.instead_of (flat_map (spec.standing (N.names names.now) standing) listed.now))) }
{
    let mut atoms = Vec::new(alloc);
    for class in listed {
        push_standing(alloc, &mut atoms, standing, *class, names)?;
    }
    Kept::instead_of(atoms)
}

/// What stands for the listed classes where the test is true, and the member itself where it is false.
fn all_listed<N: Names>(
    alloc: Global,
    positive: bool,
    standing: Standing,
    listed: &[ClassId],
    names: &N,
) -> Result<Kept, NoMemory>
    ensures value { IfOk result (λ kept. kept ≡ spec.side positive (spec.becomes (flat_map (spec.standing (N.names names.now) standing) listed.now))) }
    ensures free { OnErr result (spec.IsOthers (spec.side positive (spec.becomes (flat_map (spec.standing (N.names names.now) standing) listed.now)))) }
{
    if !positive {
        return Ok(Kept::Itself);
    }
    all_of(alloc, standing, listed, names)
}

/// What stands for each of the listed classes that are below the class.
fn those_below<N: Names>(
    alloc: Global,
    standing: Standing,
    listed: &[ClassId],
    class: ClassId,
    classes: &ClassRows,
    names: &N,
) -> Result<Kept, NoMemory>
    ensures value { IfOk result (λ kept. kept ≡ spec.instead_of (flat_map (spec.standing (N.names names.now) standing) (filter (λ low. is_sub_of classes.now low class) listed.now))) }
    ensures free { OnErr result (spec.IsOthers (spec.instead_of (flat_map (spec.standing (N.names names.now) standing) (filter (λ low. is_sub_of classes.now low class) listed.now)))) }
{
    let mut atoms = Vec::new(alloc);
    for low in listed {
        if classes.is_sub(*low, class) {
            push_standing(alloc, &mut atoms, standing, *low, names)?;
        }
    }
    Kept::instead_of(atoms)
}

/// A class against the listed ones.
fn class_side<N: Names>(
    alloc: Global,
    positive: bool,
    standing: Standing,
    listed: &[ClassId],
    class: ClassId,
    classes: &ClassRows,
    names: &N,
) -> Result<Kept, NoMemory>
    ensures value { IfOk result (λ kept. kept ≡ spec.side positive (spec.class_row classes.now (spec.standing (N.names names.now) standing) listed.now class)) }
    ensures free { OnErr result (spec.IsOthers (spec.side positive (spec.class_row classes.now (spec.standing (N.names names.now) standing) listed.now class))) }
{
    if classes.is_open(class) && !listed.is_empty() {
        return Ok(Kept::Itself);
    }
    if is_under_any(class, listed, classes) {
        return Ok(only_true(positive));
    }
    if !positive {
        return Ok(Kept::Itself);
    }
    those_below(alloc, standing, listed, class, classes, names)
}

/// What `isinstance(x, ..)` keeps.
pub(crate) fn instance_side<N: Names>(
    alloc: Global,
    positive: bool,
    listed: &[ClassId],
    atom: &Atom,
    classes: &ClassRows,
    names: &N,
) -> Result<Kept, NoMemory>
    ensures value { IfOk result (λ kept. kept ≡ spec.side positive (spec.instance_row classes.now (N.names names.now) listed.now (ground.class_of atom.now))) }
    ensures free { OnErr result (spec.IsOthers (spec.side positive (spec.instance_row classes.now (N.names names.now) listed.now (ground.class_of atom.now)))) }
{
    match class_of(atom) {
        Some(class) => class_side(
            alloc,
            positive,
            Standing::Instances,
            listed,
            class,
            classes,
            names,
        ),
        None => all_listed(alloc, positive, Standing::Instances, listed, names),
    }
}

/// What `issubclass(x, ..)` keeps.
#[tactic(auto, using(crate::proofs::OutOf::outs))]
pub(crate) fn subclass_side<N: Names>(
    alloc: Global,
    positive: bool,
    listed: &[ClassId],
    atom: &Atom,
    classes: &ClassRows,
    names: &N,
) -> Result<Kept, NoMemory>
    ensures value { IfOk result (λ kept. kept ≡ spec.side positive (spec.subclass_row classes.now listed.now (out-Atom atom.now))) }
    ensures free { OnErr result (spec.IsOthers (spec.side positive (spec.subclass_row classes.now listed.now (out-Atom atom.now)))) }
{
    match atom {
        Atom::Class(class) => class_side(
            alloc,
            positive,
            Standing::Class,
            listed,
            *class,
            classes,
            names,
        ),
        Atom::Unknown => all_listed(alloc, positive, Standing::Class, listed, names),
        _ => Ok(only_false(positive)),
    }
}

/// The instances of a class where the test is true, and the member itself where it is false.
fn becomes_instances<N: Names>(
    alloc: Global,
    positive: bool,
    class: ClassId,
    names: &N,
) -> Result<Kept, NoMemory>
    ensures value { IfOk result (λ kept. kept ≡ spec.side positive (spec.becomes (ground.instances (N.names names.now) class))) }
    ensures free { OnErr result (spec.IsOthers (spec.side positive (spec.becomes (ground.instances (N.names names.now) class)))) }
{
    if !positive {
        return Ok(Kept::Itself);
    }
    let mut atoms = Vec::new(alloc);
    push_instances(alloc, &mut atoms, class, names)?;
    Kept::instead_of(atoms)
}

/// What `type(x) is T` keeps of a member with a class.
fn exact_of_class<N: Names>(
    alloc: Global,
    positive: bool,
    exact: ClassId,
    class: ClassId,
    classes: &ClassRows,
    names: &N,
) -> Result<Kept, NoMemory>
    ensures value { IfOk result (λ kept. kept ≡ spec.side positive (spec.exact_row classes.now (N.names names.now) exact (Some class))) }
    ensures free { OnErr result (spec.IsOthers (spec.side positive (spec.exact_row classes.now (N.names names.now) exact (Some class)))) }
{
    if classes.is_open(class) || class == exact {
        return Ok(Kept::Itself);
    }
    if classes.is_sub(exact, class) {
        return becomes_instances(alloc, positive, exact, names);
    }
    Ok(only_false(positive))
}

/// What `type(x) is T` keeps.
pub(crate) fn exact_side<N: Names>(
    alloc: Global,
    positive: bool,
    exact: ClassId,
    atom: &Atom,
    classes: &ClassRows,
    names: &N,
) -> Result<Kept, NoMemory>
    ensures value { IfOk result (λ kept. kept ≡ spec.side positive (spec.exact_row classes.now (N.names names.now) exact (ground.class_of atom.now))) }
    ensures free { OnErr result (spec.IsOthers (spec.side positive (spec.exact_row classes.now (N.names names.now) exact (ground.class_of atom.now)))) }
{
    match class_of(atom) {
        Some(class) => exact_of_class(alloc, positive, exact, class, classes, names),
        None => becomes_instances(alloc, positive, exact, names),
    }
}

/// What `callable(x)` keeps. Takes no memory.
pub(crate) fn callable_side(positive: bool, atom: &Atom, classes: &ClassRows) -> Kept
    ensures { result ≡ spec.side positive (spec.callable_level classes.now atom.now (out-Atom atom.now)) }
{
    if is_object(atom) {
        return Kept::Itself;
    }
    match class_of(atom) {
        Some(class) => only_true(positive == can_be_called(class, classes)),
        None => Kept::Itself,
    }
}

/// Whether the member is an instance of `object` itself.
#[tactic(auto, using(crate::proofs::OutOf::outs))]
fn is_object(atom: &Atom) -> bool
    ensures { result ≡ spec.is_object (out-Atom atom.now) }
{
    match atom {
        Atom::Inst(class) => *class == Builtin::Object.id(),
        _ => false,
    }
}

/// Whether the instances of a class can be called.
fn can_be_called(class: ClassId, classes: &ClassRows) -> bool
    ensures { result ≡ spec.can_be_called classes.now class }
{
    classes.is_sub(class, Builtin::Callable.id()) || has_call(class, classes)
}
