//! What a test keeps of a member: the table of tests.
ghost use Rattle.std.specs.Prelude.{◌≡◌, map, not, true, false, IfOk, OnErr};
ghost use Rattle.narrow_rules.specs.Ground.{set_members};
ghost use Rattle.narrow_rules.specs.Keep as spec;

use crate::classes::{callable_side, exact_side, instance_side, subclass_side};
use crate::ground::{is_set, push_set};
use crate::literals::{entry_side, equal_side, literal_side, none_side};
use crate::sides::{Kept, only_true};
use crate::truth::truth_side;
use crate::written::{guard_both_side, guard_side};
use class_rows::ClassRows;
use py_base::{ClassId, NoMemory};
use std::alloc::Global;
use type_terms::facts::Facts;
use type_terms::{Atom, Test, Type};

/// What all entries of `x in (..)` together keep where it is true.
fn any_entry(alloc: Global, entries: &[Atom], atom: &Atom) -> Result<Kept, NoMemory>
    ensures value { IfOk result (λ kept. kept ≡ spec.several (map spec.entry_keeps entries.now) true atom.now) }
    ensures free { OnErr result (spec.IsOthers (spec.several (map spec.entry_keeps entries.now) true atom.now)) }
{
    let mut kept = Kept::Nothing;
    for entry in entries {
        let more = entry_side(alloc, true, entry, atom)?;
        kept = kept.both(alloc, atom, more)?;
    }
    Ok(kept)
}

/// Whether the member is this entry of `x in (..)`, so that the false side drops it.
#[tactic(auto, using(crate::proofs::OutOf::outs))]
fn is_entry(entry: &Atom, atom: &Atom) -> bool
    ensures { spec.entry_keeps entry.now false atom.now ≡ spec.side (not result) spec.only_true }
{
    match entry {
        Atom::None => matches!(atom, Atom::None),
        _ => atom == entry,
    }
}

/// What the entries of `x in (..)`, one after the other, keep where it is false: the member, unless it
/// is one of them.
fn no_entry(entries: &[Atom], atom: &Atom) -> Kept
    ensures { result ≡ spec.several (map spec.entry_keeps entries.now) false atom.now }
{
    for entry in entries {
        if is_entry(entry, atom) {
            return Kept::Nothing;
        }
    }
    Kept::Itself
}

/// What a test leaves of a member on one side, by the table.
#[cycle(kept)]
#[tactic(auto, using(crate::proofs::OutOfTest::tests), unfolding(crate::specs::Keep::by_table))]
fn by_table<F: Facts>(
    alloc: Global,
    test: &Test,
    positive: bool,
    atom: &Atom,
    classes: &ClassRows,
    facts: &F,
) -> Result<Kept, NoMemory>
    ensures value { IfOk result (λ kept. kept ≡ spec.by_table classes.now (F.names facts.now) test.now positive atom.now) }
    ensures free { OnErr result (spec.IsOthers (spec.by_table classes.now (F.names facts.now) test.now positive atom.now)) }
{
    match test {
        Test::IsNone => none_side(alloc, positive, atom),
        Test::IsLit(literal) => literal_side(alloc, positive, literal, atom, classes),
        Test::EqualsLit(literal) => equal_side(alloc, positive, literal, atom),
        Test::Instance(listed) => {
            instance_side(alloc, positive, listed.as_slice(), atom, classes, facts)
        }
        Test::Subclass(listed) => {
            subclass_side(alloc, positive, listed.as_slice(), atom, classes, facts)
        }
        Test::ExactClass(class) => exact_side(alloc, positive, *class, atom, classes, facts),
        Test::CanCall => Ok(callable_side(positive, atom, classes)),
        Test::Guard(ty) => guard_side(alloc, positive, ty),
        Test::GuardBoth(ty) => guard_both_side(alloc, positive, ty, atom, classes),
        Test::Truthy => truth_side(alloc, positive, atom, classes),
        Test::Within(entries) => {
            if positive {
                any_entry(alloc, entries.as_slice(), atom)
            } else {
                Ok(no_entry(entries.as_slice(), atom))
            }
        }
        Test::Swapped(test) => kept(alloc, test.get(), !positive, atom, classes, facts),
        Test::KeepBoth => Ok(Kept::Itself),
        Test::KeepTrue => Ok(only_true(positive)),
        Test::WithParts(class) => {
            if positive {
                instance_side(alloc, true, &[*class], atom, classes, facts)
            } else {
                Ok(Kept::Itself)
            }
        }
        Test::Either(tests) => {
            if positive {
                any_true(alloc, tests.as_slice(), atom, classes, facts)
            } else {
                all_false(alloc, tests.as_slice(), atom, classes, facts)
            }
        }
    }
}

/// What the true sides of tests together leave of a member.
#[cycle(kept)]
fn any_true<F: Facts>(
    alloc: Global,
    tests: &[Test],
    atom: &Atom,
    classes: &ClassRows,
    facts: &F,
) -> Result<Kept, NoMemory>
    ensures value { IfOk result (λ kept. kept ≡ spec.several (map (spec.kept classes.now (F.names facts.now)) tests.now) true atom.now) }
    ensures free { OnErr result (spec.IsOthers (spec.several (map (spec.kept classes.now (F.names facts.now)) tests.now) true atom.now)) }
{
    let mut so_far = Kept::Nothing;
    for test in tests {
        let more = kept(alloc, test, true, atom, classes, facts)?;
        so_far = so_far.both(alloc, atom, more)?;
    }
    Ok(so_far)
}

/// What the false sides of tests leave of a member, one after the other.
#[cycle(kept)]
fn all_false<F: Facts>(
    alloc: Global,
    tests: &[Test],
    atom: &Atom,
    classes: &ClassRows,
    facts: &F,
) -> Result<Kept, NoMemory>
    ensures value { IfOk result (λ kept. kept ≡ spec.several (map (spec.kept classes.now (F.names facts.now)) tests.now) false atom.now) }
    ensures free { OnErr result (spec.IsOthers (spec.several (map (spec.kept classes.now (F.names facts.now)) tests.now) false atom.now)) }
{
    let mut left = Kept::Itself;
    for test in tests {
        left = false_of(alloc, test, atom, left, classes, facts)?;
    }
    Ok(left)
}

/// What the false side of a test leaves of what others have left of a member.
#[cycle(kept)]
fn false_of<F: Facts>(
    alloc: Global,
    test: &Test,
    atom: &Atom,
    left: Kept,
    classes: &ClassRows,
    facts: &F,
) -> Result<Kept, NoMemory>
    ensures value { IfOk result (λ kept. kept ≡ spec.of_kept (spec.kept classes.now (F.names facts.now) test.now false) atom.now left) }
    ensures free { OnErr result (spec.IsOthers (spec.of_kept (spec.kept classes.now (F.names facts.now) test.now false) atom.now left)) }
{
    match left {
        Kept::Itself => kept(alloc, test, false, atom, classes, facts),
        Kept::Nothing => Ok(Kept::Nothing),
        Kept::Others(others) => { of_each(alloc, test, false, others.members(), classes, facts) }
    }
}

/// What a test leaves of each of these members.
#[cycle(kept)]
fn of_each<F: Facts>(
    alloc: Global,
    test: &Test,
    positive: bool,
    others: &[Atom],
    classes: &ClassRows,
    facts: &F,
) -> Result<Kept, NoMemory>
    ensures { IfOk result (λ kept. kept ≡ spec.of_each (spec.kept classes.now (F.names facts.now) test.now positive) others.now) }
{
    let mut atoms = Vec::new(alloc);
    for other in others {
        let left = kept(alloc, test, positive, other, classes, facts)?;
        left.push_members(alloc, other, &mut atoms)?;
    }
    Ok(Kept::Others(Type::of(atoms)?))
}

/// What a test leaves of an instance of a class: of the set of its members, where the class has one.
#[cycle(kept)]
fn of_instance<F: Facts>(
    alloc: Global,
    test: &Test,
    positive: bool,
    class: ClassId,
    atom: &Atom,
    classes: &ClassRows,
    facts: &F,
) -> Result<Kept, NoMemory>
    ensures value { IfOk result (λ kept. kept ≡ spec.as_set (spec.by_table classes.now (F.names facts.now) test.now positive) atom.now (set_members (F.names facts.now) class)) }
    ensures free { OnErr result (spec.IsOthers (spec.as_set (spec.by_table classes.now (F.names facts.now) test.now positive) atom.now (set_members (F.names facts.now) class))) }
{
    if !is_set(class, facts) {
        return by_table(alloc, test, positive, atom, classes, facts);
    }
    let mut members = Vec::new(alloc);
    push_set(&mut members, class, facts)?;
    of_set(alloc, test, positive, members.as_slice(), classes, facts)
}

/// What the row of a test leaves of each of these literals.
#[cycle(kept)]
fn of_set<F: Facts>(
    alloc: Global,
    test: &Test,
    positive: bool,
    literals: &[Atom],
    classes: &ClassRows,
    facts: &F,
) -> Result<Kept, NoMemory>
    ensures { IfOk result (λ kept. kept ≡ spec.of_each (spec.by_table classes.now (F.names facts.now) test.now positive) literals.now) }
{
    let mut atoms = Vec::new(alloc);
    for literal in literals {
        let left = by_table(alloc, test, positive, literal, classes, facts)?;
        left.push_members(alloc, literal, &mut atoms)?;
    }
    Ok(Kept::Others(Type::of(atoms)?))
}

/// What a test leaves of a member on one side: `positive` for where it is true.
///
/// No value is kept by every test, and an instance of `bool` or of an enum with members is the set of
/// its members. Takes no memory where the member itself is left or is dropped: `NoMemory` comes only
/// where others stand in its place, be it for a while, and could not be stored.
#[cycle(kept)]
#[tactic(auto, using(crate::proofs::OutOf::outs, crate::proofs::KeptLemmas::kept_level))]
pub fn kept<F: Facts>(
    alloc: Global,
    test: &Test,
    positive: bool,
    atom: &Atom,
    classes: &ClassRows,
    facts: &F,
) -> Result<Kept, NoMemory>
    ensures value { IfOk result (λ kept. kept ≡ spec.kept classes.now (F.names facts.now) test.now positive atom.now) }
    ensures free { OnErr result (spec.IsOthers (spec.kept classes.now (F.names facts.now) test.now positive atom.now)) }
{
    match atom {
        Atom::Unbound => Ok(Kept::Itself),
        Atom::Open => Ok(Kept::Itself),
        Atom::Here => Ok(Kept::Itself),
        Atom::Inst(class) => of_instance(alloc, test, positive, *class, atom, classes, facts),
        _ => by_table(alloc, test, positive, atom, classes, facts),
    }
}

/// What a test leaves of a member on one side, as a type. `NoMemory` where it could not be stored, and
/// never where the member is dropped.
pub fn keep<F: Facts>(
    alloc: Global,
    test: &Test,
    positive: bool,
    atom: &Atom,
    classes: &ClassRows,
    facts: &F,
) -> Result<Type, NoMemory>
    ensures value { IfOk result (λ ty. ty ≡ spec.keep classes.now (F.names facts.now) test.now positive atom.now) }
    ensures free { OnErr result (spec.IsLeft (spec.kept classes.now (F.names facts.now) test.now positive atom.now)) }
{
    kept(alloc, test, positive, atom, classes, facts)?.into_type(alloc, atom)
}
