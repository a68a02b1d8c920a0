//! The greatest set of questions that supports itself.
ghost use Rattle.std.specs.Prelude.{◌≡◌, ◌↔◌, ◌<◌, ◌≤◌, ℕ, [], true, false, length, replicate, slice_index_or, IsTrue, IfOk};
ghost use Rattle.std.specs.List.{list_any, list_all};
ghost use Rattle.assign_rules.specs.Greatest.{is_marked, IsMarked, HoldsBy, KeepsEach, count, IsInGreatest};

use crate::asked::Clauses;
use py_base::{List, NoMemory};
use std::alloc::Global;

/// Whether the question at this place is still in the set.
fn is_in(set: &[bool], place: usize) -> bool
    ensures { result ≡ is_marked set.now place }
{
    match set.get(place) {
        Some(is_in) => *is_in,
        None => false,
    }
}

fn has_all(set: &[bool], way: &List<usize>) -> bool
    ensures { result ≡ list_all (is_marked set.now) way.now }
{
    way.as_slice().iter().all(|place| is_in(set, *place))
}

fn has_way(set: &[bool], ways: &List<List<usize>>) -> bool
    ensures { result ≡ list_any (list_all (is_marked set.now)) ways.now }
{
    ways.as_slice().iter().any(|way| has_all(set, way))
}

fn holds(set: &[bool], clauses: &Clauses) -> bool
    ensures { result ≡ list_all (list_any (list_all (is_marked set.now))) clauses.now }
{
    clauses.as_slice().iter().all(|ways| has_way(set, ways))
}

/// Takes the question at this place away where it doesn't hold by those of the set. Whether it was taken away.
fn take_one_away(clauses: &[Clauses], place: usize, set: &mut List<bool>) -> bool
    requires { place < length clauses.now }
    ensures length { length set.new ≡ length set.old }
    ensures keeps { KeepsEach clauses.now set.old set.new }
    ensures fewer { result ≡ true → count set.new < count set.old }
    ensures same { result ≡ false → set.new ≡ set.old }
    ensures holds { result ≡ false → IsMarked set.old place → HoldsBy set.old (slice_index_or clauses.now place []) }
{
    if !is_in(set.as_slice(), place) {
        return false;
    }
    if holds(set.as_slice(), &clauses[place]) {
        return false;
    }
    set.set(place, false);
    true
}

/// Takes each question away that doesn't hold by those of the set, the last one first, since a question stands mostly before
/// those that it needs. Whether one was taken away.
fn take_away(clauses: &[Clauses], set: &mut List<bool>) -> bool
    ensures length { length set.new ≡ length set.old }
    ensures keeps { KeepsEach clauses.now set.old set.new }
    ensures fewer { result ≡ true → count set.new < count set.old }
    ensures holds { result ≡ false → (p : ℕ) → p < length clauses.now → IsMarked set.new p → HoldsBy set.new (slice_index_or clauses.now p []) }
{
    let mut has_changed = false;
    let mut left = clauses.len();
    'places: while left > 0 {
        left -= 1;
        has_changed = take_one_away(clauses, left, set) || has_changed;
    }
    has_changed
}

/// As many marks as there are questions.
fn all_marks(alloc: Global, clauses: &[Clauses]) -> Result<List<bool>, NoMemory>
    ensures { IfOk result (λ marks. marks ≡ replicate (length clauses.now) true) }
{
    match vec![in alloc; true; clauses.len()] {
        Ok(marks) => Ok(List::from_vec(marks)),
        Err(_) => Err(NoMemory),
    }
}

/// Whether the first question is in the greatest set that supports itself, where each has these clauses.
pub(crate) fn holds_first(alloc: Global, clauses: &[Clauses]) -> Result<bool, NoMemory>
    ensures { IfOk result (λ r. IsTrue r ↔ IsInGreatest clauses.now 0) }
{
    let mut set = all_marks(alloc, clauses)?;
    'passes: while take_away(clauses, &mut set) {}
    Ok(is_in(set.as_slice(), 0))
}
