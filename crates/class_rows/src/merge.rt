//! The merge of C3. A count tells how often each class stands behind the head of a list: a head may be
//! taken where that count is zero. Each class knows the lists that have it, and the lists whose heads
//! may be taken wait in a set, so that no list is looked at but where its head changes.
ghost use Rattle.std.specs.Prelude.{◌≡◌, ◌==◌, ◌<◌, ◌+◌, ◌^◌, ◌≤◌, ◌↔◌, ◌||◌, ℕ, true, false, List, [], ◌∷◌, length, drop, map, set, All, slice_index, slice_index_or, IfOk, IfSome, OnOk, MatchOption, IsTrue};
ghost use Rattle.std.specs.BTreeSet.{contains};
ghost use Rattle.std.specs.Ordering.{nat_cmp};
ghost use Rattle.class_rows.specs.Merge.{has, heads, pick, without, is_good, IsMergeBehind, HasMerge};
ghost use Rattle.class_rows.specs.Waits.{occurrences, waiting, free_in, has_place, AreWaits, AreBelow, AreHeld, AreNoted, AreReady, Frees, IsFirst};

use crate::remainder::Remainder;
use py_base::{ClassId, List, NoMemory};
use std::alloc::{AllocFailed, Global};
use std::collections::BTreeSet;

/// Want of memory for a place, which is let go.
fn lost(_failed: AllocFailed<usize>) -> NoMemory {
    NoMemory
}

/// Counts each of the classes once more. `waits` has a place for each class.
fn count(waits: &mut [usize], classes: &[ClassId])
    requires below { AreBelow (length waits.old) classes.now }
    requires fits { (n : ℕ) → n < length waits.old → slice_index waits.old n + occurrences n classes.now < 2 ^ 64 }
    ensures length { length waits.new ≡ length waits.old }
    ensures counts { (n : ℕ) → n < length waits.old → slice_index waits.new n ≡ slice_index waits.old n + occurrences n classes.now }
{
    for class in classes {
        waits[class.0 as usize] += 1;
    }
}

/// Counts each of the classes once less.
fn uncount(waits: &mut [usize], classes: &[ClassId])
    requires below { AreBelow (length waits.old) classes.now }
    requires enough { (n : ℕ) → n < length waits.old → occurrences n classes.now ≤ slice_index waits.old n }
    ensures length { length waits.new ≡ length waits.old }
    ensures counts { (n : ℕ) → n < length waits.old → slice_index waits.new n + occurrences n classes.now ≡ slice_index waits.old n }
{
    for class in classes {
        waits[class.0 as usize] -= 1;
    }
}

/// Notes for each of the classes that the list at this place has it.
fn note(holders: &mut [List<usize>], classes: &[ClassId], place: usize) -> Result<(), NoMemory>
    requires below { AreBelow (length holders.old) classes.now }
    ensures length { length holders.new ≡ length holders.old }
    ensures noted { OnOk result (AreNoted classes.now place holders.old holders.new) }
{
    for class in classes {
        holders[class.0 as usize].push(place)?;
    }
    Ok(())
}

/// Notes for each class which lists have it.
fn note_all(holders: &mut [List<usize>], lists: &[Remainder]) -> Result<(), NoMemory>
    requires below { All (AreBelow (length holders.old)) lists.now }
    ensures length { length holders.new ≡ length holders.old }
    ensures held { OnOk result (AreHeld holders.new lists.now) }
{
    for (place, list) in lists.iter().enumerate() {
        note(holders, list.rest(), place)?;
    }
    Ok(())
}

/// Forgets which lists have these classes.
fn forget(alloc: Global, holders: &mut [List<usize>], classes: &[ClassId])
    ensures { length holders.new ≡ length holders.old }
{
    for class in classes {
        if let Some(places) = holders.get_mut(class.0 as usize) {
            *places = List::new(alloc);
        }
    }
}

/// Forgets which lists have which classes.
fn forget_all(alloc: Global, holders: &mut [List<usize>], lists: &[Remainder])
    ensures { length holders.new ≡ length holders.old }
{
    for list in lists {
        forget(alloc, holders, list.all());
    }
}

/// The head of a list, if it waits for no other class.
fn free_head(list: &Remainder, waits: &[usize]) -> Option<ClassId>
    requires below { AreBelow (length waits.now) list.now }
    ensures { result ≡ free_in waits.now list.now }
{
    match list.head() {
        Some(head) if waits[head.0 as usize] == 0 => Some(head),
        _ => None,
    }
}

/// The first of the places.
fn first_place(places: &BTreeSet<usize>) -> Option<usize>
    ensures first { IsFirst places.now result }
    ensures member { IfSome result (λ place. contains nat_cmp places.now place ≡ true) }
{
    places.first().copied()
}

/// The first head that waits for no other class. Lists whose heads wait are no longer ready.
fn pick_head(ready: &mut BTreeSet<usize>, lists: &[Remainder], waits: &[usize]) -> Option<ClassId>
    requires below { All (AreBelow (length waits.now)) lists.now }
    requires waits { AreWaits waits.now lists.now }
    requires ready { AreReady waits.now lists.now ready.old }
    ensures pick { result ≡ pick lists.now }
    ensures ready { AreReady waits.now lists.now ready.new }
{
    while let Some(place) = first_place(ready) {
        if let Some(list) = lists.get(place) {
            if let Some(head) = free_head(list, waits) {
                return Some(head);
            }
        }
        ready.remove(&place);
    }
    None
}

/// The first of the classes, if there is one, waits for one less. Gives it where it then waits for
/// none.
fn release_first(waits: &mut [usize], classes: &[ClassId]) -> Option<ClassId>
    requires below { AreBelow (length waits.old) classes.now }
    requires enough { (n : ℕ) → n < length waits.old → occurrences n classes.now ≤ slice_index waits.old n }
    ensures length { length waits.new ≡ length waits.old }
    ensures counts { (n : ℕ) → n < length waits.old → slice_index waits.new n + occurrences n classes.now ≡ slice_index waits.old n + occurrences n (drop 1 classes.now) }
    ensures freed { Frees waits.old waits.new result }
{
    let first = *classes.first()?;
    waits[first.0 as usize] -= 1;
    if waits[first.0 as usize] > 0 {
        return None;
    }
    Some(first)
}

/// Takes a good class away from a list. The class behind it then waits for one less; gives it where
/// it waits for none.
fn take_from(list: &mut Remainder, waits: &mut [usize], class: ClassId) -> Option<ClassId>
    requires below { AreBelow (length waits.old) list.old }
    requires good { has class (drop 1 list.old) ≡ false }
    requires enough { (n : ℕ) → n < length waits.old → occurrences n (drop 1 list.old) ≤ slice_index waits.old n }
    ensures list { list.new ≡ without class list.old }
    ensures length { length waits.new ≡ length waits.old }
    ensures counts { (n : ℕ) → n < length waits.old → slice_index waits.new n + occurrences n (drop 1 list.old) ≡ slice_index waits.old n + occurrences n (drop 1 list.new) }
    ensures freed { Frees waits.old waits.new result }
{
    if list.begins_with(class) {
        let freed = release_first(waits, list.tail());
        list.take_head();
        freed
    } else {
        None
    }
}

/// Counts, for each class, how often it stands in the tails of the lists.
fn count_tails(lists: &[Remainder], waits: &mut [usize])
    requires below { All (AreBelow (length waits.old)) lists.now }
    requires clear { AreWaits waits.old [] }
    requires fits { (n : ℕ) → waiting n lists.now < 2 ^ 64 }
    ensures length { length waits.new ≡ length waits.old }
    ensures waits { AreWaits waits.new lists.now }
{
    for list in lists {
        count(waits, list.tail());
    }
}

/// Takes back what was counted of the tails of the lists.
fn uncount_tails(lists: &[Remainder], waits: &mut [usize])
    requires below { All (AreBelow (length waits.old)) lists.now }
    requires waits { AreWaits waits.old lists.now }
    ensures length { length waits.new ≡ length waits.old }
    ensures clear { AreWaits waits.new [] }
{
    for list in lists {
        uncount(waits, list.tail());
    }
}

/// Takes a good class away from the list at a place, as `take_from`.
fn take_at(
    lists: &mut [Remainder],
    place: usize,
    waits: &mut [usize],
    class: ClassId,
) -> Option<ClassId>
    requires below { All (AreBelow (length waits.old)) lists.old }
    requires waits { AreWaits waits.old lists.old }
    requires good { has class (drop 1 (slice_index_or lists.old place [])) ≡ false }
    ensures lists { lists.new ≡ set lists.old place (without class (slice_index_or lists.old place [])) }
    ensures length { length waits.new ≡ length waits.old }
    ensures waits { AreWaits waits.new lists.new }
    ensures freed { Frees waits.old waits.new result }
{
    if place >= lists.len() {
        return None;
    }
    take_from(&mut lists[place], waits, class)
}

/// The places of the lists that have the class.
fn places_of(holders: &[List<usize>], class: ClassId) -> &[usize]
    ensures { result.now ≡ slice_index_or holders.now class.0 [] }
{
    match holders.get(class.0 as usize) {
        Some(places) => places.as_slice(),
        None => &[],
    }
}

/// Makes the lists at these places ready.
fn make_ready(ready: &mut BTreeSet<usize>, places: &[usize]) -> Result<(), NoMemory>
    ensures { OnOk result ((k : ℕ) → contains nat_cmp ready.new k ≡ (contains nat_cmp ready.old k || has_place k places.now)) }
{
    for place in places {
        ready.insert(*place).map_err(lost)?;
    }
    Ok(())
}

/// Takes a good class away from all lists.
fn take_class(
    lists: &mut [Remainder],
    waits: &mut [usize],
    holders: &[List<usize>],
    ready: &mut BTreeSet<usize>,
    class: ClassId,
) -> Result<(), NoMemory>
    requires below { All (AreBelow (length waits.old)) lists.old }
    requires waits { AreWaits waits.old lists.old }
    requires held { AreHeld holders.now lists.old }
    requires ready { AreReady waits.old lists.old ready.old }
    requires good { is_good lists.old class ≡ true }
    ensures length { length waits.new ≡ length waits.old }
    ensures lists { OnOk result (lists.new ≡ map (without class) lists.old) }
    ensures waits { OnOk result (AreWaits waits.new lists.new) }
    ensures held { OnOk result (AreHeld holders.now lists.new) }
    ensures ready { OnOk result (AreReady waits.new lists.new ready.new) }
{
    for place in places_of(holders, class) {
        if let Some(freed) = take_at(lists, *place, waits, class) {
            make_ready(ready, places_of(holders, freed))?;
        }
    }
    Ok(())
}

/// Whether nothing is left of the lists.
fn are_exhausted(lists: &[Remainder]) -> bool
    ensures { IsTrue result ↔ (heads lists.now ≡ []) }
{
    for list in lists {
        if list.head().is_some() {
            return false;
        }
    }
    true
}

/// All places below a number.
fn places_below(alloc: Global, count: usize) -> Result<BTreeSet<usize>, NoMemory>
    ensures { IfOk result (λ places. (k : ℕ) → k < count → contains nat_cmp places k ≡ true) }
{
    let mut places = BTreeSet::new(alloc);
    for place in 0..count {
        places.insert(place).map_err(lost)?;
    }
    Ok(places)
}

/// A list with this class alone.
pub(crate) fn list_of_one(alloc: Global, class: ClassId) -> Result<List<ClassId>, NoMemory>
    ensures { IfOk result (λ list. list ≡ class ∷ []) }
{
    let mut list = List::new(alloc);
    list.push(class)?;
    Ok(list)
}

/// The class and behind it the merge of the lists, and `None` exactly where they have no merge. Uses
/// up the lists.
///
/// `waits` and `holders` have a place for each class. `waits` holds zeros before the call and, unless
/// memory ran out, behind it. The merge takes about as many steps as there are classes in the lists.
pub(crate) fn merge(
    alloc: Global,
    first: ClassId,
    lists: &mut [Remainder],
    waits: &mut [usize],
    holders: &mut [List<usize>],
) -> Result<Option<List<ClassId>>, NoMemory>
    requires below { All (AreBelow (length waits.old)) lists.old }
    requires held { All (AreBelow (length holders.old)) lists.old }
    requires clear { AreWaits waits.old [] }
    requires fits { (n : ℕ) → waiting n lists.old < 2 ^ 64 }
    ensures length { length waits.new ≡ length waits.old }
    ensures holders { length holders.new ≡ length holders.old }
    ensures clear { OnOk result (AreWaits waits.new []) }
    ensures merge { IfOk result (λ merge. MatchOption merge (¬ HasMerge lists.old) (IsMergeBehind first lists.old)) }
{
    note_all(holders, lists)?;
    count_tails(lists, waits);
    let mut ready = places_below(alloc, lists.len())?;
    let mut order = list_of_one(alloc, first)?;
    while let Some(class) = pick_head(&mut ready, lists, waits) {
        order.push(class)?;
        take_class(lists, waits, holders, &mut ready, class)?;
    }
    forget_all(alloc, holders, lists);
    if are_exhausted(lists) {
        return Ok(Some(order));
    }
    uncount_tails(lists, waits);
    Ok(None)
}
