//! The order of one class.
ghost use Rattle.std.specs.Prelude.{◌≡◌, ◌++◌, [], ◌∷◌, ◌≤◌, ◌<◌, ℕ, false, length, map, IfOk, OnOk, MatchOption};
ghost use Rattle.py_base.specs.Builtins.{id_of};
ghost use Rattle.class_rows.specs.Merge.{has, IsMergeBehind};
ghost use Rattle.class_rows.specs.Rows.{order_of, merged_lists, HasOrder};
ghost use Rattle.class_rows.specs.Table.{IsTable};
ghost use Rattle.class_rows.specs.Waits.{AreBelow, AreWaits};

use crate::merge::{list_of_one, merge};
use crate::remainder::Remainder;
use crate::row::Row;
use py_base::{Builtin, ClassId, List, NoMemory};
use std::alloc::Global;

/// A list of its own with these classes.
fn copied(alloc: Global, classes: &[ClassId]) -> Result<Vec<ClassId>, NoMemory>
    ensures { IfOk result (λ copy. copy.items ≡ classes.now) }
{
    match Vec::from_slice(alloc, classes) {
        Ok(copy) => Ok(copy),
        Err(_) => Err(NoMemory),
    }
}

/// A copy of the order of a class.
fn order_of_class(alloc: Global, rows: &[Row], class: ClassId) -> Result<Vec<ClassId>, NoMemory>
    requires { class.0 < length rows.now }
    ensures { IfOk result (λ order. order.items ≡ order_of rows.now class) }
{
    copied(alloc, rows[class.0 as usize].order())
}

/// What is merged for a class with these bases: the order of each, and the list of them.
fn lists_to_merge(
    alloc: Global,
    rows: &[Row],
    bases: &[ClassId],
) -> Result<Vec<Remainder>, NoMemory>
    requires { AreBelow (length rows.now) bases.now }
    ensures { IfOk result (λ lists. lists.items ≡ merged_lists (order_of rows.now) bases.now) }
{
    let mut lists = List::new(alloc);
    for base in bases {
        let order = order_of_class(alloc, rows, *base)?;
        lists.push(Remainder::new(order))?;
    }
    lists.push(Remainder::new(copied(alloc, bases)?))?;
    Ok(lists.into_vec())
}

/// The class and behind it the order of its one base.
fn order_behind(
    alloc: Global,
    rows: &[Row],
    class: ClassId,
    base: ClassId,
) -> Result<List<ClassId>, NoMemory>
    requires { base.0 < length rows.now }
    ensures { IfOk result (λ order. order ≡ class ∷ order_of rows.now base) }
{
    let mut order = list_of_one(alloc, class)?;
    for above in rows[base.0 as usize].order() {
        order.push(*above)?;
    }
    Ok(order)
}

/// The order of a class with these bases, and `None` exactly where they give none: where one of them
/// is `bool`, which no class may extend, or where the orders of the bases and the list of them have
/// no merge. `waits` and `holders` are as for
/// `merge`.
pub(crate) fn linearize(
    alloc: Global,
    rows: &[Row],
    class: ClassId,
    bases: &[ClassId],
    waits: &mut [usize],
    holders: &mut [List<usize>],
) -> Result<Option<List<ClassId>>, NoMemory>
    requires table { IsTable rows.now }
    requires below { AreBelow (length rows.now) bases.now }
    requires places { length rows.now ≤ length waits.old }
    requires held { length rows.now ≤ length holders.old }
    requires clear { AreWaits waits.old [] }
    ensures length { length waits.new ≡ length waits.old }
    ensures holders { length holders.new ≡ length holders.old }
    ensures clear { OnOk result (AreWaits waits.new []) }
    ensures order { IfOk result (λ found. MatchOption found (HasOrder (merged_lists (order_of rows.now) bases.now) bases.now → ⊥) (λ order. (has (id_of Builtin.Bool) bases.now ≡ false) × IsMergeBehind class (merged_lists (order_of rows.now) bases.now) order)) }
{
    if bases.contains(&Builtin::Bool.id()) {
        return Ok(None);
    }
    // The order of a lone base is the merge as it stands.
    if let [base] = bases {
        let order = order_behind(alloc, rows, class, *base)?;
        return Ok(Some(order));
    }
    let mut lists = lists_to_merge(alloc, rows, bases)?;
    merge(alloc, class, &mut lists, waits, holders)
}
