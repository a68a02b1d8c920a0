//! How the rows come to be, one class after another.
ghost use Rattle.std.specs.Prelude.{◌≡◌, ◌≤◌, ◌<◌, ◌+◌, ◌^◌, [], ◌∷◌, length, map, replicate, unwrap_or, IfOk, OnOk};
ghost use Rattle.py_base.specs.Builtins.{builtin_count, id_of};
ghost use Rattle.class_rows.specs.Classes.{class_of, BasesAreEarlier};
ghost use Rattle.class_rows.specs.Rows.{order_of, IsRow, IsRows};
ghost use Rattle.class_rows.specs.Orders.{builtin_row, builtin_rows};
ghost use Rattle.class_rows.specs.Table.{IsTable};
ghost use Rattle.class_rows.specs.Waits.{AreBelow, AreWaits};

use crate::bases::{bases_of, has_unknown};
use crate::builtin_orders::ORDERS;
use crate::head::ClassHead;
use crate::linear::linearize;
use crate::members::by_name;
use crate::merge::list_of_one;
use crate::row::Row;
use py_base::{Builtin, ClassId, List, NoMemory};
use std::alloc::Global;
use std::collections::BTreeMap;

/// The numbers of builtin classes. `NoMemory` where they could not be stored.
fn ids(alloc: Global, builtins: &[Builtin]) -> Result<List<ClassId>, NoMemory>
    ensures { IfOk result (λ classes. classes ≡ map id_of builtins.now) }
{
    let mut classes = List::new(alloc);
    for builtin in builtins {
        classes.push(builtin.id())?;
    }
    Ok(classes)
}

/// The row of the builtin class that this order begins with.
fn row_of_builtin(alloc: Global, order: &[Builtin]) -> Result<Row, NoMemory>
    ensures { IfOk result (λ row. row ≡ builtin_row order.now) }
{
    let order = ids(alloc, order)?;
    Ok(Row::new(order, true, false, false, BTreeMap::new(alloc)))
}

/// The rows of the builtin classes that these orders begin with.
fn rows_by_orders(alloc: Global, orders: &[&[Builtin]]) -> Result<List<Row>, NoMemory>
    ensures { IfOk result (λ rows. rows ≡ map (λ order. builtin_row order.now) orders.now) }
{
    let mut rows = List::new(alloc);
    for order in orders {
        rows.push(row_of_builtin(alloc, *order)?)?;
    }
    Ok(rows)
}

/// The order of a class where its bases give one, or else itself and `object`.
fn or_makeshift(
    alloc: Global,
    class: ClassId,
    found: Option<List<ClassId>>,
) -> Result<List<ClassId>, NoMemory>
    ensures { IfOk result (λ order. order ≡ unwrap_or found (class ∷ id_of Builtin.Object ∷ [])) }
{
    if let Some(order) = found {
        return Ok(order);
    }
    let mut order = list_of_one(alloc, class)?;
    order.push(Builtin::Object.id())?;
    Ok(order)
}

/// The row of a class of the file, where `rows` are those of the classes before it. `waits` and
/// `holders` are as for `merge`.
fn file_row(
    alloc: Global,
    rows: &[Row],
    head: &ClassHead,
    waits: &mut [usize],
    holders: &mut [List<usize>],
) -> Result<Row, NoMemory>
    requires few { length rows.now < 2 ^ 32 }
    requires table { IsTable rows.now }
    requires below { AreBelow (length rows.now) (class_of head.now).bases }
    requires places { length rows.now ≤ length waits.old }
    requires held { length rows.now ≤ length holders.old }
    requires clear { AreWaits waits.old [] }
    ensures length { length waits.new ≡ length waits.old }
    ensures holders { length holders.new ≡ length holders.old }
    ensures clear { OnOk result (AreWaits waits.new []) }
    ensures row { IfOk result (IsRow (order_of rows.now) (record { 0 = length rows.now }) (class_of head.now)) }
{
    let class = ClassId(rows.len() as u32);
    let bases = bases_of(alloc, head.bases.as_slice())?;
    let found = linearize(alloc, rows, class, bases.as_slice(), waits, holders)?;
    let ordered = found.is_some();
    let order = or_makeshift(alloc, class, found)?;
    let members = by_name(alloc, head.members.as_slice())?;
    let unknown_base = has_unknown(head.bases.as_slice());
    Ok(Row::new(order, ordered, unknown_base, head.keyword, members))
}

/// The rows of the builtin classes, with those of the classes of the file behind them.
fn with_file_rows(
    alloc: Global,
    rows: List<Row>,
    heads: &[ClassHead],
    waits: &mut [usize],
    holders: &mut [List<usize>],
) -> Result<List<Row>, NoMemory>
    requires builtin { rows ≡ builtin_rows }
    requires few { length heads.now < 2 ^ 30 }
    requires earlier { BasesAreEarlier heads.now }
    requires places { length waits.old ≡ builtin_count + length heads.now }
    requires held { length holders.old ≡ builtin_count + length heads.now }
    requires clear { AreWaits waits.old [] }
    ensures rows { IfOk result (IsRows heads.now) }
    ensures table { IfOk result IsTable }
{
    let mut rows = rows;
    for head in heads {
        let row = file_row(alloc, rows.as_slice(), head, waits, holders)?;
        rows.push(row)?;
    }
    Ok(rows)
}

/// This many zeros.
fn zeros(alloc: Global, count: usize) -> Result<Vec<usize>, NoMemory>
    ensures length { IfOk result (λ zeros. length zeros.items ≡ count) }
    ensures clear { IfOk result (λ zeros. AreWaits zeros.items []) }
{
    match vec![in alloc; 0; count] {
        Ok(zeros) => Ok(zeros),
        Err(_) => Err(NoMemory),
    }
}

/// This many empty lists.
fn empty_lists(alloc: Global, count: usize) -> Result<Vec<List<usize>>, NoMemory>
    ensures { IfOk result (λ lists. length lists.items ≡ count) }
{
    let mut lists = List::new(alloc);
    for _ in 0..count {
        lists.push(List::new(alloc))?;
    }
    Ok(lists.into_vec())
}

/// The rows of the builtin classes and of the classes of these heads.
pub(crate) fn rows_of(alloc: Global, heads: &[ClassHead]) -> Result<List<Row>, NoMemory>
    requires few { length heads.now < 2 ^ 30 }
    requires earlier { BasesAreEarlier heads.now }
    ensures rows { IfOk result (IsRows heads.now) }
    ensures table { IfOk result IsTable }
{
    let mut waits = zeros(alloc, Builtin::COUNT + heads.len())?;
    let mut holders = empty_lists(alloc, Builtin::COUNT + heads.len())?;
    let rows = rows_by_orders(alloc, &ORDERS)?;
    with_file_rows(alloc, rows, heads, &mut waits, &mut holders)
}
