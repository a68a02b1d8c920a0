//! What stands in a row, in the words of the rules.
ghost use Rattle.std.specs.Prelude.{◌≡◌, [], ◌∷◌, ◌++◌, map, IfOk, OnOk};
ghost use Rattle.py_base.specs.Builtins.{id_of};
ghost use Rattle.type_terms.specs.Types.{both_bools};
ghost use Rattle.builtin_rows.specs.Rows.{least, most, called, result_of, str_type, list_of_str, three_strs, row_of};
ghost use Rattle.builtin_rows.specs.Lines.{row_in};

use crate::table::{Gives, Line, Takes};
use py_base::{Builtin, List, NoMemory};
use sqlite_items::Items;
use std::alloc::{AllocError, Global};
use type_terms::{Atom, Row, RowResult, Slots, Type};

impl Takes {
    fn least(self) -> u32
        ensures { result ≡ least self }
    {
        match self {
            Takes::Any => 0,
            Takes::Just(count) => count,
            Takes::Between(low, _) => low,
            Takes::AtLeast(low) => low,
            Takes::Uncalled => 0,
        }
    }

    fn most(self) -> Option<u32>
        ensures { result ≡ most self }
    {
        match self {
            Takes::Any => None,
            Takes::Just(count) => Some(count),
            Takes::Between(_, high) => Some(high),
            Takes::AtLeast(_) => None,
            Takes::Uncalled => None,
        }
    }

    fn is_called(self) -> bool
        ensures { result ≡ called self }
    {
        match self {
            Takes::Any => true,
            Takes::Just(_) => true,
            Takes::Between(_, _) => true,
            Takes::AtLeast(_) => true,
            Takes::Uncalled => false,
        }
    }
}

fn no_memory(_error: AllocError) -> NoMemory {
    NoMemory
}

/// The type of the instances of a class without slots.
pub(crate) fn instance(alloc: Global, class: Builtin) -> Result<Type, NoMemory>
    ensures { IfOk result (λ ty. ty ≡ Atom.Inst (id_of class) ∷ []) }
{
    Type::one(alloc, Atom::Inst(class.id()))
}

// Adds a slot of texts.
fn add_str(alloc: Global, slots: &mut Items<Items<Atom>>) -> Result<(), NoMemory>
    ensures { OnOk result (slots.new ≡ slots.old ++ str_type ∷ []) }
{
    let ty = instance(alloc, Builtin::Str)?;
    match slots.push(ty.into_slot()) {
        Ok(()) => Ok(()),
        Err(_) => Err(NoMemory),
    }
}

/// `list[str]`.
pub(crate) fn list_of_str(alloc: Global) -> Result<Type, NoMemory>
    ensures { IfOk result (λ ty. ty ≡ list_of_str) }
{
    let mut slots = Items::new(alloc);
    add_str(alloc, &mut slots)?;
    Type::one(alloc, Atom::Gen(Builtin::List.id(), Slots::Each(slots)))
}

/// `tuple[str, str, str]`.
fn three_strs(alloc: Global) -> Result<Type, NoMemory>
    ensures { IfOk result (λ ty. ty ≡ three_strs) }
{
    let mut slots = Items::new(alloc);
    add_str(alloc, &mut slots)?;
    add_str(alloc, &mut slots)?;
    add_str(alloc, &mut slots)?;
    Type::one(alloc, Atom::Gen(Builtin::Tuple.id(), Slots::Each(slots)))
}

fn fixed_instance(alloc: Global, class: Builtin) -> Result<RowResult, NoMemory>
    ensures { IfOk result (λ form. form ≡ RowResult.Fixed (Atom.Inst (id_of class) ∷ [])) }
{
    Ok(RowResult::Fixed(instance(alloc, class)?))
}

fn fixed_atom(alloc: Global, atom: Atom) -> Result<RowResult, NoMemory>
    ensures { IfOk result (λ form. form ≡ RowResult.Fixed (atom ∷ [])) }
{
    Ok(RowResult::Fixed(Type::one(alloc, atom)?))
}

fn fixed_bools(alloc: Global) -> Result<RowResult, NoMemory>
    ensures { IfOk result (λ form. form ≡ RowResult.Fixed both_bools) }
{
    Ok(RowResult::Fixed(Type::bools(alloc)?))
}

fn fixed_list(alloc: Global) -> Result<RowResult, NoMemory>
    ensures { IfOk result (λ form. form ≡ RowResult.Fixed list_of_str) }
{
    Ok(RowResult::Fixed(list_of_str(alloc)?))
}

fn fixed_tuple(alloc: Global) -> Result<RowResult, NoMemory>
    ensures { IfOk result (λ form. form ≡ RowResult.Fixed three_strs) }
{
    Ok(RowResult::Fixed(three_strs(alloc)?))
}

// What a row gives, in the words of the rules.
fn result_of(alloc: Global, gives: Gives) -> Result<RowResult, NoMemory>
    ensures { IfOk result (λ form. form ≡ result_of gives) }
{
    match gives {
        Gives::Instance(class) => fixed_instance(alloc, class),
        Gives::Bools => fixed_bools(alloc),
        Gives::NoneValue => fixed_atom(alloc, Atom::None),
        Gives::Unsure => fixed_atom(alloc, Atom::Unknown),
        Gives::ListOfStr => fixed_list(alloc),
        Gives::ThreeStrs => fixed_tuple(alloc),
        Gives::Nothing => Ok(RowResult::Nothing),
        Gives::Magnitude => Ok(RowResult::Magnitude),
        Gives::Extreme => Ok(RowResult::Extreme),
        Gives::Sum => Ok(RowResult::Sum),
        Gives::Rounded => Ok(RowResult::Rounded),
        Gives::Iterated(class, argument) => Ok(RowResult::Iterated(class.id(), argument)),
        Gives::Mapped => Ok(RowResult::Mapped),
        Gives::Numbered => Ok(RowResult::Numbered),
        Gives::Zipped => Ok(RowResult::Zipped),
        Gives::FirstArgument => Ok(RowResult::FirstArgument),
        Gives::SuperAround => Ok(RowResult::SuperAround),
        Gives::Unfilled(class) => Ok(RowResult::Unfilled(class.id())),
        Gives::ClassOfEach => Ok(RowResult::ClassOfEach),
        Gives::EnumMembers => Ok(RowResult::EnumMembers),
        Gives::Receiver => Ok(RowResult::Receiver),
        Gives::Slot(slot) => Ok(RowResult::Slot(slot)),
        Gives::SlotOrNone(slot) => Ok(RowResult::SlotOrNone(slot)),
        Gives::SlotOrArgument(slot) => Ok(RowResult::SlotOrArgument(slot)),
        Gives::IterableOfSlot(slot) => Ok(RowResult::IterableOfSlot(slot)),
        Gives::IterableOfEntries => Ok(RowResult::IterableOfEntries),
    }
}

/// What stands in a row.
pub(crate) fn row_of(alloc: Global, line: &Line) -> Result<Row, NoMemory>
    ensures { IfOk result (λ made. made ≡ row_of (row_in line.now)) }
{
    let (_, _, takes, gives) = *line;
    Ok(Row {
        least: takes.least(),
        most: takes.most(),
        called: takes.is_called(),
        result: result_of(alloc, gives)?,
    })
}

/// The rows, in the order of their numbers.
pub(crate) fn rows_of(alloc: Global, lines: &[Line]) -> Result<List<Row>, NoMemory>
    ensures { IfOk result (λ made. made ≡ map row_of (map row_in lines.now)) }
{
    let mut rows = List::new(alloc);
    for line in lines {
        rows.push(row_of(alloc, line)?)?;
    }
    Ok(rows)
}
