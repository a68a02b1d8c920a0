//! What is known of the builtins: their types, and rows for what a call of them gives.
ghost use Rattle.std.specs.Prelude.{◌≡◌};
ghost use Rattle.std.specs.Option.{option_copied};
ghost use Rattle.type_terms.specs.Rows.{RowTable};

use crate::types::Type;
use py_base::{ClassId, NameId};

/// What a call of a builtin gives. Arguments and slots are counted from 0; what an argument that isn't
/// there iterates, and its type, is Unknown.
#[derive(Drop)]
pub enum RowResult {
    /// This type, whatever the arguments: `len`, `str.upper`, `int(..)`.
    Fixed(Type),
    /// Nothing, since it never returns: `exit`, `assert_never`.
    Nothing,
    /// For each member of the argument: int for int and bool, float for float, else Unknown. `abs`.
    Magnitude,
    /// What one argument iterates, or all of several together: `min`, `max`.
    Extreme,
    /// What the first argument iterates, widened, and int: `sum`.
    Sum,
    /// int with one argument, else the first one widened: `round`.
    Rounded,
    /// A value of this class made at the call, whose slot is what this argument iterates: `sorted`,
    /// `reversed`, `filter`, `list(..)`, `set(..)`, `tuple(..)`.
    Iterated(ClassId, u32),
    /// An Iterable made at the call, of what calls of the first argument give: `map`.
    Mapped,
    /// An Iterable made at the call, of tuples of int and what the first argument iterates: `enumerate`.
    Numbered,
    /// An Iterable made at the call, of tuples of what each argument iterates: `zip`.
    Zipped,
    /// The first argument: `reveal_type`, and `cast`, whose first argument is a written type.
    FirstArgument,
    /// The value of `super()` in the class around the call, and Unknown where there is none.
    SuperAround,
    /// A value of this class made at the call, with Unknown in each slot: `dict(..)`.
    Unfilled(ClassId),
    /// The class of each member of the argument: `type(x)`.
    ClassOfEach,
    /// All members of the enum that is called.
    EnumMembers,
    /// The receiver itself: `list.copy`, `set.union`.
    Receiver,
    /// This slot of the receiver: `list.pop`, `set.pop`.
    Slot(u32),
    /// This slot of the receiver and None, or and the second argument where there is one: `dict.get`.
    SlotOrNone(u32),
    /// This slot of the receiver, and the second argument where there is one: `dict.pop`,
    /// `dict.setdefault`.
    SlotOrArgument(u32),
    /// An Iterable made at the call, of this slot of the receiver: `dict.keys`, `dict.values`.
    IterableOfSlot(u32),
    /// An Iterable made at the call, of tuples of both slots of the receiver: `dict.items`.
    IterableOfEntries,
}

/// A builtin function, method or class call.
#[derive(Drop)]
pub struct Row {
    /// How many plain arguments it takes at least.
    pub least: u32,
    /// How many it takes at most; `None` for any number.
    pub most: Option<u32>,
    /// Whether it is called; an attribute such as `int.real` has its result without a call.
    pub called: bool,
    pub result: RowResult,
}

/// The names, methods, modules and calls of the builtins. No call takes memory.
pub trait BuiltinTable {
    ghost rows: { Self → RowTable };

    /// The type of a builtin name; `None` exactly where the name is no builtin.
    fn name(&self, name: NameId) -> Option<&Type>
        ensures { option_copied result ≡ (rows self.now).name name };

    /// The row of a method or an attribute of a class; `None` exactly where the class itself has no such
    /// row.
    fn method(&self, class: ClassId, name: NameId) -> Option<u32>
        ensures { result ≡ (rows self.now).method class name };

    /// The type of a name of a module; `None` exactly where the module has no such row.
    fn module_name(&self, module: NameId, name: NameId) -> Option<&Type>
        ensures { option_copied result ≡ (rows self.now).module_name «module» name };

    /// The row of a call of a class; `None` exactly where the class itself has none.
    fn class_call(&self, class: ClassId) -> Option<u32>
        ensures { result ≡ (rows self.now).class_call class };

    /// What stands in a row.
    fn row(&self, row: u32) -> &Row
        ensures { result.now ≡ (rows self.now).row row };
}
