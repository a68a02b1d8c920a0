//! Atoms.
ghost use Rattle.std.specs.Prelude.{◌≡◌};
ghost use Rattle.type_terms.specs.Order.{form};

use crate::literal::Literal;
use py_base::{ClassId, FuncId, NameId, SiteId};
use sqlite_items::{Boxed, Items};

/// The slots of a generic class, each a type. The slots of a list, a set, a Sequence and an Iterable are
/// one, those of a dict two.
#[derive(Drop)]
pub enum Slots<T> {
    /// A type for each slot, and for each entry of a tuple of known length: `list[int]`,
    /// `tuple[int, str]`, and `tuple[()]` where there is none.
    Each(Items<T>),
    /// A tuple of any length, with one type for all its entries: `tuple[int, ...]`.
    Endless(T),
    /// A callable that takes any arguments, with its result: `Callable[..., str]`.
    AnyArguments(T),
    /// A callable with the types of its arguments and its result: `Callable[[int], str]`.
    Arguments(Items<T>, T),
}

impl<T> Slots<T> {
    pub(crate) fn kind(&self) -> u8
        ensures { result ≡ form self.now }
    {
        match self {
            Slots::Each(_) => 0,
            Slots::Endless(_) => 1,
            Slots::AnyArguments(_) => 2,
            Slots::Arguments(_, _) => 3,
        }
    }
}

/// What a type is a set of: some values, or no knowledge, or a mark that is never written.
#[derive(Drop)]
pub enum Atom {
    /// One value: a bool, int, str or bytes literal or a member of an enum. `Literal[1]`, `Literal["s"]`,
    /// `Literal[b"s"]`, `Literal[E.A]`.
    Lit(Literal),
    /// The instances of a class without slots, written by the name of the class.
    Inst(ClassId),
    /// The instances of a generic class with these slots, as an annotation or a builtin gives them:
    /// `list[int]`, `dict[str, int]`.
    Gen(ClassId, Slots<Items<Atom>>),
    /// The value that a display, a comprehension, a lambda, a generator or a call at a node makes: written
    /// as the generic of its class, with the types of its slots, and a lambda as a function.
    Site(SiteId),
    /// A class itself: `type[C]`.
    Class(ClassId),
    /// A def: `(a: int, b: str) -> int`.
    Func(FuncId),
    /// A method whose first parameter is taken: as a def without that parameter.
    Bound(FuncId),
    /// A builtin method by its row, and what it is a method of: `def upper`.
    BuiltMethod(u32, Boxed<Atom>),
    /// A builtin function by its row: `def len`.
    BuiltFunc(u32),
    /// The value of `super()` in a class: `super`.
    Super(ClassId),
    /// A module: `Module("sys")`.
    Mod(NameId),
    /// A name of `typing` with a meaning of its own, written as itself.
    Special(NameId),
    /// No knowledge: `Unknown`.
    Unknown,
    /// The value `None`.
    None,
    /// No value bound. Never written.
    Unbound,
    /// A chain of names and attributes that nothing has narrowed. Never written.
    Open,
    /// The mark of a reached point. Never written.
    Here,
}
