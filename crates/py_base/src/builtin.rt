//! The builtin classes, which have the first class numbers.
ghost use Rattle.std.specs.Prelude.{◌≡◌, slice_get};
ghost use Rattle.py_base.specs.Builtins.{id_of, builtins};

use crate::ids::ClassId;

/// A builtin class. They stand in the order of their class numbers, which is that of their names among
/// the names of the language. The classes of a file are numbered behind them.
#[derive(Clone, Copy, Debug, PartialEq, Eq)]
pub enum Builtin {
    Object,
    Type,
    Function,
    NoneType,
    Int,
    Bool,
    Float,
    Complex,
    Str,
    Bytes,
    List,
    Tuple,
    Set,
    Dict,
    Range,
    Ellipsis,
    Sequence,
    Iterable,
    Callable,
    TextIo,
    Enum,
    IntEnum,
    StrEnum,
    BaseException,
    Exception,
    KeyboardInterrupt,
    SystemExit,
    ArithmeticError,
    AssertionError,
    AttributeError,
    EofError,
    ImportError,
    LookupError,
    MemoryError,
    NameError,
    OsError,
    RuntimeError,
    StopIteration,
    SyntaxError,
    TypeError,
    ValueError,
    OverflowError,
    ZeroDivisionError,
    ModuleNotFoundError,
    IndexError,
    KeyError,
    FileNotFoundError,
    PermissionError,
    TimeoutError,
    NotImplementedError,
    RecursionError,
    UnicodeError,
    UnicodeDecodeError,
}

impl Builtin {
    /// How many there are, and so the number of the first class of a file.
    pub const COUNT: usize = 53;

    /// The builtin classes in the order of their numbers.
    pub const ALL: [Builtin; Builtin::COUNT] = [
        Builtin::Object,
        Builtin::Type,
        Builtin::Function,
        Builtin::NoneType,
        Builtin::Int,
        Builtin::Bool,
        Builtin::Float,
        Builtin::Complex,
        Builtin::Str,
        Builtin::Bytes,
        Builtin::List,
        Builtin::Tuple,
        Builtin::Set,
        Builtin::Dict,
        Builtin::Range,
        Builtin::Ellipsis,
        Builtin::Sequence,
        Builtin::Iterable,
        Builtin::Callable,
        Builtin::TextIo,
        Builtin::Enum,
        Builtin::IntEnum,
        Builtin::StrEnum,
        Builtin::BaseException,
        Builtin::Exception,
        Builtin::KeyboardInterrupt,
        Builtin::SystemExit,
        Builtin::ArithmeticError,
        Builtin::AssertionError,
        Builtin::AttributeError,
        Builtin::EofError,
        Builtin::ImportError,
        Builtin::LookupError,
        Builtin::MemoryError,
        Builtin::NameError,
        Builtin::OsError,
        Builtin::RuntimeError,
        Builtin::StopIteration,
        Builtin::SyntaxError,
        Builtin::TypeError,
        Builtin::ValueError,
        Builtin::OverflowError,
        Builtin::ZeroDivisionError,
        Builtin::ModuleNotFoundError,
        Builtin::IndexError,
        Builtin::KeyError,
        Builtin::FileNotFoundError,
        Builtin::PermissionError,
        Builtin::TimeoutError,
        Builtin::NotImplementedError,
        Builtin::RecursionError,
        Builtin::UnicodeError,
        Builtin::UnicodeDecodeError,
    ];

    /// The builtin class of this number; `None` exactly where it is no number of one.
    pub fn of(class: ClassId) -> Option<Builtin>
        ensures { result ≡ slice_get builtins class.0 }
    {
        at(&Builtin::ALL, class.0 as usize)
    }

    /// The number of the class.
    pub fn id(self) -> ClassId
        ensures { result ≡ id_of self }
    {
        ClassId(self as u32)
    }
}

// The builtin class at this place, and `None` exactly where the list ends before it.
fn at(classes: &[Builtin], place: usize) -> Option<Builtin>
    ensures { result ≡ slice_get classes.now place }
{
    classes.get(place).copied()
}
