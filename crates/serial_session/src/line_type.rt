//! The types that lines have in this stage.
ghost use Rattle.std.specs.Prelude.{◌≡◌, ◌==◌, length, IfOk};
ghost use Rattle.serial_session.specs.LineTypes.{atoms_of};

use py_base::NoMemory;
use std::alloc::Global;
use type_terms::{Atom, Literal, Type};

/// The type of what a line binds or reveals.
#[derive(Clone, Copy)]
pub enum LineType<'a> {
    /// That of one literal.
    Literal(&'a Literal),
    /// That of the value `None`.
    NoneValue,
    /// That of no value: what is read is unbound.
    Never,
    /// Nothing is known: what is read is undefined.
    Unknown,
}

impl LineType<'_> {
    /// The same as a set of atoms.
    pub fn atoms(self, alloc: Global) -> Result<Type, NoMemory>
        ensures { IfOk result (λ atoms. atoms ≡ atoms_of self.entry) }
    {
        match self {
            LineType::Literal(literal) => Type::one(alloc, Atom::Lit(literal.copy(alloc)?)),
            LineType::NoneValue => Type::one(alloc, Atom::None),
            LineType::Never => Ok(Type::empty(alloc)),
            LineType::Unknown => Type::one(alloc, Atom::Unknown),
        }
    }

    /// Whether it is that of no value.
    pub fn is_never(self) -> bool
        ensures { result ≡ (length (atoms_of self.entry) == 0) }
    {
        matches!(self, LineType::Never)
    }
}
