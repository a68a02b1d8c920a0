//! Why a session stops in the midst of a line.

use py_base::NoMemory;

/// Why a session stops in the midst of a line.
#[derive(Clone, Copy, Debug, PartialEq, Eq)]
pub enum Broken {
    /// The sink failed.
    WriteFault,
    /// Memory was asked for and not had.
    Memory,
}

impl From<NoMemory> for Broken {
    ghost use Rattle.std.specs.Prelude.{◌≡◌};
    ghost use Rattle.serial_server.specs.declared.broken.Broken.TheVariants.{Memory};

    ghost from_gives = { λ _ broken. broken ≡ Memory };

    fn from(_none: NoMemory) -> Broken {
        Broken::Memory
    }
}
