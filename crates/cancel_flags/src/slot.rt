//! The places of the flags.
ghost use Rattle.std.specs.Prelude.{◌<◌};

/// How many slots the flags have, each with a word of its own.
pub const SLOTS: usize = 320;

/// A slot of the flags. Its number is below 320.
#[derive(Clone, Copy, Debug, PartialEq, Eq)]
pub struct Slot {
    pub number: u32,
    pub ghost within: { number < 320 },
}
