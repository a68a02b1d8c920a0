//! Numbers within texts.
ghost use Rattle.std.specs.Prelude.{◌≡◌, ◌++◌, OnOk, string_bytes};
ghost use Rattle.std.specs.Fmt.{decimal};

use py_base::NoMemory;
use std::alloc::Global;

/// Adds a number between two texts. `NoMemory` where it could not be stored.
pub fn push_numbered(
    alloc: Global,
    text: &mut String,
    before: &str,
    number: u64,
    behind: &str,
) -> Result<(), NoMemory>
    ensures { OnOk result (string_bytes text.new ≡ string_bytes text.old ++ before.now ++ decimal number ++ behind.now) }
{
    let added = format!(in alloc; "{before}{number}{behind}")?;
    text.push_str(added.as_str())?;
    Ok(())
}
