//! A list as the command `check` writes it.
ghost use Rattle.std.specs.Prelude.{◌≡◌, ◌++◌, OnOk, IfOk, string_bytes, codes};
ghost use Rattle.std.specs.Fmt.{decimal};
ghost use Rattle.text_commands.specs.CheckText.{diag_line, check_text};

use py_base::{Diag, NoMemory};
use std::alloc::Global;

/// The lines of a list. `NoMemory` where they could not be stored.
pub fn check_text(alloc: Global, list: &[Diag]) -> Result<String, NoMemory>
    ensures { IfOk result (λ text. string_bytes text ≡ check_text list.now) }
{
    let mut text = String::new(alloc);
    for diag in list {
        push_diag(alloc, &mut text, diag)?;
    }
    Ok(text)
}

// Adds the line of a diagnostic.
fn push_diag(alloc: Global, text: &mut String, diag: &Diag) -> Result<(), NoMemory>
    ensures { OnOk result (string_bytes text.new ≡ string_bytes text.old ++ diag_line diag.now) }
{
    let [line, column, _, _] = diag.at;
    let place = place_text(alloc, u64::from(line) + 1, u64::from(column) + 1)?;
    text.push_str(place.as_str())?;
    text.push_str(diag.rule.name())?;
    text.push_str(": ")?;
    text.push_str(diag.text.as_str())?;
    text.push('\n')?;
    Ok(())
}

// A line and a column, each with a colon behind it, and a blank.
fn place_text(alloc: Global, line: u64, column: u64) -> Result<String, NoMemory>
    ensures { IfOk result (λ text. string_bytes text ≡ decimal line ++ codes ":" ++ decimal column ++ codes ": ") }
{
    let text = format!(in alloc; "{line}:{column}: ")?;
    Ok(text)
}
