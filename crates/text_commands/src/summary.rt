//! The summary of a module.
ghost use Rattle.std.specs.Prelude.{◌≡◌, ◌++◌, OnOk, IfOk, string_bytes};
ghost use Rattle.std.specs.List.{count_by};
ghost use Rattle.edge_io.specs.Line.{is_lf};
ghost use Rattle.text_commands.specs.Sample.{summary, last_of, text_line};

use crate::numbered::push_numbered;
use py_base::{Diag, NoMemory};
use std::alloc::Global;

/// The summary of the text of so many functions, which has this list. `NoMemory` where it could not be
/// stored.
pub fn summary(alloc: Global, functions: u32, text: &str, list: &[Diag]) -> Result<String, NoMemory>
    ensures { IfOk result (λ shown. string_bytes shown ≡ summary functions text.now list.now) }
{
    let mut shown = String::new(alloc);
    push_numbered(alloc, &mut shown, "functions ", u64::from(functions), "\n")?;
    push_numbered(alloc, &mut shown, "bytes ", text.len() as u64, "\n")?;
    push_numbered(
        alloc,
        &mut shown,
        "lines ",
        line_count(text.as_bytes()) as u64,
        "\n",
    )?;
    push_numbered(alloc, &mut shown, "diagnostics ", list.len() as u64, "\n")?;
    push_last(&mut shown, list)?;
    Ok(shown)
}

// How many LFs the bytes have.
fn line_count(bytes: &[u8]) -> usize
    ensures { result ≡ count_by is_lf bytes.now }
{
    bytes.iter().filter(|byte| **byte == b'\n').count()
}

// Adds the text of the last diagnostic, if there is one.
fn push_last(shown: &mut String, list: &[Diag]) -> Result<(), NoMemory>
    ensures { OnOk result (string_bytes shown.new ≡ string_bytes shown.old ++ text_line (last_of list.now)) }
{
    if let Some(diag) = list.last() {
        shown.push_str(diag.text.as_str())?;
        shown.push('\n')?;
    }
    Ok(())
}
