//! Texts one behind another.
ghost use Rattle.std.specs.Prelude.{◌≡◌, ◌++◌, IfOk};
ghost use Rattle.std.specs.Fmt.{decimal};

use py_base::{NoMemory, Text};
use std::alloc::Global;

/// Three texts.
pub(crate) fn three(alloc: Global, first: &str, second: &str, third: &str) -> Result<Text, NoMemory>
    ensures { IfOk result (λ text. text ≡ first.now ++ second.now ++ third.now) }
{
    let text = format!(in alloc; "{first}{second}{third}")?;
    Ok(Text::from_string(text))
}

/// Five texts.
pub(crate) fn five(
    alloc: Global,
    first: &str,
    second: &str,
    third: &str,
    fourth: &str,
    fifth: &str,
) -> Result<Text, NoMemory>
    ensures { IfOk result (λ text. text ≡ first.now ++ second.now ++ third.now ++ fourth.now ++ fifth.now) }
{
    let behind = three(alloc, third, fourth, fifth)?;
    three(alloc, first, second, behind.as_str())
}

/// Three texts, a number and one more.
pub(crate) fn numbered(
    alloc: Global,
    first: &str,
    second: &str,
    third: &str,
    number: u32,
    behind: &str,
) -> Result<Text, NoMemory>
    ensures { IfOk result (λ text. text ≡ first.now ++ second.now ++ third.now ++ decimal number ++ behind.now) }
{
    let behind = around_number(alloc, third, number, behind)?;
    three(alloc, first, second, behind.as_str())
}

/// A number between two texts.
fn around_number(alloc: Global, before: &str, number: u32, behind: &str) -> Result<Text, NoMemory>
    ensures { IfOk result (λ text. text ≡ before.now ++ decimal number ++ behind.now) }
{
    let text = format!(in alloc; "{before}{number}{behind}")?;
    Ok(Text::from_string(text))
}
