//! The module that the command `sample` makes.
ghost use Rattle.std.specs.Prelude.{◌≡◌, ◌++◌, ◌≤◌, OnOk, IfOk, string_bytes};
ghost use Rattle.text_commands.specs.Sample.{function_text, sample_module};

use crate::numbered::push_numbered;
use py_base::NoMemory;
use std::alloc::Global;

/// The module of so many functions, 1 to 500. `NoMemory` where it could not be stored.
pub fn sample_module(alloc: Global, functions: u32) -> Result<String, NoMemory>
    requires some { 1 ≤ functions }
    requires few { functions ≤ 500 }
    ensures { IfOk result (λ text. string_bytes text ≡ sample_module functions) }
{
    let mut text = String::new(alloc);
    for number in 0..functions {
        push_function(alloc, &mut text, number, (7 * number + 1) % functions)?;
    }
    text.push_str("reveal_type(f0(1))\n")?;
    Ok(text)
}

// Adds the function of this number, which calls the one of that number.
fn push_function(alloc: Global, text: &mut String, number: u32, called: u32) -> Result<(), NoMemory>
    ensures { OnOk result (string_bytes text.new ≡ string_bytes text.old ++ function_text number called) }
{
    let number = u64::from(number);
    push_numbered(alloc, text, "def f", number, "(a: int | None):\n")?;
    text.push_str("    x = None\n")?;
    text.push_str("    while a is not None:\n")?;
    push_numbered(
        alloc,
        text,
        "        x = a if x is None else f",
        u64::from(called),
        "(x)\n",
    )?;
    push_numbered(
        alloc,
        text,
        "        a = None if x == ",
        number,
        " else a\n",
    )?;
    text.push_str("    return x\n")?;
    Ok(())
}
