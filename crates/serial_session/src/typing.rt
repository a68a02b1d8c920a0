//! The diagnostics of the lines of a text, all of which are valid.
ghost use Rattle.std.specs.Prelude.{◌≡◌, ◌++◌, not, sum, slice_get, Some, option_and_then, All, IfSome, IfOk, OnOk};
ghost use Rattle.serial_session.specs.declared.form.Form.TheVariants.{Reveal};
ghost use Rattle.py_tokens.specs.Spans.{IsSpanIn};
ghost use Rattle.serial_session.specs.Spans.{IsReadIn};
ghost use Rattle.serial_session.specs.Typing.{is_bound_in, is_last, line_diags, value_faults, read_faults, typing_diags};
ghost use Rattle.py_base.specs.Places.{at_of};
ghost use Rattle.serial_session.specs.Antecedents.{read_in, read_of};
ghost use Rattle.serial_session.specs.LineTypes.{bound_above};

use crate::diagnostic::{fault, revealed};
use crate::form::{Form, NameUse, Value};
use crate::walk::Walk;
use py_base::{Diag, LineMap, List, NoMemory};
use std::alloc::Global;

/// The diagnostics of the lines of a text, in their order. Behind a `reveal_type` whose argument is
/// Never no line has any.
pub fn typing_diags(alloc: Global, places: &LineMap, forms: &[Form]) -> Result<List<Diag>, NoMemory>
    requires { All (IsReadIn (sum places.now)) forms.now }
    ensures { IfOk result (λ list. list ≡ typing_diags (at_of places.now) forms.now) }
{
    let mut walk = Walk::new(alloc, forms)?;
    let mut list = List::new(alloc);
    for (line, form) in forms.iter().enumerate() {
        if !push_line(alloc, &mut list, places, &mut walk, line, form)? {
            return Ok(list);
        }
    }
    Ok(list)
}

// Adds the diagnostics of the line of this number, which has this form. Whether the line behind it
// is reached.
fn push_line(
    alloc: Global,
    list: &mut List<Diag>,
    places: &LineMap,
    walk: &mut Walk,
    line: usize,
    form: &Form,
) -> Result<bool, NoMemory>
    requires within { IsReadIn (sum places.now) form.now }
    requires at { slice_get walk.old line ≡ Some form.now }
    ensures same { walk.new ≡ walk.old }
    ensures list { OnOk result (list.new ≡ list.old ++ line_diags (at_of places.now) (is_bound_in walk.old) (bound_above walk.old line) form.now) }
    ensures reached { IfOk result (λ reached. reached ≡ not (is_last (is_bound_in walk.old) (bound_above walk.old line) form.now)) }
{
    match form {
        Form::Binding(_, value) => {
            push_value(alloc, list, places, walk, line, value)?;
            Ok(true)
        }
        Form::Reveal(read) => push_reveal(alloc, list, places, walk, line, read),
    }
}

// Adds the diagnostic of the value that the line of this number binds, if it has one.
fn push_value(
    alloc: Global,
    list: &mut List<Diag>,
    places: &LineMap,
    walk: &Walk,
    line: usize,
    value: &Value,
) -> Result<(), NoMemory>
    requires within { IfSome (read_in value.now) (λ read. IsSpanIn (sum places.now) read.span) }
    requires at { option_and_then read_of (slice_get walk.now line) ≡ read_in value.now }
    ensures { OnOk result (list.new ≡ list.old ++ value_faults (at_of places.now) (is_bound_in walk.now) (bound_above walk.now line) value.now) }
{
    match value {
        Value::Literal(_) | Value::NoneValue => Ok(()),
        Value::Read(read) => push_fault(alloc, list, places, walk, line, read),
    }
}

// Adds the diagnostics of a `reveal_type` in the line of this number. Whether the line behind it is
// reached.
fn push_reveal(
    alloc: Global,
    list: &mut List<Diag>,
    places: &LineMap,
    walk: &mut Walk,
    line: usize,
    read: &NameUse,
) -> Result<bool, NoMemory>
    requires within { IsSpanIn (sum places.now) read.now.span }
    requires at { slice_get walk.old line ≡ Some (Reveal read.now) }
    ensures same { walk.new ≡ walk.old }
    ensures list { OnOk result (list.new ≡ list.old ++ line_diags (at_of places.now) (is_bound_in walk.old) (bound_above walk.old line) (Reveal read.now)) }
    ensures reached { IfOk result (λ reached. reached ≡ not (is_last (is_bound_in walk.old) (bound_above walk.old line) (Reveal read.now))) }
{
    let shown = walk.line_type(line);
    list.push(revealed(alloc, places, read, shown)?)?;
    push_fault(alloc, list, places, walk, line, read)?;
    Ok(!shown.is_never())
}

// Adds the diagnostic of what the line of this number reads, if it is unbound or undefined.
fn push_fault(
    alloc: Global,
    list: &mut List<Diag>,
    places: &LineMap,
    walk: &Walk,
    line: usize,
    read: &NameUse,
) -> Result<(), NoMemory>
    requires within { IsSpanIn (sum places.now) read.now.span }
    requires at { option_and_then read_of (slice_get walk.now line) ≡ Some read.now }
    ensures { OnOk result (list.new ≡ list.old ++ read_faults (at_of places.now) (is_bound_in walk.now) (bound_above walk.now line) read.now) }
{
    if let Some(diag) = fault(alloc, places, read, walk.antecedent(line))? {
        list.push(diag)?;
    }
    Ok(())
}
