//! Where the type of what a line reads comes from.
ghost use Rattle.std.specs.Prelude.{◌≡◌, ℕ, List, Bool, if◌then◌else◌, Some, None, IfOk, OnOk, option_map, take};
ghost use Rattle.serial_session.specs.Typing.{binds, is_bound_in};
ghost use Rattle.serial_session.specs.Antecedents.{entry_at, read_of, antecedent_in, AreAntecedents};

use crate::form::{Form, NameUse, Value};
use py_base::NoMemory;
use std::alloc::Global;
use std::collections::BTreeMap;

/// Where the type of what a line reads comes from.
#[derive(Clone, Copy, Debug, PartialEq, Eq)]
pub enum Antecedent {
    /// The line of this number, counted from 0: the last one above that binds the name.
    Line(usize),
    /// No line above binds the name, but this one or one below does.
    Unbound,
    /// No line of the text binds the name.
    Undefined,
}

/// For each name that a line of the text binds, the last line so far that does.
type Bindings<'a> = BTreeMap<&'a str, Option<usize>>;

/// The antecedent of each line of a text, `None` for a line that reads no name.
pub fn antecedents(alloc: Global, forms: &[Form]) -> Result<Vec<Option<Antecedent>>, NoMemory>
    ensures { IfOk result (λ list. AreAntecedents forms.now list.items) }
{
    let mut bindings = bound_names(alloc, forms)?;
    let mut antecedents = Vec::new(alloc);
    for (line, form) in forms.iter().enumerate() {
        antecedents.push(antecedent_of(&bindings, form))?;
        set_entry(&mut bindings, form, Some(line))?;
    }
    Ok(antecedents)
}

// The names that the lines bind, each with no line yet.
fn bound_names(alloc: Global, forms: &[Form]) -> Result<Bindings, NoMemory>
    ensures { IfOk result (λ names. (name : List ℕ) → entry_at names name ≡ (if is_bound_in forms.now name then Some None else None)) }
{
    let mut names = BTreeMap::new(alloc);
    for form in forms {
        set_entry(&mut names, form, None)?;
    }
    Ok(names)
}

fn antecedent_of(bindings: &Bindings, form: &Form) -> Option<Antecedent>
    ensures { result ≡ option_map (λ read. antecedent_in (entry_at bindings.now read.name)) (read_of form.now) }
{
    match form {
        Form::Binding(_, Value::Literal(_) | Value::NoneValue) => None,
        Form::Binding(_, Value::Read(read)) | Form::Reveal(read) => Some(antecedent_of_name(
            bindings, read,
        )),
    }
}

fn antecedent_of_name(bindings: &Bindings, read: &NameUse) -> Antecedent
    ensures { result ≡ antecedent_in (entry_at bindings.now read.now.name) }
{
    match bindings.get(read.name.as_str()) {
        Some(Some(line)) => Antecedent::Line(*line),
        Some(None) => Antecedent::Unbound,
        None => Antecedent::Undefined,
    }
}

// Sets the entry of the name that the line binds.
fn set_entry<'a>(
    bindings: &mut Bindings<'a>,
    form: &'a Form,
    line: Option<usize>,
) -> Result<(), NoMemory>
    ensures { OnOk result ((name : List ℕ) → entry_at bindings.new name ≡ (if binds form.now name then Some line else entry_at bindings.old name)) }
{
    if let Form::Binding(target, _) = form {
        bindings.insert(target.as_str(), line)?;
    }
    Ok(())
}
