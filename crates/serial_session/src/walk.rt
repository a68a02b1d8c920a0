//! Walking back from a line to where its type comes from.
ghost use Rattle.std.specs.Prelude.{◌≡◌, ◌<◌, ℕ, Bool, List, None, length, IfOk, take, slice_index_or};
ghost use Rattle.serial_session.specs.declared.form.Form.{Form};
ghost use Rattle.serial_session.specs.Typing.{Bindings, is_bound_in};
ghost use Rattle.serial_session.specs.Antecedents.{antecedent_of, read_of};
ghost use Rattle.serial_session.specs.LineTypes.{atoms_of, type_of, type_at};
ghost use Rattle.serial_session.specs.Walks.{StepsBack, step_to};

use crate::antecedent::{Antecedent, antecedents};
use crate::form::{Form, Value};
use crate::line_type::LineType;
use py_base::NoMemory;
use std::alloc::Global;
use std::marker::Model;

/// The lines of a text, with what walks over them have found so far. A contract sees the lines.
#[derive(Drop)]
pub struct Walk<'a> {
    forms: &'a [Form],
    antecedents: Vec<Option<Antecedent>>,
    kept: Vec<Option<LineType<'a>>>,
}

impl<'a> Model for Walk<'a> {
    ghost use Rattle.std.specs.Prelude.{List};
    ghost use Rattle.serial_session.specs.declared.form.Form.{Form};
    ghost use Rattle.serial_session.specs.Walks.{IsWalk};

    ghost Value = { List Form };

    ghost view = { λ walk. walk.forms.now };

    ghost invariant = { λ walk. IsWalk walk.forms.now walk.antecedents.items walk.kept.items };
}

/// A step back from a line.
#[derive(Clone, Copy)]
enum Step<'a> {
    /// The type of the line is found.
    Found(LineType<'a>),
    /// The line has the type of the line of this number, which stands above it.
    Above(usize),
}

impl<'a> Walk<'a> {
    /// The lines of a text, before the first walk.
    pub fn new(alloc: Global, forms: &'a [Form]) -> Result<Walk<'a>, NoMemory>
        ensures { IfOk result (λ walk. walk ≡ forms.now) }
    {
        let antecedents = antecedents(alloc, forms)?;
        let kept = vec![in alloc; None; forms.len()]?;
        Ok(Walk {
            forms,
            antecedents,
            kept,
        })
    }

    /// The antecedent of the line of this number; `None` where the line reads no name.
    pub fn antecedent(&self, line: usize) -> Option<Antecedent>
        requires { line < length self.now }
        ensures { (form : Form) → result ≡ antecedent_of (is_bound_in self.now) (take line self.now) (slice_index_or self.now line form) }
    {
        self.antecedents[line]
    }

    /// The type of the line of this number.
    pub fn line_type(&mut self, line: usize) -> LineType<'a>
        requires { line < length self.old }
        ensures same { self.new ≡ self.old }
        ensures value { atoms_of result ≡ type_at self.old line }
    {
        let found = self.walk_back(line);
        self.keep(line, found);
        found
    }

    fn walk_back(&self, line: usize) -> LineType<'a>
        requires { line < length self.now }
        ensures { atoms_of result ≡ type_at self.now line }
    {
        let mut at = line;
        loop {
            match self.step(at) {
                Step::Found(found) => return found,
                Step::Above(above) => at = above,
            }
        }
    }

    fn step(&self, line: usize) -> Step<'a>
        requires { line < length self.now }
        ensures { StepsBack self.now line result }
    {
        if let Some(found) = self.kept[line] {
            return Step::Found(found);
        }
        match self.antecedents[line] {
            Some(antecedent) => step_to(antecedent),
            None => Step::Found(literal_type(&self.forms[line])),
        }
    }

    // Keeps what was found for each line that a walk from this one passes.
    fn keep(&mut self, line: usize, found: LineType<'a>)
        requires within { line < length self.old }
        requires right { atoms_of found ≡ type_at self.old line }
        ensures { self.new ≡ self.old }
    {
        let mut at = line;
        while let Step::Above(above) = self.step(at) {
            self.keep_one(at, found);
            at = above;
        }
    }

    fn keep_one(&mut self, line: usize, found: LineType<'a>)
        requires within { line < length self.old }
        requires right { atoms_of found ≡ type_at self.old line }
        ensures { self.new ≡ self.old }
    {
        self.kept[line] = Some(found);
    }
}

// The step back from a line with this antecedent.
fn step_to<'a>(antecedent: Antecedent) -> Step<'a>
    ensures { result ≡ step_to antecedent }
{
    match antecedent {
        Antecedent::Line(above) => Step::Above(above),
        Antecedent::Unbound => Step::Found(LineType::Never),
        Antecedent::Undefined => Step::Found(LineType::Unknown),
    }
}

// The type of a line that reads no name.
fn literal_type(form: &Form) -> LineType
    requires { read_of form.now ≡ None }
    ensures { (known : List ℕ → Bool) (bound : Bindings) → atoms_of result ≡ type_of known bound form.now }
{
    match form {
        Form::Binding(_, Value::Literal(literal)) => LineType::Literal(literal),
        Form::Binding(_, Value::NoneValue) => LineType::NoneValue,
        _ => unreachable!(),
    }
}
