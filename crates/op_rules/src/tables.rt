//! The tables of operators on numbers and text.
ghost use Rattle.std.specs.Prelude.{◌≡◌, not, IfOk};
ghost use Rattle.op_rules.specs.Numbers as numbers;
ghost use Rattle.op_rules.specs.Steps.{IsOwn};
ghost use Rattle.op_rules.specs.Texts as texts;
ghost use Rattle.op_rules.specs.Unary as unary;
ghost use Rattle.op_rules.specs.World.{World, when};

use crate::classes::is_instance_under;
use crate::number::Number;
use crate::parts::{Parts, given, instance};
use crate::rules::Program;
use py_base::{Builtin, NoMemory, Op};
use std::alloc::Global;
use type_terms::{Atom, Type};

/// int with int: int, and `/` float.
fn whole_operator(op: Op) -> Option<Builtin>
    ensures { result ≡ numbers.whole_operator op }
{
    match op {
        Op::Plus => Some(Builtin::Int),
        Op::Minus => Some(Builtin::Int),
        Op::Star => Some(Builtin::Int),
        Op::Slash => Some(Builtin::Float),
        Op::DoubleSlash => Some(Builtin::Int),
        Op::Percent => Some(Builtin::Int),
        Op::DoubleStar => Some(Builtin::Int),
        Op::BitAnd => Some(Builtin::Int),
        Op::BitOr => Some(Builtin::Int),
        Op::BitXor => Some(Builtin::Int),
        Op::ShiftLeft => Some(Builtin::Int),
        Op::ShiftRight => Some(Builtin::Int),
        _ => None,
    }
}

/// With a float: float.
fn real_operator(op: Op) -> Option<Builtin>
    ensures { result ≡ numbers.real_operator op }
{
    match op {
        Op::Plus
        | Op::Minus
        | Op::Star
        | Op::Slash
        | Op::DoubleSlash
        | Op::Percent
        | Op::DoubleStar => Some(Builtin::Float),
        _ => None,
    }
}

/// With a complex: complex, but for `//` and `%`.
fn imaginary_operator(op: Op) -> Option<Builtin>
    ensures { result ≡ numbers.imaginary_operator op }
{
    match op {
        Op::Plus | Op::Minus | Op::Star | Op::Slash | Op::DoubleStar => Some(Builtin::Complex),
        _ => None,
    }
}

/// The wider of two kinds decides.
fn number_operator(op: Op, left: Number, right: Number) -> Option<Builtin>
    ensures { result ≡ numbers.number_operator op left right }
{
    match (left, right) {
        (Number::Whole, Number::Whole) => whole_operator(op),
        (Number::Whole, Number::Real) => real_operator(op),
        (Number::Real, Number::Whole) => real_operator(op),
        (Number::Real, Number::Real) => real_operator(op),
        _ => imaginary_operator(op),
    }
}

fn is_bitwise(op: Op) -> bool
    ensures { result ≡ numbers.is_bitwise op }
{
    matches!(op, Op::BitAnd | Op::BitOr | Op::BitXor)
}

/// Whether a member counts as an int.
pub(crate) fn is_whole<P: Program>(program: &P, atom: &Atom) -> bool
    ensures { result ≡ numbers.is_whole (P.world program.now) atom.now }
{
    is_instance_under(program, atom, Builtin::Int)
}

/// Whether both sides are instances of this class.
pub(crate) fn are_both<P: Program>(program: &P, left: &Atom, right: &Atom, class: Builtin) -> bool
    ensures { result ≡ numbers.are_both (P.world program.now) left.now right.now class }
{
    is_instance_under(program, left, class) && is_instance_under(program, right, class)
}

/// An instance of a class that is there.
pub(crate) fn instances_of(alloc: Global, class: Option<Builtin>) -> Result<Option<Parts>, NoMemory>
    ensures { IfOk result (λ own. (w : World) → IsOwn w own (numbers.instances_of class)) }
{
    match class {
        Some(class) => {
            let parts = instance(alloc, class)?;
            Ok(Some(parts))
        }
        None => Ok(None),
    }
}

/// What a member counts as.
pub(crate) fn number<P: Program>(program: &P, atom: &Atom) -> Option<Number>
    ensures { result ≡ numbers.number (P.world program.now) atom.now }
{
    if is_whole(program, atom) {
        return Some(Number::Whole);
    }
    if is_instance_under(program, atom, Builtin::Float) {
        return Some(Number::Real);
    }
    if is_instance_under(program, atom, Builtin::Complex) {
        return Some(Number::Imaginary);
    }
    None
}

fn on_numbers(op: Op, left: Option<Number>, right: Option<Number>) -> Option<Builtin>
    ensures { result ≡ numbers.on_numbers op left right }
{
    match (left, right) {
        (Some(one), Some(other)) => number_operator(op, one, other),
        _ => None,
    }
}

/// What operators give on numbers that they take.
#[tactic(auto, unfolding(crate::specs::Numbers::numbers))]
pub(crate) fn numbers<P: Program>(
    alloc: Global,
    program: &P,
    op: Op,
    left: &Atom,
    right: &Atom,
) -> Result<Option<Parts>, NoMemory>
    ensures { IfOk result (λ own. IsOwn (P.world program.now) own (numbers.numbers (P.world program.now) op left.now right.now)) }
{
    if is_bitwise(op) && are_both(program, left, right, Builtin::Bool) {
        let both = Type::bools(alloc)?;
        let parts = given(alloc, both)?;
        return Ok(Some(parts));
    }
    instances_of(
        alloc,
        on_numbers(op, number(program, left), number(program, right)),
    )
}

/// Whether one side is an instance of this class and the other an int.
pub(crate) fn is_repeated<P: Program>(
    program: &P,
    left: &Atom,
    right: &Atom,
    class: Builtin,
) -> bool
    ensures { result ≡ texts.is_repeated (P.world program.now) left.now right.now class }
{
    (is_instance_under(program, left, class) && is_whole(program, right))
        || (is_whole(program, left) && is_instance_under(program, right, class))
}

fn is_text_of<P: Program>(program: &P, op: Op, left: &Atom, right: &Atom, text: Builtin) -> bool
    ensures { result ≡ texts.is_text_of (P.world program.now) op left.now right.now text }
{
    match op {
        Op::Plus => are_both(program, left, right, text),
        Op::Star => is_repeated(program, left, right, text),
        Op::Percent => is_instance_under(program, left, text),
        _ => false,
    }
}

/// What `+`, `*` and `%` give on text.
#[tactic(auto, unfolding(crate::specs::Texts::texts))]
pub(crate) fn texts<P: Program>(
    alloc: Global,
    program: &P,
    op: Op,
    left: &Atom,
    right: &Atom,
) -> Result<Option<Parts>, NoMemory>
    ensures { IfOk result (λ own. IsOwn (P.world program.now) own (texts.texts (P.world program.now) op left.now right.now)) }
{
    if is_text_of(program, op, left, right, Builtin::Str) {
        let parts = instance(alloc, Builtin::Str)?;
        return Ok(Some(parts));
    }
    if is_text_of(program, op, left, right, Builtin::Bytes) {
        let parts = instance(alloc, Builtin::Bytes)?;
        return Ok(Some(parts));
    }
    Ok(None)
}

/// int and bool to int, by `-`, `+` and `~`; float and complex to themselves, but not by `~`.
pub(crate) fn number_alone(op: Op, number: Option<Number>) -> Option<Builtin>
    ensures { result ≡ unary.number_alone op number }
{
    match number {
        Some(Number::Whole) => Some(Builtin::Int),
        Some(Number::Real) => unless_tilde(op, Builtin::Float),
        Some(Number::Imaginary) => unless_tilde(op, Builtin::Complex),
        None => None,
    }
}

fn unless_tilde(op: Op, class: Builtin) -> Option<Builtin>
    ensures { result ≡ when (not (unary.is_tilde op)) class }
{
    match op {
        Op::Tilde => None,
        _ => Some(class),
    }
}
