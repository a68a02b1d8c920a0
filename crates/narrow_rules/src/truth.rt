//! The test of a value's truth.
ghost use Rattle.std.specs.Prelude.{◌≡◌, [], ◌∷◌, IfOk, OnErr};
ghost use Rattle.type_terms.specs.declared.atom.Atom.{out-Atom};
ghost use Rattle.type_terms.specs.declared.atom.Atom.TheVariants as atom;
ghost use Rattle.narrow_rules.specs.Keep as spec;

use crate::ground::{has_bool, has_len};
use crate::sides::{Kept, only_false, only_true};
use class_rows::ClassRows;
use py_base::{Builtin, ClassId, List, NoMemory, Text};
use std::alloc::Global;
use type_terms::{Atom, Literal};

/// The builtin classes whose instances can be false.
const FALSY: [Builtin; 10] = [
    Builtin::Int,
    Builtin::Float,
    Builtin::Complex,
    Builtin::Str,
    Builtin::Bytes,
    Builtin::List,
    Builtin::Tuple,
    Builtin::Set,
    Builtin::Dict,
    Builtin::Range,
];

/// Whether the class is one of those or below one.
fn is_falsy(class: ClassId, classes: &ClassRows) -> bool
    ensures { result ≡ spec.is_falsy classes.now class }
{
    for builtin in &FALSY {
        if classes.is_sub(class, builtin.id()) {
            return true;
        }
    }
    false
}

/// Whether an instance of the class can be both.
fn is_either(class: ClassId, classes: &ClassRows) -> bool
    ensures { result ≡ spec.is_either classes.now class }
{
    has_bool(class, classes)
        || has_len(class, classes)
        || classes.is_open(class)
        || is_falsy(class, classes)
}

/// Both sides where an instance can be both, else the true side alone.
fn either_or_true(positive: bool, either: bool) -> Kept
    ensures { result ≡ spec.side positive (spec.either_or_true either) }
{
    if either {
        Kept::Itself
    } else {
        only_true(positive)
    }
}

/// The side of a literal's truth.
fn literal_side(positive: bool, value: &Literal, classes: &ClassRows) -> Kept
    ensures { result ≡ spec.side positive (spec.literal_truth classes.now value.now) }
{
    match value {
        Literal::Int(number) => only_true(positive == (*number != 0)),
        Literal::Bool(truth) => only_true(positive == *truth),
        Literal::Str(text) => only_true(positive != text.as_str().is_empty()),
        Literal::Bytes(bytes) => only_true(positive != bytes.as_slice().is_empty()),
        Literal::Member(class, _) => either_or_true(positive, is_either(*class, classes)),
    }
}

/// The member itself where it is true, and this literal where it is false.
fn leaves_one(alloc: Global, positive: bool, value: Literal) -> Result<Kept, NoMemory>
    ensures value { IfOk result (λ kept. kept ≡ spec.side positive (spec.leaves (atom.Lit value ∷ []))) }
    ensures free { OnErr result (spec.IsOthers (spec.side positive (spec.leaves (atom.Lit value ∷ [])))) }
{
    if positive {
        return Ok(Kept::Itself);
    }
    Kept::one(alloc, &Atom::Lit(value))
}

/// What the truth of a value keeps of an instance of a class without a value of its own.
fn instance_side(
    alloc: Global,
    positive: bool,
    class: ClassId,
    classes: &ClassRows,
) -> Result<Kept, NoMemory>
    ensures value { IfOk result (λ kept. kept ≡ spec.side positive (spec.instance_truth classes.now class)) }
    ensures free { OnErr result (spec.IsOthers (spec.side positive (spec.instance_truth classes.now class))) }
{
    if class == Builtin::Int.id() {
        return leaves_one(alloc, positive, Literal::Int(0));
    }
    if class == Builtin::Str.id() {
        return leaves_one(alloc, positive, Literal::Str(Text::new(alloc)));
    }
    if class == Builtin::Bytes.id() {
        return leaves_one(alloc, positive, Literal::Bytes(List::new(alloc)));
    }
    Ok(either_or_true(
        positive,
        class == Builtin::Object.id() || is_either(class, classes),
    ))
}

/// What `x` as a condition, and `bool(x)`, keeps.
#[tactic(auto, using(crate::proofs::OutOf::outs))]
pub(crate) fn truth_side(
    alloc: Global,
    positive: bool,
    atom: &Atom,
    classes: &ClassRows,
) -> Result<Kept, NoMemory>
    ensures value { IfOk result (λ kept. kept ≡ spec.side positive (spec.truth_row classes.now (out-Atom atom.now))) }
    ensures free { OnErr result (spec.IsOthers (spec.side positive (spec.truth_row classes.now (out-Atom atom.now)))) }
{
    match atom {
        Atom::None => Ok(only_false(positive)),
        Atom::Lit(value) => Ok(literal_side(positive, value, classes)),
        Atom::Inst(class) => instance_side(alloc, positive, *class, classes),
        Atom::Site(site) => Ok(either_or_true(positive, site.class != Builtin::Function.id())),
        Atom::Gen(_, _) => Ok(Kept::Itself),
        Atom::Super(_) => Ok(Kept::Itself),
        Atom::Mod(_) => Ok(Kept::Itself),
        Atom::Special(_) => Ok(Kept::Itself),
        Atom::Unknown => Ok(Kept::Itself),
        _ => Ok(only_true(positive)),
    }
}
