//! Tests against one value: None and literals.
ghost use Rattle.std.specs.Prelude.{◌≡◌, ◌∷◌, [], if◌then◌else◌, IfOk, OnErr};
ghost use Rattle.type_terms.specs.declared.atom.Atom.{out-Atom};
ghost use Rattle.narrow_rules.specs.Ground.{class_of as class_in};
ghost use Rattle.narrow_rules.specs.Keep as spec;

use crate::ground::class_of;
use crate::sides::{Kept, becomes_one, only_false, only_true};
use class_rows::ClassRows;
use py_base::{Builtin, ClassId, NoMemory};
use std::alloc::Global;
use type_terms::Atom;

/// The side of a member that becomes another one, or else goes, where the test is true.
fn becomes_or_goes(
    alloc: Global,
    positive: bool,
    becomes: bool,
    atom: &Atom,
) -> Result<Kept, NoMemory>
    ensures value { IfOk result (λ kept. kept ≡ spec.side positive (if becomes then spec.becomes (atom.now ∷ []) else spec.only_false)) }
    ensures free { OnErr result (spec.IsOthers (spec.side positive (if becomes then spec.becomes (atom.now ∷ []) else spec.only_false))) }
{
    if becomes {
        return becomes_one(alloc, positive, atom);
    }
    Ok(only_false(positive))
}

/// The side of a member that becomes another one where the test is true, or else stays on both sides.
fn becomes_or_stays(
    alloc: Global,
    positive: bool,
    becomes: bool,
    atom: &Atom,
) -> Result<Kept, NoMemory>
    ensures value { IfOk result (λ kept. kept ≡ spec.side positive (if becomes then spec.becomes (atom.now ∷ []) else spec.on_both)) }
    ensures free { OnErr result (spec.IsOthers (spec.side positive (if becomes then spec.becomes (atom.now ∷ []) else spec.on_both))) }
{
    if becomes {
        return becomes_one(alloc, positive, atom);
    }
    Ok(Kept::Itself)
}

/// The side of a member that goes where the test is true, or else stays on both sides.
fn goes_or_stays(positive: bool, goes: bool) -> Kept
    ensures { result ≡ spec.side positive (if goes then spec.only_false else spec.on_both) }
{
    if goes {
        return only_false(positive);
    }
    Kept::Itself
}

/// What `x is None` keeps.
#[tactic(auto, using(crate::proofs::OutOf::outs))]
pub(crate) fn none_side(alloc: Global, positive: bool, atom: &Atom) -> Result<Kept, NoMemory>
    ensures value { IfOk result (λ kept. kept ≡ spec.side positive (spec.none_row (out-Atom atom.now))) }
    ensures free { OnErr result (spec.IsOthers (spec.side positive (spec.none_row (out-Atom atom.now)))) }
{
    match atom {
        Atom::None => Ok(only_true(positive)),
        Atom::Unknown => becomes_one(alloc, positive, &Atom::None),
        Atom::Inst(class) => becomes_or_goes(
            alloc,
            positive,
            *class == Builtin::Object.id(),
            &Atom::None,
        ),
        _ => Ok(only_false(positive)),
    }
}

/// Whether the class of the literal is below the other class.
fn is_over(literal: &Atom, class: ClassId, classes: &ClassRows) -> bool
    ensures { result ≡ spec.is_over classes.now (class_in literal.now) class }
{
    match class_of(literal) {
        Some(low) => classes.is_sub(low, class),
        None => false,
    }
}

/// What `x is L` keeps.
#[tactic(auto, using(crate::proofs::OutOf::outs))]
pub(crate) fn literal_side(
    alloc: Global,
    positive: bool,
    literal: &Atom,
    atom: &Atom,
    classes: &ClassRows,
) -> Result<Kept, NoMemory>
    ensures value { IfOk result (λ kept. kept ≡ spec.side positive (spec.literal_row classes.now literal.now atom.now)) }
    ensures free { OnErr result (spec.IsOthers (spec.side positive (spec.literal_row classes.now literal.now atom.now))) }
{
    if atom == literal {
        return Ok(only_true(positive));
    }
    match atom {
        Atom::Unknown => becomes_one(alloc, positive, literal),
        Atom::Inst(class) => becomes_or_goes(
            alloc,
            positive,
            is_over(literal, *class, classes),
            literal,
        ),
        _ => Ok(only_false(positive)),
    }
}

/// Whether the literal is one of this class.
fn is_of_class(literal: &Atom, class: ClassId) -> bool
    ensures { result ≡ spec.is_of_class (class_in literal.now) class }
{
    match class_of(literal) {
        Some(own) => own == class,
        None => false,
    }
}

/// What `x == L` keeps.
#[tactic(auto, using(crate::proofs::OutOf::outs))]
pub(crate) fn equal_side(
    alloc: Global,
    positive: bool,
    literal: &Atom,
    atom: &Atom,
) -> Result<Kept, NoMemory>
    ensures value { IfOk result (λ kept. kept ≡ spec.side positive (spec.equal_row literal.now atom.now)) }
    ensures free { OnErr result (spec.IsOthers (spec.side positive (spec.equal_row literal.now atom.now))) }
{
    if atom == literal {
        return Ok(only_true(positive));
    }
    match atom {
        Atom::Inst(class) => becomes_or_stays(
            alloc,
            positive,
            is_of_class(literal, *class),
            literal,
        ),
        Atom::Lit(value) => Ok(goes_or_stays(positive, is_of_class(literal, value.class()))),
        Atom::None => Ok(only_false(positive)),
        _ => Ok(Kept::Itself),
    }
}

/// What an entry of `x in (..)` keeps by itself.
#[tactic(auto, using(crate::proofs::OutOf::outs))]
pub(crate) fn entry_side(
    alloc: Global,
    positive: bool,
    entry: &Atom,
    atom: &Atom,
) -> Result<Kept, NoMemory>
    ensures value { IfOk result (λ kept. kept ≡ spec.side positive (spec.entry_row entry.now atom.now)) }
    ensures free { OnErr result (spec.IsOthers (spec.side positive (spec.entry_row entry.now atom.now))) }
{
    match entry {
        Atom::None => none_side(alloc, positive, atom),
        _ => equal_side(alloc, positive, entry, atom),
    }
}
