//! What checks ask of a member besides its operations.
ghost use Rattle.std.specs.Prelude.{◌≡◌, not, ◌==◌};
ghost use Rattle.op_rules.specs.Calls as calls;
ghost use Rattle.op_rules.specs.Protocols as protocols;
ghost use Rattle.op_rules.specs.Unpacking as unpacking;
ghost use Rattle.type_terms.specs.declared.atom.Atom.{out-Atom};

use crate::classes::{builtin_row, has_any, has_member, instance_class};
use crate::names::{ASSERT_NEVER, REVEAL_TYPE};
use crate::rules::Program;
use crate::slots::tuple_length;
use py_base::{ClassId, NameId};
use type_terms::Atom;

/// Whether instances of a class have a method of this name.
fn class_has<P: Program>(program: &P, name: NameId, class: ClassId) -> bool
    ensures { result ≡ protocols.class_has (P.world program.now) name class }
{
    has_member(program, class, name)
        || builtin_row(program, class, name).is_some()
        || has_any(program, class)
}

/// Whether a member has a method by a special name, as `__enter__`: by a member of its class, a builtin row,
/// `__getattr__` or an Unknown base (Python language reference, 3.3). No memory.
#[tactic(auto, unfolding(crate::specs::Protocols::has_method))]
pub fn has_method<P: Program>(program: &P, atom: &Atom, name: NameId) -> bool
    ensures { result ≡ protocols.has_method (P.world program.now) name atom.now }
{
    match instance_class(atom) {
        Some(class) => class_has(program, name, class),
        None => false,
    }
}

/// Whether a member is the name of typing of this number.
#[tactic(auto, using(crate::proofs::OutOf::outs))]
fn is_named(atom: &Atom, wanted: NameId) -> bool
    ensures { result ≡ calls.level_named wanted (out-Atom atom.now) }
{
    match atom {
        Atom::Special(name) => name.0 == wanted.0,
        _ => false,
    }
}

/// Whether a member is `reveal_type` of typing. No memory.
pub fn is_reveal_type(atom: &Atom) -> bool
    ensures { result ≡ calls.is_reveal_type atom.now }
{
    is_named(atom, REVEAL_TYPE)
}

/// Whether a member is `assert_never` of typing. No memory.
pub fn is_assert_never(atom: &Atom) -> bool
    ensures { result ≡ calls.is_assert_never atom.now }
{
    is_named(atom, ASSERT_NEVER)
}

/// Whether a member is a tuple of another length than a list of so many targets (Python language reference, 7.2,
/// assignment statements). No memory.
pub fn is_unfit<P: Program>(program: &P, atom: &Atom, targets: usize) -> bool
    ensures { result ≡ unpacking.is_unfit (P.world program.now) atom.now targets }
{
    match tuple_length(program, atom) {
        Some(count) => !(count == targets),
        None => false,
    }
}
