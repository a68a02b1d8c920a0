//! The classes of members, and what the rules ask of a class.
ghost use Rattle.std.specs.Prelude.{◌≡◌};
ghost use Rattle.std.specs.List.{list_any};
ghost use Rattle.op_rules.specs.Classes as spec;
ghost use Rattle.type_terms.specs.declared.atom.Atom.{out-Atom};

use crate::names::{GETATTR, SLOTS};
use crate::rules::Program;
use py_base::{Builtin, ClassId, NameId};
use type_terms::Atom;

/// Whether a class is this builtin class.
pub(crate) fn is_class(class: ClassId, builtin: Builtin) -> bool
    ensures { result ≡ spec.is_class class builtin }
{
    class.0 == builtin.id().0
}

/// Whether a class is one of the file.
pub(crate) fn is_of_file(class: ClassId) -> bool
    ensures { result ≡ spec.is_of_file class }
{
    !((class.0 as usize) < Builtin::COUNT)
}

/// Whether a class is this builtin class or stands below it.
pub(crate) fn is_under<P: Program>(program: &P, class: ClassId, high: Builtin) -> bool
    ensures { result ≡ spec.is_under (P.world program.now) class high }
{
    program.classes().is_sub(class, high.id())
}

/// Whether a class has an Unknown base in its order.
pub(crate) fn is_open<P: Program>(program: &P, class: ClassId) -> bool
    ensures { result ≡ spec.is_open (P.world program.now) class }
{
    program.classes().is_open(class)
}

/// Whether a class of the order has a member of this name.
pub(crate) fn has_member<P: Program>(program: &P, class: ClassId, name: NameId) -> bool
    ensures { result ≡ spec.has_member (P.world program.now) class name }
{
    program.classes().member(class, name).is_some()
}

/// Whether a class has `__getattr__` or an Unknown base, so that it has every name.
pub(crate) fn has_any<P: Program>(program: &P, class: ClassId) -> bool
    ensures { result ≡ spec.has_any (P.world program.now) class }
{
    has_member(program, class, GETATTR) || is_open(program, class)
}

/// The class of a value made at a site, whose instance it is; a lambda is none.
fn site_instance(class: ClassId) -> Option<ClassId>
    ensures { result ≡ spec.site_instance class }
{
    if is_class(class, Builtin::Function) {
        None
    } else {
        Some(class)
    }
}

/// The class whose instance a member is.
#[tactic(auto, using(crate::proofs::OutOf::outs), unfolding(crate::specs::Classes::instance_class))]
pub(crate) fn instance_class(atom: &Atom) -> Option<ClassId>
    ensures { result ≡ spec.instance_class atom.now }
{
    match atom {
        Atom::Lit(value) => Some(value.class()),
        Atom::Inst(class) => Some(*class),
        Atom::Gen(class, _) => Some(*class),
        Atom::Site(site) => site_instance(site.class),
        _ => None,
    }
}

/// Whether a member is an instance of a class that is this builtin class or stands below it.
pub(crate) fn is_instance_under<P: Program>(program: &P, atom: &Atom, high: Builtin) -> bool
    ensures { result ≡ spec.is_instance_under (P.world program.now) atom.now high }
{
    match instance_class(atom) {
        Some(class) => is_under(program, class, high),
        None => false,
    }
}

/// The class of the file whose instance a member is.
pub(crate) fn file_class(atom: &Atom) -> Option<ClassId>
    ensures { result ≡ spec.file_class atom.now }
{
    match instance_class(atom) {
        Some(class) => { if is_of_file(class) { Some(class) } else { None } }
        None => None,
    }
}

/// The class of a member that is no instance of one that has methods.
#[tactic(auto, using(crate::proofs::OutOf::outs))]
fn other_class(atom: &Atom) -> Builtin
    ensures { result ≡ spec.level_class (out-Atom atom.now) }
{
    match atom {
        Atom::Class(_) => Builtin::Type,
        Atom::Func(_) => Builtin::Function,
        Atom::Bound(_) => Builtin::Function,
        Atom::BuiltMethod(_, _) => Builtin::Function,
        Atom::BuiltFunc(_) => Builtin::Function,
        Atom::Site(_) => Builtin::Function,
        Atom::None => Builtin::NoneType,
        _ => Builtin::Object,
    }
}

/// The class of a member, as `type(x)` gives it.
#[tactic(auto, unfolding(crate::specs::Classes::class_of, crate::specs::Classes::instance_class))]
pub(crate) fn class_of(atom: &Atom) -> ClassId
    ensures { result ≡ spec.class_of atom.now }
{
    match instance_class(atom) {
        Some(class) => class,
        None => other_class(atom).id(),
    }
}

/// The builtin row of a name, of the first class of an order that has one.
fn row_in<P: Program>(program: &P, order: &[ClassId], name: NameId) -> Option<u32>
    ensures { result ≡ spec.row_in (P.world program.now) order.now name }
{
    for class in order {
        if let Some(row) = program.method(*class, name) {
            return Some(row);
        }
    }
    None
}

/// The builtin row of a name, of the first class of the order that has one.
pub(crate) fn builtin_row<P: Program>(program: &P, class: ClassId, name: NameId) -> Option<u32>
    ensures { result ≡ spec.builtin_row (P.world program.now) class name }
{
    row_in(program, program.classes().mro(class), name)
}

/// Whether a class has just the names of its rows.
pub(crate) fn is_closed(class: ClassId) -> bool
    ensures { result ≡ spec.is_closed class }
{
    is_class(class, Builtin::Int)
        || is_class(class, Builtin::Bool)
        || is_class(class, Builtin::Float)
        || is_class(class, Builtin::Str)
        || is_class(class, Builtin::List)
        || is_class(class, Builtin::Tuple)
        || is_class(class, Builtin::Set)
        || is_class(class, Builtin::Dict)
}

/// Whether a builtin class may have names beside its rows.
fn is_loose(class: ClassId) -> bool
    ensures { result ≡ spec.is_loose class }
{
    !is_of_file(class)
        && !(is_class(class, Builtin::Object)
            || is_class(class, Builtin::Enum)
            || is_class(class, Builtin::IntEnum)
            || is_class(class, Builtin::StrEnum))
}

fn has_closed(order: &[ClassId]) -> bool
    ensures { result ≡ list_any spec.is_closed order.now }
{
    for class in order {
        if is_closed(*class) {
            return true;
        }
    }
    false
}

fn has_loose(order: &[ClassId]) -> bool
    ensures { result ≡ list_any spec.is_loose order.now }
{
    for class in order {
        if is_loose(*class) {
            return true;
        }
    }
    false
}

/// Whether a class of the file lacks each name that nothing gives.
pub(crate) fn lacks_others<P: Program>(program: &P, class: ClassId) -> bool
    ensures { result ≡ spec.lacks_others (P.world program.now) class }
{
    let order = program.classes().mro(class);
    !has_member(program, class, SLOTS) && (has_closed(order) || !has_loose(order))
}
