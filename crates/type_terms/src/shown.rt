//! How the members of a type are shown in its text.
ghost use Rattle.std.specs.Prelude.{◌≡◌, ◌==◌, length, take, IfOk, nat_lt};
ghost use Rattle.type_terms.specs.Text as text;
ghost use Rattle.type_terms.specs.View.{meaning_of};

use crate::atom::Atom;
use crate::copy::{copy_atom, lost};
use crate::literal::Literal;
use crate::show::Shown;
use crate::types::Type;
use crate::view::View;
use py_base::{Builtin, ClassId, NoMemory};
use std::alloc::Global;

/// Whether a type has the member of an enum at a place.
fn has_member(ty: &Type, class: ClassId, place: usize) -> bool
    ensures { result ≡ text.has_member ty.now class place }
{
    let member = Atom::Lit(Literal::Member(class, place));
    ty.contains(&member)
}

/// Whether a type has all members of an enum, given how many there are.
fn has_members(ty: &Type, class: ClassId, count: usize) -> bool
    ensures { result ≡ text.has_members ty.now class 0 count }
{
    for place in 0..count {
        if !has_member(ty, class, place) {
            return false;
        }
    }
    true
}

fn has_instance(ty: &Type, class: ClassId) -> bool
    ensures { result ≡ text.has_instance ty.now class }
{
    let instance = Atom::Inst(class);
    ty.contains(&instance)
}

fn has_bool(ty: &Type, value: bool) -> bool
    ensures { result ≡ text.has_bool ty.now value }
{
    let literal = Atom::Lit(Literal::Bool(value));
    ty.contains(&literal)
}

/// A literal beside its class is dropped.
fn beside(ty: &Type, class: ClassId) -> Shown
    ensures { result ≡ text.beside ty.now class }
{
    if has_instance(ty, class) {
        Shown::Dropped
    } else {
        Shown::Itself
    }
}

/// Of a whole class the first member stands for all.
fn in_whole(whole: bool, class: ClassId, first: bool) -> Shown
    ensures { result ≡ text.in_whole whole class first }
{
    if !whole {
        Shown::Itself
    } else if first {
        Shown::Whole(class)
    } else {
        Shown::Dropped
    }
}

/// An enum class, and whether a type has all its members: the answer for the enum looked at last, since
/// the members of an enum stand together in a type.
#[derive(Clone, Copy)]
pub(crate) struct Looked {
    class: ClassId,
    whole: bool,
}

/// Whether a type has all members of an enum.
fn is_whole<V: View>(ty: &Type, class: ClassId, looked: &mut Option<Looked>, view: &V) -> bool
    requires { text.IsLooked (meaning_of (V.assignment view.now) (V.names view.now) (V.facts view.now) (V.view view.now)) ty.now looked.old }
    ensures value { result ≡ text.is_whole (meaning_of (V.assignment view.now) (V.names view.now) (V.facts view.now) (V.view view.now)) ty.now class }
    ensures looked { text.IsLooked (meaning_of (V.assignment view.now) (V.names view.now) (V.facts view.now) (V.view view.now)) ty.now looked.new }
{
    if let Some(last) = *looked {
        if last.class == class {
            return last.whole;
        }
    }
    let whole = has_members(ty, class, view.enum_members(class).len());
    *looked = Some(Looked { class, whole });
    whole
}

fn literal_shown<V: View>(
    ty: &Type,
    value: &Literal,
    looked: &mut Option<Looked>,
    view: &V,
) -> Shown
    requires { text.IsLooked (meaning_of (V.assignment view.now) (V.names view.now) (V.facts view.now) (V.view view.now)) ty.now looked.old }
    ensures value { result ≡ text.literal_shown (meaning_of (V.assignment view.now) (V.names view.now) (V.facts view.now) (V.view view.now)) ty.now value.now }
    ensures looked { text.IsLooked (meaning_of (V.assignment view.now) (V.names view.now) (V.facts view.now) (V.view view.now)) ty.now looked.new }
{
    match value {
        Literal::Int(_) => beside(ty, Builtin::Int.id()),
        Literal::Bool(value) => in_whole(
            has_bool(ty, false) && has_bool(ty, true),
            Builtin::Bool.id(),
            !*value,
        ),
        Literal::Str(_) => beside(ty, Builtin::Str.id()),
        Literal::Bytes(_) => beside(ty, Builtin::Bytes.id()),
        Literal::Member(class, place) => {
            let whole = is_whole(ty, *class, looked, view);
            in_whole(whole, *class, *place == 0)
        }
    }
}

/// How a member of a type is shown.
#[tactic(auto, using(crate::proofs::OutOf::outs), unfolding(crate::specs::Text::shown))]
pub(crate) fn shown_as<V: View>(
    ty: &Type,
    atom: &Atom,
    looked: &mut Option<Looked>,
    view: &V,
) -> Shown
    requires { text.IsLooked (meaning_of (V.assignment view.now) (V.names view.now) (V.facts view.now) (V.view view.now)) ty.now looked.old }
    ensures value { result ≡ text.shown (meaning_of (V.assignment view.now) (V.names view.now) (V.facts view.now) (V.view view.now)) ty.now atom.now }
    ensures looked { text.IsLooked (meaning_of (V.assignment view.now) (V.names view.now) (V.facts view.now) (V.view view.now)) ty.now looked.new }
{
    match atom {
        Atom::Lit(value) => literal_shown(ty, value, looked, view),
        Atom::Unbound | Atom::Open | Atom::Here => Shown::Dropped,
        _ => Shown::Itself,
    }
}

/// Whether a member of a type has a text there.
fn is_kept<V: View>(ty: &Type, atom: &Atom, looked: &mut Option<Looked>, view: &V) -> bool
    requires { text.IsLooked (meaning_of (V.assignment view.now) (V.names view.now) (V.facts view.now) (V.view view.now)) ty.now looked.old }
    ensures value { result ≡ text.keeps (meaning_of (V.assignment view.now) (V.names view.now) (V.facts view.now) (V.view view.now)) ty.now atom.now }
    ensures looked { text.IsLooked (meaning_of (V.assignment view.now) (V.names view.now) (V.facts view.now) (V.view view.now)) ty.now looked.new }
{
    match shown_as(ty, atom, looked, view) {
        Shown::Dropped => false,
        Shown::Whole(_) => true,
        Shown::Itself => true,
    }
}

/// The members of a type that are printed, at most so many, and whether others are kept behind them.
pub(crate) struct FirstMembers {
    pub members: Vec<Atom>,
    pub more: bool,
}

pub(crate) fn first_members<V: View>(
    alloc: Global,
    most: usize,
    ty: &Type,
    view: &V,
) -> Result<FirstMembers, NoMemory>
    ensures members { IfOk result (λ first. first.members.items ≡ take most (text.kept (meaning_of (V.assignment view.now) (V.names view.now) (V.facts view.now) (V.view view.now)) ty.now)) }
    ensures more { IfOk result (λ first. first.more ≡ nat_lt most (length (text.kept (meaning_of (V.assignment view.now) (V.names view.now) (V.facts view.now) (V.view view.now)) ty.now))) }
{
    let mut members = Vec::new(alloc);
    let mut looked = None;
    for atom in ty.members() {
        if !is_kept(ty, atom, &mut looked, view) {
            continue;
        }
        if members.len() == most {
            return Ok(FirstMembers {
                members,
                more: true,
            });
        }
        members.push(copy_atom(alloc, atom)?).map_err(lost)?;
    }
    Ok(FirstMembers {
        members,
        more: false,
    })
}
