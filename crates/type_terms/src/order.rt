//! The order of atoms.
ghost use Rattle.std.specs.Prelude.{◌≡◌, false, map};
ghost use Rattle.type_terms.specs.Order as spec;
ghost use Rattle.type_terms.specs.Order.{key, head, kind_in, rest_in, slots_key, members_key, keyed, atom_cmp, literal_class, literal_kind, literal_key};
ghost use Rattle.type_terms.specs.SortKey.{key_cmp, listed};
ghost use Rattle.std.specs.Cmp.{IsTotalOrder};
ghost use Rattle.std.specs.FinSet.{IsAntisymmetric};

use crate::atom::{Atom, Slots};
use crate::literal::Literal;
use py_base::{Builtin, ClassId, InnerTuple};
use sqlite_items::Items;
use std::cmp::Ordering;

impl Literal {
    /// The class of the value.
    pub fn class(&self) -> ClassId
        ensures { result ≡ literal_class self.now }
    {
        match self {
            Literal::Int(_) => Builtin::Int.id(),
            Literal::Bool(_) => Builtin::Bool.id(),
            Literal::Str(_) => Builtin::Str.id(),
            Literal::Bytes(_) => Builtin::Bytes.id(),
            Literal::Member(class, _) => *class,
        }
    }

    fn kind(&self) -> u8
        ensures { result ≡ literal_kind self.now }
    {
        match self {
            Literal::Int(_) => 0,
            Literal::Bool(_) => 1,
            Literal::Str(_) => 2,
            Literal::Bytes(_) => 3,
            Literal::Member(_, _) => 4,
        }
    }

    /// `False` before `True`, integers by value, texts and bytes by their bytes, members of an enum
    /// in class order.
    fn compare(&self, other: &Literal) -> Ordering
        ensures { result ≡ key_cmp (literal_key self.now) (literal_key other.now) }
    {
        match (self, other) {
            (Literal::Int(a), Literal::Int(b)) => a.cmp(b),
            (Literal::Bool(a), Literal::Bool(b)) => a.cmp(b),
            (Literal::Str(a), Literal::Str(b)) => a.as_str().cmp(b.as_str()),
            (Literal::Bytes(a), Literal::Bytes(b)) => a.as_slice().cmp(b.as_slice()),
            (Literal::Member(_, a), Literal::Member(_, b)) => a.cmp(b),
            _ => self.kind().cmp(&other.kind()),
        }
    }
}

/// What decides between most atoms: the number of the kind, the number of the class, that of the
/// node, the function, the row or the name, and which inner tuple a site is. A part that a kind lacks
/// is 0.
#[derive(Clone, Copy, PartialEq, Eq, PartialOrd, Ord)]
struct Head {
    kind: u8,
    class: ClassId,
    place: u32,
    inner: u64,
}

fn inner_number(inner: InnerTuple) -> u64
    ensures { result ≡ spec.inner_number inner }
{
    match inner {
        InnerTuple::None => 0,
        InnerTuple::Pair => 1,
        InnerTuple::Zip(slots) => slots as u64 + 2,
    }
}

impl Head {
    fn of_class(kind: u8, class: ClassId) -> Head
        ensures { result ≡ record { kind = kind; class = class; place = 0; inner = 0 } }
    {
        Head {
            kind,
            class,
            place: 0,
            inner: 0,
        }
    }

    fn of_number(kind: u8, place: u32) -> Head
        ensures { result ≡ record { kind = kind; class = record { 0 = 0 }; place = place; inner = 0 } }
    {
        Head {
            kind,
            class: ClassId(0),
            place,
            inner: 0,
        }
    }
}

impl Atom {
    #[tactic(auto, using(crate::proofs::KeyOf::keys))]
    fn head(&self) -> Head
        ensures { key self.now ≡ head result.kind result.class.0 result.place result.inner (rest_in (key self.now)) }
    {
        match self {
            Atom::Lit(value) => Head::of_class(1, value.class()),
            Atom::Inst(class) => Head::of_class(2, *class),
            Atom::Gen(class, _) => Head::of_class(3, *class),
            Atom::Site(site) => Head {
                kind: 4,
                class: site.class,
                place: site.node.0,
                inner: inner_number(site.inner),
            },
            Atom::Class(class) => Head::of_class(5, *class),
            Atom::Func(func) => Head::of_number(6, func.0),
            Atom::Bound(func) => Head::of_number(7, func.0),
            Atom::BuiltMethod(_, receiver) => Head::of_class(8, receiver.get().head().class),
            Atom::BuiltFunc(row) => Head::of_number(9, *row),
            Atom::Super(class) => Head::of_class(10, *class),
            Atom::Mod(name) => Head::of_number(11, name.0),
            Atom::Special(name) => Head::of_number(12, name.0),
            Atom::Unknown => Head::of_number(13, 0),
            Atom::None => Head::of_number(14, 0),
            Atom::Unbound => Head::of_number(15, 0),
            Atom::Open => Head::of_number(16, 0),
            Atom::Here => Head::of_number(17, 0),
        }
    }
}

/// Compares two atoms.
#[cycle(order)]
pub(crate) fn compare(left: &Atom, right: &Atom) -> Ordering
    ensures { result ≡ atom_cmp left.now right.now }
{
    match left.head().cmp(&right.head()) {
        Ordering::Equal => compare_rest(left, right),
        decided => decided,
    }
}

#[cycle(order)]
fn compare_rest(left: &Atom, right: &Atom) -> Ordering
    requires { kind_in (key left.now) ≡ kind_in (key right.now) }
    ensures { result ≡ key_cmp (rest_in (key left.now)) (rest_in (key right.now)) }
{
    match left {
        Atom::Lit(a) => match right {
            Atom::Lit(b) => a.compare(b),
            _ => Ordering::Equal,
        },
        Atom::Gen(_, a) => match right {
            Atom::Gen(_, b) => match (a, b) {
                (Slots::Each(a), Slots::Each(b)) => compare_types(a.as_slice(), b.as_slice()),
                (Slots::Endless(a), Slots::Endless(b)) => { compare_members(a, b) }
                (Slots::AnyArguments(a), Slots::AnyArguments(b)) => { compare_members(a, b) }
                (Slots::Arguments(a, r), Slots::Arguments(b, s)) => {
                    compare_types(a.as_slice(), b.as_slice()).then(compare_members(r, s))
                }
                _ => a.kind().cmp(&b.kind()),
            },
            _ => Ordering::Equal,
        },
        Atom::BuiltMethod(row, a) => match right {
            Atom::BuiltMethod(other_row, b) => {
                compare(a.get(), b.get()).then(row.cmp(other_row))
            }
            _ => Ordering::Equal,
        },
        _ => Ordering::Equal,
    }
}

#[cycle(order)]
fn compare_types(left: &[Items<Atom>], right: &[Items<Atom>]) -> Ordering
    ensures { result ≡ key_cmp (listed (map members_key left.now)) (listed (map members_key right.now)) }
{
    for (place, a) in left.iter().enumerate() {
        let Some(b) = right.get(place) else {
            return Ordering::Greater;
        };
        match compare_members(a, b) {
            Ordering::Equal => {}
            decided => return decided,
        }
    }
    left.len().cmp(&right.len())
}

#[cycle(order)]
fn compare_members(left: &Items<Atom>, right: &Items<Atom>) -> Ordering
    ensures { result ≡ key_cmp (members_key left.now) (members_key right.now) }
{
    let others = right.as_slice();
    for (place, a) in left.as_slice().iter().enumerate() {
        let Some(b) = others.get(place) else {
            return Ordering::Greater;
        };
        match compare(a, b) {
            Ordering::Equal => {}
            decided => return decided,
        }
    }
    left.len().cmp(&right.len())
}

/// The order of atoms is total, and ties only an atom with itself.
pub fn order_is_total()
    ensures total { IsTotalOrder atom_cmp }
    ensures tells { IsAntisymmetric atom_cmp }
{}

impl PartialEq for Atom {
    ghost use Rattle.std.specs.Cmp.{partial_equiv_from_equiv, eq_by_cmp_equiv};
    ghost use Rattle.std.specs.Ordering.{eq_by_cmp};
    ghost use Rattle.type_terms.specs.Order.{atom_cmp};
    ghost use Rattle.type_terms.specs.KeyOrder.{atom_cmp_total};

    ghost eq = { eq_by_cmp atom_cmp };

    ghost laws = { partial_equiv_from_equiv (eq_by_cmp_equiv atom_cmp_total) };

    fn eq(&self, other: &Atom) -> bool {
        compare(self, other).is_eq()
    }
}

impl Eq for Atom {
    ghost use Rattle.std.specs.Cmp.{eq_by_cmp_equiv};
    ghost use Rattle.type_terms.specs.KeyOrder.{atom_cmp_total};

    ghost laws = { eq_by_cmp_equiv atom_cmp_total };
}

impl PartialOrd for Atom {
    ghost use Rattle.std.specs.Cmp.{partial_order_from_total};
    ghost use Rattle.std.specs.Ordering.{as_partial_cmp};
    ghost use Rattle.type_terms.specs.Order.{atom_cmp};
    ghost use Rattle.type_terms.specs.KeyOrder.{atom_cmp_total};

    ghost partial_cmp = { as_partial_cmp atom_cmp };

    ghost laws = { partial_order_from_total atom_cmp_total };

    fn partial_cmp(&self, other: &Atom) -> Option<Ordering> {
        Some(compare(self, other))
    }
}

/// By numbers alone: the kind, the class, the node, the function, the row or the name, and behind these
/// the literal value, the slots or the receiver. Whoever numbers them says what that order means:
/// classes are numbered as the language lists the builtin ones and then in the order of the text, names
/// of the language in the order of their bytes behind the builtin classes, functions by the node of
/// their def or lambda, and rows of builtins by receiver class and name.
impl Ord for Atom {
    ghost use Rattle.std.specs.Prelude.{refl};
    ghost use Rattle.type_terms.specs.Order.{atom_cmp};
    ghost use Rattle.type_terms.specs.KeyOrder.{atom_cmp_total};

    ghost cmp = { atom_cmp };

    ghost total = { atom_cmp_total };

    ghost matches_partial_cmp = { λ x y. refl };

    ghost matches_eq = { λ x y. refl };

    fn cmp(&self, other: &Atom) -> Ordering {
        compare(self, other)
    }
}
