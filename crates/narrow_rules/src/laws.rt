//! The laws of what tests keep. Each function does nothing, and its contract is the law.
ghost use Rattle.std.specs.Prelude.{◌≡◌, ◌++◌, ◌∷◌, [], true, false, not, Bool, List};
ghost use Rattle.std.specs.List.{Contains, flat_map};
ghost use Rattle.type_terms.specs.declared.atom.Atom.{Atom};
ghost use Rattle.type_terms.specs.declared.narrowing.Test.{Test};
ghost use Rattle.type_terms.specs.declared.narrowing.Test.TheVariants as test;
ghost use Rattle.type_terms.specs.Facts.{NameTable};
ghost use Rattle.type_terms.specs.Types.{IsType};
ghost use Rattle.class_rows.specs.Rows.{ClassRow};
ghost use Rattle.narrow_rules.specs.Keep.{set_of, kept, keep, narrowed};
ghost use Rattle.narrow_rules.specs.Laws.{IsInside, HaveSame, HasSets, made_by};

use type_terms::laws::{equal_types_are_equal_lists, type_of_is_exact};

/// What a test keeps of a type is what it keeps of each of its members, so that of a type with more
/// members it keeps no fewer.
pub fn tests_are_maps()
    ensures sorted { (classes : List ClassRow) (names : NameTable) (t : Test) (positive : Bool) (type : List Atom) → IsType (narrowed classes names t positive type) }
    ensures members { (classes : List ClassRow) (names : NameTable) (t : Test) (positive : Bool) (type : List Atom) → HaveSame (narrowed classes names t positive type) (flat_map (keep classes names t positive) type) }
    ensures rises { (classes : List ClassRow) (names : NameTable) (t : Test) (positive : Bool) (one other : List Atom) → IsInside one other → IsInside (narrowed classes names t positive one) (narrowed classes names t positive other) }
{
    equal_types_are_equal_lists();
    type_of_is_exact();
}

/// A member is kept as itself on at least one side of each test, also no value and the marks. An instance
/// of `bool` or of an enum with members is the set of its members, and so each of these is kept.
pub fn no_member_is_lost()
    ensures { (classes : List ClassRow) (names : NameTable) (t : Test) (a : Atom) → set_of names a ≡ [] → Contains (keep classes names t true a ++ keep classes names t false a) a }
{
    equal_types_are_equal_lists();
    type_of_is_exact();
}

/// What a test keeps of a type stays in each list of atoms that has the type's members, those that the
/// test puts in place of others, and with an instance of `bool` or of an enum its members.
pub fn tests_stay_within()
    ensures { (classes : List ClassRow) (names : NameTable) (t : Test) (positive : Bool) (universe type : List Atom) → HasSets names universe → IsInside (made_by names t) universe → IsInside type universe
        → IsInside (narrowed classes names t positive type) universe }
{
    equal_types_are_equal_lists();
    type_of_is_exact();
}

/// A swapped test keeps on each side what the test keeps on the other one, so that swapping twice is nothing.
pub fn swapping_twice_is_nothing()
    ensures other { (classes : List ClassRow) (names : NameTable) (t : Test) (positive : Bool) (a : Atom) → kept classes names (test.Swapped t) positive a ≡ kept classes names t (not positive) a }
    ensures twice { (classes : List ClassRow) (names : NameTable) (t : Test) (positive : Bool) (a : Atom) → kept classes names (test.Swapped (test.Swapped t)) positive a ≡ kept classes names t positive a }
{}

/// One test more with `|` behind others: where it is true it keeps what they keep and what that one keeps,
/// and where it is false what that one keeps of what they keep.
pub fn alternatives_join_and_chain()
    ensures joins { (classes : List ClassRow) (names : NameTable) (tests : List Test) (t : Test) (a : Atom) → set_of names a ≡ []
        → HaveSame (keep classes names (test.Either (tests ++ t ∷ [])) true a) (keep classes names (test.Either tests) true a ++ keep classes names t true a) }
    ensures chains { (classes : List ClassRow) (names : NameTable) (tests : List Test) (t : Test) (a : Atom) → set_of names a ≡ []
        → HaveSame (keep classes names (test.Either (tests ++ t ∷ [])) false a) (flat_map (keep classes names t false) (keep classes names (test.Either tests) false a)) }
    ensures nothing { (classes : List ClassRow) (names : NameTable) (a : Atom) → set_of names a ≡ [] → keep classes names (test.Either []) false a ≡ a ∷ [] }
{
    equal_types_are_equal_lists();
    type_of_is_exact();
}
