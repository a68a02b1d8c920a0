//! The laws of types, each proved once. These calls do nothing; their contracts are the laws.
ghost use Rattle.std.specs.Prelude.{◌≡◌, [], ◌∷◌, ℕ, ℤ, List, ◌||◌, true, codes};
ghost use Rattle.std.specs.Bool.{Decides};
ghost use Rattle.std.specs.Cmp.Lexicographic.{pointwise};
ghost use Rattle.std.specs.List.{list_any, Contains};
ghost use Rattle.std.specs.Ordering.{eq_by_cmp};
ghost use Rattle.type_terms.specs.Order.{atom_cmp};
ghost use Rattle.type_terms.specs.declared.atom.Atom.{Atom};
ghost use Rattle.type_terms.specs.declared.atom.Atom.TheVariants as atom;
ghost use Rattle.type_terms.specs.declared.literal.Literal.TheVariants as literal;
ghost use Rattle.type_terms.specs.LiteralText.{literal_text};
ghost use Rattle.type_terms.specs.Text.{text};
ghost use Rattle.type_terms.specs.View.{Meaning};
ghost use Rattle.type_terms.specs.Facts.{NameTable};
ghost use Rattle.type_terms.specs.Types.{IsType, has, type_of, union, IsWithin};
ghost use Rattle.type_terms.specs.Widen.{widened, widen};

/// Two types with the same members are one type.
pub fn types_are_their_members()
    ensures { (one other : List Atom) → IsType one → IsType other → ((a : Atom) → has one a ≡ has other a) → one ≡ other }
{}

/// Comparing the lists of members atom by atom decides whether two types are equal, and a type has an atom
/// exactly where its list contains it.
pub fn equal_types_are_equal_lists()
    ensures lists { (one other : List Atom) → Decides (pointwise (eq_by_cmp atom_cmp) one other) (one ≡ other) }
    ensures members { (type : List Atom) (a : Atom) → Decides (has type a) (Contains type a) }
{}

/// The type of a list of atoms has just these members, and the type of a type is itself.
pub fn type_of_is_exact()
    ensures rises { (atoms : List Atom) → IsType (type_of atoms) }
    ensures members { (atoms : List Atom) (a : Atom) → has (type_of atoms) a ≡ has atoms a }
    ensures same { (type : List Atom) → IsType type → type_of type ≡ type }
{}

/// A join has just the members of both.
pub fn join_is_exact()
    ensures rises { (one other : List Atom) → IsType (union one other) }
    ensures members { (one other : List Atom) (a : Atom) → has (union one other) a ≡ (has one a || has other a) }
{}

/// In a join of three types it is the same which two are joined first.
pub fn join_is_associative()
    ensures { (one two three : List Atom) → union (union one two) three ≡ union one (union two three) }
{}

/// It is the same from which side two types are joined.
pub fn join_is_commutative()
    ensures { (one other : List Atom) → union one other ≡ union other one }
{}

/// A type joined with itself is that type.
pub fn join_is_idempotent()
    ensures { (type : List Atom) → IsType type → union type type ≡ type }
{}

/// Never joined with a type is that type.
pub fn never_is_neutral()
    ensures { (type : List Atom) → IsType type → union [] type ≡ type }
{}

/// A join is the smallest type above both.
pub fn join_is_least()
    ensures first { (one other : List Atom) → IsWithin one (union one other) }
    ensures second { (one other : List Atom) → IsWithin other (union one other) }
    ensures least { (one other above : List Atom) → IsWithin one above → IsWithin other above → IsWithin (union one other) above }
{}

/// A widened type has just the atoms that its members become, so that widening is a table from members to
/// types, which rises with the type and goes over a join part by part.
pub fn widen_is_exact()
    ensures rises { (names : NameTable) (type : List Atom) → IsType (widen names type) }
    ensures members { (names : NameTable) (type : List Atom) (a : Atom) → has (widen names type) a ≡ list_any (λ b. has (widened names b) a) type }
    ensures never { (names : NameTable) → widen names [] ≡ [] }
    ensures joins { (names : NameTable) (one other : List Atom) → widen names (union one other) ≡ union (widen names one) (widen names other) }
{}

/// The texts of the types with one simple member and of the type with none, under every meaning of a view.
pub fn texts_of_one_member()
    ensures never { (m : Meaning) → text m 4 [] ≡ codes "Never" }
    ensures unknown { (m : Meaning) → text m 4 (atom.Unknown ∷ []) ≡ codes "Unknown" }
    ensures none { (m : Meaning) → text m 4 (atom.None ∷ []) ≡ codes "None" }
    ensures truth { (m : Meaning) → text m 4 (atom.Lit (literal.Bool true) ∷ []) ≡ codes "Literal[True]" }
    ensures int { (m : Meaning) (z : ℤ) → text m 4 (atom.Lit (literal.Int z) ∷ []) ≡ literal_text m (literal.Int z) }
    ensures string { (m : Meaning) (t : List ℕ) → text m 4 (atom.Lit (literal.Str t) ∷ []) ≡ literal_text m (literal.Str t) }
{}
