//! The laws of terms, each proved once by induction over terms. These calls do nothing; their contracts are
//! the laws.
ghost use Rattle.std.specs.Prelude.{◌≡◌, List};
ghost use Rattle.std.specs.List.{Contains};
ghost use Rattle.type_terms.specs.Types.{type_of};
ghost use Rattle.type_terms.specs.declared.atom.Atom.{Atom};
ghost use Rattle.value_terms.specs.Answering.{answered, GivesByAnswers, NamesByAnswers};
ghost use Rattle.value_terms.specs.Outcome.{Outcome, named, type_term};
ghost use Rattle.value_terms.specs.Laws.{IsInside, Below, AgreeAt, IsWithin, IsWell};
ghost use Rattle.value_terms.specs.System.{Lawful, system_of};
ghost use Rattle.value_terms.specs.Term.{Term, Assignment, eval, reads};

use type_terms::laws::{equal_types_are_equal_lists, type_of_is_exact};

/// Where the keys have more members a term gives no fewer members and names no fewer keys.
pub fn terms_are_monotone<K, A>()
    ensures gives { (x : Term K A) (s t : Assignment K A) → Below s t → IsInside (eval x s) (eval x t) }
    ensures names { (x : Term K A) (s t : Assignment K A) → Below s t → IsInside (reads x s) (reads x t) }
{}

/// What a term gives, and what it names, depends on the types of the keys that it names alone.
pub fn terms_are_local<K, A>()
    ensures gives { (x : Term K A) (s t : Assignment K A) → AgreeAt (reads x s) s t → eval x s ≡ eval x t }
    ensures names { (x : Term K A) (s t : Assignment K A) → AgreeAt (reads x s) s t → reads x s ≡ reads x t }
{}

/// A term that names only some keys and members of a universe gives members of the universe alone, and names
/// those keys alone.
pub fn terms_stay_within<K, A>()
    ensures gives { (keys : List K) (universe : List A) (x : Term K A) (s : Assignment K A) → IsWell (Contains keys) (Contains universe) x → IsWithin (Contains keys) (Contains universe) s → (a : A) → Contains (eval x s) a → Contains universe a }
    ensures names { (keys : List K) (universe : List A) (x : Term K A) (s : Assignment K A) → IsWell (Contains keys) (Contains universe) x → IsWithin (Contains keys) (Contains universe) s → (k : K) → Contains (reads x s) k → Contains keys k }
{}

/// Rules that are terms keep the four laws, whatever form of a list a type is kept in.
pub fn terms_are_lawful<K, A>()
    ensures { (keys : List K) (universe : List A) (type : List A → List A) (rule : K → Term K A)
        → ((xs : List A) → IsInside xs (type xs))
        → ((xs : List A) → IsInside (type xs) xs)
        → ((k : K) → Contains keys k → IsWell (Contains keys) (Contains universe) (rule k))
        → Lawful (system_of keys universe type rule) }
{}

/// Where the keys of a term are answered by terms, it gives what it gives of what the answers give, and
/// names what the answers to the keys that it names name. Where the answers stay within some keys and a
/// universe, so does the term.
pub fn answers_are_terms<K, L, A>()
    ensures gives { GivesByAnswers K L A }
    ensures names { NamesByAnswers K L A }
    ensures within { (keys : List K) (named : List L) (universe : List A) (f : K → Term L A)
        → ((k : K) → Contains keys k → IsWell (Contains named) (Contains universe) (f k))
        → (x : Term K A) → IsWell (Contains keys) (Contains universe) x → IsWell (Contains named) (Contains universe) (answered f x) }
{}

/// The type of an outcome as one term gives what the outcome gives, and names the keys that the outcome names.
pub fn outcomes_are_terms<K, A>()
    ensures gives { (o : Outcome K A) (s : Assignment K A) → eval (type_term o) s ≡ eval o.gives s }
    ensures names { (o : Outcome K A) (s : Assignment K A) → reads (type_term o) s ≡ named o s }
{}

/// The type of a list has just the members of the list, so it is a form in which rules that are terms may keep
/// what they give.
pub fn types_have_their_members()
    ensures more { (xs : List Atom) → IsInside xs (type_of xs) }
    ensures fewer { (xs : List Atom) → IsInside (type_of xs) xs }
{
    equal_types_are_equal_lists();
    type_of_is_exact();
}
