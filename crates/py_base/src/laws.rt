//! Laws of lines and places, for the proofs of the layers above. A law is a function that does
//! nothing: its contract is the fact, and whoever calls it knows the fact from there on.
ghost use Rattle.std.specs.Prelude.{◌≡◌, ℕ, ◌<◌, ◌≤◌, List, map, length, sum, Some};
ghost use Rattle.std.specs.FinMap.{IsAntisymmetric};
ghost use Rattle.py_base.specs.declared.language_names.TheConstants.{BUILTIN_NAMES};
ghost use Rattle.py_base.specs.DiagOrder.{diag_cmp};
ghost use Rattle.py_base.specs.LanguageNames.{builtin_names};
ghost use Rattle.py_base.specs.declared.span.Place.{Place};
ghost use Rattle.py_base.specs.Lines.{physical_lines, ArePhysicalLines};
ghost use Rattle.py_base.specs.Places.{place_of, offset_of};

/// The place of each offset of a text has that offset.
pub fn places_inverse()
    ensures { (lengths : List ℕ) (offset : ℕ) → 0 < length lengths → offset ≤ sum lengths → offset_of lengths (place_of lengths offset) ≡ Some offset }
{}

/// The offset of a place has that place, and is within the text.
pub fn offsets_inverse()
    ensures place { (lengths : List ℕ) (place : Place) (offset : ℕ) → offset_of lengths place ≡ Some offset → place_of lengths offset ≡ place }
    ensures within { (lengths : List ℕ) (place : Place) (offset : ℕ) → offset_of lengths place ≡ Some offset → offset ≤ sum lengths }
{}

/// The physical lines of a text are joined the text, the last of them has no line end, and each
/// other has exactly one, at its end. No other list of lines is like that.
///
/// Python 3.12 language reference, 2.1.2, "Physical lines".
pub fn lines_are_the_text()
    ensures lines { (text : List ℕ) → ArePhysicalLines text (physical_lines text) }
    ensures unique { (text : List ℕ) (lines : List (List ℕ)) → ArePhysicalLines text lines → lines ≡ physical_lines text }
{}

/// A text has at least one line, and its lines have all its characters.
pub fn lines_have_all()
    ensures some { (text : List ℕ) → 0 < length (map length (physical_lines text)) }
    ensures all { (text : List ℕ) → sum (map length (physical_lines text)) ≡ length text }
{}

/// Diagnostics that compare as equal are the same.
pub fn equal_diags_are_the_same()
    ensures { IsAntisymmetric diag_cmp }
{}

/// The constant has the names that every module sees.
pub fn builtin_names_are_listed()
    ensures { map (λ n. n.now) BUILTIN_NAMES ≡ builtin_names }
{}
