//! Laws of the grammar, for the layers above. A law is a function that does nothing: its contract is
//! the fact, and whoever calls it knows the fact from there on.
ghost use Rattle.std.specs.Prelude.{◌≡◌, List};
ghost use Rattle.py_base.specs.Tree.{SyntaxTree};
ghost use Rattle.py_tokens.specs.declared.lines.Token.{Token};
ghost use Rattle.py_grammar.specs.declared.words.Need.{Need};
ghost use Rattle.py_grammar.specs.Reading.{Reading, IsWellFormed, Meets, spell};
ghost use Rattle.py_grammar.specs.Levelled.{IsTreeOf};

/// No tokens have two readings that meet one need: the grammar is unambiguous.
pub fn one_reading()
    ensures { (t u : Reading) (need : Need) → IsWellFormed t → IsWellFormed u → Meets need t → Meets need u → spell t ≡ spell u → t ≡ u }
{}

/// No tokens have two trees that meet one need.
pub fn one_tree()
    ensures { (tokens : List Token) (need : Need) (t u : SyntaxTree) → IsTreeOf tokens need t → IsTreeOf tokens need u → t ≡ u }
{}
