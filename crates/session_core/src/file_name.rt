//! Names of files as keys.
ghost use Rattle.std.specs.Prelude.{◌≡◌, bytes_eq};
ghost use Rattle.std.proofs.Common.{rules, ap};
ghost use Rattle.std.specs.Cmp.Rules.{comparing};
ghost use Rattle.std.specs.Cmp.Lexicographic.{bytes_decides, nat_list_eq_equiv};
ghost use Rattle.std.specs.Hash as fed;

use indexmap::Equivalent;
use py_base::Text;
use std::hash::{Hash, Hasher};
use std::marker::Model;

/// A file's name. A contract sees its bytes.
#[derive(Drop)]
pub struct FileName {
    text: Text,
}

impl Model for FileName {
    ghost use Rattle.std.specs.Prelude.{List, ℕ};

    ghost Value = { List ℕ };

    ghost view = { λ name. name.text };
}

impl FileName {
    /// The name of this text.
    pub fn new(text: Text) -> FileName
        ensures { result ≡ text }
    {
        FileName { text }
    }

    /// The name as a text.
    pub fn as_text(&self) -> &Text
        ensures { result.now ≡ self.now }
    {
        &self.text
    }
}

impl PartialEq for FileName {
    ghost eq = { bytes_eq };

    ghost laws = { Prim.search (comparing, rules) };

    fn eq(&self, other: &FileName) -> bool {
        self.text.as_str() == other.text.as_str()
    }
}

impl Eq for FileName {
    ghost laws = { Prim.search (comparing, rules) };
}

impl Hash for FileName {
    ghost hash_input = { λ name. fed.str name };

    ghost respects_eq = { λ one other same. ap fed.str ((bytes_decides one other).0 same) };

    fn hash<H: Hasher>(&self, state: &mut H) {
        self.text.as_str().hash(state);
    }
}

impl Equivalent<FileName> for &str {
    ghost equivalent = { λ text name. bytes_eq text.now name };

    ghost respects_hash = { λ text name same. ap fed.str ((bytes_decides text.now name).0 same) };

    ghost respects_eq = { λ text one other. nat_list_eq_equiv.congr text.now one other };

    fn equivalent(&self, key: &FileName) -> bool {
        *self == key.text.as_str()
    }
}
