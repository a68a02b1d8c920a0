//! What a session asks of the checker: documents of texts. What a list or a hover of a text is, is the
//! checker's too, but no call here makes one, so a session takes each of them from a finished job.
ghost use Rattle.std.specs.Prelude.{◌≡◌, ◌↔◌, List, ℕ, IfOk, IsTrue, Option};
ghost use Rattle.py_base.specs.declared.diag.Diag.{Diag};
ghost use Rattle.py_base.specs.declared.span.Place.{Place};

use py_base::{NoMemory, Text};

/// Makes documents of texts.
pub trait Analyser: Drop {
    /// A text, made ready to be analysed.
    type Doc: Drop;

    /// The text of a document.
    ghost text_of: { Self.Doc → List ℕ };

    /// That this is the list of this text.
    ghost has_list: { List ℕ → List Diag → Type 0 };

    /// That at this place of this text a hover shows this type, or none.
    ghost has_hover: { List ℕ → Place → Option (List ℕ) → Type 0 };

    /// A document of a text. `NoMemory` where it could not be stored.
    fn open(&self, text: &Text) -> Result<Self::Doc, NoMemory>
        ensures { IfOk result (λ doc. text_of doc ≡ text.now) };

    /// A second document of the same text. `NoMemory` where it could not be stored.
    fn share(&self, doc: &mut Self::Doc) -> Result<Self::Doc, NoMemory>
        ensures same { text_of doc.new ≡ text_of doc.old }
        ensures shared { IfOk result (λ copy. text_of copy ≡ text_of doc.old) };

    /// Whether two documents have the same text. Takes no memory.
    fn same(&self, one: &Self::Doc, other: &Self::Doc) -> bool
        ensures { IsTrue result ↔ (text_of one.now ≡ text_of other.now) };

    /// A text has one list.
    ghost one_list: { (text : List ℕ) (one other : List Diag) → has_list text one → has_list text other → one ≡ other };

    /// A place of a text has one hover.
    ghost one_hover: { (text : List ℕ) (place : Place) (one other : Option (List ℕ)) → has_hover text place one → has_hover text place other → one ≡ other };
}
