//! Open files.
ghost use Rattle.std.specs.Prelude.{◌≡◌, ◌↔◌, IfOk, IsTrue};
ghost use Rattle.session_core.specs.Machine.{new_doc, published_doc};

use crate::analyser::Analyser;
use py_base::NoMemory;
use std::marker::Model;

/// An open file: its version and the document of its text, with the job that its list is. A contract
/// sees the text in place of the document.
#[derive(Drop)]
pub struct OpenFile<A: Analyser> {
    version: u32,
    doc: A::Doc,
    job: u64,
    published: bool,
}

impl<A: Analyser> Model for OpenFile<A> {
    ghost use Rattle.session_core.specs.Doc.{Doc};

    ghost Value = { Doc };

    ghost view = { λ f. record { version = f.version; text = A.text_of f.doc; job = f.job; published = f.published } };
}

impl<A: Analyser> OpenFile<A> {
    /// A version that waits for its list.
    pub fn new(version: u32, doc: A::Doc, job: u64) -> OpenFile<A>
        ensures { result ≡ new_doc job version (A.text_of doc) }
    {
        OpenFile {
            version,
            doc,
            job,
            published: false,
        }
    }

    pub fn version(&self) -> u32
        ensures { result ≡ self.now.version }
    {
        self.version
    }

    /// The number of the job that makes its list.
    pub fn job(&self) -> u64
        ensures { result ≡ self.now.job }
    {
        self.job
    }

    pub fn is_published(&self) -> bool
        ensures { result ≡ self.now.published }
    {
        self.published
    }

    /// Notes that the version is published.
    pub fn publish(&mut self)
        ensures { self.new ≡ published_doc self.old }
    {
        self.published = true;
    }

    /// Another document of the text. `NoMemory` where it could not be stored.
    pub fn share(&mut self, analyser: &A) -> Result<A::Doc, NoMemory>
        ensures same { self.new ≡ self.old }
        ensures shared { IfOk result (λ doc. A.text_of doc ≡ self.old.text) }
    {
        analyser.share(&mut self.doc)
    }

    /// Whether this is a document of the text.
    pub fn is_of(&self, analyser: &A, doc: &A::Doc) -> bool
        ensures { IsTrue result ↔ (A.text_of doc.now ≡ self.now.text) }
    {
        analyser.same(doc, &self.doc)
    }
}
