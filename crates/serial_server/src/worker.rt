//! What does a session's jobs.
ghost use Rattle.std.specs.Prelude.{◌≡◌, IfOk, true};
ghost use Rattle.session_core.specs.Finished.{IsOutcomeOf};
ghost use Rattle.serial_server.specs.Worked.{is_found};

use py_base::NoMemory;
use session_core::{Analyser, Outcome, Work};

/// Does the jobs of a session, one at a time, with no one to give them up.
pub trait Worker: Analyser {
    /// Does what a job asks for, of its document's text. `NoMemory` where there was none for it.
    fn work(&mut self, doc: &mut Self::Doc, work: &Work) -> Result<Outcome, NoMemory>
        ensures same { Self.text_of doc.new ≡ Self.text_of doc.old }
        ensures right { IfOk result (IsOutcomeOf Self.has_list Self.has_hover (Self.text_of doc.new) work.now) }
        ensures found { IfOk result (λ outcome. is_found outcome ≡ true) };
}
