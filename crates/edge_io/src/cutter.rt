//! What cuts the bytes of a source into pieces.
ghost use Rattle.std.specs.Prelude.{◌≡◌, ◌≢◌, ◌⊎◌, ◌≤◌, ℕ, List, Bool, [], true, IfSome};
ghost use Rattle.edge_io.specs.Stream.{IsUsedUp};
ghost use Rattle.edge_io.specs.Cutting.{Answers, fault_of, IsReady, IsFull};
ghost use Rattle.edge_io.specs.Reading.{Reading};
ghost use Rattle.py_base.specs.Causes.{Rose};

use crate::line::Line;
use crate::reader::LineFault;
use crate::source::Source;

/// Takes the bytes of a source and hands them out cut into pieces, one after the other: lines, or the
/// frames of a protocol. What it handed out are the first pieces of the bytes that it took, in whatever
/// pieces the source gave these.
pub trait Cutter {
    /// The pieces of bytes, behind which the input ends or not.
    ghost pieces: { Bool → List ℕ → List (List ℕ) };

    /// What waits in the cutter, two counts, and what stopped it.
    ghost reading: { Self → Reading };

    /// How many bytes were taken in all.
    fn taken(&self) -> u64
        ensures { result ≡ (reading self.now).taken };

    /// The next piece, or `None` behind the last one. It takes from the source only where no whole
    /// piece waits, and at most as many bytes in all as its limit says. `ReadFault` comes where the
    /// source failed; `TooLong` where as many bytes were taken as may be, the pieces that end in them
    /// were handed out and the end wasn't met; `Memory` where a piece could not be stored. After a
    /// fault it answers the same fault.
    fn next_line<S: Source>(&mut self, source: &mut S) -> Result<Option<Line>, LineFault>
        // Without a fault so far.
        ensures answer { (reading self.old).fault ≡ None → Answers pieces result (reading self.old) (reading self.new) (S.left source.old) (S.left source.new) }
        ensures full { (reading self.old).fault ≡ None → IsFull pieces (reading self.old) → (result ≡ Err LineFault.TooLong) ⊎ (result ≡ Err LineFault.Memory) }
        ensures over { (reading self.old).fault ≡ None → (reading self.old).at_end ≡ true → (reading self.old).waiting ≡ [] → result ≡ Ok None }

        // With one.
        ensures stuck { IfSome (reading self.old).fault (λ fault. (result ≡ Err fault) × (self.new ≡ self.old) × (source.new ≡ source.old)) }

        // The state behind each answer.
        ensures fault { (reading self.new).fault ≡ fault_of result }
        ensures most { (reading self.new).most ≡ (reading self.old).most }
        ensures within { (reading self.new).taken ≤ (reading self.new).most }
        ensures ready { IsReady pieces (reading self.old) → source.new ≡ source.old }

        // The end of the input.
        ensures ends { ((source.new ≡ source.old) × ((reading self.new).at_end ≡ (reading self.old).at_end)) ⊎ (S.ended source.new ≡ (reading self.new).at_end) }
        ensures used_up { ((reading self.old).at_end ≡ true → IsUsedUp (S.left source.old)) → (reading self.new).at_end ≡ true → IsUsedUp (S.left source.new) }

        // Faults of the source.
        ensures later { S.faults source.old ≤ S.faults source.new }
        ensures cause { result ≡ Err LineFault.ReadFault → ((reading self.old).fault ≡ Some LineFault.ReadFault) ⊎ Rose (S.faults source.old) (S.faults source.new) }
        ensures quiet { result ≢ Err LineFault.ReadFault → S.faults source.new ≡ S.faults source.old };
}
