//! Where bytes come from.
ghost use Rattle.std.specs.Prelude.{◌≡◌, ℕ, ◌<◌, ◌≤◌, List, Option, Bool, length, take, IfOk, OnOk, OnErr};
ghost use Rattle.edge_io.specs.Stream.{before, is_end, IsUsedUp};
ghost use Rattle.py_base.specs.Causes.{HasCause};

use thiserror::Error;

/// A call of a source or a sink gave up. Nothing was taken or written by it.
#[derive(Clone, Copy, Debug, PartialEq, Eq, Error)]
#[error("the device failed")]
pub struct Failed;

/// Something that bytes are taken from, in their order.
pub trait Source {
    /// The bytes that are left, where the source tells them.
    ghost left: { Self → Option (List ℕ) };

    /// How often a call has failed. It never falls.
    ghost faults: { Self → ℕ };

    /// Whether the last call met the end of the input. It hasn't in a new source.
    ghost ended: { Self → Bool };

    /// Takes the next bytes into the front of `buf` and says how many there are. `Ok(0)` is the end
    /// of the input. `Failed` comes only where the count of faults rose in this call, and takes
    /// nothing.
    fn take(&mut self, buf: &mut [u8]) -> Result<usize, Failed>
        requires { 0 < length buf.old }
        ensures within { IfOk result (λ n. n ≤ length buf.old) }
        ensures bytes { IfOk result (λ n. left self.old ≡ before (take n buf.new) (left self.new)) }
        ensures err { OnErr result (left self.new ≡ left self.old) }
        ensures ended { ended self.new ≡ is_end result }
        ensures used_up { IfOk result (λ n. n ≡ 0 → IsUsedUp (left self.new)) }
        ensures cause { HasCause (faults self.old) (faults self.new) result }
        ensures quiet { OnOk result (faults self.new ≡ faults self.old) };
}
