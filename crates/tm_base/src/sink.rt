//! What bytes are written to.
ghost use Rattle.std.specs.Prelude.{◌≡◌, ℕ, ◌<◌, ◌≤◌, List, length, take, Option, IfOk, OnOk, OnErr};
ghost use Rattle.tm_base.specs.Causes.{HasCause};
ghost use Rattle.tm_base.specs.Visible.{Stays, Grows};

use crate::failed::Failed;

/// What bytes are written to.
pub trait Sink {
    /// The bytes written so far, where the sink tells them. A sink that tells goes on telling.
    ghost written: { Self → Option (List ℕ) };

    /// The number of faults so far. It never falls.
    ghost faults: { Self → ℕ };

    /// Appends some bytes of the front of a piece, and returns how many: at least one of a piece that is not empty.
    /// An empty piece appends nothing.
    fn write(&mut self, from: &[u8]) -> Result<usize, Failed>
        ensures bound { IfOk result (λ n. n ≤ length from.now) }
        ensures some { IfOk result (λ n. 0 < length from.now → 0 < n) }
        ensures bytes { IfOk result (λ n. Grows (written self.old) (written self.new) (take n from.now)) }
        ensures stays { OnErr result (Stays (written self.old) (written self.new)) }

        // Only the count of faults excuses a failure, and none is passed over.
        ensures cause { HasCause (faults self.old) (faults self.new) result }
        ensures no_fault { OnOk result (faults self.new ≡ faults self.old) };
}
