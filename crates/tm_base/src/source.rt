//! What bytes are read from.
ghost use Rattle.std.specs.Prelude.{◌≡◌, ℕ, ◌<◌, ◌≤◌, List, length, Option, IfOk, OnOk, OnErr};
ghost use Rattle.tm_base.specs.Causes.{HasCause};
ghost use Rattle.tm_base.specs.Visible.{Stays, Gives, IsEmptyWhereTold};

use crate::failed::Failed;

/// What bytes are read from.
pub trait Source {
    /// The bytes still to come, where the source tells them. A source that tells goes on telling.
    ghost left: { Self → Option (List ℕ) };

    /// The number of faults so far. It never falls.
    ghost faults: { Self → ℕ };

    /// Reads some bytes to the front of the buffer, and returns how many. What stands in the buffer behind them, and
    /// after an `Err` in all of it, is open. `Ok(0)` for a buffer with room is the end.
    fn read(&mut self, into: &mut [u8]) -> Result<usize, Failed>
        ensures bound { IfOk result (λ n. n ≤ length into.new) }
        ensures bytes { IfOk result (λ n. Gives (left self.old) (left self.new) n into.new) }
        ensures end { IfOk result (λ n. n ≡ 0 → 0 < length into.old → IsEmptyWhereTold (left self.old)) }
        ensures stays { OnErr result (Stays (left self.old) (left self.new)) }

        // Only the count of faults excuses a failure, and none is passed over.
        ensures cause { HasCause (faults self.old) (faults self.new) result }
        ensures no_fault { OnOk result (faults self.new ≡ faults self.old) };
}
