//! What work is started by.
ghost use Rattle.std.specs.Prelude.{◌≡◌, ◌↔◌, ℕ, ◌≤◌, IsErr, IsFalse, IfOk, IfErr, OnOk, OnErr};
ghost use Rattle.tm_base.specs.Causes.{HasCause, one_fault_more};

use std::thread::{self, Promise, PromisedHandle, Threads};

/// What work is started by, each piece on a thread of its own. A spawner says whether the next start may be tried, and
/// counts the starts that failed.
pub trait Spawner {
    /// The number of starts that failed so far. It never falls.
    ghost faults: { Self → ℕ };

    /// Whether the next start fails, whatever the system has.
    ghost refuses: { Self → Type 0 };

    /// What is left once a start was begun.
    ghost begun: { Self → Self };

    /// What is left once the start that was begun last failed.
    ghost faulted: { Self → Self };

    /// Begins a start, and says whether it may be tried. [`Spawner::start`] calls it once.
    fn begin(&mut self) -> bool
        ensures refused { IsFalse result ↔ refuses self.old }
        ensures state { self.new ≡ begun self.old }
        ensures no_fault { faults self.new ≡ faults self.old };

    /// Counts a fault: the start that was begun last failed. [`Spawner::start`] calls it where it hands the work back.
    fn count_fault(&mut self)
        ensures state { self.new ≡ faulted self.old }
        ensures one_fault { faults self.new ≡ one_fault_more (faults self.old) }
        ensures later { faults self.old ≤ faults self.new };

    /// Starts work beside the caller's, with a promise of what it gives. The handle's `join` waits for the end of the
    /// work, and what it returns keeps the promise. Where no thread can be had the work comes back as it was, and the
    /// caller may run it. The work may wait; this call does not.
    final fn start<
        R: Threads,
        T: Send + Drop + 'static,
        Q: Promise<T> + Drop,
        F: FnOnce() -> T + Send + 'static,
    >(&mut self, rt: &R, promise: Q, work: F) -> Result<PromisedHandle<T, Q>, F>
        requires runs { F.pre work }
        requires keeps { (given : T) → F.post work given → Q.kept_by promise given }
        ensures promised { IfOk result (λ handle. handle.promise ≡ promise) }
        ensures back { IfErr result (λ same. same ≡ work) }

        // Only the count of faults excuses a failure, and none is passed over.
        ensures cause { HasCause (faults self.old) (faults self.new) result }
        ensures no_fault { OnOk result (faults self.new ≡ faults self.old) }
        ensures one_fault { OnErr result (faults self.new ≡ one_fault_more (faults self.old)) }
        ensures refused { refuses self.old → IsErr result }

        // One start was begun.
        ensures state { OnOk result (self.new ≡ begun self.old) }
        ensures failed { OnErr result (self.new ≡ faulted (begun self.old)) }
    {
        if !self.begin() {
            self.count_fault();
            return Err(work);
        }
        match thread::spawn_with(rt, promise, work) {
            Ok(handle) => Ok(handle),
            Err(refused) => {
                self.count_fault();
                Err(refused.value)
            }
        }
    }
}
