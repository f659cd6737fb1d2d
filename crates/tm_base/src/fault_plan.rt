//! Which calls of a device in memory fail.
ghost use Rattle.std.specs.Prelude.{◌≡◌, ◌≤◌, ◌↔◌, IsTrue, Contains, if◌then◌else◌};
ghost use Rattle.tm_base.specs.Plan.{after_call, after_fault};

use std::marker::Model;

/// Which calls of a device in memory fail, by their numbers, and how many have failed.
#[derive(Debug, Drop)]
pub struct FaultPlan {
    failing: Vec<u64>,
    // The number of the next call, while a u64 holds it.
    next: Option<u64>,
    faults: u64,
}

impl Model for FaultPlan {
    ghost use Rattle.std.specs.Prelude.{ℕ, ◌^◌, ◌<◌, All, unwrap_or};
    ghost use Rattle.tm_base.specs.Plan.{Plan};

    ghost Value = { Plan };

    ghost view = { λ p. record { failing = p.failing.items; calls = unwrap_or p.next (2 ^ 64); faults = p.faults } };

    ghost invariant = { λ p. All (λ n. n < 2 ^ 64) p.failing.items };
}

impl FaultPlan {
    /// The calls with these numbers fail, counted from 0. It takes no memory.
    pub fn new(failing: Vec<u64>) -> FaultPlan
        ensures { result ≡ record { failing = failing.items; calls = 0; faults = 0 } }
    {
        FaultPlan {
            failing,
            next: Some(0),
            faults: 0,
        }
    }

    /// Begins a call, and says whether it fails. It counts the call, and a fault where it fails. Its cost is that of
    /// a search in the list of numbers.
    pub fn fails_next(&mut self) -> bool
        ensures fails { IsTrue result ↔ Contains self.old.failing self.old.calls }
        ensures plan { self.new ≡ (if result then after_fault (after_call self.old) else after_call self.old) }
        ensures later { self.old.faults ≤ self.new.faults }
    {
        let fails = match self.next {
            Some(number) => self.failing.contains(&number),
            None => false,
        };
        self.next = match self.next {
            Some(number) => number.checked_add(1),
            None => None,
        };
        if fails {
            self.faults = self.faults.saturating_add(1);
        }
        fails
    }

    /// Counts a fault of the call that was begun last.
    pub fn count_fault(&mut self)
        ensures plan { self.new ≡ after_fault self.old }
        ensures later { self.old.faults ≤ self.new.faults }
    {
        self.faults = self.faults.saturating_add(1);
    }

    /// The faults so far. The count stays at `u64::MAX`.
    pub fn faults(&self) -> u64
        ensures { result ≡ self.now.faults }
    {
        self.faults
    }
}
