//! The spawner that starts nothing.
ghost use Rattle.std.specs.Prelude.{◌≡◌, ⊤};
ghost use Rattle.tm_base.specs.Causes.{one_fault_more};

use crate::spawner::Spawner;
use std::marker::Model;

/// The spawner that starts nothing: each start fails and counts a fault.
#[derive(Debug, Drop)]
pub struct NeverStarts {
    faults: u64,
}

impl Model for NeverStarts {
    ghost use Rattle.std.specs.Prelude.{ℕ};

    ghost Value = { ℕ };

    ghost view = { λ s. s.faults };
}

impl NeverStarts {
    /// A spawner with no fault so far.
    pub fn new() -> NeverStarts
        ensures { result ≡ 0 }
    {
        NeverStarts { faults: 0 }
    }

    /// The faults so far. The count stays at `u64::MAX`.
    pub fn faults(&self) -> u64
        ensures { result ≡ self.now }
    {
        self.faults
    }
}

impl Spawner for NeverStarts {
    ghost faults = { λ s. s };

    ghost refuses = { λ _. ⊤ };

    ghost begun = { λ s. s };

    ghost faulted = { one_fault_more };

    fn begin(&mut self) -> bool {
        false
    }

    fn count_fault(&mut self) {
        self.faults = self.faults.saturating_add(1);
    }
}
