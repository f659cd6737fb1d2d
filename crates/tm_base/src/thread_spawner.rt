//! The spawner of threads.
ghost use Rattle.std.specs.Prelude.{◌≡◌};
ghost use Rattle.tm_base.specs.Causes.{one_fault_more};

use crate::spawner::Spawner;
use std::marker::Model;

/// The spawner of threads: each piece of work gets one of the system's, where the system has one.
#[derive(Debug, Drop)]
pub struct ThreadSpawner {
    faults: u64,
}

impl Model for ThreadSpawner {
    ghost use Rattle.std.specs.Prelude.{ℕ};

    ghost Value = { ℕ };

    ghost view = { λ s. s.faults };
}

impl ThreadSpawner {
    /// A spawner with no fault so far.
    pub fn new() -> ThreadSpawner
        ensures { result ≡ 0 }
    {
        ThreadSpawner { faults: 0 }
    }

    /// The faults so far. The count stays at `u64::MAX`.
    pub fn faults(&self) -> u64
        ensures { result ≡ self.now }
    {
        self.faults
    }
}

impl Spawner for ThreadSpawner {
    ghost faults = { λ s. s };

    ghost refuses = { λ _. ⊥ };

    ghost begun = { λ s. s };

    ghost faulted = { one_fault_more };

    fn begin(&mut self) -> bool {
        true
    }

    fn count_fault(&mut self) {
        self.faults = self.faults.saturating_add(1);
    }
}
