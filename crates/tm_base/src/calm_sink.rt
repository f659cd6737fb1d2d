//! A sink that never fails.
ghost use Rattle.std.specs.Prelude.{◌≡◌, ℕ, ◌+◌, ◌-◌, ◌^◌, ◌<◌, ◌≤◌, None, length, take, min, IsOkAnd, IfOk, OnOk, OnErr};
ghost use Rattle.tm_base.specs.Causes.{HasCause};
ghost use Rattle.tm_base.specs.Visible.{Stays, Grows};

use crate::failed::Failed;
use crate::sink::Sink;
use std::marker::Model;

/// A sink that takes each piece whole and keeps of it the number of its bytes alone. It never fails, and code that is
/// generic in its sink can tell so by its count of faults, which is 0. It does not tell the bytes written.
#[derive(Debug, Drop)]
pub struct CalmSink {
    count: u64,
}

impl Model for CalmSink {
    ghost use Rattle.std.specs.Prelude.{ℕ};

    ghost Value = { ℕ };

    ghost view = { λ s. s.count };
}

impl CalmSink {
    /// A sink that took no byte yet.
    pub fn new() -> CalmSink
        ensures { result ≡ 0 }
    {
        CalmSink { count: 0 }
    }

    /// How many bytes it took. The count stays at `u64::MAX`.
    pub fn count(&self) -> u64
        ensures { result ≡ self.now }
    {
        self.count
    }
}

impl Sink for CalmSink {
    ghost written = { λ _. None };

    ghost faults = { λ _. 0 };

    /// It takes no memory, and the same time for each piece.
    fn write(&mut self, from: &[u8]) -> Result<usize, Failed>
        ensures bound { IfOk result (λ n. n ≤ length from.now) }
        ensures some { IfOk result (λ n. 0 < length from.now → 0 < n) }
        ensures bytes { IfOk result (λ n. Grows None None (take n from.now)) }
        ensures stays { OnErr result (Stays None None) }
        ensures cause { HasCause 0 0 result }
        ensures no_fault { OnOk result (◌≡◌ {A = ℕ} 0 0) }

        // What happens exactly.
        ensures count { IsOkAnd result (λ n. n ≡ length from.now) }
        ensures state { self.new ≡ min (self.old + length from.now) (2 ^ 64 - 1) }
    {
        self.count = self.count.saturating_add(from.len() as u64);
        Ok(from.len())
    }
}
