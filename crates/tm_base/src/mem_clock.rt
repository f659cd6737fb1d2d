//! A clock in memory.
ghost use Rattle.std.specs.Prelude.{◌≡◌, [], ◌∷◌, ◌++◌, Some};
ghost use Rattle.tm_base.specs.Visible.{Grows};
ghost use Rattle.tm_base.specs.Memory.{next_reading, after_reading};

use crate::clock::Clock;
use std::marker::{Brand, Model};
use tm_ghost::{GhostList, Items};

/// A clock that gives readings from memory, and repeats the last one.
#[derive(Debug, Drop)]
pub struct MemClock {
    readings: Vec<u64>,
    // How many readings were given.
    at: usize,
    last: u64,
    so_far: GhostList<u64>,
}

impl Model for MemClock {
    ghost use Rattle.std.specs.Prelude.{◌≤◌, drop, vec_len};
    ghost use Rattle.tm_base.specs.Memory.{ClockState};

    ghost Value = { ClockState };

    ghost view = { λ c. record { so_far = c.so_far.items; coming = drop c.at c.readings.items; last = c.last } };

    ghost invariant = { λ c. c.at ≤ vec_len c.readings };
}

impl MemClock {
    /// A clock that gives these readings, each once, and then the last one again and again. With no reading it gives
    /// 0. It takes no memory.
    pub fn new(readings: Vec<u64>) -> MemClock
        ensures { result ≡ record { so_far = []; coming = readings.items; last = 0 } }
    {
        MemClock {
            readings,
            at: 0,
            last: 0,
            so_far: GhostList::new(),
        }
    }
}

impl Clock for MemClock {
    ghost readings = { λ c. Some c.so_far };

    fn now(&mut self) -> u64
        ensures told { Grows (Some self.old.so_far) (Some self.new.so_far) (result ∷ []) }
        ensures reading { result ≡ next_reading self.old.coming self.old.last }
        ensures state { self.new ≡ after_reading self.old }
    {
        let reading = first_or(&self.readings[self.at..], self.last);
        self.at = self.at.saturating_add(1).min(self.readings.len());
        self.last = reading;
        self.so_far = longer(&self.so_far, reading);
        reading
    }
}

// The first of the readings to come, or else the last one.
fn first_or(coming: &[u64], last: u64) -> u64
    ensures { result ≡ next_reading coming.now last }
{
    match coming {
        [] => last,
        [reading, ..] => *reading,
    }
}

// The list with one reading more.
fn longer(old: &GhostList<u64>, reading: u64) -> GhostList<u64>
    ensures { result.items ≡ old.now.items ++ reading ∷ [] }
{
    pick::<Brand>(old, reading)
}

// The list that the caller's proof picks, from these values.
fn pick<E: Items<u64>>(_old: &GhostList<u64>, _reading: u64) -> GhostList<u64>
    ensures { result.items ≡ E.items }
{
    GhostList::of::<E>()
}
