//! The system's clock.
ghost use Rattle.std.specs.Prelude.{◌≡◌, [], ◌∷◌, None};
ghost use Rattle.tm_base.specs.Visible.{Grows};

use crate::clock::Clock;
use std::rt;
use std::time::{SystemTime, UNIX_EPOCH};

/// The system's clock, in seconds since 1970. Where it cannot be read, the last good reading is answered again, at
/// first 0. It does not tell its readings.
#[derive(Debug, Drop)]
pub struct SystemClock<C> {
    clock: C,
    last: u64,
}

impl<C> SystemClock<C> {
    ghost use Rattle.tm_base.specs.StdEdge.{runtime_of, last_reading};

    /// A clock over the runtime, which no reading was taken of.
    pub fn new(clock: C) -> SystemClock<C>
        ensures runtime { runtime_of result ≡ clock }
        ensures last { last_reading result ≡ 0 }
    {
        SystemClock { clock, last: 0 }
    }
}

impl<C: rt::Clock> Clock for SystemClock<C> {
    ghost use Rattle.tm_base.specs.StdEdge.{last_reading};

    ghost readings = { λ _. None };

    fn now(&mut self) -> u64
        ensures told { Grows None None (result ∷ []) }
        ensures last { result ≡ last_reading self.new }
    {
        if let Some(seconds) = seconds_of(&self.clock) {
            self.last = seconds;
        }
        self.last
    }
}

// The seconds since 1970, where the clock can be read.
fn seconds_of<C: rt::Clock>(clock: &C) -> Option<u64> {
    let since = SystemTime::now(clock)
        .ok()?
        .duration_since(UNIX_EPOCH)
        .ok()?;
    Some(since.as_secs())
}
