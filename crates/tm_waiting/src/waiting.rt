//! What a thread does that looks in vain.

use crate::waker::Waker;
use std::rt::Clock;
use std::sync::Wait;
use std::thread;
use std::time::Duration;

/// For how many microseconds a trustee's thread lets others run before it sleeps.
const TRUSTEE_YIELDS: u64 = 50;

/// For how many microseconds a client's does.
const CLIENT_YIELDS: u64 = 20;

/// What a thread is at between two looks.
#[derive(Debug, Clone, Copy)]
enum Stage {
    // The last look found something, or a wake ended the last sleep.
    Awake,
    // It lets others run since this time.
    Yields(Duration),
    // Its sleep is announced, and one more look is due before it.
    Announced,
    // Nobody ended its last sleep, so it lets others run no longer before the next.
    Slept,
}

/// How a thread waits: after looks in vain it lets others run for some microseconds, and then it sleeps a millisecond at
/// a time, until a look finds something.
#[derive(Debug, Drop)]
pub struct Waiting {
    yields: Duration,
    stage: Stage,
}

impl Waiting {
    /// How a trustee's thread waits.
    pub fn of_trustee() -> Waiting {
        Waiting {
            yields: Duration::from_micros(TRUSTEE_YIELDS),
            stage: Stage::Awake,
        }
    }

    /// How a client's thread waits.
    pub fn of_client() -> Waiting {
        Waiting {
            yields: Duration::from_micros(CLIENT_YIELDS),
            stage: Stage::Awake,
        }
    }

    /// What the thread does after each look, which found something or did not. It sleeps on its waker, and only after a
    /// look in vain that followed the announcement; with no waker it lets others run. It waits for a millisecond at
    /// most, and takes no memory.
    pub fn go_on<R: Wait + Clock>(&mut self, rt: &R, waker: Option<&Waker>, found: bool) {
        self.stage = match waker {
            Some(waker) if found => found_at(waker, self.stage),
            Some(waker) => self.in_vain(rt, waker),
            None => {
                if !found {
                    thread::yield_now();
                }
                Stage::Awake
            }
        };
    }

    // After a look in vain.
    fn in_vain<R: Wait + Clock>(&self, rt: &R, waker: &Waker) -> Stage {
        let since = match self.stage {
            Stage::Announced => return sleep_on(rt, waker),
            Stage::Awake => rt.monotonic().ok(),
            Stage::Yields(since) => self.still_since(rt, since),
            Stage::Slept => None,
        };
        yield_since(since, waker)
    }

    // This time, where the thread has not let others run for long enough since.
    fn still_since<R: Clock>(&self, rt: &R, since: Duration) -> Option<Duration> {
        let passed = rt.monotonic().ok()?.saturating_sub(since);
        if passed < self.yields {
            Some(since)
        } else {
            None
        }
    }
}

// Sleeps, as announced.
fn sleep_on<R: Wait>(rt: &R, waker: &Waker) -> Stage {
    waker.sleep(rt);
    if waker.withdraw() {
        Stage::Awake
    } else {
        Stage::Slept
    }
}

// Lets others run, since this time, or else announces a sleep.
fn yield_since(since: Option<Duration>, waker: &Waker) -> Stage {
    match since {
        Some(since) => {
            thread::yield_now();
            Stage::Yields(since)
        }
        None => {
            waker.announce();
            Stage::Announced
        }
    }
}

// After a look that found something.
fn found_at(waker: &Waker, stage: Stage) -> Stage {
    if let Stage::Announced = stage {
        waker.withdraw();
    }
    Stage::Awake
}
