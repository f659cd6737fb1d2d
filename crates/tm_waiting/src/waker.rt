//! A thread's sleep, and how others end it.

use std::sync::Wait;
use std::sync::atomic::{AtomicU64, Ordering};
use std::time::Duration;

/// How many milliseconds a sleep lasts at most.
const LONGEST_SLEEP: u64 = 1;

/// What one thread sleeps on, and others wake it by. Its thread announces a sleep, looks once more, and only then
/// sleeps; who has work for it lays the work down first, and then wakes. So the thread finds the work in that look, or
/// the wake finds the announcement.
#[derive(Drop)]
pub struct Waker {
    // 1 where the thread sleeps or is about to, else 0.
    asleep: AtomicU64,
    // Two of a list stand 128 bytes apart, so that they share no cache line.
    _apart: [u64; 15],
}

impl Waker {
    /// A waker whose thread is awake. It takes no memory.
    pub const fn new() -> Waker {
        Waker {
            asleep: AtomicU64::new(0),
            _apart: [0; 15],
        }
    }

    /// Ends the thread's sleep, or the one that it announced. It doesn't wait, and is a load where the thread is awake.
    pub fn wake(&self) {
        if self.asleep.load(Ordering::SeqCst) != 0 && !self.withdraw() {
            self.asleep.wake_one();
        }
    }

    /// Announces a sleep: from now on a wake ends it.
    pub(crate) fn announce(&self) {
        self.asleep.store(1, Ordering::SeqCst);
    }

    /// Takes the announcement back. Whether a wake had done so.
    pub(crate) fn withdraw(&self) -> bool {
        self.asleep.swap(0, Ordering::SeqCst) == 0
    }

    /// Sleeps where the announcement stands, until a wake or for [`LONGEST_SLEEP`].
    pub(crate) fn sleep<R: Wait>(&self, rt: &R) {
        self.asleep
            .park_timeout(rt, 1, Duration::from_millis(LONGEST_SLEEP));
    }
}

impl Default for Waker {
    fn default() -> Waker {
        Waker::new()
    }
}
