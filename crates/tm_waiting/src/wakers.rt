//! The wakers of all threads of a runtime.
ghost use Rattle.std.specs.Prelude.{◌≡◌, ◌↔◌, ◌<◌, IsSome, IfOk};

use crate::waker::Waker;
use std::alloc::{AllocError, Global};
use std::marker::Model;

/// The wakers of a runtime's threads, by their places: those of the clients, and behind them those of the trustees.
/// Contracts see how many there are.
#[derive(Drop)]
pub struct Wakers {
    all: Vec<Waker>,
}

impl Model for Wakers {
    ghost use Rattle.std.specs.Prelude.{ℕ, length};

    ghost Value = { ℕ };

    ghost view = { λ w. length w.all.items };
}

impl Wakers {
    /// So many wakers, whose threads are awake. They take 128 bytes each.
    pub fn new(alloc: Global, count: u32) -> Result<Wakers, AllocError>
        ensures { IfOk result (λ w. w ≡ count) }
    {
        let mut all = Vec::with_capacity(alloc, count as usize)?;
        for _ in 0..count {
            all.push(Waker::new())?;
        }
        Ok(Wakers { all })
    }

    /// The waker of a place; `None` past the last.
    pub fn of(&self, place: u32) -> Option<&Waker>
        ensures { IsSome result ↔ place < self.now }
    {
        self.all.get(place as usize)
    }

    /// Wakes the thread of a place; past the last it does nothing. Its cost is that of [`Waker::wake`].
    pub fn wake(&self, place: u32) {
        if let Some(waker) = self.of(place) {
            waker.wake();
        }
    }
}
