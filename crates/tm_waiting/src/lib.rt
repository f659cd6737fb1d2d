//! What a thread does between two looks: it lets others run for a while, then it sleeps, until work wakes it.
//!
//! It stands in one place, so that it can be tuned by measurement. No contract speaks of it: whatever a thread does
//! here, it looks again, and a sleep lasts a millisecond at most.
#![tactic(auto)]

mod waiting;
mod waker;
mod wakers;
mod wakes;

pub use waiting::Waiting;
pub use waker::Waker;
pub use wakers::Wakers;
pub use wakes::Wakes;
