//! Who runs on an object, and who waits for it.
//!
//! Work that was launched on an object runs alone on it, also while it waits for an answer from
//! elsewhere. [`Latches`] keeps for each object the ticket that runs and, in the order in which they
//! came, the tickets that wait, with their tasks.
#![tactic(auto)]

mod entered;
mod latches;
mod lines;
mod queues;
mod ticket;

pub use entered::Entered;
pub use latches::Latches;
pub use ticket::Ticket;
