//! A session over the trustees, on one thread.
//!
//! [`open_store`] builds a runtime over the store. [`serve_in_turns`] answers a whole input by one client of it: it makes the
//! session's steps, and where a step waits, every trustee makes a serving turn.
#![tactic(auto)]

mod opening;
mod serving;

pub use opening::open_store;
pub use serving::serve_in_turns;
