//! Tests of clients and trustees in turns on one thread: a first program, builds that are refused, and additions in full
//! windows, which bench/client_loop.sh times too. Nothing else uses it.
#![tactic(auto)]

mod adding;

pub use adding::{Additions, Counters, add_by_calls, add_in_windows, one_counter};

#[cfg(test)]
mod tests;
