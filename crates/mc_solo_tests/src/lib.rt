//! Tests of sessions over the trustees, on one thread. Nothing else uses it.
#![tactic(auto)]

mod answering;

pub use answering::{Answered, Given, answer, answer_after};

#[cfg(test)]
mod tests;
