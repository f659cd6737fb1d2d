//! Tests of tasks. Nothing in it runs elsewhere.
#![tactic(auto)]

mod adder;

pub use adder::Adder;

#[cfg(test)]
mod tests;
