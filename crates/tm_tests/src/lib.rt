//! Tests that go through several crates of the runtime: a trustee's turns over a table in one thread, and what may move
//! between threads.
#![tactic(auto)]

#[cfg(test)]
mod tests;
