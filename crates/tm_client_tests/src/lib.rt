//! Tests of two clients over a table in one thread. Nothing in it runs elsewhere.
#![tactic(auto)]

#[cfg(test)]
mod tests;
