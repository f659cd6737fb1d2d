//! Tests of the store's lower crates, a module for each. They stand apart, so that no crate is proved a second time
//! for its tests. Nothing in it runs elsewhere.
#![tactic(auto)]

#[cfg(test)]
mod tests;
