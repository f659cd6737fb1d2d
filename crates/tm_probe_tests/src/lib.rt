//! Tests of the probe: batches and a table of two kinds as one, in a crate that owns neither kind, nor
//! the sum, nor the table, and writes no `impl`. Nothing in it runs elsewhere.
#![tactic(auto)]

#[cfg(test)]
mod tests;
