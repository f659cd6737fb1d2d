//! Tests of `mc_words`.
#![tactic(auto)]

#[cfg(test)]
mod tests;
