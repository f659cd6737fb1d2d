//! Tests of the tables of slots: their calls one by one, in a table in one thread and in one for many threads, two sides
//! that meet, and a client and a trustee on threads of their own.
#![tactic(auto)]

#[cfg(test)]
mod tests;
