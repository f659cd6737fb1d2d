//! A probe: two kinds of one's own as one kind, in a crate that stands on `tm_seq` and `tm_batch` alone.
//!
//! It shows that a store of shards and a desk can be a kind of batches, places and tables without an
//! `impl` of another crate's trait for another crate's type, and without waiting for the proofs of
//! the crates that make tables. `tm_probe_tests` makes a table of it. Nothing in it runs elsewhere.
#![tactic(auto)]

mod clerk;
mod shelf;

pub use clerk::{Clerk, ClerkTask};
pub use shelf::{NoTask, Shelf, ShelfOp, ShelfReply};
use tm_seq::Sum;

/// A shelf or a clerk.
pub type Library = Sum<Shelf, Clerk>;
