//! In which order what launched work asks of greater trustees runs there.
//!
//! Launched work on one object, as `flush_all` on the store's desk, asks many trustees one after another. So two flushes that
//! are launched on the desk reach every class in one order, that of their launches: never one class in one order and another
//! in the other.
//!
//! Nothing here runs: the definitions stand in `specs/`, and each function states a law, for every kind of object.
#![tactic(auto)]

mod laws;

pub use laws::{asks_rise, launched_runs_rise, runs_are_asks};
