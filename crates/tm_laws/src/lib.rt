//! What the operations on one object of a trustee did, by the trustee's log.
//!
//! Nothing here runs: the definitions stand in `specs/`, and each function states a law, for every kind of object.
#![tactic(auto)]

mod laws;

pub use laws::{objects_run, one_place_runs};
