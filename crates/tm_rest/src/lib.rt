//! What holds of all trustees while no request of a client counts.
//!
//! Nothing here runs: the definitions stand in `specs/`, and each function states a law, for every kind of object.
#![tactic(auto)]

mod laws;

pub use laws::rests_are_idle;
