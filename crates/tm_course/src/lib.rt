//! What holds of trustees while no request of a client counts, and what one launch alone does from its beginning to its end.
//!
//! Nothing here runs: the definitions stand in `specs/`, and each function states a law, for every kind of object.
#![tactic(auto)]

mod laws;

pub use laws::{idle_logs_are_quiet, launches_take_courses};
