//! What operations do to the classes of the store, class by class.
//!
//! Nothing here runs: the definitions stand in `specs/`, and each function states a law. Operations on different classes
//! don't disturb one another, so only the order within each class counts.
#![tactic(auto)]

mod laws;

pub use laws::{parts_run, values_are_classes};
