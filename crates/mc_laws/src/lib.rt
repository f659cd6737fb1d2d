//! The 64 classes that the store is cut into, and why they are one store.
//!
//! A key belongs to the class that its bytes tell, and each class has a state of its own. Nothing here runs: the
//! definitions stand in `specs/`, and each function states a law, that a client which is the only one can't tell the
//! classes from one list of all items. With several clients, whose moments may lie apart, it can. `flush_all` and
//! `stats` go over the classes in order; where memory is wanting, they stop.
#![tactic(auto)]

mod laws;

pub use laws::{
    classes_reply_as_one, classes_run_as_one, classes_stand_later, first_classes_stand,
};
