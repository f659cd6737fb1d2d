//! One client of the store can't tell its trustees from one list of all items.
//!
//! Nothing here runs: the definitions stand in `specs/`, and the function states the law. With several clients, whose
//! commands are run side by side, it doesn't hold of the whole, but of each trustee's log.
#![tactic(auto)]

mod laws;

pub use laws::one_client_meets_one_store;
