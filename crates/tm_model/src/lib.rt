//! What a trustee's log, its state and the slots before it are, once for all crates.
//!
//! Nothing here runs. `specs/` has the definitions that the contracts of the runtime cite, each
//! generic in the kind of object; this crate declares only what stands in a log.
#![tactic(auto)]

mod entry;

pub use entry::Entry;
