//! The entrusted objects of one trustee.
#![tactic(auto)]

mod entry;
mod gifts;
mod held;
mod keys;
mod laws;
mod left;
mod live;
mod objects;
mod slots;

pub use laws::{
    changes_alike, closes_alike, entrusts_alike, finishes_alike, grants_alike, launches_alike,
    reclaims_alike, releases_alike, sends_alike,
};
pub use left::Left;
pub use objects::{More, Objects};
