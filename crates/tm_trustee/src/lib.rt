//! A trustee: it serves its table, and says `Bye` upward once all below have.
//!
//! It stands over any table of slots, on one thread or on many; what it has of its own is a
//! [`TrusteeState`](tm_state::TrusteeState).
#![tactic(auto)]

mod above;
mod lane;
mod laws;
mod places;
mod served;
mod stage;
mod tasks;
mod trustee;

pub use laws::{trustees_are_latched, trustees_are_tied};
pub use served::Served;
pub use trustee::{Trustee, TrusteeRefused};
