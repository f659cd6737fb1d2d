//! What one trustee has: its entrusted objects, the places that have said `Bye`, the launched work that it
//! accepted and that has not ended, and the completions that are ready.
//!
//! A [`TrusteeState`] runs batches of requests, each request by its row, and gives the answers that leave; and it
//! lets launched work go on, one launch on each object at a time. It knows no table and no side: contracts say
//! which log of the trustee it represents.
#![tactic(auto)]

mod going;
mod launch;
mod launches;
mod made;
mod placing;
mod ready;
mod resumed;
mod resuming;
mod rows;
mod state;

pub use launch::Launch;
pub use made::Made;
pub use resumed::Resumed;
pub use state::TrusteeState;
