//! A session over the trustees: what it asks for the messages of a stream, and what it has done when it ends.
#![tactic(auto)]

mod ahead;
mod ended;
mod ending;
mod going;
mod laws;
mod piece;
mod session;
mod taking;
mod todo;
mod work;
mod writing;

pub use ahead::Ahead;
pub use ended::{Ended, Stepped};
pub use laws::sessions_begin;
pub use session::Session;
