//! The messages of a source, read as they come, at most its first bytes.
#![tactic(auto)]

mod intake;

pub use intake::{BUFFER, Came, Intake};
