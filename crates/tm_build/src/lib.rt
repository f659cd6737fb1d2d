//! What a runtime may be built from, and its parts by the list of the build.
//!
//! [`is_buildable`] is the rule, whatever the runtime's tables are, and [`BuildRefused`] is what a build answers that
//! it refuses. [`split`] deals the objects to their trustees, and [`held_by`] tells what a place holds at first.
#![tactic(auto)]

mod check;
mod dealing;
mod held;
mod refused;

pub use check::is_buildable;
pub use dealing::{empty_lists, split};
pub use held::held_by;
pub use refused::BuildRefused;
