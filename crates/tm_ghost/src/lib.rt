//! A list that only contracts read, such as the calls that a table has had.
//!
//! What a table or a device stands for is often a history, which no program should keep. A
//! [`GhostList`] is such a history as a field: contracts read its elements, and it has no bytes when
//! the program runs.
#![tactic(auto)]

mod list;

pub use list::{GhostList, Items};
