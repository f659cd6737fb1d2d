//! What one line of memcached's text protocol says (`protocol.txt`, its table of commands).
#![tactic(auto)]

mod keyed;
mod other;
mod saying;
mod storage;
mod table;
mod token;

pub use storage::MOST_DECLARED;
pub use table::saying_of;
