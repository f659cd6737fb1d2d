//! `trustmc` as a library: a store that speaks memcached's text protocol, and whose objects are owned by trustees.
//!
//! All that the program does is one call, [`top_in_turns`], over a source, a sink, a clock and a gate that are handed
//! in. [`run_process`] adds the words, the clock and the exit status of a process, and is all of the program's `main`.
#![tactic(auto)]

mod process;
mod serving;
mod status;
mod top;
mod words;

pub use process::{conclude, run_process};
pub use status::Status;
pub use top::top_in_turns;
