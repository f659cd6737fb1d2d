//! Kinds of objects that one thread may entrust to another, after `Trust<T>` (Ahmad et al. 2024).
//!
//! A kind is a sequential object: its operations run one after another, and launched work goes on
//! event by event. Contracts know a kind by two total functions, `step` for an operation and
//! `advance` for a resume, and by the values of `left` and `no_memory`. Two kinds with the same
//! operations and replies make one, their [`Sum`].
#![tactic(auto)]

mod counter;
mod kind;
mod sum;

pub use counter::{Counter, CounterOp, CounterReply, CounterTask};
pub use kind::{Entrusted, Event, Next};
pub use sum::{Beside, Sum};
