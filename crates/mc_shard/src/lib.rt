//! One class of the store: its items, and what each operation does to them.
#![tactic(auto)]

mod cache;
mod index;
mod item;
mod items;
mod kind;
mod op;
mod shard;
mod state;

pub use mc_model::{How, ShardReply};
pub use op::{NoTask, ShardOp};
pub use shard::Shard;
