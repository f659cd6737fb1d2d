//! The definitions of the store: what an operation does to a key's item, a class of keys, the plain store of all
//! keys that a run is compared with, what a client is shown, and its bytes.
//!
//! They stand in `specs/` and nowhere else. The types here are those that they speak of.
#![tactic(auto)]

mod item;
mod keys;
mod line;
mod message;
mod reply;
mod shown;

pub use item::Item;
pub use keys::Keys;
pub use line::{Header, Saying};
pub use message::{Command, Fault, How, Message};
pub use reply::ShardReply;
pub use shown::{Said, Shown, ShownItem, ShownItems};
