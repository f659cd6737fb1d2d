//! How a command reaches the classes: what is asked for it, at which trustee, and what is shown of the replies.
//!
//! The store is one kind of objects, [`Store`]: the 64 classes of keys, and a desk, where `flush_all` and `stats` are
//! launched, which go over the classes one after another. [`store_first`] says where they stand at first. [`plan`]
//! makes of a command what is asked, and [`join`] of the replies what is shown; nothing is sent here.
#![tactic(auto)]

mod desk;
mod frame;
mod joining;
mod laws;
mod parts;
mod places;
mod planning;

pub use desk::{Desk, DeskTask, DeskWork};
pub use frame::{Frame, Operation, Showing};
pub use joining::join;
pub use laws::{
    classes_are_found, desk_asks_each_class, desk_stops_for_memory, launches_are_replies,
    parts_are_steps,
};
pub use parts::{ShardPart, ShardParts};
pub use places::{Store, index_of, store_first, trustee_of};
pub use planning::{Ask, Planned, plan};
