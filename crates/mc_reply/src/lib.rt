//! What a reply says to a client, and the bytes that show it, in memcached's words (`protocol.txt`).
#![tactic(auto)]

mod item;
mod pieces;
mod rendering;
mod said;
mod saying;
mod size;

pub use mc_model::{Said, Shown, ShownItem, ShownItems};
pub use rendering::render;
pub use saying::{
    change_shows, delete_says, fault_shows, flush_says, lacks_memory, line_unless, stats_shows,
    store_says, touch_says,
};
