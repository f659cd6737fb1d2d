//! What one line of the protocol says.

use crate::message::{How, Message};
use mc_item::Key;

/// What a storage line says before its block.
#[derive(Drop)]
pub struct Header {
    pub how: How,
    pub key: Key,
    pub flags: u32,
    pub exptime: i64,
    /// How many bytes the block has: at most 2,147,483,647, which may be more than a value may have.
    pub size: u32,
    /// The line ends in `noreply`.
    pub quiet: bool,
}

/// What a line says: a message that is whole, or the head of a block.
#[derive(Drop)]
pub enum Saying {
    Alone(Message),
    Awaits(Header),
}
