//! What is replied to an operation.

use mc_item::Bytes;

/// The reply to an operation on a key, or to a flush or a count.
#[derive(Drop)]
pub enum ShardReply {
    Stored,
    NotStored,
    Exists,
    NotFound,
    Deleted,
    Touched,
    Flushed,
    Item { flags: u32, cas: u64, value: Bytes },
    Missing,
    /// The value after an `incr` or `decr`.
    Number(u64),
    NonNumeric,
    TooLarge,
    OutOfCas,
    /// How many items there are, and how many stores there were.
    Counts { held: u64, stored: u64 },
    /// Memory was wanting.
    NoMemory,
}
