//! What a class is asked.

use mc_item::{Bytes, Key};
use mc_model::How;

/// An operation of a class. A `moment` is in seconds of Unix time.
#[derive(Drop)]
pub enum ShardOp {
    /// A storage command. An `exptime` is in seconds, as in memcached's protocol.txt.
    Store {
        how: How,
        key: Key,
        flags: u32,
        exptime: i64,
        value: Bytes,
        moment: u64,
    },
    Get {
        key: Key,
        moment: u64,
    },
    /// Gets an item, which goes at another time.
    GetTouch {
        key: Key,
        exptime: i64,
        moment: u64,
    },
    /// `incr` where `up`, else `decr`.
    Change {
        up: bool,
        key: Key,
        by: u64,
        moment: u64,
    },
    Touch {
        key: Key,
        exptime: i64,
        moment: u64,
    },
    Delete {
        key: Key,
        moment: u64,
    },
    /// `delay` is in seconds.
    Flush {
        delay: u32,
        moment: u64,
    },
    /// How many items there are, and how many stores there were.
    Count {
        moment: u64,
    },
}

/// The task of a kind that has none: nothing makes a value of this type.
#[derive(Drop)]
pub struct NoTask {
    nothing: (),
}
