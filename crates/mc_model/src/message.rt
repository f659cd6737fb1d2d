//! What a stream says: the commands of memcached's `protocol.txt`, and the faults of what is no command.

use crate::keys::Keys;
use mc_item::{Bytes, Key};

/// How a storage command stores.
#[derive(Clone, Copy, Debug, PartialEq, Eq)]
pub enum How {
    Set,
    Add,
    Replace,
    Append,
    Prepend,
    /// Only over the item whose cas number is this.
    Cas(u64),
}

/// A command. One that is `quiet` was sent with `noreply`.
#[derive(Drop)]
pub enum Command {
    Store {
        how: How,
        key: Key,
        flags: u32,
        exptime: i64,
        value: Bytes,
        quiet: bool,
    },
    Get {
        keys: Keys,
        with_cas: bool,
    },
    /// `gat`, or `gats` where `with_cas`: a get of items that go at another time then.
    GetTouch {
        exptime: i64,
        keys: Keys,
        with_cas: bool,
    },
    Delete {
        key: Key,
        quiet: bool,
    },
    /// `incr` where `up`, else `decr`.
    Change {
        up: bool,
        key: Key,
        by: u64,
        quiet: bool,
    },
    Touch {
        key: Key,
        exptime: i64,
        quiet: bool,
    },
    /// `delay` is in seconds.
    FlushAll {
        delay: u32,
        quiet: bool,
    },
    Stats,
    Version,
    Verbosity {
        quiet: bool,
    },
    Quit,
}

/// What is wrong with a line, or with the block that it announces.
#[derive(Clone, Copy, Debug, PartialEq, Eq)]
pub enum Fault {
    /// No token, or a first token that names no command.
    Unknown,
    /// A known command in a wrong form.
    BadLine,
    /// An `incr` or `decr` that is in form but for its amount, which is no number below 2^64.
    BadDelta,
    /// No end among the first 65,536 bytes of a line.
    LineTooLong,
    /// A block of at most 1,048,576 bytes whose tail is not `\r\n`.
    BadChunk { quiet: bool },
    /// A block of more than 1,048,576 bytes, whatever its tail.
    TooLarge { quiet: bool },
}

/// One of the messages that a stream is a list of.
#[derive(Drop)]
pub enum Message {
    Command(Command),
    Fault(Fault),
}
