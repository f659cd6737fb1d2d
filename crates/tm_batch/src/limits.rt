//! The runtime's limits. Definitions and contracts cite these constants.

/// How many requests a batch has at most, and so how many answers leave for it.
pub const MOST_REQUESTS: usize = 16;

/// How many gifts leave with the answers to a batch at most.
pub const MOST_ROOM: u32 = 16;

/// The same number, for what holds such gifts.
pub(crate) const MOST_LEAVING: usize = MOST_ROOM as usize;

/// How many completions leave with the answers to a batch at most.
pub const MOST_COMPLETIONS: usize = 16;

/// How many requests of a client count at a trustee at most, and how many of its launches lack their
/// completion.
pub const WINDOW: usize = 64;

/// How many gifts wait for a place at most.
pub const MOST_GIFTS: usize = 1_024;

/// How many holds on one object a place has at most.
pub const MOST_HOLDS: u32 = 4_294_967_295;

/// How many clients a runtime has at most.
pub const MOST_CLIENTS: u32 = 64;

/// How many trustees a runtime has at least.
pub const FEWEST_TRUSTEES: u32 = 2;

/// How many trustees a runtime has at most.
pub const MOST_TRUSTEES: u32 = 32;

/// How many objects a trustee may have at most.
pub const MOST_OBJECTS: u32 = 4_096;

/// How many trusts a client may hold at most.
pub const MOST_TRUSTS: u32 = 4_096;
