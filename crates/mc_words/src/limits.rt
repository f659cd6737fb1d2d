//! The limits of the options' values, and the values where an option is not given. Definitions cite these constants.

/// The most digits of a value, zeros that lead among them.
pub const LONGEST_VALUE: usize = 19;

/// The trustees where nothing else is said.
pub const USUAL_TRUSTEES: u64 = 5;

/// The fewest bytes of input that may be allowed.
pub const FEWEST_BYTES: u64 = 1;

/// The most bytes of input that may be allowed.
pub const MOST_BYTES: u64 = 1 << 62;

/// The most bytes of input where nothing else is said, a tebibyte.
pub const USUAL_BYTES: u64 = 1 << 40;

/// The smallest bound on the items of a class.
pub const FEWEST_ITEMS: u64 = 1;

/// The fewest threads that serve connections.
pub const FEWEST_WORKERS: u64 = 1;

/// The most threads that serve connections.
pub const MOST_WORKERS: u64 = 16;

/// The threads that serve connections where nothing else is said.
pub const USUAL_WORKERS: u64 = 4;

/// The most connections after which a server may be told to end.
pub const MOST_CONNECTIONS: u64 = 1 << 62;

/// The greatest seed of a generated load.
pub const MOST_SEED: u64 = 65_535;

/// The seed of a generated load where nothing else is said.
pub const USUAL_SEED: u64 = 1;

/// The most operations of a generated load.
pub const MOST_OPS: u64 = 1_000_000;

/// The operations of a generated load where nothing else is said.
pub const USUAL_OPS: u64 = 20_000;

/// The fewest clients of a generated load.
pub const FEWEST_CLIENTS: u64 = 1;

/// The most clients of a generated load.
pub const MOST_CLIENTS: u64 = 16;

/// The clients of a generated load where nothing else is said.
pub const USUAL_CLIENTS: u64 = 4;
