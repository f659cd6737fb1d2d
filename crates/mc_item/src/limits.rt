//! The store's limits. Definitions and contracts cite these constants.

/// How many classes share the keys out.
pub const CLASSES: u32 = 64;

/// The latest moment, in seconds of Unix time. A later one counts as this.
pub const LATEST_TIME: u64 = 1 << 62;

/// The most changes of a class: a cas number is 64 times the count of changes, and the class.
pub const MOST_CHANGES: u64 = (1 << 58) - 1;

/// The most items of a class, the greatest bound.
pub const MOST_ITEMS: u32 = 65_536;

/// The items that a class holds at most where nothing else is said.
pub const USUAL_ITEMS: u32 = 4_096;

/// The most bytes of a value.
pub const LARGEST_VALUE: usize = 1_048_576;

/// The most bytes that a key has.
pub const LONGEST_KEY: usize = 250;

/// The most keys of one command.
pub const MOST_KEYS: usize = 1_024;

/// The most bytes of a line, its line feed among them.
pub const LONGEST_LINE: usize = 65_536;

/// The most digits of an unsigned number.
pub const LONGEST_NUMBER: usize = 20;

/// The most digits of an exptime.
pub const LONGEST_EXPTIME: usize = 19;

/// The greatest exptime, in seconds, that counts from the present moment: 30 days. A greater one
/// is a moment itself, as in memcached's protocol.txt.
pub const LONGEST_RELATIVE: u64 = 2_592_000;
