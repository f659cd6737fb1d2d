//! The small values that the whole store speaks of: bytes, keys, the class of a key, when an item
//! expires, and numbers as memcached's protocol.txt writes them.
#![tactic(auto)]

mod bytes;
mod class;
mod expiry;
mod inline;
mod key;
mod limits;
pub mod number;

pub use bytes::Bytes;
pub use class::class_of;
pub use expiry::{Expiry, due, expired};
pub use key::{Key, KeyRefused, is_key};
pub use limits::{
    CLASSES, LARGEST_VALUE, LATEST_TIME, LONGEST_EXPTIME, LONGEST_KEY, LONGEST_LINE,
    LONGEST_NUMBER, LONGEST_RELATIVE, MOST_CHANGES, MOST_ITEMS, MOST_KEYS, USUAL_ITEMS,
};
