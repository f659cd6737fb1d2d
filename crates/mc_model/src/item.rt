//! What a class keeps of a key.

use mc_item::{Bytes, Expiry};

/// The item of a key.
#[derive(Drop)]
pub struct Item {
    /// The bytes stored.
    pub value: Bytes,
    /// A number of the client's own, which the store gives back as it was.
    pub flags: u32,
    /// When the item goes.
    pub due: Expiry,
    /// The cas number of the item's last change: 64 times the number that the change has in its class, plus the class.
    pub cas: u64,
}
