//! The class of a key.
ghost use Rattle.std.specs.Prelude.{◌≡◌, ◌<◌};
ghost use Rattle.mc_item.specs.Classes.{hash_of, class_of};

use crate::key::Key;
use crate::limits::CLASSES;

const HASHES: u64 = 1 << 32;

#[tactic(auto, unfolding(crate::specs::Classes::hash_of))]
fn hash_of(bytes: &[u8]) -> u32
    ensures { result ≡ hash_of bytes.now }
{
    let mut hash: u64 = 0;
    for byte in bytes {
        hash = (31 * hash + u64::from(*byte)) % HASHES;
    }
    hash as u32
}

/// The class of a key, 0 to 63. Each byte of the key is looked at once.
#[tactic(auto, unfolding(crate::specs::Classes::class_of))]
pub fn class_of(key: &Key) -> u32
    ensures class { result ≡ class_of key.now }
    ensures below { result < CLASSES }
{
    hash_of(key.get()) % CLASSES
}
