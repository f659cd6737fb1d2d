//! A few bytes in place, with no block of their own.
ghost use Rattle.std.specs.Prelude.{◌≡◌, ◌≤◌, length};

use std::marker::Model;

/// At most `N` bytes, and at most 255. A contract sees the list of the bytes.
#[derive(Drop)]
pub(crate) struct Inline<const N: usize> {
    filled: u8,
    bytes: [u8; N],
}

impl<const N: usize> Model for Inline<N> {
    ghost use Rattle.std.specs.Prelude.{◌≤◌, List, ℕ, take, length};

    ghost Value = { List ℕ };

    ghost view = { λ a. take a.filled a.bytes };

    ghost invariant = { λ a. a.filled ≤ length a.bytes };
}

impl<const N: usize> Inline<N> {
    /// A copy of some bytes.
    pub(crate) fn of(from: &[u8]) -> Inline<N>
        requires place { length from.now ≤ N }
        requires few { length from.now ≤ 255 }
        ensures { result ≡ from.now }
    {
        let mut bytes = [0; N];
        bytes[..from.len()].copy_from_slice(from);
        Inline {
            filled: from.len() as u8,
            bytes,
        }
    }

    /// The same bytes.
    pub(crate) fn copy(&self) -> Inline<N>
        ensures { result ≡ self.now }
    {
        Inline {
            filled: self.filled,
            bytes: self.bytes,
        }
    }

    /// The bytes.
    pub(crate) fn get(&self) -> &[u8]
        ensures { result.now ≡ self.now }
    {
        &self.bytes[..usize::from(self.filled)]
    }
}
