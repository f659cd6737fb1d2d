//! The bytes that a reader keeps.
ghost use Rattle.std.specs.Prelude.{◌≡◌, ◌-◌, ◌≤◌, ◌==◌, [], ◌++◌, length, take, IfOk, OnOk, OnErr};

use mc_item::Bytes;
use std::alloc::{AllocError, Global};
use std::convert::From;
use std::marker::Model;

/// The front of a line whose end has not come, seen as its bytes.
#[derive(Drop)]
pub struct Front {
    bytes: Vec<u8>,
}

impl Model for Front {
    ghost use Rattle.std.specs.Prelude.{List, ℕ};

    ghost Value = { List ℕ };

    ghost view = { λ f. f.bytes.items };
}

impl Front {
    /// Nothing yet. Takes no memory.
    pub(crate) fn new(alloc: Global) -> Front
        ensures { result ≡ [] }
    {
        Front {
            bytes: Vec::new(alloc),
        }
    }

    /// The bytes.
    pub(crate) fn get(&self) -> &[u8]
        ensures { result.now ≡ self.now }
    {
        &self.bytes
    }

    /// How many bytes.
    pub(crate) fn len(&self) -> usize
        ensures { result ≡ length self.now }
    {
        self.bytes.len()
    }

    /// Whether there is no byte.
    pub(crate) fn is_empty(&self) -> bool
        ensures { result ≡ (length self.now == 0) }
    {
        self.bytes.is_empty()
    }

    /// Puts more bytes behind these. The memory grows by doubling.
    pub(crate) fn extend(&mut self, more: &[u8]) -> Result<(), AllocError>
        ensures ok { OnOk result (self.new ≡ self.old ++ more.now) }
        ensures err { OnErr result (self.new ≡ self.old) }
    {
        self.bytes.extend_from_slice(more)
    }

    /// Keeps the first `length` bytes alone.
    pub(crate) fn cut_back(&mut self, length: usize)
        ensures { self.new ≡ take length self.old }
    {
        self.bytes.truncate(length);
    }
}

/// A block of which some bytes have come, with the room for all of them. It is seen as a pair: the
/// bytes, and how many are lacking.
#[derive(Drop)]
pub struct Filling {
    bytes: Vec<u8>,
    lacking: usize,
}

impl Model for Filling {
    ghost use Rattle.std.specs.Prelude.{List, ℕ, ◌+◌, ◌≤◌, vec_len, vec_capacity};

    ghost Value = { List ℕ × ℕ };

    ghost view = { λ f. (f.bytes.items, f.lacking) };

    ghost invariant = { λ f. vec_len f.bytes + f.lacking ≤ vec_capacity f.bytes };
}

impl Filling {
    /// An empty block that lacks `size` bytes. Takes the memory for all of them.
    pub(crate) fn new(alloc: Global, size: usize) -> Result<Filling, AllocError>
        ensures { IfOk result (λ f. f ≡ ([], size)) }
    {
        Ok(Filling {
            bytes: Vec::with_capacity(alloc, size)?,
            lacking: size,
        })
    }

    /// How many bytes are lacking.
    pub(crate) fn lacking(&self) -> usize
        ensures { result ≡ self.now.1 }
    {
        self.lacking
    }

    /// Takes the next bytes. The room for them is there.
    pub(crate) fn take(&mut self, from: &[u8])
        requires { length from.now ≤ self.old.1 }
        ensures { self.new ≡ (self.old.0 ++ from.now, self.old.1 - length from.now) }
    {
        match self.bytes.extend_from_slice(from) {
            Ok(()) => self.lacking -= from.len(),
            Err(AllocError) => unreachable!(),
        }
    }

    /// The bytes that have come, without a copy.
    pub(crate) fn into_bytes(self) -> Bytes
        ensures { result ≡ self.0 }
    {
        let Filling { bytes, lacking: _ } = self;
        Bytes::from(bytes)
    }
}
