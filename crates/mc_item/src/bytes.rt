//! Owned bytes.
ghost use Rattle.std.specs.Prelude.{◌≡◌, [], ◌++◌, ◌==◌, length, take, nat_eq, IfOk, OnOk, OnErr};
ghost use Rattle.std.specs.Cmp.Lexicographic.{pointwise};
ghost use Rattle.std.specs.Cmp.Rules.{comparing};
ghost use Rattle.std.proofs.Common.{rules};

use std::alloc::{AllocError, Global};
use std::convert::From;
use std::fmt;
use std::marker::Model;

/// Owned bytes, as the value of an item or a reply. A contract sees the list of the bytes.
#[derive(Drop)]
pub struct Bytes {
    inner: Vec<u8>,
}

impl Model for Bytes {
    ghost use Rattle.std.specs.Prelude.{List, ℕ};

    ghost Value = { List ℕ };

    ghost view = { λ a. a.inner.items };
}

impl Bytes {
    /// No bytes. Nothing is allocated.
    pub fn new(alloc: Global) -> Bytes
        ensures { result ≡ [] }
    {
        Bytes {
            inner: Vec::new(alloc),
        }
    }

    /// A copy of some bytes, in memory of its own.
    pub fn of(alloc: Global, from: &[u8]) -> Result<Bytes, AllocError>
        ensures { IfOk result (λ b. b ≡ from.now) }
    {
        Ok(Bytes {
            inner: Vec::from_slice(alloc, from)?,
        })
    }

    /// The bytes.
    pub fn get(&self) -> &[u8]
        ensures { result.now ≡ self.now }
    {
        &self.inner
    }

    /// How many bytes.
    pub fn len(&self) -> usize
        ensures { result ≡ length self.now }
    {
        self.inner.len()
    }

    /// Whether there is no byte.
    pub fn is_empty(&self) -> bool
        ensures { result ≡ (length self.now == 0) }
    {
        self.inner.is_empty()
    }

    /// Puts more bytes behind these. The memory grows by doubling.
    pub fn extend(&mut self, more: &[u8]) -> Result<(), AllocError>
        ensures ok { OnOk result (self.new ≡ self.old ++ more.now) }
        ensures err { OnErr result (self.new ≡ self.old) }
    {
        self.inner.extend_from_slice(more)
    }

    /// Puts more bytes in front of these, which are moved once.
    pub fn prepend(&mut self, more: &[u8]) -> Result<(), AllocError>
        ensures ok { OnOk result (self.new ≡ more.now ++ self.old) }
        ensures err { OnErr result (self.new ≡ self.old) }
    {
        let old_length = self.inner.len();
        self.inner.extend_from_slice(more)?;
        self.inner.copy_within(0..old_length, more.len());
        self.inner.slice_mut(0..more.len()).copy_from_slice(more);
        Ok(())
    }

    /// Makes room for so many bytes more, so that an `extend` by no more of them allocates nothing.
    /// The memory grows by doubling. An `Err` leaves it as it was.
    pub fn reserve(&mut self, more: usize) -> Result<(), AllocError>
        ensures { self.new ≡ self.old }
    {
        self.inner.reserve(more)
    }

    /// Keeps the first bytes, as many as `length` of them at most, and the memory.
    pub fn truncate(&mut self, length: usize)
        ensures { self.new ≡ take length self.old }
    {
        self.inner.truncate(length);
    }

    /// Takes all bytes out, and keeps the memory.
    pub fn clear(&mut self)
        ensures { self.new ≡ [] }
    {
        self.inner.clear();
    }
}

impl Clone for Bytes {
    ghost is_clone = { λ b copy. copy ≡ b };

    fn clone(&self) -> Result<Bytes, AllocError> {
        Bytes::of(self.inner.allocator().clone()?, &self.inner)
    }
}

/// Takes a vector over without a copy.
impl From<Vec<u8>> for Bytes {
    ghost from_gives = { λ v b. b ≡ v.items };

    fn from(inner: Vec<u8>) -> Bytes {
        Bytes { inner }
    }
}

impl PartialEq for Bytes {
    ghost eq = { pointwise nat_eq };

    ghost laws = { Prim.search (comparing, rules) };

    fn eq(&self, other: &Bytes) -> bool {
        self.inner == other.inner
    }
}

impl Eq for Bytes {
    ghost laws = { Prim.search (comparing, rules) };
}

/// As a byte string of Rust, as in `b"a\x00"`.
impl fmt::Debug for Bytes {
    fn fmt<W: fmt::Write>(&self, f: &mut fmt::Formatter<W>) -> fmt::Result {
        write!(f, "b\"{}\"", self.inner.as_slice().escape_ascii())
    }
}
