//! The keys of one `get`.
ghost use Rattle.std.specs.Prelude.{◌≡◌, ◌<◌, [], ◌∷◌, ◌++◌, Some, length, slice_get, OnOk, OnErr, IsTrue, ◌↔◌};

use mc_item::Key;
use std::alloc::{AllocError, Global};
use std::marker::Model;

/// Keys in order, seen as a list.
#[derive(Drop)]
pub struct Keys {
    inner: Vec<Key>,
}

impl Model for Keys {
    ghost use Rattle.std.specs.Prelude.{List, ℕ};

    ghost Value = { List (List ℕ) };

    ghost view = { λ k. k.inner.items };
}

impl Keys {
    /// No keys. Takes no memory.
    pub fn new(alloc: Global) -> Keys
        ensures { result ≡ [] }
    {
        Keys {
            inner: Vec::new(alloc),
        }
    }

    /// How many keys there are.
    pub fn len(&self) -> usize
        ensures { result ≡ length self.now }
    {
        self.inner.len()
    }

    /// Whether there is no key.
    pub fn is_empty(&self) -> bool
        ensures { IsTrue result ↔ (self.now ≡ []) }
    {
        self.inner.is_empty()
    }

    /// The key at a place.
    pub fn get(&self, at: usize) -> &Key
        requires { at < length self.now }
        ensures { slice_get self.now at ≡ Some result.now }
    {
        &self.inner[at]
    }

    /// Puts a key last. An `Err` leaves the keys as they were.
    pub fn push(&mut self, key: Key) -> Result<(), AllocError>
        ensures ok { OnOk result (self.new ≡ self.old ++ key ∷ []) }
        ensures err { OnErr result (self.new ≡ self.old) }
    {
        self.inner.push(key)?;
        Ok(())
    }

    /// The keys themselves, in order.
    pub fn into_vec(self) -> Vec<Key>
        ensures { result.items ≡ self }
    {
        let Keys { inner } = self;
        inner
    }
}
