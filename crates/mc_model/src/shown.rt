//! What a client is shown.
ghost use Rattle.std.specs.Prelude.{◌≡◌, ◌<◌, [], ◌∷◌, ◌++◌, Some, length, slice_get, OnOk, OnErr};

use mc_item::{Bytes, Key};
use std::alloc::{AllocError, Global};
use std::marker::Model;

/// A line that is the same whenever it is shown.
#[derive(Clone, Copy, Debug, PartialEq, Eq)]
pub enum Said {
    Stored,
    NotStored,
    Exists,
    NotFound,
    Deleted,
    Touched,
    Ok,
    Version,
    Error,
    BadLine,
    BadChunk,
    LineTooLong,
    BadDelta,
    NonNumeric,
    TooLarge,
    NoMemory,
    OutOfCas,
}

/// An item that a `get` found.
#[derive(Drop)]
pub struct ShownItem {
    pub key: Key,
    pub flags: u32,
    pub cas: u64,
    pub value: Bytes,
}

/// Items in order, seen as a list.
#[derive(Drop)]
pub struct ShownItems {
    inner: Vec<ShownItem>,
}

impl Model for ShownItems {
    ghost use Rattle.std.specs.Prelude.{List};
    ghost use Rattle.mc_model.specs.declared.shown.ShownItem.{ShownItem};

    ghost Value = { List ShownItem };

    ghost view = { λ s. s.inner.items };
}

impl ShownItems {
    /// No items. Takes no memory.
    pub fn new(alloc: Global) -> ShownItems
        ensures { result ≡ [] }
    {
        ShownItems {
            inner: Vec::new(alloc),
        }
    }

    /// How many items there are.
    pub fn len(&self) -> usize
        ensures { result ≡ length self.now }
    {
        self.inner.len()
    }

    /// The item at a place.
    pub fn get(&self, at: usize) -> &ShownItem
        requires { at < length self.now }
        ensures { slice_get self.now at ≡ Some result.now }
    {
        &self.inner[at]
    }

    /// Puts an item last. An `Err` leaves the items as they were.
    pub fn push(&mut self, item: ShownItem) -> Result<(), AllocError>
        ensures ok { OnOk result (self.new ≡ self.old ++ item ∷ []) }
        ensures err { OnErr result (self.new ≡ self.old) }
    {
        self.inner.push(item)?;
        Ok(())
    }
}

/// What a client is shown in answer to one message.
#[derive(Drop)]
pub enum Shown {
    Nothing,
    Line(Said),
    Number(u64),
    Values { items: ShownItems, with_cas: bool },
    Stats { held: u64, stored: u64 },
}
