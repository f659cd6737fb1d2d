//! A class behind one box, so that a message that may carry one weighs no more than a pointer by it.
ghost use Rattle.std.specs.Prelude.{◌≡◌, ◌≤◌, ◌<◌, IfOk, option_copied, option_map};
ghost use Rattle.mc_model.specs.Items.{item_at, count_of};
ghost use Rattle.mc_model.specs.Class.{new_class, standing};

use crate::state::State;
use mc_item::{CLASSES, Key, MOST_CHANGES, MOST_ITEMS};
use std::alloc::{AllocError, Global};
use std::hash::RandomState;
use std::marker::Model;

/// One class of the store: the items of the keys of one class number, the most recently used first.
/// It holds at most so many of them as it was made for, and lets the least recently used one go.
#[derive(Drop)]
pub struct Shard {
    pub(crate) state: Box<State>,
}

impl Model for Shard {
    ghost use Rattle.mc_model.specs.Class.{Class, class_code};

    ghost Value = { Class };

    ghost coded = { class_code };

    ghost view = { λ a. a.state.value };
}

impl Shard {
    /// A class with no items, in which `first` changes were made before, that holds at most `bound`
    /// items. Keys are found by `hasher`. Nothing is reserved for items.
    pub fn new(
        alloc: Global,
        class: u32,
        first: u64,
        bound: u32,
        hasher: RandomState,
    ) -> Result<Shard, AllocError>
        requires class { class < CLASSES }
        requires count { first ≤ MOST_CHANGES }
        requires some { 1 ≤ bound }
        requires most { bound ≤ MOST_ITEMS }
        ensures { IfOk result (λ shard. shard ≡ new_class class first bound) }
    {
        let state = State::new(alloc, class, first, bound, hasher)?;
        Ok(Shard {
            state: Box::new(alloc, state)?,
        })
    }

    /// How many items there are that are not expired. No item is looked at.
    pub fn held(&self) -> u64
        ensures { result ≡ count_of (standing self.now) }
    {
        self.state.held()
    }

    /// How many stores there were.
    pub fn stored(&self) -> u64
        ensures { result ≡ self.now.stored }
    {
        self.state.stored()
    }

    /// How many changes there were.
    pub fn changes(&self) -> u64
        ensures { result ≡ self.now.changes }
    {
        self.state.changes()
    }

    /// The moment at which a flush is to be done, if one waits.
    pub fn pending(&self) -> Option<u64>
        ensures { result ≡ self.now.pending }
    {
        self.state.pending()
    }

    /// The value of a key, if it has an item that is not expired. That is no use.
    pub fn value_of(&self, key: &Key) -> Option<&[u8]>
        ensures { option_copied result ≡ option_map (λ item. item.value) (item_at (standing self.now) key.now) }
    {
        self.state.value_of(key)
    }
}
