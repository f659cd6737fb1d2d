//! The state of a class, and how each operation is run.
ghost use Rattle.std.specs.Prelude.{◌≡◌, ◌≤◌, ◌<◌, ◌+◌, true, OnOk, OnErr, IfOk, IsSome, is_some, option_copied, option_map};
ghost use Rattle.mc_model.specs.Moments.{latest};
ghost use Rattle.mc_model.specs.Items.{item_at, count_of};
ghost use Rattle.mc_model.specs.Rows.{cas_of, with_due, with_value};
ghost use Rattle.mc_model.specs.Class.{new_class, is_flush_due, settled, standing, stored_after};
ghost use Rattle.mc_shard.specs.Kept.{same, appended, prepended};
ghost use Rattle.mc_shard.specs.Shard.{with_item, with_change, with_use, without_item, flushed_at};

use crate::item::KeptItem;
use crate::items::Items;
use mc_item::{Bytes, CLASSES, Expiry, Key, LATEST_TIME, MOST_CHANGES, MOST_ITEMS};
use std::alloc::{AllocError, Global};
use std::hash::RandomState;
use std::marker::Model;

mod change;
mod get;
mod run;
mod store;
mod whole;

/// The state of a class, and what its memory and its hashes are made by.
#[derive(Drop)]
pub(crate) struct State {
    class: u32,
    items: Items,
    changes: u64,
    stored: u64,
    // The moment at which a flush is to be done.
    pending: Option<u64>,
    alloc: Global,
    hasher: RandomState,
}

impl Model for State {
    ghost use Rattle.mc_model.specs.Class.{Class, class_code};
    ghost use Rattle.mc_shard.specs.Shard.{IsBounded};

    ghost Value = { Class };

    ghost coded = { class_code };

    ghost view = { λ a. record { class = a.class; bound = a.items.bound; items = a.items.items; moment = a.items.moment; changes = a.changes; stored = a.stored; pending = a.pending } };

    ghost invariant = { λ a. IsBounded a.class a.items.bound a.items.moment a.changes };
}

impl State {
    /// A class with no items, in which `first` changes were made before, that holds at most `bound`
    /// items.
    pub(crate) fn new(
        alloc: Global,
        class: u32,
        first: u64,
        bound: u32,
        hasher: RandomState,
    ) -> Result<State, AllocError>
        requires class { class < CLASSES }
        requires count { first ≤ MOST_CHANGES }
        requires some { 1 ≤ bound }
        requires most { bound ≤ MOST_ITEMS }
        ensures { IfOk result (λ state. state ≡ new_class class first bound) }
    {
        Ok(State {
            class,
            items: Items::new(alloc, hasher, bound)?,
            changes: first,
            stored: 0,
            pending: None,
            alloc,
            hasher,
        })
    }

    /// How many items there are that are not expired.
    pub(crate) fn held(&self) -> u64
        ensures { result ≡ count_of (standing self.now) }
    {
        self.items.held()
    }

    /// How many stores there were.
    pub(crate) fn stored(&self) -> u64
        ensures { result ≡ self.now.stored }
    {
        self.stored
    }

    /// How many changes there were.
    pub(crate) fn changes(&self) -> u64
        ensures { result ≡ self.now.changes }
    {
        self.changes
    }

    /// The moment at which a flush is to be done, if one waits.
    pub(crate) fn pending(&self) -> Option<u64>
        ensures { result ≡ self.now.pending }
    {
        self.pending
    }

    /// The value of a key, if it has an item that is not expired.
    pub(crate) fn value_of(&self, key: &Key) -> Option<&[u8]>
        ensures { option_copied result ≡ option_map (λ item. item.value) (item_at (standing self.now) key.now) }
    {
        match self.items.get(key, self.items.moment()) {
            Some(item) => Some(item.value().get()),
            None => None,
        }
    }

    // The moment of an operation: no moment falls.
    fn latest(&self, moment: u64) -> u64
        ensures is { result ≡ latest self.now.moment moment }
        ensures after { self.now.moment ≤ result }
        ensures below { result ≤ LATEST_TIME }
    {
        self.items.moment().max(moment.min(LATEST_TIME))
    }

    fn is_flush_due(&self, now: u64) -> bool
        ensures { result ≡ is_flush_due self.now.pending now }
    {
        match self.pending {
            Some(flush_at) => flush_at <= now,
            None => false,
        }
    }

    // The item that an operation finds.
    fn found(&self, key: &Key, moment: u64) -> Option<&KeptItem>
        ensures { option_copied result ≡ item_at (settled self.now moment).items key.now }
    {
        let now = self.latest(moment);
        if self.is_flush_due(now) {
            None
        } else {
            self.items.get(key, now)
        }
    }

    // Lets go what goes first in each operation.
    fn settle(&mut self, moment: u64)
        ensures { self.new ≡ settled self.old moment }
    {
        let now = self.latest(moment);
        if self.is_flush_due(now) {
            self.items.clear(now);
            self.pending = None;
        } else {
            self.items.settle(now);
        }
    }

    // Puts an item.
    fn put(&mut self, key: Key, item: KeptItem, moment: u64) -> Result<(), AllocError>
        ensures ok { OnOk result (self.new ≡ with_item (settled self.old moment) key item) }
        ensures err { OnErr result (self.new ≡ self.old) }
    {
        let now = self.latest(moment);
        if self.is_flush_due(now) {
            self.items
                .put_alone(self.alloc, self.hasher, key, item, now)?;
            self.pending = None;
        } else {
            self.items.put(key, item, now)?;
        }
        Ok(())
    }

    // Puts bytes behind the value of a key.
    fn append(&mut self, key: &Key, more: &Bytes, cas: u64, moment: u64) -> Result<(), AllocError>
        requires { IsSome (item_at (settled self.old moment).items key.now) }
        ensures ok { OnOk result (self.new ≡ with_change (appended more.now cas) (settled self.old moment) key.now (item_at (settled self.old moment).items key.now)) }
        ensures err { OnErr result (self.new ≡ self.old) }
    {
        let now = self.latest(moment);
        self.items.append(key, more, cas, now)
    }

    // Puts bytes in front of the value of a key.
    fn prepend(&mut self, key: &Key, more: &Bytes, cas: u64, moment: u64) -> Result<(), AllocError>
        requires { IsSome (item_at (settled self.old moment).items key.now) }
        ensures ok { OnOk result (self.new ≡ with_change (prepended more.now cas) (settled self.old moment) key.now (item_at (settled self.old moment).items key.now)) }
        ensures err { OnErr result (self.new ≡ self.old) }
    {
        let now = self.latest(moment);
        self.items.prepend(key, more, cas, now)
    }

    // Gives the item of a key another value.
    fn rewrite(&mut self, key: &Key, value: Bytes, cas: u64, moment: u64)
        requires { IsSome (item_at (settled self.old moment).items key.now) }
        ensures { self.new ≡ with_change (with_value value cas) (settled self.old moment) key.now (item_at (settled self.old moment).items key.now) }
    {
        let now = self.latest(moment);
        self.items.rewrite(key, value, cas, now);
    }

    // Makes the item of a key the first, which goes at another moment.
    fn set_due(&mut self, key: Key, due: Expiry, moment: u64) -> Result<(), AllocError>
        requires { IsSome (item_at (settled self.old moment).items key) }
        ensures ok { OnOk result (self.new ≡ with_use (with_due due) (settled self.old moment) key (item_at (settled self.old moment).items key)) }
        ensures err { OnErr result (self.new ≡ self.old) }
    {
        let now = self.latest(moment);
        self.items.use_until(key, due, now)
    }

    // Counts a change.
    fn count_change(&mut self)
        requires { self.old.changes < MOST_CHANGES }
        ensures { self.new ≡ record self.old { changes = self.old.changes + 1 } }
    {
        self.changes += 1;
    }

    // Counts a store, up to the greatest number.
    fn count_store(&mut self)
        ensures { self.new ≡ record self.old { stored = stored_after self.old.stored true } }
    {
        self.stored = self.stored.saturating_add(1);
    }

    // Makes the item of a key the first.
    fn use_item(&mut self, key: &Key, moment: u64)
        requires { IsSome (item_at (settled self.old moment).items key.now) }
        ensures { self.new ≡ with_use same (settled self.old moment) key.now (item_at (settled self.old moment).items key.now) }
    {
        let now = self.latest(moment);
        self.items.use_item(key, now);
    }

    // Takes the item of a key out, and tells whether there was one.
    fn remove(&mut self, key: &Key, moment: u64) -> bool
        ensures there { result ≡ is_some (item_at (settled self.old moment).items key.now) }
        ensures gone { self.new ≡ without_item (settled self.old moment) key.now }
    {
        let now = self.latest(moment);
        if self.is_flush_due(now) {
            self.items.clear(now);
            self.pending = None;
            return false;
        }
        self.items.remove(key, now)
    }

    // Lets all items go at a moment, or at once where it has come.
    fn flush_at(&mut self, flush_at: u64)
        ensures { self.new ≡ flushed_at self.old flush_at }
    {
        let now = self.items.moment();
        if flush_at <= now {
            self.items.clear(now);
            self.pending = None;
        } else {
            self.pending = Some(flush_at);
        }
    }

    // The cas number of the next change.
    fn next_cas(&self) -> u64
        requires { self.now.changes < MOST_CHANGES }
        ensures { result ≡ cas_of self.now.class (self.now.changes + 1) }
    {
        u64::from(CLASSES) * (self.changes + 1) + u64::from(self.class)
    }
}
