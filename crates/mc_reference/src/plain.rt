//! A class, and how it runs an operation.
ghost use Rattle.std.specs.Prelude.{◌≡◌, ◌≤◌, ◌<◌, take, IfOk, OnOk, option_copied, option_map};
ghost use Rattle.mc_model.specs.Items.{item_at, count_of, live, without};
ghost use Rattle.mc_model.specs.Rows.{changes_after};
ghost use Rattle.mc_model.specs.Class.{new_class, is_flush_due, settled, standing, stored_after, after_effect, after_key};
ghost use Rattle.mc_shard.specs.Shard.{flushed_at};
ghost use Rattle.mc_reference.specs.Deed.{effect_of, outcome};
ghost use Rattle.mc_reference.specs.Found.{is_live_at, live_item};

use crate::deed::{Deed, Done};
use mc_item::{CLASSES, Key, LATEST_TIME, MOST_CHANGES, MOST_ITEMS, expired};
use mc_model::{Item, ShardReply};
use std::alloc::{AllocError, Global};
use std::marker::Model;

/// One class of the store: what its definition has, and nothing else.
#[derive(Drop)]
pub struct Plain {
    class: u32,
    bound: u32,
    // The most recently used first.
    items: Vec<(Key, Item)>,
    moment: u64,
    changes: u64,
    stored: u64,
    // The moment at which a flush is to be done.
    pending: Option<u64>,
    alloc: Global,
}

impl Model for Plain {
    ghost use Rattle.mc_model.specs.Class.{Class, class_code};
    ghost use Rattle.mc_shard.specs.Shard.{IsBounded};

    ghost Value = { Class };

    ghost coded = { class_code };

    ghost view = { λ a. record { class = a.class; bound = a.bound; items = a.items.items; moment = a.moment; changes = a.changes; stored = a.stored; pending = a.pending } };

    ghost invariant = { λ a. IsBounded a.class a.bound a.moment a.changes };
}

// Takes out what is expired.
fn drop_expired(items: &mut Vec<(Key, Item)>, now: u64)
    ensures { items.new.items ≡ live now items.old.items }
{
    items.retain(|entry| !expired(entry.1.due, now));
}

// Takes out the items of a key.
fn drop_key(items: &mut Vec<(Key, Item)>, key: &Key)
    ensures { items.new.items ≡ without items.old.items key.now }
{
    items.retain(|entry| *key != entry.0);
}

// The item of a key.
fn find<'a>(items: &'a [(Key, Item)], key: &Key) -> Option<&'a Item>
    ensures { option_copied result ≡ item_at items.now key.now }
{
    match items {
        [] => None,
        [first, rest @ ..] => {
            if *key == first.0 {
                Some(&first.1)
            } else {
                find(rest, key)
            }
        }
    }
}

// Whether an entry is that of a key, and is not expired.
fn is_live_at(entry: &(Key, Item), key: &Key, now: u64) -> bool
    ensures { result ≡ is_live_at now key.now entry.now }
{
    *key == entry.0 && !expired(entry.1.due, now)
}

// The item of a key, if it has one that is not expired.
fn find_live<'a>(items: &'a [(Key, Item)], key: &Key, now: u64) -> Option<&'a Item>
    ensures { option_copied result ≡ live_item now key.now items.now }
{
    match items {
        [] => None,
        [first, rest @ ..] => {
            if is_live_at(first, key, now) {
                Some(&first.1)
            } else {
                find_live(rest, key, now)
            }
        }
    }
}

// Does to the item of a key what an operation does.
fn apply(items: &mut Vec<(Key, Item)>, key: Key, deed: Deed, bound: u32) -> Result<(), AllocError>
    ensures { OnOk result (items.new.items ≡ after_effect (take bound) items.old.items key (effect_of deed)) }
{
    match deed {
        Deed::Keep => {}
        Deed::Use(item) => {
            drop_key(items, &key);
            items.insert(0, (key, item))?;
        }
        Deed::Put(item) => {
            drop_key(items, &key);
            items.insert(0, (key, item))?;
            items.truncate(bound as usize);
        }
        Deed::Remove => drop_key(items, &key),
    }
    Ok(())
}

// The count of stores, which stands still at the greatest number.
fn stored_after(stored: u64, is_store: bool) -> u64
    ensures { result ≡ stored_after stored is_store }
{
    if is_store {
        stored.saturating_add(1)
    } else {
        stored
    }
}

// The count of changes, one more for a put.
fn changes_after(changes: u64, deed: &Deed) -> u64
    requires { changes_after changes (effect_of deed.now) ≤ MOST_CHANGES }
    ensures { result ≡ changes_after changes (effect_of deed.now) }
{
    match deed {
        Deed::Put(_) => changes + 1,
        Deed::Keep | Deed::Use(_) | Deed::Remove => changes,
    }
}

fn is_flush_due(pending: Option<u64>, now: u64) -> bool
    ensures { result ≡ is_flush_due pending now }
{
    match pending {
        Some(flush_at) => flush_at <= now,
        None => false,
    }
}

impl Plain {
    /// A class with no items, in which `first` changes were made before, that holds at most `bound`
    /// items.
    pub fn new(alloc: Global, class: u32, first: u64, bound: u32) -> Plain
        requires class { class < CLASSES }
        requires count { first ≤ MOST_CHANGES }
        requires some { 1 ≤ bound }
        requires most { bound ≤ MOST_ITEMS }
        ensures { result ≡ new_class class first bound }
    {
        Plain {
            class,
            bound,
            items: Vec::new(alloc),
            moment: 0,
            changes: first,
            stored: 0,
            pending: None,
            alloc,
        }
    }

    /// The allocator of all that the class makes.
    pub(crate) fn allocator(&self) -> Global {
        self.alloc
    }

    /// The number from which cas numbers are made.
    pub fn class(&self) -> u32
        ensures is { result ≡ self.now.class }
        ensures below { result < CLASSES }
    {
        self.class
    }

    /// The moment of the last operation.
    pub fn moment(&self) -> u64
        ensures is { result ≡ self.now.moment }
        ensures below { result ≤ LATEST_TIME }
    {
        self.moment
    }

    /// How many changes there were.
    pub fn changes(&self) -> u64
        ensures is { result ≡ self.now.changes }
        ensures below { result ≤ MOST_CHANGES }
    {
        self.changes
    }

    /// How many stores there were.
    pub fn stored(&self) -> u64
        ensures { result ≡ self.now.stored }
    {
        self.stored
    }

    /// The moment at which a flush is to be done, if one waits.
    pub fn pending(&self) -> Option<u64>
        ensures { result ≡ self.now.pending }
    {
        self.pending
    }

    /// How many items there are, those that are expired too.
    pub(crate) fn len(&self) -> u64
        ensures { result ≡ count_of self.now.items }
    {
        self.items.len() as u64
    }

    /// The value of a key, if it has an item that is not expired.
    pub fn value_of(&self, key: &Key) -> Option<&[u8]>
        ensures { option_copied result ≡ option_map (λ item. item.value) (item_at (standing self.now) key.now) }
    {
        match find_live(&self.items, key, self.moment) {
            Some(item) => Some(item.value.get()),
            None => None,
        }
    }

    /// The moment comes first, then all items go where a flush is due, then those that are expired.
    pub(crate) fn settle(&mut self, moment: u64)
        ensures { self.new ≡ settled self.old moment }
    {
        self.moment = self.moment.max(moment.min(LATEST_TIME));
        if is_flush_due(self.pending, self.moment) {
            self.items.clear();
            self.pending = None;
        }
        drop_expired(&mut self.items, self.moment);
    }

    /// A copy of the item that a key has.
    pub(crate) fn item(&self, key: &Key) -> Result<Option<Item>, AllocError>
        ensures { IfOk result (λ item. item ≡ item_at self.now.items key.now) }
    {
        match find(&self.items, key) {
            Some(item) => Ok(Some(Item {
                value: item.value.clone()?,
                flags: item.flags,
                due: item.due,
                cas: item.cas,
            })),
            None => Ok(None),
        }
    }

    /// All items go at a moment, or at once where it has come.
    pub(crate) fn flush_at(&mut self, flush_at: u64)
        ensures { self.new ≡ flushed_at self.old flush_at }
    {
        if flush_at <= self.moment {
            self.items.clear();
            self.pending = None;
        } else {
            self.pending = Some(flush_at);
        }
    }

    /// Does what an operation on a key does, and replies.
    pub(crate) fn conclude(
        mut self,
        key: Key,
        done: Done,
    ) -> Result<(Plain, ShardReply), AllocError>
        requires { changes_after self.changes (effect_of done.deed) ≤ MOST_CHANGES }
        ensures { IfOk result (λ after. after ≡ (after_key self key (outcome done), done.reply)) }
    {
        self.changes = changes_after(self.changes, &done.deed);
        self.stored = stored_after(self.stored, done.is_store);
        apply(&mut self.items, key, done.deed, self.bound)?;
        Ok((self, done.reply))
    }
}
