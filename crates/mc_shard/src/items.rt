//! The items of a class, in the order of their last use, and in the order in which they go.
ghost use Rattle.std.specs.Prelude.{◌≡◌, ◌≤◌, ◌+◌, ◌-◌, ◌^◌, true, false, Some, None, OnOk, OnErr, IfOk, IfSome, IsSome, is_some, [], length, take, option_copied, option_map};
ghost use Rattle.mc_item.specs.Expiry.{is_expired};
ghost use Rattle.mc_model.specs.Items.{item_at, count_of, live, first, without};
ghost use Rattle.mc_model.specs.Rows.{with_due, with_value};
ghost use Rattle.mc_shard.specs.Kept.{kept_at, after_settle, after_put, after_change, after_use, after_remove, same, appended, prepended, IsPaired};

use crate::cache::{Cache, append, prepend, rewrite, set_due, take_last, take_out, use_item};
use crate::index::{note, sweep, unnote};
use crate::item::KeptItem;
use lru::LruCache;
use mc_item::{Bytes, Expiry, Key, MOST_ITEMS, expired};
use std::alloc::{AllocError, Global};
use std::collections::BTreeSet;
use std::hash::RandomState;
use std::marker::Model;

/// The items of a class at a moment. What is expired then has gone, but for one item that was put
/// already expired: it stays until the next operation.
#[derive(Drop)]
pub(crate) struct Items {
    cache: Cache,
    // When each item of the cache goes.
    index: BTreeSet<(u64, Key)>,
    // The item that was put already expired. It is the first of all, and not in the cache.
    late: Option<(Key, KeptItem)>,
    moment: u64,
    bound: u32,
}

impl Model for Items {
    ghost use Rattle.mc_shard.specs.Kept.{Kept, kept_code, kept_at, with_late, IsInOrder};

    ghost Value = { Kept };

    ghost coded = { kept_code };

    ghost view = { λ a. kept_at (with_late a.late a.cache.entries) a.moment a.bound };

    ghost invariant = { λ a. IsInOrder a.cache.entries a.cache.cap a.index.keys a.late a.moment a.bound };
}

// Takes the last item out where there are more than the bound.
fn trim(cache: &mut Cache, index: &mut BTreeSet<(u64, Key)>, bound: u32)
    requires paired { IsPaired cache.old.entries index.old.keys }
    requires few { length cache.old.entries ≤ bound + 1 }
    ensures entries { cache.new.entries ≡ take bound cache.old.entries }
    ensures cap { cache.new.cap ≡ cache.old.cap }
    ensures paired { IsPaired cache.new.entries index.new.keys }
{
    if cache.len() as u64 <= u64::from(bound) {
        return;
    }
    if let Some((key, item)) = take_last(cache) {
        let due = item.due();
        unnote(index, due, Expiry::Never, key);
    }
}

// Takes out the item of a key with the key, if it has one.
fn take(cache: &mut Cache, index: &mut BTreeSet<(u64, Key)>, key: &Key) -> Option<(Key, KeptItem)>
    requires { IsPaired cache.old.entries index.old.keys }
    ensures item { option_map (λ e. e.1) result ≡ item_at cache.old.entries key.now }
    ensures key { IfSome result (λ e. e.0 ≡ key.now) }
    ensures entries { cache.new.entries ≡ without cache.old.entries key.now }
    ensures cap { cache.new.cap ≡ cache.old.cap }
    ensures paired { IsPaired cache.new.entries index.new.keys }
{
    let (key, item) = take_out(cache, key)?;
    let due = item.due();
    let key = unnote(index, due, Expiry::Never, key);
    Some((key, item))
}

// Puts an item, which goes first. What can fail comes first: an `Err` leaves the items as they were.
fn place(
    cache: &mut Cache,
    index: &mut BTreeSet<(u64, Key)>,
    key: Key,
    item: KeptItem,
    bound: u32,
) -> Result<(), AllocError>
    requires paired { IsPaired cache.old.entries index.old.keys }
    requires few { length cache.old.entries ≤ bound }
    requires most { bound ≤ MOST_ITEMS }
    requires unbounded { cache.old.cap ≡ 2 ^ 64 - 1 }
    ensures ok { OnOk result (cache.new.entries ≡ first cache.old.entries key item) }
    ensures err { OnErr result (cache.new.entries ≡ cache.old.entries) }
    ensures cap { cache.new.cap ≡ cache.old.cap }
    ensures paired { IsPaired cache.new.entries index.new.keys }
{
    let due = item.due();
    note(index, due, &key)?;
    match cache.push(key, item) {
        Ok(Some((key, old))) => {
            let was = old.due();
            unnote(index, was, due, key);
            Ok(())
        }
        Ok(None) => Ok(()),
        Err(failed) => {
            let (key, _item) = failed.value;
            unnote(index, due, Expiry::Never, key);
            Err(AllocError)
        }
    }
}

impl Items {
    /// No items, at the moment 0. Nothing is reserved for items.
    pub(crate) fn new(alloc: Global, hasher: RandomState, bound: u32) -> Result<Items, AllocError>
        requires some { 1 ≤ bound }
        requires most { bound ≤ MOST_ITEMS }
        ensures { IfOk result (λ items. items ≡ kept_at [] 0 bound) }
    {
        Ok(Items {
            cache: LruCache::unbounded_with_hasher(alloc, hasher)?,
            index: BTreeSet::new(alloc),
            late: None,
            moment: 0,
            bound,
        })
    }

    /// The moment that the items are of.
    pub(crate) fn moment(&self) -> u64
        ensures { result ≡ self.now.moment }
    {
        self.moment
    }

    /// How many items there are at most.
    pub(crate) fn bound(&self) -> u32
        ensures is { result ≡ self.now.bound }
        ensures some { 1 ≤ result }
        ensures most { result ≤ MOST_ITEMS }
    {
        self.bound
    }

    /// How many items are not expired at their moment. No item is looked at.
    pub(crate) fn held(&self) -> u64
        ensures { result ≡ count_of (live self.now.moment self.now.items) }
    {
        self.cache.len() as u64
    }

    /// The item of a key, if it has one that is not expired at a moment.
    pub(crate) fn get(&self, key: &Key, now: u64) -> Option<&KeptItem>
        requires { self.now.moment ≤ now }
        ensures { option_copied result ≡ item_at (live now self.now.items) key.now }
    {
        match self.cache.peek(key) {
            Some(item) => {
                if expired(item.due(), now) {
                    None
                } else {
                    Some(item)
                }
            }
            None => None,
        }
    }

    /// Lets go what is expired at a moment. The cost is a logarithm for each item that goes.
    pub(crate) fn settle(&mut self, now: u64)
        requires { self.old.moment ≤ now }
        ensures { self.new ≡ after_settle self.old now }
    {
        self.late = None;
        sweep(&mut self.cache, &mut self.index, now);
        self.moment = now;
    }

    /// Lets all items go.
    pub(crate) fn clear(&mut self, now: u64)
        ensures { self.new ≡ kept_at [] now self.old.bound }
    {
        self.cache.clear();
        self.index.clear();
        self.late = None;
        self.moment = now;
    }

    /// Makes the item of a key the first.
    pub(crate) fn use_item(&mut self, key: &Key, now: u64)
        requires moment { self.old.moment ≤ now }
        requires there { IsSome (item_at (live now self.old.items) key.now) }
        ensures { self.new ≡ after_use same self.old now key.now (item_at (live now self.old.items) key.now) }
    {
        use_item(&mut self.cache, key);
        self.settle(now);
    }

    /// Makes the item of a key the first, which goes at another moment. An `Err` leaves all as it
    /// was.
    pub(crate) fn use_until(&mut self, key: Key, due: Expiry, now: u64) -> Result<(), AllocError>
        requires moment { self.old.moment ≤ now }
        requires there { IsSome (item_at (live now self.old.items) key) }
        ensures ok { OnOk result (self.new ≡ after_use (with_due due) self.old now key (item_at (live now self.old.items) key)) }
        ensures err { OnErr result (self.new ≡ self.old) }
    {
        if expired(due, now) {
            self.use_late(&key, due, now);
            return Ok(());
        }
        note(&mut self.index, due, &key)?;
        let old = set_due(&mut self.cache, &key, due);
        unnote(&mut self.index, old, due, key);
        self.settle(now);
        Ok(())
    }

    // The item of a key is used, and goes at a moment that has come.
    fn use_late(&mut self, key: &Key, due: Expiry, now: u64)
        requires moment { self.old.moment ≤ now }
        requires expired { is_expired due now ≡ true }
        requires there { IsSome (item_at (live now self.old.items) key.now) }
        ensures { self.new ≡ after_use (with_due due) self.old now key.now (item_at (live now self.old.items) key.now) }
    {
        let taken = take(&mut self.cache, &mut self.index, key);
        self.settle(now);
        let Some((key, mut item)) = taken else {
            return;
        };
        item.set_due(due);
        self.late = Some((key, item));
    }

    /// Puts an item. An `Err` leaves all as it was.
    pub(crate) fn put(&mut self, key: Key, item: KeptItem, now: u64) -> Result<(), AllocError>
        requires { self.old.moment ≤ now }
        ensures ok { OnOk result (self.new ≡ after_put self.old now key item) }
        ensures err { OnErr result (self.new ≡ self.old) }
    {
        if expired(item.due(), now) {
            self.put_late(key, item, now);
            Ok(())
        } else {
            self.put_live(key, item, now)
        }
    }

    // Puts an item that is expired already.
    fn put_late(&mut self, key: Key, item: KeptItem, now: u64)
        requires moment { self.old.moment ≤ now }
        requires expired { is_expired item.due now ≡ true }
        ensures { self.new ≡ after_put self.old now key item }
    {
        take(&mut self.cache, &mut self.index, &key);
        self.settle(now);
        trim(&mut self.cache, &mut self.index, self.bound - 1);
        self.late = Some((key, item));
    }

    // Puts an item that is not expired. What can fail comes first.
    fn put_live(&mut self, key: Key, item: KeptItem, now: u64) -> Result<(), AllocError>
        requires moment { self.old.moment ≤ now }
        requires live { is_expired item.due now ≡ false }
        ensures ok { OnOk result (self.new ≡ after_put self.old now key item) }
        ensures err { OnErr result (self.new ≡ self.old) }
    {
        place(&mut self.cache, &mut self.index, key, item, self.bound)?;
        self.late = None;
        sweep(&mut self.cache, &mut self.index, now);
        trim(&mut self.cache, &mut self.index, self.bound);
        self.moment = now;
        Ok(())
    }

    /// Takes all items out and puts one. An `Err` leaves all as it was.
    pub(crate) fn put_alone(
        &mut self,
        alloc: Global,
        hasher: RandomState,
        key: Key,
        item: KeptItem,
        now: u64,
    ) -> Result<(), AllocError>
        ensures ok { OnOk result (self.new ≡ after_put (kept_at [] 0 self.old.bound) now key item) }
        ensures err { OnErr result (self.new ≡ self.old) }
    {
        let mut fresh = Items::new(alloc, hasher, self.bound())?;
        fresh.put(key, item, now)?;
        *self = fresh;
        Ok(())
    }

    /// Puts bytes behind a value, which grows in place where it can. An `Err` leaves all as it was.
    pub(crate) fn append(
        &mut self,
        key: &Key,
        more: &Bytes,
        cas: u64,
        now: u64,
    ) -> Result<(), AllocError>
        requires moment { self.old.moment ≤ now }
        requires there { IsSome (item_at (live now self.old.items) key.now) }
        ensures ok { OnOk result (self.new ≡ after_change (appended more.now cas) self.old now key.now (item_at (live now self.old.items) key.now)) }
        ensures err { OnErr result (self.new ≡ self.old) }
    {
        append(&mut self.cache, key, more.get(), cas)?;
        self.settle(now);
        Ok(())
    }

    /// Puts bytes in front of a value, which grows in place where it can. An `Err` leaves all as
    /// it was.
    pub(crate) fn prepend(
        &mut self,
        key: &Key,
        more: &Bytes,
        cas: u64,
        now: u64,
    ) -> Result<(), AllocError>
        requires moment { self.old.moment ≤ now }
        requires there { IsSome (item_at (live now self.old.items) key.now) }
        ensures ok { OnOk result (self.new ≡ after_change (prepended more.now cas) self.old now key.now (item_at (live now self.old.items) key.now)) }
        ensures err { OnErr result (self.new ≡ self.old) }
    {
        prepend(&mut self.cache, key, more.get(), cas)?;
        self.settle(now);
        Ok(())
    }

    /// Gives an item another value.
    pub(crate) fn rewrite(&mut self, key: &Key, value: Bytes, cas: u64, now: u64)
        requires moment { self.old.moment ≤ now }
        requires there { IsSome (item_at (live now self.old.items) key.now) }
        ensures { self.new ≡ after_change (with_value value cas) self.old now key.now (item_at (live now self.old.items) key.now) }
    {
        rewrite(&mut self.cache, key, value, cas);
        self.settle(now);
    }

    /// Takes an item out, and tells whether there was one.
    pub(crate) fn remove(&mut self, key: &Key, now: u64) -> bool
        requires { self.old.moment ≤ now }
        ensures there { result ≡ is_some (item_at (live now self.old.items) key.now) }
        ensures gone { self.new ≡ after_remove self.old now key.now }
    {
        let taken = take(&mut self.cache, &mut self.index, key);
        self.settle(now);
        match taken {
            Some((_key, item)) => !expired(item.due(), now),
            None => false,
        }
    }
}
