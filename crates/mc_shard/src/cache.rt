//! Changes of one item where it stands, which goes first then.
ghost use Rattle.std.specs.Prelude.{◌≡◌, ◌-◌, OnOk, OnErr, IfSome, option_map, length, take};
ghost use Rattle.std.specs.List.{IsDistinct};
ghost use Rattle.std.specs.Map.{keys_of};
ghost use Rattle.lru.specs.LruCache.{last_entry};
ghost use Rattle.mc_model.specs.Items.{same_key, item_at, first, without};
ghost use Rattle.mc_model.specs.Rows.{with_due, with_value};
ghost use Rattle.mc_shard.specs.Kept.{due_of, appended, prepended};

use crate::item::KeptItem;
use lru::LruCache;
use mc_item::{Bytes, Expiry, Key};
use std::alloc::AllocError;
use std::hash::RandomState;

/// The items of a class, the most recently used first. Its own bound is out of reach.
pub(crate) type Cache = LruCache<Key, KeptItem, RandomState>;

/// Makes the item of a key the first.
pub(crate) fn use_item(cache: &mut Cache, key: &Key)
    requires { IsDistinct same_key (keys_of cache.old.entries) }
    ensures used { IfSome (item_at cache.old.entries key.now) (λ item. cache.new.entries ≡ first cache.old.entries key.now item) }
    ensures cap { cache.new.cap ≡ cache.old.cap }
{
    cache.promote(key);
}

/// Lets an item go at another moment, and tells when it was to go.
pub(crate) fn set_due(cache: &mut Cache, key: &Key, due: Expiry) -> Expiry
    requires { IsDistinct same_key (keys_of cache.old.entries) }
    ensures was { result ≡ due_of (item_at cache.old.entries key.now) }
    ensures put { IfSome (item_at cache.old.entries key.now) (λ item. cache.new.entries ≡ first cache.old.entries key.now (with_due due item)) }
    ensures cap { cache.new.cap ≡ cache.old.cap }
{
    match cache.get_mut(key) {
        Some(item) => {
            let old = item.due();
            item.set_due(due);
            old
        }
        None => Expiry::Never,
    }
}

/// Gives an item another value.
pub(crate) fn rewrite(cache: &mut Cache, key: &Key, value: Bytes, cas: u64)
    requires { IsDistinct same_key (keys_of cache.old.entries) }
    ensures put { IfSome (item_at cache.old.entries key.now) (λ item. cache.new.entries ≡ first cache.old.entries key.now (with_value value cas item)) }
    ensures cap { cache.new.cap ≡ cache.old.cap }
{
    if let Some(item) = cache.get_mut(key) {
        item.set_value(value, cas);
    }
}

/// Puts bytes behind a value, which grows in place where it can. An `Err` leaves all as it was.
pub(crate) fn append(cache: &mut Cache, key: &Key, more: &[u8], cas: u64) -> Result<(), AllocError>
    requires { IsDistinct same_key (keys_of cache.old.entries) }
    ensures put { OnOk result (IfSome (item_at cache.old.entries key.now) (λ item. cache.new.entries ≡ first cache.old.entries key.now (appended more.now cas item))) }
    ensures cap { cache.new.cap ≡ cache.old.cap }
    ensures err { OnErr result (cache.new.entries ≡ cache.old.entries) }
{
    let Some(item) = cache.peek_mut(key) else {
        return Ok(());
    };
    item.append(more, cas)?;
    cache.promote(key);
    Ok(())
}

/// Puts bytes in front of a value, which grows in place where it can. An `Err` leaves all as it
/// was.
pub(crate) fn prepend(cache: &mut Cache, key: &Key, more: &[u8], cas: u64) -> Result<(), AllocError>
    requires { IsDistinct same_key (keys_of cache.old.entries) }
    ensures put { OnOk result (IfSome (item_at cache.old.entries key.now) (λ item. cache.new.entries ≡ first cache.old.entries key.now (prepended more.now cas item))) }
    ensures cap { cache.new.cap ≡ cache.old.cap }
    ensures err { OnErr result (cache.new.entries ≡ cache.old.entries) }
{
    let Some(item) = cache.peek_mut(key) else {
        return Ok(());
    };
    item.prepend(more, cas)?;
    cache.promote(key);
    Ok(())
}

/// Takes an item out, with its key.
pub(crate) fn take_out(cache: &mut Cache, key: &Key) -> Option<(Key, KeptItem)>
    requires { IsDistinct same_key (keys_of cache.old.entries) }
    ensures item { option_map (λ e. e.1) result ≡ item_at cache.old.entries key.now }
    ensures key { IfSome result (λ e. e.0 ≡ key.now) }
    ensures loses { cache.new.entries ≡ without cache.old.entries key.now }
    ensures cap { cache.new.cap ≡ cache.old.cap }
{
    cache.pop_entry(key)
}

/// Takes the last item out, with its key.
pub(crate) fn take_last(cache: &mut Cache) -> Option<(Key, KeptItem)>
    ensures last { result ≡ last_entry cache.old.entries }
    ensures entries { cache.new.entries ≡ take (length cache.old.entries - 1) cache.old.entries }
    ensures cap { cache.new.cap ≡ cache.old.cap }
{
    cache.pop_lru()
}
