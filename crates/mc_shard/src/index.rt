//! The index of when each item goes, and what it takes out.
ghost use Rattle.std.specs.Prelude.{◌≡◌, ◌<◌, ◌≤◌, ◌+◌, true, false, if◌then◌else◌, OnOk, OnErr, IfSome, IfNone, slice_get, is_some};
ghost use Rattle.std.specs.BTreeSet.{btree_set_len};
ghost use Rattle.std.specs.Map.{remove_entry};
ghost use Rattle.mc_model.specs.Items.{same_key, live};
ghost use Rattle.mc_shard.specs.Kept.{goes_at, GainsEntry, LosesEntry, IsAhead, TakesDue, IsPaired};

use crate::cache::Cache;
use mc_item::{Expiry, Key};
use std::alloc::AllocError;
use std::collections::BTreeSet;

/// Notes when an item goes. An `Err` leaves the index as it was.
pub(crate) fn note(
    index: &mut BTreeSet<(u64, Key)>,
    due: Expiry,
    key: &Key,
) -> Result<(), AllocError>
    ensures gains { OnOk result (GainsEntry index.old.keys index.new.keys due key.now) }
    ensures same { OnErr result (index.new.keys ≡ index.old.keys) }
{
    if let Expiry::At(moment) = due {
        index.insert((moment, key.clone()?))?;
    }
    Ok(())
}

/// Takes out the entry for when an item was to go, unless it goes then still, and hands the key
/// back.
pub(crate) fn unnote(index: &mut BTreeSet<(u64, Key)>, old: Expiry, due: Expiry, key: Key) -> Key
    ensures back { result ≡ key }
    ensures gone { LosesEntry index.old.keys index.new.keys old due key }
{
    if let Expiry::At(moment) = old
        && !goes_at(due, moment)
    {
        let entry = (moment, key);
        index.remove(&entry);
        return entry.1;
    }
    key
}

fn goes_at(due: Expiry, moment: u64) -> bool
    ensures { result ≡ goes_at due moment }
{
    match due {
        Expiry::At(other) => other == moment,
        Expiry::Never => false,
    }
}

// Whether the first moment has come.
fn is_ripe(index: &BTreeSet<(u64, Key)>, now: u64) -> bool
    ensures ripe { result ≡ true → IfSome (slice_get index.now.keys 0) (λ entry. entry.0 ≤ now) }
    ensures some { result ≡ true → 0 < btree_set_len index.now }
    ensures ahead { result ≡ false → IsAhead now index.now.keys }
{
    match index.first() {
        Some((due, _key)) => *due <= now,
        None => false,
    }
}

// Takes the first entry out, if its moment has come.
fn pop_due(index: &mut BTreeSet<(u64, Key)>, now: u64) -> Option<Key>
    ensures ripe { IfSome result (TakesDue now index.old.keys index.new.keys) }
    ensures len { btree_set_len index.new + (if is_some result then 1 else 0) ≡ btree_set_len index.old }
    ensures ahead { IfNone result (IsAhead now index.new.keys) }
    ensures same { IfNone result (index.new.keys ≡ index.old.keys) }
{
    if !is_ripe(index, now) {
        return None;
    }
    let (_due, key) = index.pop_first()?;
    Some(key)
}

// Lets the item of a key go.
fn let_go(cache: &mut Cache, key: Key)
    ensures entries { cache.new.entries ≡ remove_entry (same_key key) cache.old.entries }
    ensures cap { cache.new.cap ≡ cache.old.cap }
{
    cache.pop(&key);
}

/// Takes out what is expired. The cost is that of the entries whose moment has come.
pub(crate) fn sweep(cache: &mut Cache, index: &mut BTreeSet<(u64, Key)>, now: u64)
    requires { IsPaired cache.old.entries index.old.keys }
    ensures swept { cache.new.entries ≡ live now cache.old.entries }
    ensures cap { cache.new.cap ≡ cache.old.cap }
    ensures paired { IsPaired cache.new.entries index.new.keys }
{
    while let Some(key) = pop_due(index, now) {
        let_go(cache, key);
    }
}
