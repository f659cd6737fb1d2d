//! For each place the keys of the objects that it holds.
ghost use Rattle.std.specs.Prelude.{◌≡◌, ℕ, ◌<◌, true, false, length, replicate, IfOk, IfSome, IfNone, IsSomeAnd};
ghost use Rattle.slab.specs.Slab.{get};
ghost use Rattle.tm_objects.specs.Counted.{flags_of, is_in, with_flag, has_hold};

use crate::entry::Entry;
use crate::keys::KeySet;
use slab::Slab;
use std::alloc::{AllocError, Global};

/// An empty set for each place, of the keys below a bound. It fails where the bound needs more than
/// 32 bits, as where there is no memory.
pub fn empty_sets(alloc: Global, places: u32, bound: usize) -> Result<Vec<KeySet>, AllocError>
    ensures { IfOk result (λ held. held.items ≡ replicate places (replicate bound false)) }
{
    let Ok(size) = u32::try_from(bound) else {
        return Err(AllocError);
    };
    let mut held = Vec::with_capacity(alloc, places as usize)?;
    for _ in 0..places {
        held.push_reserved(KeySet::new(alloc, size)?);
    }
    Ok(held)
}

/// Adds the key of an object that a place holds.
pub fn keep_key(held: &mut Vec<KeySet>, key: usize, place: usize)
    requires place { place < length held.old.items }
    requires key { key < length (flags_of held.old.items place) }
    ensures { held.new.items ≡ with_flag place key true held.old.items }
{
    held[place].insert(key);
}

/// Takes the key of an object away that a place holds no more.
pub fn forget_key(held: &mut Vec<KeySet>, key: usize, place: usize)
    requires place { place < length held.old.items }
    requires key { key < length (flags_of held.old.items place) }
    ensures { held.new.items ≡ with_flag place key false held.old.items }
{
    held[place].remove(key);
}

/// Takes a key of a place out, if it has one.
pub fn pop_key(held: &mut Vec<KeySet>, place: usize) -> Option<usize>
    requires { place < length held.old.items }
    ensures was { IfSome result (λ key. is_in held.old.items place key ≡ true) }
    ensures taken { IfSome result (λ key. held.new.items ≡ with_flag place key false held.old.items) }
    ensures none { IfNone result ((key : ℕ) → is_in held.old.items place key ≡ false) }
    ensures stays { IfNone result (held.new.items ≡ held.old.items) }
{
    held[place].pop()
}

/// Takes the key of a live object away where a place has no hold on it, and else keeps it.
pub fn note_hold<V>(slots: &Slab<Entry<V>>, held: &mut Vec<KeySet>, key: usize, place: usize)
    requires place { place < length held.old.items }
    requires key { key < length (flags_of held.old.items place) }
    requires there { IsSomeAnd (get slots.now key) (λ o. place < length o.holds) }
    ensures { held.new.items ≡ with_flag place key (has_hold (get slots.now key) place) held.old.items }
{
    if slots[key].count(place) > 0 {
        keep_key(held, key, place);
    } else {
        forget_key(held, key, place);
    }
}
