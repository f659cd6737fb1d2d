//! The slots of live objects.
ghost use Rattle.std.specs.Prelude.{◌≡◌, ◌≢◌, ℕ, ◌<◌, map, length, Some, IfSome, IfNone, IsSomeAnd, IfOk, All, replicate, vec_len, vec_capacity};
ghost use Rattle.slab.specs.Slab.{get, with_value, ContainsKey};
ghost use Rattle.tm_objects.specs.Left.{left_of};
ghost use Rattle.tm_objects.specs.Live.{with_holds};
ghost use Rattle.tm_objects.specs.Listing.{Settles};

use crate::entry::Entry;
use crate::left::Left;
use slab::Slab;
use std::alloc::{AllocError, Global};
use tm_batch::Name;

/// The key of the object of a name, if it is live: the name's place where the object stands there.
pub fn locate<V>(slots: &Slab<Entry<V>>, name: Name) -> Option<usize>
    ensures found { IfSome result (λ k. IsSomeAnd (get slots.now k) (λ o. o.id ≡ name.id)) }
    ensures absent { IfNone result ((k : ℕ) (o : _) → get slots.now k ≡ Some o → o.id ≢ name.id) }
{
    let hint = name.place as usize;
    match slots.get(hint) {
        Some(entry) if entry.id() == name.id => Some(hint),
        _ => search(slots, name.id),
    }
}

// The key of the object of an id, by a look at each slot.
fn search<V>(slots: &Slab<Entry<V>>, id: u64) -> Option<usize>
    ensures found { IfSome result (λ k. IsSomeAnd (get slots.now k) (λ o. o.id ≡ id)) }
    ensures absent { IfNone result ((k : ℕ) (o : _) → get slots.now k ≡ Some o → o.id ≢ id) }
{
    for (key, entry) in slots.iter() {
        if entry.id() == id {
            return Some(key);
        }
    }
    None
}

/// Drops the object of a key where there is no hold on it.
pub fn settle<V: Drop>(slots: &mut Slab<Entry<V>>, spare: &mut Vec<Vec<u32>>, key: usize) -> Left
    requires there { ContainsKey slots.old key }
    requires room { vec_len spare.old < vec_capacity spare.old }
    ensures settles { IfSome (get slots.old key) (λ o. Settles slots.old slots.new (map (λ row. row.items) spare.old.items) (map (λ row. row.items) spare.new.items) key o) }
    ensures left { IfSome (get slots.old key) (λ o. result ≡ left_of o) }
    ensures capacity { vec_capacity spare.new ≡ vec_capacity spare.old }
{
    if slots[key].total() > 0 {
        return Left::More;
    }
    let (_, holds) = slots.remove(key).into_parts();
    spare.push_reserved(holds);
    Left::Dropped
}

/// Takes the holds of a place on the object of a key away, and drops it where there is then no hold
/// on it.
pub fn drop_held<V: Drop>(
    slots: &mut Slab<Entry<V>>,
    spare: &mut Vec<Vec<u32>>,
    key: usize,
    place: usize,
)
    requires there { IsSomeAnd (get slots.old key) (λ o. place < length o.holds) }
    requires room { vec_len spare.old < vec_capacity spare.old }
    ensures dropped { IfSome (get slots.old key) (λ o. Settles (with_value slots.old key (with_holds place 0 o)) slots.new (map (λ row. row.items) spare.old.items) (map (λ row. row.items) spare.new.items) key (with_holds place 0 o)) }
    ensures capacity { vec_capacity spare.new ≡ vec_capacity spare.old }
{
    slots[key].take_holds(place);
    settle(slots, spare, key);
}

/// The key of the object of a name that is live.
pub fn key_of<V>(slots: &Slab<Entry<V>>, name: Name) -> usize
    requires { (k : ℕ) × IsSomeAnd (get slots.now k) (λ o. o.id ≡ name.id) }
    ensures { IsSomeAnd (get slots.now result) (λ o. o.id ≡ name.id) }
{
    match locate(slots, name) {
        Some(key) => key,
        None => unreachable!(),
    }
}

/// So many rows of zeros, each of the same width.
pub fn blank_rows(alloc: Global, count: usize, width: usize) -> Result<Vec<Vec<u32>>, AllocError>
    ensures len { IfOk result (λ rows. length rows.items ≡ count) }
    ensures capacity { IfOk result (λ rows. vec_capacity rows ≡ count) }
    ensures blank { IfOk result (λ rows. All (λ row. row ≡ replicate width 0) (map (λ row. row.items) rows.items)) }
{
    let mut rows = Vec::with_capacity(alloc, count)?;
    for _ in 0..count {
        rows.push_reserved(vec![in alloc; 0u32; width]?);
    }
    Ok(rows)
}
