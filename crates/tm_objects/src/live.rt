//! All live objects of a trustee.
ghost use Rattle.std.specs.Prelude.{◌≡◌, ◌+◌, ◌-◌, ◌<◌, ◌≤◌, ◌↔◌, [], ◌∷◌, ◌++◌, map, length, IsTrue, IsSome, IfOk};
ghost use Rattle.std.specs.Borrow.{sem};
ghost use Rattle.tm_batch.specs.declared.limits.TheConstants.{MOST_HOLDS};
ghost use Rattle.tm_objects.specs.Left.{left_of};
ghost use Rattle.tm_objects.specs.Rising.{IsRising};
ghost use Rattle.tm_objects.specs.Live.{object_of, holds_of, total, with_holds, with_launches, first_held, change, kept, without, HasLive, count_in, total_in};

use crate::entry::Entry;
use crate::held::{empty_sets, forget_key, keep_key, note_hold, pop_key};
use crate::keys::KeySet;
use crate::left::Left;
use crate::slots::{blank_rows, drop_held, key_of, locate, settle};
use slab::Slab;
use std::alloc::{AllocError, Global};
use std::marker::Model;
use tm_batch::Name;

/// The live objects, with room for all that may be live.
#[derive(Drop)]
pub struct LiveObjects<V> {
    slots: Slab<Entry<V>>,
    // A row of zeros for each object that may yet come, one zero for each place.
    spare: Vec<Vec<u32>>,
    // For each place the keys of the objects that it holds.
    held: Vec<KeySet>,
    given: u64,
    most: u32,
    places: u32,
}

impl<V> Model for LiveObjects<V> {
    ghost use Rattle.std.specs.Prelude.{map, vec_capacity};
    ghost use Rattle.tm_objects.specs.Live.{LiveList, live_list_code};

    ghost Value = { LiveList V };

    ghost coded = { live_list_code V.code };

    ghost use Rattle.tm_objects.specs.Listing.{seek, listed, IsSound};
    ghost use Rattle.tm_objects.specs.Counted.{AreCounted};

    ghost view = { λ a. record {
      most = a.most;
      places = a.places;
      given = a.given;
      live = listed (seek a.slots.slots) a.given;
    } };

    ghost invariant = { λ a. IsSound a.slots (map (λ row. row.items) a.spare.items) (vec_capacity a.spare) a.given a.most a.places × AreCounted a.slots a.held.items a.places };
}

impl<V: Drop> LiveObjects<V> {
    ghost use Rattle.tm_objects.specs.Lending.{lends_value};

    /// No objects, and room for `most` with a count for each of `places`: 12 bytes for each object and
    /// place.
    pub fn new(alloc: Global, most: u32, places: u32) -> Result<LiveObjects<V>, AllocError>
        ensures { IfOk result (λ a. a ≡ record { most = most; places = places; given = 0; live = [] }) }
    {
        let slots = Slab::with_capacity(alloc, most as usize)?;
        let spare = blank_rows(alloc, most as usize, places as usize)?;
        let held = empty_sets(alloc, places, slots.capacity())?;
        Ok(LiveObjects {
            slots,
            spare,
            held,
            given: 0,
            most,
            places,
        })
    }

    /// At most `most` objects are live, and they have rising ids, a count of 32 bits for each place,
    /// and a hold or a launch. Nothing runs.
    pub fn known(&self)
        ensures { IsRising self.now }
    {
        let _given = self.given;
    }

    /// Whether as many objects are live as may be.
    pub fn is_full(&self) -> bool
        ensures full { IsTrue result ↔ (self.now.most ≤ length self.now.live) }
        ensures most { length self.now.live ≤ self.now.most }
    {
        self.spare.is_empty()
    }

    /// The last id that was given out, or 0.
    pub fn given(&self) -> u64
        ensures { result ≡ self.now.given }
    {
        self.given
    }

    /// Takes a value as the object of the next id, which a place holds once.
    pub fn add(&mut self, place: u32, value: V) -> Name
        requires room { length self.old.live < self.old.most }
        requires id { self.old.given < 18446744073709551615 }
        requires place { place < self.old.places }
        ensures id { result.id ≡ self.old.given + 1 }
        ensures added { self.new ≡ record self.old { given = self.old.given + 1; live = self.old.live ++ first_held (self.old.given + 1) value self.old.places place ∷ [] } }
    {
        let Some(row) = self.spare.pop() else {
            unreachable!()
        };
        let id = next_id(&mut self.given);
        let mut entry = Entry::new(id, value, row);
        entry.add_hold(place as usize);
        let key = self.slots.insert_reserved(entry);
        keep_key(&mut self.held, key, place as usize);
        Name {
            id,
            place: u32::try_from(key).unwrap_or(u32::MAX),
        }
    }

    /// Whether an id is live.
    pub fn is_live(&self, name: Name) -> bool
        ensures { IsTrue result ↔ IsSome (object_of self.now.live name.id) }
    {
        locate(&self.slots, name).is_some()
    }

    /// The name with the place where its object stands, by which other calls find it at once.
    pub fn placed(&self, name: Name) -> Name
        requires { IsSome (object_of self.now.live name.id) }
        ensures { result.id ≡ name.id }
    {
        let key = key_of(&self.slots, name);
        Name {
            id: name.id,
            place: u32::try_from(key).unwrap_or(u32::MAX),
        }
    }

    /// How many holds a place has on an object.
    pub fn count(&self, name: Name, place: u32) -> u32
        requires live { IsSome (object_of self.now.live name.id) }
        requires place { place < self.now.places }
        ensures { result ≡ count_in (object_of self.now.live name.id) place }
    {
        let key = key_of(&self.slots, name);
        self.slots[key].count(place as usize)
    }

    /// All holds on an object, and its unfinished launches.
    pub fn total(&self, name: Name) -> u64
        requires { IsSome (object_of self.now.live name.id) }
        ensures { result ≡ total_in (object_of self.now.live name.id) }
    {
        let key = key_of(&self.slots, name);
        self.slots[key].total()
    }

    /// Adds a hold of a place.
    pub fn hold(&mut self, name: Name, place: u32)
        requires live { HasLive self.old.live name.id (λ o. (holds_of o place < MOST_HOLDS) × (total o < 18446744073709551615)) }
        requires place { place < self.old.places }
        ensures { self.new ≡ record self.old { live = change name.id (λ o. with_holds place (holds_of o place + 1) o) self.old.live } }
    {
        let key = key_of(&self.slots, name);
        self.slots[key].add_hold(place as usize);
        keep_key(&mut self.held, key, place as usize);
    }

    /// Adds an unfinished launch.
    pub fn begin(&mut self, name: Name)
        requires { HasLive self.old.live name.id (λ o. total o < 18446744073709551615) }
        ensures { self.new ≡ record self.old { live = change name.id (λ o. with_launches (o.launches + 1) o) self.old.live } }
    {
        let key = key_of(&self.slots, name);
        self.slots[key].begin();
    }

    /// Takes a hold of a place away.
    pub fn release(&mut self, name: Name, place: u32) -> Left
        requires live { HasLive self.old.live name.id (λ o. 1 ≤ holds_of o place) }
        requires place { place < self.old.places }
        ensures left { HasLive self.old.live name.id (λ o. result ≡ left_of (with_holds place (holds_of o place - 1) o)) }
        ensures taken { self.new ≡ record self.old { live = kept (change name.id (λ o. with_holds place (holds_of o place - 1) o) self.old.live) } }
    {
        let key = key_of(&self.slots, name);
        self.slots[key].take_hold(place as usize);
        note_hold(&self.slots, &mut self.held, key, place as usize);
        settle(&mut self.slots, &mut self.spare, key)
    }

    /// Takes an unfinished launch away.
    pub fn finish(&mut self, name: Name) -> Left
        requires { HasLive self.old.live name.id (λ o. 1 ≤ o.launches) }
        ensures left { HasLive self.old.live name.id (λ o. result ≡ left_of (with_launches (o.launches - 1) o)) }
        ensures taken { self.new ≡ record self.old { live = kept (change name.id (λ o. with_launches (o.launches - 1) o) self.old.live) } }
    {
        let key = key_of(&self.slots, name);
        self.slots[key].finish();
        settle(&mut self.slots, &mut self.spare, key)
    }

    /// Takes a value out on which there is one hold, that of a place.
    pub fn take_out(&mut self, name: Name, place: u32) -> V
        requires live { HasLive self.old.live name.id (λ o. (total o ≡ 1) × (1 ≤ holds_of o place)) }
        requires place { place < self.old.places }
        ensures value { HasLive self.old.live name.id (λ o. result ≡ o.value) }
        ensures taken { self.new ≡ record self.old { live = without name.id self.old.live } }
    {
        let key = key_of(&self.slots, name);
        let (value, mut row) = self.slots.remove(key).into_parts();
        row[place as usize] = 0;
        self.spare.push_reserved(row);
        forget_key(&mut self.held, key, place as usize);
        value
    }

    /// The value of an object.
    pub fn value_mut(&mut self, name: Name) -> &mut V
        requires { IsSome (object_of self.old.live name.id) }
        ensures* writes_back { sem 𝓛 (lends_value V.row self.entry name.id result) }
        ensures value { HasLive self.old.live name.id (λ o. result.now ≡ o.value) }
    {
        let key = key_of(&self.slots, name);
        self.slots[key].value_mut()
    }

    /// Takes all holds of a place away, looking at the objects that it holds alone, and drops the values
    /// on which no hold is left. How many.
    pub fn drop_holds(&mut self, place: u32) -> u32
        requires { place < self.old.places }
        ensures count { result + length self.new.live ≡ length self.old.live }
        ensures taken { self.new ≡ record self.old { live = kept (map (λ o. with_holds place 0 o) self.old.live) } }
    {
        let before = self.spare.len();
        while let Some(key) = pop_key(&mut self.held, place as usize) {
            drop_held(&mut self.slots, &mut self.spare, key, place as usize);
        }
        (self.spare.len() - before) as u32
    }
}

// Gives out an id that was never given out.
fn next_id(given: &mut u64) -> u64
    requires { given.old < 18446744073709551615 }
    ensures given { given.new ≡ given.old + 1 }
    ensures id { result ≡ given.old + 1 }
{
    *given += 1;
    *given
}
