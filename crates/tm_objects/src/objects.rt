//! The entrusted objects of one trustee, with the gifts that wait.
ghost use Rattle.std.specs.Prelude.{◌≡◌, ◌≢◌, ◌+◌, ◌-◌, ◌<◌, ◌≤◌, ◌↔◌, length, true, false, IsTrue, IsSome, IfOk, IsOkAnd, IsErr, Ok, Err, slice_get};
ghost use Rattle.std.specs.Borrow.{sem};
ghost use Rattle.tm_batch.specs.declared.limits.TheConstants.{MOST_GIFTS, MOST_HOLDS};
ghost use Rattle.tm_batch.specs.declared.message.Refusal.TheVariants.{ObjectsFull, SerialsSpent};
ghost use Rattle.tm_objects.specs.Left.{left_of};
ghost use Rattle.tm_objects.specs.Rising.{IsStock};
ghost use Rattle.tm_objects.specs.Live.{object_of, holds_of, total, with_holds, with_launches, HasLive, count_in, total_in};
ghost use Rattle.tm_objects.specs.Stock.{gifts_of, no_objects, entrusted, granted, gift_taken, begun, finished, released, reclaimed, closed};

use crate::gifts::GiftQueues;
use crate::left::Left;
use crate::live::LiveObjects;
use std::alloc::{AllocError, Global};
use std::marker::Model;
use tm_batch::{MOST_HOLDS, Name, Refusal};
use tm_seq::Entrusted;

/// Why a value was not given back: there is another hold on it, or a launch.
#[derive(Debug, Clone, Copy, PartialEq, Eq)]
pub struct More;

/// The entrusted objects of one trustee. Each place has a number of holds on each object, and
/// gifts that wait for it. An object goes when the last hold on it is taken away.
///
/// All room is reserved by `new`, and no other call allocates. A name's id alone says which object
/// it names; its place is only where the object is looked for first.
#[derive(Drop)]
pub struct Objects<S: Entrusted> {
    live: LiveObjects<S>,
    gifts: GiftQueues,
    last_id: u64,
}

impl<S: Entrusted> Model for Objects<S> {
    ghost use Rattle.std.specs.Prelude.{◌≡◌, ◌+◌, length};
    ghost use Rattle.tm_objects.specs.Stock.{Stock, stock_code};

    ghost Value = { Stock S };

    ghost coded = { stock_code S.code };

    ghost view = { λ a. record {
      most = a.live.most;
      last_id = a.last_id;
      next_id = a.live.given + 1;
      live = a.live.live;
      gifts = a.gifts;
    } };

    ghost invariant = { λ a. a.live.places ≡ length a.gifts };
}

impl<S: Entrusted> Objects<S> {
    ghost use Rattle.tm_objects.specs.LendingObjects.{lends_object};

    /// No objects. At most `objects` may be live, the greatest id is `last_id`, and there are
    /// `places` places. It takes 12 bytes for each object and place, 16 KiB for each place, and about
    /// 100 bytes and a value for each object.
    pub fn new(
        alloc: Global,
        objects: u32,
        last_id: u64,
        places: u32,
    ) -> Result<Objects<S>, AllocError>
        ensures { IfOk result (λ a. a ≡ no_objects objects last_id places) }
    {
        Ok(Objects {
            live: LiveObjects::new(alloc, objects, places)?,
            gifts: GiftQueues::new(alloc, places)?,
            last_id,
        })
    }

    /// What holds at any time: at most as many objects are live as may be, and they have rising ids
    /// below the next one, a count of 32 bits for each place, and a hold or a launch; and at most
    /// [`MOST_GIFTS`](tm_batch::MOST_GIFTS) gifts wait for each place. Nothing runs.
    pub fn known(&self)
        ensures { IsStock self.now }
    {
        self.live.known();
        self.gifts.known();
    }

    /// Takes a value as the object of the next id, which a place holds once. It is refused where as
    /// many objects are live as may be, and else where the last id was given out.
    pub fn entrust(&mut self, place: u32, value: S) -> Result<Name, (Refusal, S)>
        requires { place < length self.old.gifts }
        ensures full { self.old.most ≤ length self.old.live → (result ≡ Err (ObjectsFull, value)) × (self.new ≡ self.old) }
        ensures spent { length self.old.live < self.old.most → self.old.last_id < self.old.next_id → (result ≡ Err (SerialsSpent, value)) × (self.new ≡ self.old) }
        ensures entrusted { length self.old.live < self.old.most → self.old.next_id ≤ self.old.last_id → IsOkAnd result (λ name. name.id ≡ self.old.next_id) × (self.new ≡ entrusted place value self.old) }
    {
        if self.live.is_full() {
            return Err((Refusal::ObjectsFull, value));
        }
        if self.live.given() >= self.last_id {
            return Err((Refusal::SerialsSpent, value));
        }
        Ok(self.live.add(place, value))
    }

    /// How many holds a place has on an object.
    pub fn count(&self, name: Name, place: u32) -> u32
        requires live { IsSome (object_of self.now.live name.id) }
        requires place { place < length self.now.gifts }
        ensures { result ≡ count_in (object_of self.now.live name.id) place }
    {
        self.live.count(name, place)
    }

    /// All holds on an object, and its unfinished launches.
    pub fn total(&self, name: Name) -> u64
        requires { IsSome (object_of self.now.live name.id) }
        ensures { result ≡ total_in (object_of self.now.live name.id) }
    {
        self.live.total(name)
    }

    /// Whether an id is live. Where the name's place is not its own, each object is looked at.
    pub fn is_live(&self, name: Name) -> bool
        ensures { IsTrue result ↔ IsSome (object_of self.now.live name.id) }
    {
        self.live.is_live(name)
    }

    /// The name with the place where its object stands, by which other calls find it at once. Where the name's
    /// place is not its own, each object is looked at.
    pub fn placed(&self, name: Name) -> Name
        requires { IsSome (object_of self.now.live name.id) }
        ensures { result.id ≡ name.id }
    {
        self.live.placed(name)
    }

    /// Adds a hold of a place, and a gift that waits for it. It is refused where
    /// [`MOST_GIFTS`](tm_batch::MOST_GIFTS) gifts wait for the place, or it has [`MOST_HOLDS`] holds
    /// on the object.
    pub fn grant(&mut self, name: Name, to: u32) -> bool
        requires live { HasLive self.old.live name.id (λ o. total o < 18446744073709551615) }
        requires place { to < length self.old.gifts }
        ensures granted { length (gifts_of self.old.gifts to) < MOST_GIFTS → count_in (object_of self.old.live name.id) to < MOST_HOLDS → (result ≡ true) × (self.new ≡ granted name to self.old) }
        ensures waiting { MOST_GIFTS ≤ length (gifts_of self.old.gifts to) → (result ≡ false) × (self.new ≡ self.old) }
        ensures held { MOST_HOLDS ≤ count_in (object_of self.old.live name.id) to → (result ≡ false) × (self.new ≡ self.old) }
    {
        if self.gifts.is_full(to) {
            return false;
        }
        let found = self.live.placed(name);
        if self.live.count(found, to) == MOST_HOLDS {
            return false;
        }
        self.live.hold(found, to);
        self.gifts.push(to, name);
        true
    }

    /// Takes the gift that waited longest for a place, if one does. Its hold stays.
    pub fn take_gift(&mut self, place: u32) -> Option<Name>
        requires { place < length self.old.gifts }
        ensures gift { result ≡ slice_get (gifts_of self.old.gifts place) 0 }
        ensures taken { self.new ≡ gift_taken place self.old }
    {
        self.gifts.take(place)
    }

    /// Adds the hold of a launch.
    pub fn begin(&mut self, name: Name)
        requires { HasLive self.old.live name.id (λ o. total o < 18446744073709551615) }
        ensures { self.new ≡ begun name.id self.old }
    {
        self.live.begin(name);
    }

    /// Takes the hold of a launch away. The value is dropped with the last hold.
    pub fn finish(&mut self, name: Name) -> Left
        requires { HasLive self.old.live name.id (λ o. 1 ≤ o.launches) }
        ensures left { HasLive self.old.live name.id (λ o. result ≡ left_of (with_launches (o.launches - 1) o)) }
        ensures finished { self.new ≡ finished name.id self.old }
    {
        self.live.finish(name)
    }

    /// Takes a hold of a place away. The value is dropped with the last hold.
    pub fn release(&mut self, name: Name, place: u32) -> Left
        requires live { HasLive self.old.live name.id (λ o. 1 ≤ holds_of o place) }
        requires place { place < length self.old.gifts }
        ensures left { HasLive self.old.live name.id (λ o. result ≡ left_of (with_holds place (holds_of o place - 1) o)) }
        ensures released { self.new ≡ released place name.id self.old }
    {
        self.live.release(name, place)
    }

    /// Takes a value back, where the one hold of a place is all that is left. Else nothing changes.
    pub fn reclaim(&mut self, name: Name, place: u32) -> Result<S, More>
        requires live { HasLive self.old.live name.id (λ o. 1 ≤ holds_of o place) }
        requires place { place < length self.old.gifts }
        ensures last { total_in (object_of self.old.live name.id) ≡ 1 → IsOkAnd result (λ v. HasLive self.old.live name.id (λ o. v ≡ o.value)) × (self.new ≡ reclaimed name.id self.old) }
        ensures more { total_in (object_of self.old.live name.id) ≢ 1 → IsErr result × (self.new ≡ self.old) }
    {
        let found = self.live.placed(name);
        if self.live.total(found) != 1 {
            return Err(More);
        }
        Ok(self.live.take_out(found, place))
    }

    /// The value of an object.
    pub fn value_mut(&mut self, name: Name) -> &mut S
        requires { IsSome (object_of self.old.live name.id) }
        ensures* writes_back { sem 𝓛 (lends_object S.row S.Op.row S.Reply.row S.Task.row S.Entrusted self.entry name.id result) }
        ensures value { HasLive self.old.live name.id (λ o. result.now ≡ o.value) }
    {
        self.live.value_mut(name)
    }

    /// Takes all holds and waiting gifts of a place away, and looks at no object that it doesn't hold.
    /// How many objects went.
    pub fn drop_client(&mut self, place: u32) -> u32
        requires { place < length self.old.gifts }
        ensures count { result + length self.new.live ≡ length self.old.live }
        ensures closed { self.new ≡ closed place self.old }
    {
        self.gifts.clear(place);
        self.live.drop_holds(place)
    }
}
