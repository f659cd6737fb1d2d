//! The list of the trusts that a client holds.
ghost use Rattle.std.specs.Prelude.{◌≡◌, ℕ, ◌+◌, ◌<◌, ◌≤◌, ◌↔◌, [], IsTrue, IfSome, IfNone, IfOk};
ghost use Rattle.std.specs.declared.option.Option.TheVariants.{Some};
ghost use Rattle.tm_client.specs.Listing.{held_count, room_for, held_at, HasHold, Gains, Loses};

use slab::Slab;
use std::alloc::{AllocError, Global};

/// What a client's list of trusts says of one: its trustee and the object's number there.
#[derive(Debug, Clone, Copy, PartialEq, Eq)]
pub struct Hold {
    /// The trustee.
    pub trustee: u32,
    /// The object's number.
    pub id: u64,
}

/// A client's list of trusts. Each stands at a place, and stays there until it is taken out.
///
/// All but `new` take no memory. A trust is put in, found at its place and taken out in constant time; one that
/// does not stand where it is looked for first is searched for.
#[derive(Drop)]
pub struct Holds {
    places: Slab<Hold>,
}

impl Holds {
    /// An empty list with room for so many trusts.
    pub(crate) fn new(alloc: Global, room: usize) -> Result<Holds, AllocError>
        ensures empty { IfOk result (λ holds. holds.places.slots ≡ []) }
        ensures room { IfOk result (λ holds. room ≤ room_for holds) }
    {
        let places = Slab::with_capacity(alloc, room)?;
        Ok(Holds { places })
    }

    /// How many trusts it has.
    pub(crate) fn len(&self) -> usize
        ensures { result ≡ held_count self.now }
    {
        self.places.len()
    }

    /// Whether it has a hold, which is looked for at `at` first.
    pub(crate) fn has(&self, at: usize, hold: Hold) -> bool
        ensures { IsTrue result ↔ HasHold self.now hold }
    {
        self.find(at, hold).is_some()
    }

    /// Puts a hold in. Its place.
    pub(crate) fn insert(&mut self, hold: Hold) -> usize
        requires { held_count self.old < room_for self.old }
        ensures { Gains hold result self.old self.new }
    {
        self.places.insert_reserved(hold)
    }

    /// Takes a hold out: the one at `at` where it stands there.
    pub(crate) fn remove(&mut self, at: usize, hold: Hold)
        requires { HasHold self.old hold }
        ensures { (place : ℕ) × (held_at self.old at ≡ Some hold → place ≡ at) × Loses hold place self.old self.new }
    {
        if let Some(place) = self.find(at, hold) {
            self.places.remove(place);
        }
    }

    /// Where a hold stands: at `at` if it does, else at the first place that has it.
    fn find(&self, at: usize, hold: Hold) -> Option<usize>
        ensures there { IfSome result (λ place. held_at self.now place ≡ Some hold) }
        ensures first { held_at self.now at ≡ Some hold → result ≡ Some at }
        ensures absent { IfNone result (¬ (HasHold self.now hold)) }
    {
        match self.places.get(at) {
            Some(held) if *held == hold => Some(at),
            _ => self.search(hold),
        }
    }

    // A place that has a hold, by a look at each.
    fn search(&self, hold: Hold) -> Option<usize>
        ensures there { IfSome result (λ place. held_at self.now place ≡ Some hold) }
        ensures absent { IfNone result (¬ (HasHold self.now hold)) }
    {
        for (place, held) in self.places.iter() {
            if *held == hold {
                return Some(place);
            }
        }
        None
    }
}
