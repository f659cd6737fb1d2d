//! One entrusted object.
ghost use Rattle.std.specs.Prelude.{◌≡◌, ◌+◌, ◌-◌, ◌<◌, ◌≤◌, ◌^◌, ◌∷◌, length, sum, slice_set};
ghost use Rattle.std.specs.Borrow.{Lends, sem};
ghost use Rattle.tm_batch.specs.declared.limits.TheConstants.{MOST_HOLDS};
ghost use Rattle.tm_objects.specs.Live.{holds_of, total, with_holds, with_launches, with_value};

use std::marker::Model;

/// An object with the holds on it.
#[derive(Drop)]
pub struct Entry<V> {
    id: u64,
    value: V,
    // How many holds each place has.
    holds: Vec<u32>,
    launches: u64,
    // The sum of the holds, and the launches.
    total: u64,
}

impl<V> Model for Entry<V> {
    ghost use Rattle.std.specs.Prelude.{◌≡◌, ◌+◌, sum};
    ghost use Rattle.tm_objects.specs.Live.{Live, live_code};

    ghost Value = { Live V };

    ghost coded = { live_code V.code };

    ghost view = { λ e. record { id = e.id; value = e.value; holds = e.holds.items; launches = e.launches } };

    ghost invariant = { λ e. e.total ≡ sum e.holds.items + e.launches };
}

impl<V> Entry<V> {
    ghost use Rattle.tm_objects.specs.contracts.entry.Entry.{the_row};

    /// An object that no place holds. `holds` has a 0 for each place.
    pub fn new(id: u64, value: V, holds: Vec<u32>) -> Entry<V>
        requires { sum holds.items ≡ 0 }
        ensures { result ≡ record { id = id; value = value; holds = holds.items; launches = 0 } }
    {
        Entry {
            id,
            value,
            holds,
            launches: 0,
            total: 0,
        }
    }

    /// The object's number.
    pub fn id(&self) -> u64
        ensures { result ≡ self.now.id }
    {
        self.id
    }

    /// How many holds a place has.
    pub fn count(&self, place: usize) -> u32
        requires { place < length self.now.holds }
        ensures { result ≡ holds_of self.now place }
    {
        self.holds[place]
    }

    /// All holds, launches included.
    pub fn total(&self) -> u64
        ensures { result ≡ total self.now }
    {
        self.total
    }

    /// Adds a hold of a place.
    pub fn add_hold(&mut self, place: usize)
        requires place { place < length self.old.holds }
        requires count { holds_of self.old place < MOST_HOLDS }
        requires total { total self.old < 18446744073709551615 }
        ensures { self.new ≡ with_holds place (holds_of self.old place + 1) self.old }
    {
        self.holds[place] += 1;
        self.total += 1;
    }

    /// Takes a hold of a place away.
    pub fn take_hold(&mut self, place: usize)
        requires place { place < length self.old.holds }
        requires count { 1 ≤ holds_of self.old place }
        ensures { self.new ≡ with_holds place (holds_of self.old place - 1) self.old }
    {
        self.holds[place] -= 1;
        self.total -= 1;
    }

    /// Takes all holds of a place away.
    pub fn take_holds(&mut self, place: usize)
        requires { place < length self.old.holds }
        ensures { self.new ≡ with_holds place 0 self.old }
    {
        self.total -= u64::from(self.holds[place]);
        self.holds[place] = 0;
    }

    /// Adds an unfinished launch.
    pub fn begin(&mut self)
        requires { total self.old < 18446744073709551615 }
        ensures { self.new ≡ with_launches (self.old.launches + 1) self.old }
    {
        self.launches += 1;
        self.total += 1;
    }

    /// Takes an unfinished launch away.
    pub fn finish(&mut self)
        requires { 1 ≤ self.old.launches }
        ensures { self.new ≡ with_launches (self.old.launches - 1) self.old }
    {
        self.launches -= 1;
        self.total -= 1;
    }

    /// The value.
    pub fn value_mut(&mut self) -> &mut V
        ensures* writes_back { sem 𝓛 (Lends (the_row V.row) V.row self.entry result (λ w. with_value w self.old)) }
        ensures value { result.now ≡ self.old.value }
    {
        &mut self.value
    }

    /// The value, and the counts of the places.
    pub fn into_parts(self) -> (V, Vec<u32>)
        ensures value { result.0 ≡ self.value }
        ensures holds { result.1.items ≡ self.holds }
    {
        (self.value, self.holds)
    }
}
