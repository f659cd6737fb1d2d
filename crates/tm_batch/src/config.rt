//! How large a runtime is, and what it begins with.
ghost use Rattle.std.specs.Prelude.{◌≡◌};

use std::marker::Model;

/// How large a runtime may grow.
///
/// Places 0 to `clients - 1` are the clients. Place `clients + t` is trustee `t`, where it asks a
/// trustee of a greater number.
#[derive(Debug, Clone, Copy, PartialEq, Eq)]
pub struct Config {
    /// The number of clients, 1 to [`MOST_CLIENTS`](crate::MOST_CLIENTS).
    pub clients: u32,
    /// The number of trustees, [`FEWEST_TRUSTEES`](crate::FEWEST_TRUSTEES) to
    /// [`MOST_TRUSTEES`](crate::MOST_TRUSTEES).
    pub trustees: u32,
    /// The most objects that are live at one trustee, 1 to [`MOST_OBJECTS`](crate::MOST_OBJECTS).
    pub objects: u32,
    /// The most trusts that one client holds, 1 to [`MOST_TRUSTS`](crate::MOST_TRUSTS).
    pub trusts: u32,
    /// The greatest id and the greatest ticket that a trustee gives out, at least 1.
    pub last_id: u64,
}

/// The places that hold an object at first. Contracts see them as a list.
#[derive(Drop)]
pub struct Holders {
    places: Vec<u32>,
}

impl Model for Holders {
    ghost use Rattle.std.specs.Prelude.{ℕ, List};

    ghost Value = { List ℕ };

    ghost view = { λ h. h.places.items };
}

impl Holders {
    /// These places.
    pub fn new(places: Vec<u32>) -> Holders
        ensures { result ≡ places.items }
    {
        Holders { places }
    }

    /// The places, in order.
    pub fn places(&self) -> &[u32]
        ensures { result.now ≡ self.now }
    {
        self.places.as_slice()
    }
}

/// An object that is entrusted before anything runs.
#[derive(Drop)]
pub struct First<S> {
    /// The number of the trustee that it is placed on.
    pub trustee: u32,
    /// The object.
    pub value: S,
    /// The places that hold it at first.
    pub holders: Holders,
}
