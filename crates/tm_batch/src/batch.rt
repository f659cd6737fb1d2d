//! A batch of requests.
ghost use Rattle.std.specs.Prelude.{◌≡◌, ◌≤◌, ◌<◌, ◌↔◌, [], ◌∷◌, ◌++◌, length, IsOk, IsTrue, OnOk, OnErr, IfErr, MatchOption};
ghost use Rattle.tm_batch.specs.declared.limits.TheConstants.{MOST_REQUESTS, MOST_ROOM};

use crate::limits::MOST_REQUESTS;
use crate::message::Request;
use arrayvec::ArrayVec;
use std::marker::Model;
use tm_seq::Entrusted;

/// How many gifts can come with answers, at most [`MOST_ROOM`](crate::MOST_ROOM). Contracts see the
/// number.
#[derive(Drop)]
pub struct Room {
    gifts: u32,
}

impl Model for Room {
    ghost use Rattle.std.specs.Prelude.{ℕ, ◌≤◌};
    ghost use Rattle.tm_batch.specs.declared.limits.TheConstants.{MOST_ROOM};

    ghost Value = { ℕ };

    ghost view = { λ r. r.gifts };

    ghost invariant = { λ r. r.gifts ≤ MOST_ROOM };
}

impl Room {
    /// Room for so many gifts.
    pub fn new(gifts: u32) -> Room
        requires { gifts ≤ MOST_ROOM }
        ensures { result ≡ gifts }
    {
        Room { gifts }
    }

    /// For how many.
    pub fn gifts(&self) -> u32
        ensures value { result ≡ self.now }
        ensures most { result ≤ MOST_ROOM }
    {
        self.gifts
    }
}

/// At most [`MOST_REQUESTS`] requests in order, with their room: how many gifts the sender can take
/// with the answers.
#[derive(Drop)]
pub struct Batch<S: Entrusted> {
    /// The requests.
    pub requests: ArrayVec<Request<S>, MOST_REQUESTS>,
    /// The room.
    pub room: Room,
}

impl<S: Entrusted> Batch<S> {
    /// An empty batch.
    pub fn new(room: u32) -> Batch<S>
        requires { room ≤ MOST_ROOM }
        ensures requests { result.requests.items ≡ [] }
        ensures room { result.room ≡ room }
    {
        Batch {
            requests: ArrayVec::new(),
            room: Room::new(room),
        }
    }

    /// Appends a request, or hands it back where [`MOST_REQUESTS`] are there.
    pub fn push(&mut self, request: Request<S>) -> Result<(), Request<S>>
        ensures free { IsOk result ↔ (length self.old.requests.items < MOST_REQUESTS) }
        ensures ok { OnOk result (self.new.requests.items ≡ self.old.requests.items ++ request ∷ []) }
        ensures full { OnErr result (length self.old.requests.items ≡ MOST_REQUESTS) }
        ensures err { OnErr result (self.new ≡ self.old) }
        ensures back { IfErr result (λ r. r ≡ request) }
        ensures room { self.new.room ≡ self.old.room }
    {
        if self.requests.is_full() {
            return Err(request);
        }
        self.requests.push(request);
        Ok(())
    }

    /// How many requests there are.
    pub fn len(&self) -> usize
        ensures value { result ≡ length self.now.requests.items }
        ensures most { result ≤ MOST_REQUESTS }
    {
        self.requests.len()
    }

    /// Whether there is no request.
    pub fn is_empty(&self) -> bool
        ensures { IsTrue result ↔ (self.now.requests.items ≡ []) }
    {
        self.requests.is_empty()
    }

    /// How many gifts may come with the answers.
    pub fn room(&self) -> u32
        ensures value { result ≡ self.now.room }
        ensures most { result ≤ MOST_ROOM }
    {
        self.room.gifts()
    }

    /// Takes the first request out, if there is one, and moves the others one place down.
    pub fn take_first(&mut self) -> Option<Request<S>>
        ensures first { MatchOption result ((self.old.requests.items ≡ []) × (self.new ≡ self.old)) (λ r. self.old.requests.items ≡ r ∷ self.new.requests.items) }
        ensures room { self.new.room ≡ self.old.room }
    {
        if self.requests.is_empty() {
            return None;
        }
        Some(self.requests.remove(0))
    }
}
