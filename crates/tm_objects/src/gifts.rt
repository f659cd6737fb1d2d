//! The gifts that wait.
ghost use Rattle.std.specs.Prelude.{◌≡◌, ◌<◌, ◌≤◌, ◌↔◌, [], ◌∷◌, ◌++◌, drop, length, All, replicate, slice_get, slice_set, IsTrue, IfOk};
ghost use Rattle.tm_batch.specs.declared.limits.TheConstants.{MOST_GIFTS};
ghost use Rattle.tm_objects.specs.Stock.{gifts_of};

use circular_buffer::HeapCircularBuffer;
use std::alloc::{AllocError, Global};
use std::marker::Model;
use tm_batch::{MOST_GIFTS, Name};

/// A queue of gifts for each place, with room for all that may wait.
#[derive(Drop)]
pub struct GiftQueues {
    queues: Vec<HeapCircularBuffer<Name>>,
}

impl Model for GiftQueues {
    ghost use Rattle.std.specs.Prelude.{◌≡◌, ◌≤◌, List, length, map, All};
    ghost use Rattle.tm_batch.specs.declared.limits.TheConstants.{MOST_GIFTS};
    ghost use Rattle.tm_batch.specs.declared.message.Name.{Name};

    ghost Value = { List (List Name) };

    ghost view = { λ a. map (λ q. q.items) a.queues.items };

    ghost invariant = { λ a. All (λ n. n ≡ MOST_GIFTS) (map (λ q. q.capacity) a.queues.items) × All (λ gifts. length gifts ≤ MOST_GIFTS) (map (λ q. q.items) a.queues.items) };
}

impl GiftQueues {
    /// No gift waits.
    pub fn new(alloc: Global, places: u32) -> Result<GiftQueues, AllocError>
        ensures { IfOk result (λ a. a ≡ replicate places []) }
    {
        let mut queues = Vec::with_capacity(alloc, places as usize)?;
        for _ in 0..places {
            queues.push_reserved(HeapCircularBuffer::with_capacity(alloc, MOST_GIFTS)?);
        }
        Ok(GiftQueues { queues })
    }

    /// At most [`MOST_GIFTS`] gifts wait for each place. Nothing runs.
    pub fn known(&self)
        ensures { All (λ gifts. length gifts ≤ MOST_GIFTS) self.now }
    {
        let _queues = &self.queues;
    }

    /// Whether no further gift may wait for a place.
    pub fn is_full(&self, place: u32) -> bool
        requires { place < length self.now }
        ensures { IsTrue result ↔ (MOST_GIFTS ≤ length (gifts_of self.now place)) }
    {
        self.queues[place as usize].len() >= MOST_GIFTS
    }

    /// Lets a gift wait, behind those that do.
    pub fn push(&mut self, place: u32, gift: Name)
        requires place { place < length self.old }
        requires room { length (gifts_of self.old place) < MOST_GIFTS }
        ensures { self.new ≡ slice_set self.old place (gifts_of self.old place ++ gift ∷ []) }
    {
        let _ = self.queues[place as usize].try_push_back(gift);
    }

    /// Takes the gift that waited longest for a place, if one does.
    pub fn take(&mut self, place: u32) -> Option<Name>
        requires { place < length self.old }
        ensures gift { result ≡ slice_get (gifts_of self.old place) 0 }
        ensures taken { self.new ≡ slice_set self.old place (drop 1 (gifts_of self.old place)) }
    {
        self.queues[place as usize].pop_front()
    }

    /// Lets all gifts of a place go.
    pub fn clear(&mut self, place: u32)
        requires { place < length self.old }
        ensures { self.new ≡ slice_set self.old place [] }
    {
        self.queues[place as usize].clear();
    }
}
