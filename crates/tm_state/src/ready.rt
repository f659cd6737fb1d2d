//! The completions that are ready.
ghost use Rattle.std.specs.Prelude.{◌≡◌, ◌<◌, [], ◌∷◌, ◌++◌, drop, length, replicate, slice_get, slice_set, slice_index_or, IfOk};
ghost use Rattle.tm_batch.specs.declared.limits.TheConstants.{WINDOW};

use circular_buffer::HeapCircularBuffer;
use std::alloc::{AllocError, Global};
use std::marker::Model;
use tm_batch::{Completion, WINDOW};
use tm_seq::Entrusted;

/// For each place a queue of the completions that are ready, with room for all that may be.
#[derive(Drop)]
pub(crate) struct Ready<S: Entrusted> {
    queues: Vec<HeapCircularBuffer<Completion<S>>>,
}

impl<S: Entrusted> Model for Ready<S> {
    ghost use Rattle.std.specs.Prelude.{◌≡◌, List, map, All};
    ghost use Rattle.std.specs.Coded.{coded_list};
    ghost use Rattle.tm_batch.specs.declared.limits.TheConstants.{WINDOW};
    ghost use Rattle.tm_batch.specs.declared.message.Completion.{Completion};
    ghost use Rattle.tm_state.specs.StateView.{completion_code};

    ghost Value = { List (List (Completion S S.Op S.Reply S.Task)) };

    ghost coded = { coded_list (coded_list (completion_code S.Reply.code)) };

    ghost view = { λ a. map (λ q. q.items) a.queues.items };

    ghost invariant = { λ a. All (λ n. n ≡ WINDOW) (map (λ q. q.capacity) a.queues.items) };
}

impl<S: Entrusted> Ready<S> {
    /// No completion is ready.
    pub(crate) fn new(alloc: Global, places: usize) -> Result<Ready<S>, AllocError>
        ensures { IfOk result (λ a. a ≡ replicate places []) }
    {
        let mut queues = Vec::with_capacity(alloc, places)?;
        for _ in 0..places {
            queues.push_reserved(HeapCircularBuffer::with_capacity(alloc, WINDOW)?);
        }
        Ok(Ready { queues })
    }

    /// Lets a completion wait for its place, behind those that do.
    pub(crate) fn push(&mut self, place: u32, completion: Completion<S>)
        requires place { place < length self.old }
        requires room { length (slice_index_or self.old place []) < WINDOW }
        ensures { self.new ≡ slice_set self.old place (slice_index_or self.old place [] ++ completion ∷ []) }
    {
        let _ = self.queues[place as usize].try_push_back(completion);
    }

    /// How many completions are ready for a place.
    pub(crate) fn count(&self, place: u32) -> usize
        requires { place < length self.now }
        ensures { result ≡ length (slice_index_or self.now place []) }
    {
        self.queues[place as usize].len()
    }

    /// Takes the completion that waited longest for a place, if one does.
    pub(crate) fn take(&mut self, place: u32) -> Option<Completion<S>>
        requires { place < length self.old }
        ensures completion { result ≡ slice_get (slice_index_or self.old place []) 0 }
        ensures taken { self.new ≡ slice_set self.old place (drop 1 (slice_index_or self.old place [])) }
    {
        self.queues[place as usize].pop_front()
    }
}
