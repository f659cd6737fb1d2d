//! The launches that have not ended.
ghost use Rattle.std.specs.Prelude.{◌≡◌, ◌<◌, [], ◌∷◌, ◌++◌, length, None, Some, IfOk, IfSome, IfNone, IsSome};
ghost use Rattle.tm_latch.specs.Tickets.{first_of, with_first, without_first};
ghost use Rattle.tm_model.specs.State.{Start};
ghost use Rattle.tm_state.specs.Launches.{Begins, BeginsBut};

use crate::launch::{Launch, Waiting};
use circular_buffer::HeapCircularBuffer;
use std::alloc::{AllocError, Global};
use std::marker::Model;
use tm_latch::{Entered, Latches};
use tm_seq::Entrusted;

/// The launches that have not ended. Of each object one runs, and the others wait in order.
///
/// The task of one that has begun and awaits a reply is in other hands.
#[derive(Drop)]
pub(crate) struct Launches<S: Entrusted> {
    latches: Latches<Waiting<S>>,
    // The first of each object that has not begun.
    begins: HeapCircularBuffer<Launch<S>>,
}

impl<S: Entrusted> Model for Launches<S> {
    ghost use Rattle.std.specs.Prelude.{◌≡◌, ◌≤◌, length};
    ghost use Rattle.tm_state.specs.Launches.{Latched, latched_code, AreFirst, AreBehind};

    ghost Value = { Latched S.Task };

    ghost coded = { latched_code S.Task.code };

    ghost view = { λ a. record { launched = a.latches.tickets; begins = a.begins.items; room = a.latches.room } };

    ghost invariant = { λ a. AreFirst a.latches.tickets a.begins.items × AreBehind a.latches.tickets × (a.begins.capacity ≡ a.latches.room) × (length a.latches.tickets ≤ a.latches.room) };
}

impl<S: Entrusted> Launches<S> {
    /// None, with room for `room` of them.
    pub(crate) fn new(alloc: Global, room: u32) -> Result<Launches<S>, AllocError>
        ensures { IfOk result (λ a. a ≡ record { launched = []; begins = []; room = room }) }
    {
        Ok(Launches {
            latches: Latches::new(alloc, room)?,
            begins: HeapCircularBuffer::with_capacity(alloc, room as usize)?,
        })
    }

    /// Lets a launch wait behind all others of its object. Where there is none it may begin.
    pub(crate) fn add(&mut self, launch: Launch<S>)
        requires room { length self.old.launched < self.old.room }
        requires begin { launch.task.awaits ≡ Start }
        ensures launched { self.new.launched ≡ self.old.launched ++ launch ∷ [] }
        ensures room { self.new.room ≡ self.old.room }
        ensures begins { Begins self.old.launched self.old.begins → Begins self.new.launched self.new.begins }
    {
        let Launch {
            id,
            ticket,
            waiting,
        } = launch;
        if let Entered::Running(waiting) = self.latches.enter(id, ticket, waiting) {
            let _ = self.begins.try_push_back(Launch {
                id,
                ticket,
                waiting,
            });
        }
    }

    /// Hands out a launch that may begin, if there is one.
    pub(crate) fn next(&mut self) -> Option<Launch<S>>
        ensures none { IfNone result (self.old.begins ≡ []) }
        ensures same { IfNone result (self.new ≡ self.old) }
        ensures first { IfSome result (λ l. first_of l.id self.old.launched ≡ Some l) }
        ensures begin { IfSome result (λ l. l.task.awaits ≡ Start) }
        ensures gone { IfSome result (λ l. first_of l.id self.new.begins ≡ None) }
        ensures launched { self.new.launched ≡ self.old.launched }
        ensures room { self.new.room ≡ self.old.room }
        ensures begins { IfSome result (λ l. Begins self.old.launched self.old.begins → BeginsBut l.id self.new.launched self.new.begins) }
    {
        self.begins.pop_front()
    }

    /// A launch that has begun is none of those that may begin. Nothing runs.
    pub(crate) fn known(&self, launch: &Launch<S>)
        requires first { first_of launch.now.id self.now.launched ≡ Some launch.now }
        requires begun { launch.now.task.awaits ≡ Start → ⊥ }
        ensures { first_of launch.now.id self.now.begins ≡ None }
    {
        let (_begins, _launch) = (&self.begins, launch);
    }

    /// A launch that was handed out goes on as it is now. Nothing runs.
    pub(crate) fn goes_on(&mut self, launch: &Launch<S>)
        requires first { IsSome (first_of launch.now.id self.old.launched) }
        requires gone { first_of launch.now.id self.old.begins ≡ None }
        requires begun { launch.now.task.awaits ≡ Start → ⊥ }
        ensures launched { self.new.launched ≡ with_first launch.now.id launch.now.task self.old.launched }
        ensures room { self.new.room ≡ self.old.room }
        ensures begins { BeginsBut launch.now.id self.old.launched self.old.begins → Begins self.new.launched self.new.begins }
    {
        self.latches.goes_on(launch.id, &launch.waiting);
    }

    /// The launch of an object that was handed out ends. The next of the object may begin.
    pub(crate) fn end(&mut self, id: u64)
        requires first { IsSome (first_of id self.old.launched) }
        requires gone { first_of id self.old.begins ≡ None }
        ensures launched { self.new.launched ≡ without_first id self.old.launched }
        ensures room { self.new.room ≡ self.old.room }
        ensures begins { BeginsBut id self.old.launched self.old.begins → Begins self.new.launched self.new.begins }
    {
        if let Some((ticket, waiting)) = self.latches.leave(id) {
            let _ = self.begins.try_push_back(Launch {
                id,
                ticket,
                waiting,
            });
        }
    }
}
