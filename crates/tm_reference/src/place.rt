//! A place of the table.
ghost use Rattle.std.specs.Prelude.{◌≡◌, ◌≢◌, [], ◌∷◌, ◌++◌, true, OnOk, OnErr, IfOk, IfErr, ◌≤◌, ◌<◌, take, drop, vec_capacity};
ghost use Rattle.tm_batch.specs.declared.limits.TheConstants.{MOST_ROOM, MOST_COMPLETIONS};
ghost use Rattle.tm_model.specs.State.{no_place};
ghost use Rattle.tm_reference.specs.Resumed.{IsTold};

use crate::object::ReferenceObject;
use crate::resumed::{Advance, Resumed};
use std::alloc::{AllocError, Global};
use std::marker::Model;
use tm_batch::{Completion, MOST_COMPLETIONS, Name};
use tm_seq::{Entrusted, Event};

/// What a place has: how many of its requests were run, whether it is closed, and the gifts and
/// completions that wait for it.
#[derive(Drop)]
pub(crate) struct ReferencePlace<S: Entrusted> {
    pub(crate) served: u64,
    pub(crate) is_closed: bool,
    pub(crate) gifts: Vec<Name>,
    pub(crate) ready: Vec<Completion<S>>,
}

impl<S: Entrusted> Model for ReferencePlace<S> {
    ghost use Rattle.tm_model.specs.State.{Place};

    ghost Value = { Place S S.Op S.Reply S.Task };

    ghost view = { λ p. record { served = p.served; is_closed = p.is_closed; gifts = p.gifts.items; ready = p.ready.items } };
}

/// What leaves for a place with the answers to a batch.
#[derive(Drop)]
pub struct Leaving<S: Entrusted> {
    /// The gifts, in the order in which they were granted.
    pub gifts: Vec<Name>,
    /// The completions, in the order in which the work ended.
    pub completions: Vec<Completion<S>>,
}

impl<S: Entrusted> ReferencePlace<S> {
    /// A place that nothing came to.
    pub(crate) fn new(alloc: Global) -> ReferencePlace<S>
        ensures { result ≡ no_place }
    {
        ReferencePlace {
            served: 0,
            is_closed: false,
            gifts: Vec::new(alloc),
            ready: Vec::new(alloc),
        }
    }

    /// One more gift waits, the last; or nothing changes for want of memory.
    pub(crate) fn give(&mut self, name: Name) -> Result<(), AllocError>
        ensures ok { OnOk result (self.new ≡ record self.old { gifts = self.old.gifts ++ name ∷ [] }) }
        ensures err { OnErr result (self.new ≡ self.old) }
    {
        self.gifts.push(name)?;
        Ok(())
    }

    /// Closes the place: no gift waits for it any more.
    pub(crate) fn close(&mut self)
        ensures { self.new ≡ record self.old { is_closed = true; gifts = [] } }
    {
        self.is_closed = true;
        self.gifts.clear();
    }

    /// Tells the first launch of an object an event; its completion is ready here where it ends. Or
    /// hands the event back for want of memory.
    pub(crate) fn resume(
        &mut self,
        object: &mut ReferenceObject<S>,
        event: Event<S::Reply>,
    ) -> Result<Resumed<S>, Event<S::Reply>>
        requires { object.old.works ≢ [] }
        ensures ok { IfOk result (IsTold S.kind object.old self.old event object.new self.new) }
        ensures object { OnErr result (object.new ≡ object.old) }
        ensures err { OnErr result (self.new ≡ self.old) }
        ensures back { IfErr result (λ e. e ≡ event) }
    {
        if self.ready.reserve(1).is_err() {
            return Err(event);
        }
        match object.advance(event) {
            Advance::Asks {
                ticket,
                trustee,
                index,
                op,
            } => Ok(Resumed::Asked {
                ticket,
                trustee,
                index,
                op,
            }),
            Advance::Ends { ticket, reply } => {
                // The room was made before.
                self.ready.push(Completion { ticket, reply }).unwrap();
                Ok(Resumed::Ended { ticket })
            }
        }
    }

    /// Takes out what leaves with a batch: the gifts that waited longest, as many as there is room
    /// for, and the
    /// [`MOST_COMPLETIONS`] completions that waited longest. Or nothing changes for want of memory.
    pub(crate) fn send(&mut self, alloc: Global, room: usize) -> Result<Leaving<S>, AllocError>
        requires { room ≤ MOST_ROOM }
        ensures gifts { IfOk result (λ l. l.gifts.items ≡ take room self.old.gifts) }
        ensures completions { IfOk result (λ l. l.completions.items ≡ take MOST_COMPLETIONS self.old.ready) }
        ensures left { OnOk result (self.new ≡ record self.old { gifts = drop room self.old.gifts; ready = drop MOST_COMPLETIONS self.old.ready }) }
        ensures err { OnErr result (self.new ≡ self.old) }
    {
        let mut gifts = Vec::with_capacity(alloc, room)?;
        let mut completions = Vec::with_capacity(alloc, MOST_COMPLETIONS)?;
        move_front(&mut self.gifts, &mut gifts, room);
        move_front(&mut self.ready, &mut completions, MOST_COMPLETIONS);
        Ok(Leaving { gifts, completions })
    }
}

// Moves the first elements over, so many or all if there are fewer. Their room is there.
fn move_front<T: Drop>(items: &mut Vec<T>, taken: &mut Vec<T>, most: usize)
    requires none { taken.old.items ≡ [] }
    requires room { most ≤ vec_capacity taken.old }
    ensures taken { taken.new.items ≡ take most items.old.items }
    ensures left { items.new.items ≡ drop most items.old.items }
{
    for _ in 0..items.len().min(most) {
        taken.push(items.remove(0)).unwrap();
    }
}
