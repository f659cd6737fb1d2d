//! Each request's row.
ghost use Rattle.std.specs.Prelude.{◌≡◌, ◌<◌, length, slice_set, IfOk};
ghost use Rattle.std.proofs.Math.ListN.{replicate};
ghost use Rattle.tm_batch.specs.declared.message.Request.TheVariants.{Entrust, Apply, Launch, Grant, Release, Reclaim, Bye};
ghost use Rattle.tm_model.specs.Serve.{closed};
ghost use Rattle.tm_reference.specs.Served.{IsServed};
ghost use Rattle.tm_batch.specs.declared.message.Answer.TheVariants.{ByeDone};

use crate::live::{drop_holds, held_at, keep};
use crate::object::ReferenceObject;
use crate::reference_trustee::ReferenceTrustee;
use crate::refused::NotServed;
use crate::work::ReferenceWork;
use std::alloc::{AllocError, Global};
use tm_batch::{Answer, MOST_GIFTS, MOST_HOLDS, Name, Refusal, Request};
use tm_seq::Entrusted;

impl<S: Entrusted> ReferenceTrustee<S> {
    pub(crate) fn entrust(
        &mut self,
        alloc: Global,
        place: u32,
        value: S,
    ) -> Result<Answer<S>, NotServed<S>>
        requires { place < length self.old.places }
        ensures { IsServed S.kind self.old place (Entrust value) result self.new }
    {
        if self.live.len() >= self.config.objects as usize {
            return Ok(Answer::NotEntrusted(Refusal::ObjectsFull, value));
        }
        if self.ids >= self.config.last_id {
            return Ok(Answer::NotEntrusted(Refusal::SerialsSpent, value));
        }
        let Ok(holds) = one_hold(alloc, self.places.len(), place) else {
            return Err(NotServed::NoMemory(Request::Entrust(value)));
        };
        let id = self.ids + 1;
        let object = ReferenceObject {
            id,
            value,
            holds,
            works: Vec::new(alloc),
        };
        if let Err(back) = self.live.push(object) {
            return Err(NotServed::NoMemory(Request::Entrust(back.value.value)));
        }
        self.ids = id;
        Ok(Answer::Entrusted(Name { id, place: 0 }))
    }

    pub(crate) fn apply(
        &mut self,
        place: u32,
        name: Name,
        op: S::Op,
    ) -> Result<Answer<S>, NotServed<S>>
        ensures { IsServed S.kind self.old place (Apply name op) result self.new }
    {
        let Some(at) = held_at(self.live.as_slice(), place, name.id) else {
            return Err(NotServed::NotLegal(Request::Apply(name, op)));
        };
        let object = &mut self.live[at];
        Ok(Answer::Replied(object.run(op)))
    }

    pub(crate) fn launch(
        &mut self,
        place: u32,
        name: Name,
        task: S::Task,
    ) -> Result<Answer<S>, NotServed<S>>
        requires { place < length self.old.places }
        ensures { IsServed S.kind self.old place (Launch name task) result self.new }
    {
        let Some(at) = held_at(self.live.as_slice(), place, name.id) else {
            return Err(NotServed::NotLegal(Request::Launch(name, task)));
        };
        if self.tickets >= self.config.last_id {
            return Ok(Answer::TicketsSpent(task));
        }
        let ticket = self.tickets + 1;
        let object = &mut self.live[at];
        if let Err(task) = object.launch(place, ticket, task) {
            return Err(NotServed::NoMemory(Request::Launch(name, task)));
        }
        self.tickets = ticket;
        Ok(Answer::Launched(ticket))
    }

    pub(crate) fn grant(
        &mut self,
        place: u32,
        name: Name,
        to: u32,
    ) -> Result<Answer<S>, NotServed<S>>
        ensures { IsServed S.kind self.old place (Grant name to) result self.new }
    {
        let Some(at) = held_at(self.live.as_slice(), place, name.id) else {
            return Err(NotServed::NotLegal(Request::Grant(name, to)));
        };
        if to >= self.config.clients {
            return Err(NotServed::NotLegal(Request::Grant(name, to)));
        }
        let other = &mut self.places[to as usize];
        if other.is_closed {
            return Ok(Answer::Gone);
        }
        let object = &mut self.live[at];
        let holds = object.holds_of(to);
        if other.gifts.len() >= MOST_GIFTS || holds == MOST_HOLDS {
            return Ok(Answer::GiftsFull);
        }
        let Ok(()) = other.give(name) else {
            return Err(NotServed::NoMemory(Request::Grant(name, to)));
        };
        object.set_holds(to, holds + 1);
        Ok(Answer::Granted)
    }

    pub(crate) fn release(&mut self, place: u32, name: Name) -> Result<Answer<S>, NotServed<S>>
        ensures { IsServed S.kind self.old place (Release name) result self.new }
    {
        let Some(at) = held_at(self.live.as_slice(), place, name.id) else {
            return Err(NotServed::NotLegal(Request::Release(name)));
        };
        let object = &mut self.live[at];
        let holds = object.holds_of(place);
        object.set_holds(place, holds - 1);
        keep(&mut self.live);
        Ok(Answer::Released)
    }

    pub(crate) fn reclaim(&mut self, place: u32, name: Name) -> Result<Answer<S>, NotServed<S>>
        ensures { IsServed S.kind self.old place (Reclaim name) result self.new }
    {
        let Some(at) = held_at(self.live.as_slice(), place, name.id) else {
            return Err(NotServed::NotLegal(Request::Reclaim(name)));
        };
        let object = &self.live[at];
        if !object.is_last() {
            return Ok(Answer::Shared);
        }
        let object = self.live.remove(at);
        Ok(Answer::Reclaimed(object.value))
    }

    pub(crate) fn close(&mut self, place: u32) -> Answer<S>
        requires { place < length self.old.places }
        ensures answer { result ≡ ByeDone }
        ensures closed { self.new ≡ closed place self.old }
    {
        drop_holds(self.live.as_mut_slice(), place);
        keep(&mut self.live);
        let at = &mut self.places[place as usize];
        at.close();
        Answer::ByeDone
    }
}

// No hold of any place but one of one place.
fn one_hold(alloc: Global, places: usize, place: u32) -> Result<Vec<u32>, AllocError>
    ensures { IfOk result (λ holds. holds.items ≡ slice_set (replicate places 0) place 1) }
{
    let mut holds = Vec::new(alloc);
    holds.resize(places, 0)?;
    if (place as usize) < places {
        holds[place as usize] = 1;
    }
    Ok(holds)
}
