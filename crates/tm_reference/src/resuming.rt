//! Launched work goes on.
ghost use Rattle.std.specs.Prelude.{◌≡◌, ◌↔◌, IsTrue, IfOk, IfErr, OnErr, length, slice_index_or, []};
ghost use Rattle.tm_batch.specs.declared.config.Config.{Config};
ghost use Rattle.tm_model.specs.Legal.{IsAwaited};
ghost use Rattle.tm_reference.specs.Parts.{awaits_of};
ghost use Rattle.tm_reference.specs.Resumed.{IsResumed, IsNotResumed};

use crate::live::{keep, position};
use crate::reference_trustee::{IdsAbove, ReferenceTrustee};
use crate::refused::NotResumed;
use crate::resumed::Resumed;
use crate::work::Awaited;
use tm_seq::{Entrusted, Event};

impl<S: Entrusted> ReferenceTrustee<S> {
    /// Resumes the first launch of an object with an event, or hands the event back. It costs a look
    /// at each object.
    pub fn resume(&mut self, id: u64, event: Event<S::Reply>) -> Result<Resumed<S>, NotResumed<S>>
        ensures ok { IfOk result (IsResumed S.kind self.old id event self.new) }
        ensures cause { IfErr result (IsNotResumed S.kind self.old id event) }
        ensures err { OnErr result (self.new ≡ self.old) }
    {
        let Some(at) = position(self.live.as_slice(), id) else {
            return Err(NotResumed::NotLegal(event));
        };
        let object = &mut self.live[at];
        let Some((place, awaited)) = object.first() else {
            return Err(NotResumed::NotLegal(event));
        };
        if !is_awaited(self.number, self.above.as_slice(), awaited, &event) {
            return Err(NotResumed::NotLegal(event));
        }
        let other = &mut self.places[place as usize];
        match other.resume(object, event) {
            Ok(resumed) => {
                keep(&mut self.live);
                Ok(resumed)
            }
            Err(event) => Err(NotResumed::NoMemory(event)),
        }
    }
}

// Whether launched work at a trustee may be told an event next.
fn is_awaited<R>(number: u32, above: &[IdsAbove], awaited: Awaited, event: &Event<R>) -> bool
    ensures { (config : Config) → IsTrue result ↔ IsAwaited (record { config = config; number = number; above = above.now }) (awaits_of awaited) event.now }
{
    match (awaited, event) {
        (Awaited::Begin, Event::Begin) => true,
        (Awaited::Begin, _) => false,
        (Awaited::Told { .. }, Event::Begin) => false,
        (Awaited::Told { trustee, .. }, Event::NotAbove) => trustee <= number,
        (Awaited::Told { trustee, index }, Event::NoObject) => {
            number < trustee && ids_held(above, trustee) <= index as usize
        }
        (Awaited::Told { trustee, index }, Event::Reply(_)) => {
            number < trustee && (index as usize) < ids_held(above, trustee)
        }
    }
}

// How many ids at a trustee are held.
fn ids_held(above: &[IdsAbove], trustee: u32) -> usize
    ensures { result ≡ length (slice_index_or above.now trustee []) }
{
    if (trustee as usize) < above.len() {
        let held = &above[trustee as usize];
        held.ids.len()
    } else {
        0
    }
}
