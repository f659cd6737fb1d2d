//! Answers leave.
ghost use Rattle.std.specs.Prelude.{◌≡◌, IfOk, IfErr, OnOk, OnErr};
ghost use Rattle.tm_model.specs.declared.entry.Entry.TheVariants.{Sent};
ghost use Rattle.tm_model.specs.Serve.{after};
ghost use Rattle.tm_model.specs.Legal.{MayCome};
ghost use Rattle.tm_reference.specs.Leaves.{AreLeaving, IsNotSent};

use crate::place::Leaving;
use crate::reference_trustee::ReferenceTrustee;
use crate::refused::NotSent;
use std::alloc::Global;
use tm_batch::MOST_ROOM;
use tm_seq::Entrusted;

impl<S: Entrusted> ReferenceTrustee<S> {
    /// Lets the answers to a batch of a place leave, with what waits for it: at most `room` gifts, and
    /// at most [`MOST_COMPLETIONS`](tm_batch::MOST_COMPLETIONS) completions.
    pub fn send(&mut self, alloc: Global, place: u32, room: u32) -> Result<Leaving<S>, NotSent>
        ensures may { OnOk result (MayCome S.kind self.old (Sent place room)) }
        ensures leaves { IfOk result (AreLeaving self.old place room) }
        ensures after { OnOk result (self.new ≡ after S.kind self.old (Sent place room)) }
        ensures cause { IfErr result (IsNotSent S.kind self.old place room) }
        ensures err { OnErr result (self.new ≡ self.old) }
    {
        if place as usize >= self.places.len() {
            return Err(NotSent::NotLegal);
        }
        if room > MOST_ROOM {
            return Err(NotSent::NotLegal);
        }
        let at = &mut self.places[place as usize];
        let Ok(leaving) = at.send(alloc, room as usize) else {
            return Err(NotSent::NoMemory);
        };
        Ok(leaving)
    }
}
