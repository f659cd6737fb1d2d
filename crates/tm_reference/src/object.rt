//! A live object.
ghost use Rattle.std.specs.Prelude.{◌≡◌, ◌≢◌, [], ◌^◌, ◌-◌, ◌==◌, ◌↔◌, IsTrue, min, OnOk, OnErr, IfErr};
ghost use Rattle.tm_model.specs.State.{Start, holds_of, with_holds, total};
ghost use Rattle.tm_seq.specs.Kind.{IsRun};
ghost use Rattle.tm_reference.specs.Live.{with_work};
ghost use Rattle.tm_reference.specs.Resumed.{IsFirst, IsAdvanced};

use crate::resumed::Advance;
use crate::work::{Awaited, ReferenceWork};
use std::marker::Model;
use tm_seq::{Entrusted, Event, Next};

/// A live object: its id, its value, the holds of each place, and its unfinished launches in order.
#[derive(Drop)]
pub(crate) struct ReferenceObject<S: Entrusted> {
    pub(crate) id: u64,
    pub(crate) value: S,
    pub(crate) holds: Vec<u32>,
    pub(crate) works: Vec<ReferenceWork<S>>,
}

impl<S: Entrusted> Model for ReferenceObject<S> {
    ghost use Rattle.tm_model.specs.State.{Object};

    ghost Value = { Object S S.Task };

    ghost view = { λ o. record { id = o.id; value = o.value; holds = o.holds.items; works = o.works.items } };
}

impl<S: Entrusted> ReferenceObject<S> {
    /// The holds of a place.
    pub(crate) fn holds_of(&self, place: u32) -> u32
        ensures { result ≡ holds_of self.now place }
    {
        match self.holds.get(place as usize) {
            Some(holds) => *holds,
            None => 0,
        }
    }

    /// Gives a place so many holds.
    pub(crate) fn set_holds(&mut self, place: u32, holds: u32)
        ensures { self.new ≡ with_holds place holds self.old }
    {
        if (place as usize) < self.holds.len() {
            self.holds[place as usize] = holds;
        }
    }

    /// All holds, and the unfinished launches; or the greatest number, where that is less.
    pub(crate) fn total(&self) -> u64
        ensures { result ≡ min (total self.now) (2 ^ 64 - 1) }
    {
        let mut sum = self.works.len() as u64;
        for holds in self.holds.as_slice() {
            sum = sum.saturating_add(u64::from(*holds));
        }
        sum
    }

    /// Runs an operation on the value.
    pub(crate) fn run(&mut self, op: S::Op) -> S::Reply
        ensures lawful { IsRun S.kind self.old.value op self.new.value result }
        ensures value { self.new ≡ record self.old { value = self.new.value } }
    {
        self.value.run(op)
    }

    /// Launches work, as the last; or hands the task back for want of memory.
    pub(crate) fn launch(&mut self, place: u32, ticket: u64, task: S::Task) -> Result<(), S::Task>
        ensures ok { OnOk result (self.new ≡ with_work (record { place = place; ticket = ticket; task = task; awaits = Start }) self.old) }
        ensures err { OnErr result (self.new ≡ self.old) }
        ensures back { IfErr result (λ t. t ≡ task) }
    {
        match self.works.push(ReferenceWork::new(place, ticket, task)) {
            Ok(()) => Ok(()),
            Err(back) => Err(back.value.task),
        }
    }

    /// The place and what it awaits of the first launch, if there is one.
    pub(crate) fn first(&self) -> Option<(u32, Awaited)>
        ensures { IsFirst self.now.works result }
    {
        if self.works.is_empty() {
            return None;
        }
        let work = &self.works[0];
        Some((work.place, work.awaited))
    }

    /// Tells the first launch an event. It goes on as the first, or leaves.
    pub(crate) fn advance(&mut self, event: Event<S::Reply>) -> Advance<S>
        requires { self.old.works ≢ [] }
        ensures { IsAdvanced S.kind self.old event self.new result }
    {
        let work = self.works.remove(0);
        let place = work.place;
        let ticket = work.ticket;
        match self.value.resume(work.task, event) {
            Next::Ask {
                trustee,
                index,
                op,
                task,
            } => {
                let awaited = Awaited::Told { trustee, index };
                let work = ReferenceWork {
                    place,
                    ticket,
                    task,
                    awaited,
                };
                // Its room is still there.
                self.works.insert(0, work).unwrap();
                Advance::Asks {
                    ticket,
                    trustee,
                    index,
                    op,
                }
            }
            Next::Done { reply } => Advance::Ends { ticket, reply },
        }
    }

    /// Whether no hold and no launch is left.
    pub(crate) fn is_gone(&self) -> bool
        ensures { result ≡ (total self.now == 0) }
    {
        self.total() == 0
    }

    /// Whether one hold or one launch is left.
    pub(crate) fn is_last(&self) -> bool
        ensures { IsTrue result ↔ (total self.now ≡ 1) }
    {
        self.total() == 1
    }
}
