//! Each request's row.
ghost use Rattle.std.specs.Prelude.{◌≡◌};
ghost use Rattle.tm_batch.specs.declared.message.Request.TheVariants.{Entrust, Apply, Launch, Grant, Release, Reclaim, Bye};
ghost use Rattle.tm_state.specs.Asking.{IsServable, HasServed};
ghost use Rattle.tm_state.specs.Launches.{Grows};

use crate::launch::to_begin;
use crate::state::TrusteeState;
use tm_batch::{Answer, Name, Request};
use tm_objects::More;
use tm_seq::Entrusted;

impl<S: Entrusted> TrusteeState<S> {
    /// Serves a request of a place by its row. The counts of requests and entries stay.
    pub(crate) fn serve(&mut self, place: u32, request: Request<S>) -> Answer<S>
        requires { IsServable S.kind place request self.old }
        ensures served { HasServed S.kind place request result self.old self.new }
        ensures run { self.new.run ≡ self.old.run }
        ensures entries { self.new.entries ≡ self.old.entries }
        ensures launched { Grows self.old.launched self.new.launched }
    {
        match request {
            Request::Entrust(value) => self.entrust(place, value),
            Request::Apply(name, op) => self.apply(place, name, op),
            Request::Launch(name, task) => self.launch(place, name, task),
            Request::Grant(name, to) => self.grant(place, name, to),
            Request::Release(name) => self.release(place, name),
            Request::Reclaim(name) => self.reclaim(place, name),
            Request::Bye => self.close(place),
        }
    }

    fn entrust(&mut self, place: u32, value: S) -> Answer<S>
        requires { IsServable S.kind place (Entrust value) self.old }
        ensures served { HasServed S.kind place (Entrust value) result self.old self.new }
        ensures run { self.new.run ≡ self.old.run }
        ensures entries { self.new.entries ≡ self.old.entries }
        ensures launched { self.new.launched ≡ self.old.launched }
    {
        match self.objects.entrust(place, value) {
            Ok(name) => Answer::Entrusted(name),
            Err((refusal, value)) => Answer::NotEntrusted(refusal, value),
        }
    }

    fn apply(&mut self, place: u32, name: Name, op: S::Op) -> Answer<S>
        requires { IsServable S.kind place (Apply name op) self.old }
        ensures served { HasServed S.kind place (Apply name op) result self.old self.new }
        ensures run { self.new.run ≡ self.old.run }
        ensures entries { self.new.entries ≡ self.old.entries }
        ensures launched { self.new.launched ≡ self.old.launched }
    {
        Answer::Replied(self.objects.value_mut(name).run(op))
    }

    fn launch(&mut self, place: u32, name: Name, task: S::Task) -> Answer<S>
        requires { IsServable S.kind place (Launch name task) self.old }
        ensures served { HasServed S.kind place (Launch name task) result self.old self.new }
        ensures run { self.new.run ≡ self.old.run }
        ensures entries { self.new.entries ≡ self.old.entries }
        ensures launched { Grows self.old.launched self.new.launched }
    {
        if self.tickets >= self.config.last_id {
            return Answer::TicketsSpent(task);
        }
        self.tickets += 1;
        let found = self.objects.placed(name);
        self.objects.begin(found);
        self.launches
            .add(to_begin(found, self.tickets, place, task));
        Answer::Launched(self.tickets)
    }

    fn grant(&mut self, place: u32, name: Name, to: u32) -> Answer<S>
        requires { IsServable S.kind place (Grant name to) self.old }
        ensures served { HasServed S.kind place (Grant name to) result self.old self.new }
        ensures run { self.new.run ≡ self.old.run }
        ensures entries { self.new.entries ≡ self.old.entries }
        ensures launched { self.new.launched ≡ self.old.launched }
    {
        if self.closed[to as usize] {
            return Answer::Gone;
        }
        if self.objects.grant(name, to) {
            Answer::Granted
        } else {
            Answer::GiftsFull
        }
    }

    fn release(&mut self, place: u32, name: Name) -> Answer<S>
        requires { IsServable S.kind place (Release name) self.old }
        ensures served { HasServed S.kind place (Release name) result self.old self.new }
        ensures run { self.new.run ≡ self.old.run }
        ensures entries { self.new.entries ≡ self.old.entries }
        ensures launched { self.new.launched ≡ self.old.launched }
    {
        // Whether the object went changes no answer.
        let _ = self.objects.release(name, place);
        Answer::Released
    }

    fn reclaim(&mut self, place: u32, name: Name) -> Answer<S>
        requires { IsServable S.kind place (Reclaim name) self.old }
        ensures served { HasServed S.kind place (Reclaim name) result self.old self.new }
        ensures run { self.new.run ≡ self.old.run }
        ensures entries { self.new.entries ≡ self.old.entries }
        ensures launched { self.new.launched ≡ self.old.launched }
    {
        match self.objects.reclaim(name, place) {
            Ok(value) => Answer::Reclaimed(value),
            Err(More) => Answer::Shared,
        }
    }

    fn close(&mut self, place: u32) -> Answer<S>
        requires { IsServable S.kind place Bye self.old }
        ensures served { HasServed S.kind place Bye result self.old self.new }
        ensures run { self.new.run ≡ self.old.run }
        ensures entries { self.new.entries ≡ self.old.entries }
        ensures launched { self.new.launched ≡ self.old.launched }
    {
        // Nor does how many objects go.
        let _ = self.objects.drop_client(place);
        self.closed[place as usize] = true;
        Answer::ByeDone
    }
}
