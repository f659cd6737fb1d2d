//! The reference trustee.
ghost use Rattle.std.specs.Prelude.{◌≡◌, ◌<◌, ◌^◌, ◌-◌, length, IfOk, IfErr, OnErr};
ghost use Rattle.tm_model.specs.declared.entry.Entry.TheVariants.{By};
ghost use Rattle.tm_model.specs.State.{place_of};
ghost use Rattle.tm_model.specs.Serve.{after, counted};
ghost use Rattle.tm_model.specs.Legal.{MayCome};
ghost use Rattle.tm_reference.specs.Served.{IsServed, IsNotServed};

use crate::object::ReferenceObject;
use crate::place::ReferencePlace;
use crate::refused::NotServed;
use std::alloc::Global;
use std::marker::Model;
use tm_batch::{Answer, Config, Request};
use tm_seq::Entrusted;

/// The ids at one trustee that another holds at first. Contracts see them as a list.
#[derive(Drop)]
pub(crate) struct IdsAbove {
    pub(crate) ids: Vec<u64>,
}

impl Model for IdsAbove {
    ghost use Rattle.std.specs.Prelude.{ℕ, List};

    ghost Value = { List ℕ };

    ghost view = { λ a. a.ids.items };
}

/// A trustee's state, with all that the rules know of it. Contracts see it as that state.
#[derive(Drop)]
pub struct ReferenceTrustee<S: Entrusted> {
    pub(crate) config: Config,
    pub(crate) number: u32,
    pub(crate) above: Vec<IdsAbove>,
    // How many ids and how many tickets were given out.
    pub(crate) ids: u64,
    pub(crate) tickets: u64,
    pub(crate) places: Vec<ReferencePlace<S>>,
    pub(crate) live: Vec<ReferenceObject<S>>,
}

impl<S: Entrusted> Model for ReferenceTrustee<S> {
    ghost use Rattle.std.specs.Prelude.{◌+◌};
    ghost use Rattle.tm_model.specs.State.{State};
    ghost use Rattle.tm_reference.specs.Kept.{IsKept};

    ghost Value = { State S S.Op S.Reply S.Task };

    ghost view = { λ p. record { setup = record { config = p.config; number = p.number; above = p.above.items }; next_id = p.ids + 1; next_ticket = p.tickets + 1; places = p.places.items; live = p.live.items } };

    ghost invariant = { λ p. IsKept (p.config.clients + p.number) (p.ids + 1) p.places.items p.live.items };
}

impl<S: Entrusted> ReferenceTrustee<S> {
    /// Serves a request of a place, or hands it back. It costs a look at each object and each place.
    pub fn serve(
        &mut self,
        alloc: Global,
        place: u32,
        request: Request<S>,
    ) -> Result<Answer<S>, NotServed<S>>
        ensures may { IfOk result (λ a. MayCome S.kind self.old (By place (place_of self.old place).served request a)) }
        ensures after { IfOk result (λ a. self.new ≡ after S.kind self.old (By place (place_of self.old place).served request a)) }
        ensures cause { IfErr result (IsNotServed S.kind self.old place request) }
        ensures err { OnErr result (self.new ≡ self.old) }
    {
        if place as usize >= self.places.len() {
            return Err(NotServed::NotLegal(request));
        }
        if self.places[place as usize].served == u64::MAX {
            return Err(NotServed::NoMemory(request));
        }
        let answer = self.serve_row(alloc, place, request)?;
        self.count(place);
        Ok(answer)
    }

    // The row of the request.
    fn serve_row(
        &mut self,
        alloc: Global,
        place: u32,
        request: Request<S>,
    ) -> Result<Answer<S>, NotServed<S>>
        requires { place < length self.old.places }
        ensures { IsServed S.kind self.old place request result self.new }
    {
        match request {
            Request::Entrust(value) => self.entrust(alloc, place, value),
            Request::Apply(name, op) => self.apply(place, name, op),
            Request::Launch(name, task) => self.launch(place, name, task),
            Request::Grant(name, to) => self.grant(place, name, to),
            Request::Release(name) => self.release(place, name),
            Request::Reclaim(name) => self.reclaim(place, name),
            Request::Bye => Ok(self.close(place)),
        }
    }

    // One more request of a place was run.
    fn count(&mut self, place: u32)
        requires place { place < length self.old.places }
        requires room { (place_of self.old place).served < 2 ^ 64 - 1 }
        ensures { self.new ≡ counted place self.old }
    {
        let at = &mut self.places[place as usize];
        at.served += 1;
    }
}
