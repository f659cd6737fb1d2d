//! The calls of a client that ask something of a trustee.
ghost use Rattle.std.specs.Prelude.{◌≡◌, ℕ, ◌+◌, ◌<◌, ◌≤◌, ◌↔◌, true, false, length, slice_get, slice_set, IsTrue, OnOk, OnErr, IfErr, MatchOption};
ghost use Rattle.tm_batch.specs.declared.message.Request.TheVariants.{Entrust, Apply, Launch, Grant};
ghost use Rattle.tm_model.specs.State.{State};
ghost use Rattle.tm_batch.specs.declared.limits.TheConstants.{WINDOW};
ghost use Rattle.tm_client.specs.Asking.{IsHeldBy, At, IsClosing, IsFull, IsOpen, HasRoom, ApplyWhy, MayApply, GrantWhy, MayGrant, EntrustWhy, MayEntrust, HasAsked};
ghost use Rattle.tm_client.specs.Clients.{IsClient};

use crate::answers::{Refused, Why};
use crate::client::Client;
use crate::trust::Trust;
use tm_batch::{Request, WINDOW};
use tm_pair::{FitsBatches, PairTable};

impl<S: FitsBatches, C: Drop, P: PairTable<S>> Client<S, C, P> {
    /// Whether the client's list has this trust.
    pub fn holds(&self, trust: &Trust) -> bool
        ensures { IsTrue result ↔ IsHeldBy self.now.books trust.now }
    {
        trust.client == self.books.number && self.books.held.has(trust.at, trust.hold())
    }

    /// Whether `close` was called for a trustee.
    fn is_closing(&self, trustee: u32) -> bool
        requires { trustee < length self.now.books.lanes.items }
        ensures closing { IsTrue result → IsClosing self.now.books trustee }
        ensures open { (result ≡ false) → IsOpen self.now.books trustee }
    {
        self.books.lanes[trustee as usize].closing
    }

    /// Whether no further request may count at a trustee.
    fn is_full(&self, trustee: u32) -> bool
        requires { At self.now.books trustee (λ lane. lane.counting ≤ WINDOW) }
        ensures full { IsTrue result → IsFull self.now.books trustee }
        ensures room { (result ≡ false) → HasRoom self.now.books trustee }
    {
        self.books.lanes[trustee as usize].counting as usize == WINDOW
    }

    /// Why an operation by a trust, or to give it up, is not accepted, unless it is.
    pub(crate) fn why_not_apply(&self, trust: &Trust) -> Option<Why>
        requires client { (openings : ℕ → State S S.Op S.Reply S.Task) × IsClient P.theory.client_view openings self.now.books }
        ensures { MatchOption result (MayApply self.now.books trust.now) (λ why. ApplyWhy self.now.books trust.now why) }
    {
        if !self.holds(trust) {
            return Some(Why::NotHeld);
        }
        if self.is_closing(trust.trustee) {
            return Some(Why::Closed);
        }
        if self.is_full(trust.trustee) {
            return Some(Why::WindowFull);
        }
        None
    }

    /// Why a grant by a trust is not accepted, unless it is.
    fn why_not_grant(&self, trust: &Trust, to: u32) -> Option<Why>
        requires client { (openings : ℕ → State S S.Op S.Reply S.Task) × IsClient P.theory.client_view openings self.now.books }
        ensures { MatchOption result (MayGrant self.now.books trust.now to) (λ why. GrantWhy self.now.books trust.now to why) }
    {
        if !self.holds(trust) {
            return Some(Why::NotHeld);
        }
        if self.is_closing(trust.trustee) {
            return Some(Why::Closed);
        }
        if to >= self.books.clients {
            return Some(Why::NoClient);
        }
        if self.is_full(trust.trustee) {
            return Some(Why::WindowFull);
        }
        None
    }

    /// Why a value is not accepted for a trustee, unless it is.
    fn why_not_entrust(&self, trustee: u32) -> Option<Why>
        requires client { (openings : ℕ → State S S.Op S.Reply S.Task) × IsClient P.theory.client_view openings self.now.books }
        requires trustee { trustee < length self.now.books.lanes.items }
        ensures { MatchOption result (MayEntrust self.now.books trustee) (λ why. EntrustWhy self.now.books trustee why) }
    {
        if self.is_closing(trustee) {
            return Some(Why::Closed);
        }
        if self.books.most as usize <= self.books.held.len() + self.books.coming as usize {
            return Some(Why::TrustsFull);
        }
        if self.is_full(trustee) {
            return Some(Why::WindowFull);
        }
        None
    }

    /// Lets a request wait at a trustee, behind those that do.
    pub(crate) fn ask(&mut self, trustee: u32, request: Request<S>, after: C)
        requires client { (openings : ℕ → State S S.Op S.Reply S.Task) × IsClient P.theory.client_view openings self.old.books }
        requires room { HasRoom self.old.books trustee }
        ensures { HasAsked trustee request after 0 self.old.books self.new.books }
    {
        let lane = &mut self.books.lanes[trustee as usize];
        lane.accept(request, after);
    }

    /// Asks a trustee to take a value as its object. The answer brings a trust of it, or the value back.
    /// Refused where `close` was called for the trustee, where the client's trusts and those that may come are
    /// as many as it may have, or where 64 requests of the trustee count, in this order.
    pub fn entrust(&mut self, trustee: u32, value: S, after: C) -> Result<(), Refused<(S, C)>>
        requires client { (openings : ℕ → State S S.Op S.Reply S.Task) × IsClient P.theory.client_view openings self.old.books }
        requires trustee { trustee < length self.old.books.lanes.items }
        ensures may { OnOk result (MayEntrust self.old.books trustee) }
        ensures asked { OnOk result (HasAsked trustee (Entrust value) after 1 self.old.books self.new.books) }
        ensures why { IfErr result (λ r. EntrustWhy self.old.books trustee r.why) }
        ensures back { IfErr result (λ r. r.back ≡ (value, after)) }
        ensures err { OnErr result (self.new ≡ self.old) }
        ensures client { (openings : ℕ → State S S.Op S.Reply S.Task) → IsClient P.theory.client_view openings self.old.books → IsClient P.theory.client_view openings self.new.books }
    {
        if let Some(why) = self.why_not_entrust(trustee) {
            return Err(Refused {
                why,
                back: (value, after),
            });
        }
        self.ask(trustee, Request::Entrust(value), after);
        self.books.coming += 1;
        Ok(())
    }

    /// Asks the trustee of a trust to run an operation on the object. The continuation comes back with the reply.
    /// Refused where the client does not hold the trust, where `close` was called for the trustee, or where 64
    /// requests of the trustee count, in this order.
    pub fn apply_then(
        &mut self,
        trust: &Trust,
        op: S::Op,
        after: C,
    ) -> Result<(), Refused<(S::Op, C)>>
        requires client { (openings : ℕ → State S S.Op S.Reply S.Task) × IsClient P.theory.client_view openings self.old.books }
        ensures may { OnOk result (MayApply self.old.books trust.now) }
        ensures asked { OnOk result (HasAsked trust.now.trustee (Apply trust.now.name op) after 0 self.old.books self.new.books) }
        ensures why { IfErr result (λ r. ApplyWhy self.old.books trust.now r.why) }
        ensures back { IfErr result (λ r. r.back ≡ (op, after)) }
        ensures err { OnErr result (self.new ≡ self.old) }
        ensures client { (openings : ℕ → State S S.Op S.Reply S.Task) → IsClient P.theory.client_view openings self.old.books → IsClient P.theory.client_view openings self.new.books }
    {
        if let Some(why) = self.why_not_apply(trust) {
            return Err(Refused {
                why,
                back: (op, after),
            });
        }
        self.ask(trust.trustee, Request::Apply(trust.name, op), after);
        Ok(())
    }

    /// Asks the trustee of a trust to launch work on the object. The continuation comes back with the reply with which
    /// the work ends, or with the task where the last ticket was given out. Until that was taken the launch counts.
    /// Refused as `apply_then` is. It takes a constant time, and a look at the whole list of trusts where the trust is not
    /// held.
    pub fn launch(
        &mut self,
        trust: &Trust,
        task: S::Task,
        after: C,
    ) -> Result<(), Refused<(S::Task, C)>>
        requires client { (openings : ℕ → State S S.Op S.Reply S.Task) × IsClient P.theory.client_view openings self.old.books }
        ensures may { OnOk result (MayApply self.old.books trust.now) }
        ensures asked { OnOk result (HasAsked trust.now.trustee (Launch trust.now.name task) after 0 self.old.books self.new.books) }
        ensures why { IfErr result (λ r. ApplyWhy self.old.books trust.now r.why) }
        ensures back { IfErr result (λ r. r.back ≡ (task, after)) }
        ensures err { OnErr result (self.new ≡ self.old) }
        ensures client { (openings : ℕ → State S S.Op S.Reply S.Task) → IsClient P.theory.client_view openings self.old.books → IsClient P.theory.client_view openings self.new.books }
    {
        if let Some(why) = self.why_not_apply(trust) {
            return Err(Refused {
                why,
                back: (task, after),
            });
        }
        self.ask(trust.trustee, Request::Launch(trust.name, task), after);
        Ok(())
    }

    /// Asks the trustee of a trust to give one more hold on the object to another client, as a gift that waits
    /// there. Refused where the client does not hold the trust, where `close` was called for the trustee, where no
    /// client has that number, or where 64 requests of the trustee count, in this order.
    pub fn grant(&mut self, trust: &Trust, to: u32, after: C) -> Result<(), Refused<C>>
        requires client { (openings : ℕ → State S S.Op S.Reply S.Task) × IsClient P.theory.client_view openings self.old.books }
        ensures may { OnOk result (MayGrant self.old.books trust.now to) }
        ensures asked { OnOk result (HasAsked trust.now.trustee (Grant trust.now.name to) after 0 self.old.books self.new.books) }
        ensures why { IfErr result (λ r. GrantWhy self.old.books trust.now to r.why) }
        ensures back { IfErr result (λ r. r.back ≡ after) }
        ensures err { OnErr result (self.new ≡ self.old) }
        ensures client { (openings : ℕ → State S S.Op S.Reply S.Task) → IsClient P.theory.client_view openings self.old.books → IsClient P.theory.client_view openings self.new.books }
    {
        if let Some(why) = self.why_not_grant(trust, to) {
            return Err(Refused { why, back: after });
        }
        self.ask(trust.trustee, Request::Grant(trust.name, to), after);
        Ok(())
    }
}
