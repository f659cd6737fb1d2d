//! The calls of a client that give a trust up.
ghost use Rattle.std.specs.Prelude.{◌≡◌, ℕ, OnOk, OnErr, IfErr};
ghost use Rattle.tm_batch.specs.declared.message.Request.TheVariants.{Release, Reclaim};
ghost use Rattle.tm_model.specs.State.{State};
ghost use Rattle.tm_client.specs.Asking.{ApplyWhy, MayApply, HasGivenUp};
ghost use Rattle.tm_client.specs.Clients.{IsClient};

use crate::answers::Refused;
use crate::client::Client;
use crate::trust::Trust;
use tm_batch::Request;
use tm_pair::{FitsBatches, PairTable};

impl<S: FitsBatches, C: Drop, P: PairTable<S>> Client<S, C, P> {
    /// Lets the request by which a trust is given up wait at its trustee, and takes the trust out of the list.
    fn give_up(&mut self, trust: &Trust, request: Request<S>, after: C)
        requires client { (openings : ℕ → State S S.Op S.Reply S.Task) × IsClient P.theory.client_view openings self.old.books }
        requires may { MayApply self.old.books trust.now }
        ensures { HasGivenUp trust.now request after 0 self.old.books self.new.books }
    {
        self.ask(trust.trustee, request, after);
        self.books.held.remove(trust.at, trust.hold());
    }

    /// Asks the trustee of a trust to take the hold on the object back. The trust leaves the client's list at once.
    /// Refused as an operation by the trust is.
    pub fn release(&mut self, trust: Trust, after: C) -> Result<(), Refused<(Trust, C)>>
        requires client { (openings : ℕ → State S S.Op S.Reply S.Task) × IsClient P.theory.client_view openings self.old.books }
        ensures may { OnOk result (MayApply self.old.books trust) }
        ensures given { OnOk result (HasGivenUp trust (Release trust.name) after 0 self.old.books self.new.books) }
        ensures why { IfErr result (λ r. ApplyWhy self.old.books trust r.why) }
        ensures back { IfErr result (λ r. r.back ≡ (trust, after)) }
        ensures err { OnErr result (self.new ≡ self.old) }
        ensures client { (openings : ℕ → State S S.Op S.Reply S.Task) → IsClient P.theory.client_view openings self.old.books → IsClient P.theory.client_view openings self.new.books }
    {
        if let Some(why) = self.why_not_apply(&trust) {
            return Err(Refused {
                why,
                back: (trust, after),
            });
        }
        self.give_up(&trust, Request::Release(trust.name), after);
        Ok(())
    }

    /// Asks the trustee of a trust for the value of the object, which comes back where no other hold on it is left;
    /// else the trust comes back with the answer. The trust leaves the client's list at once. Refused as an operation
    /// by the trust is.
    pub fn reclaim(&mut self, trust: Trust, after: C) -> Result<(), Refused<(Trust, C)>>
        requires client { (openings : ℕ → State S S.Op S.Reply S.Task) × IsClient P.theory.client_view openings self.old.books }
        ensures may { OnOk result (MayApply self.old.books trust) }
        ensures given { OnOk result (HasGivenUp trust (Reclaim trust.name) after 1 self.old.books self.new.books) }
        ensures why { IfErr result (λ r. ApplyWhy self.old.books trust r.why) }
        ensures back { IfErr result (λ r. r.back ≡ (trust, after)) }
        ensures err { OnErr result (self.new ≡ self.old) }
        ensures client { (openings : ℕ → State S S.Op S.Reply S.Task) → IsClient P.theory.client_view openings self.old.books → IsClient P.theory.client_view openings self.new.books }
    {
        if let Some(why) = self.why_not_apply(&trust) {
            return Err(Refused {
                why,
                back: (trust, after),
            });
        }
        self.give_up(&trust, Request::Reclaim(trust.name), after);
        self.books.coming += 1;
        Ok(())
    }
}
