//! What a client notes of a trustee, and what it tells of it.
ghost use Rattle.std.specs.Prelude.{◌≡◌, ℕ, ◌<◌, ◌↔◌, true, false, length, IsTrue};
ghost use Rattle.tm_model.specs.State.{State};
ghost use Rattle.tm_client.specs.Asking.{At};
ghost use Rattle.tm_client.specs.Clients.{IsClient};
ghost use Rattle.tm_client.specs.Marking.{HasMarked};

use crate::client::Client;
use tm_pair::{FitsBatches, PairTable};

impl<S: FitsBatches, C: Drop, P: PairTable<S>> Client<S, C, P> {
    /// How many requests count at a trustee: those whose answers were not taken, and the launches whose completions were
    /// not.
    pub fn counting(&self, trustee: u32) -> u32
        requires { trustee < length self.now.books.lanes.items }
        ensures { At self.now.books trustee (λ lane. result ≡ lane.counting) }
    {
        self.books.lanes[trustee as usize].counting
    }

    /// The next turn publishes a batch, though it has no request, so that gifts can come.
    pub fn fetch(&mut self, trustee: u32)
        requires trustee { trustee < length self.old.books.lanes.items }
        ensures marked { HasMarked trustee (λ _. true) (λ closing. closing) self.old.books self.new.books }
        ensures client { (openings : ℕ → State S S.Op S.Reply S.Task) → IsClient P.theory.client_view openings self.old.books → IsClient P.theory.client_view openings self.new.books }
    {
        let lane = &mut self.books.lanes[trustee as usize];
        lane.fetching = true;
    }

    /// No further request is accepted at a trustee; once nothing counts, a turn sends the `Bye`. So it waits until each
    /// answer was taken, and the completion of each launch.
    pub fn close(&mut self, trustee: u32)
        requires trustee { trustee < length self.old.books.lanes.items }
        ensures marked { HasMarked trustee (λ fetching. fetching) (λ _. true) self.old.books self.new.books }
        ensures client { (openings : ℕ → State S S.Op S.Reply S.Task) → IsClient P.theory.client_view openings self.old.books → IsClient P.theory.client_view openings self.new.books }
    {
        let lane = &mut self.books.lanes[trustee as usize];
        lane.closing = true;
    }

    /// Whether the answer to the `Bye` came.
    pub fn is_closed(&self, trustee: u32) -> bool
        requires { trustee < length self.now.books.lanes.items }
        ensures { At self.now.books trustee (λ lane. IsTrue result ↔ (lane.said ≡ true) × (lane.out ≡ false)) }
    {
        let lane = &self.books.lanes[trustee as usize];
        lane.said && !lane.out
    }
}
