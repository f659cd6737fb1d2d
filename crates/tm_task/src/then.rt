//! Continuations that can be called.
ghost use Rattle.std.specs.Prelude.{◌≡◌, [], MatchOption};
ghost use Rattle.tm_client.specs.Taking.{HasTaken};
ghost use Rattle.tm_client.specs.declared.answers.Got.{Got};
ghost use Rattle.tm_task.specs.Ours.{IsOne, StaysOne};

use tm_client::{Client, Got};
use tm_pair::{FitsBatches, PairTable};
use tm_seq::Entrusted;

/// What goes on with the answer to a request.
pub trait Then<S: Entrusted>: Drop {
    /// What a call gives.
    type Out;

    /// What a call with an answer may give, for contracts.
    ghost gives: { Self → Got S S.Op S.Reply S.Task → Self.Out → Type 0 };

    /// Goes on with the answer.
    fn call(self, got: Got<S>) -> Self::Out
        ensures { gives self got result };
}

/// Takes the answer that came first and was not taken, and calls its continuation with it, once. `None` where no
/// answer waits. It takes a constant time besides the continuation's own.
pub fn run_ready<S: FitsBatches, C: Then<S>, P: PairTable<S>>(
    client: &mut Client<S, C, P>,
) -> Option<C::Out>
    requires client { IsOne P.theory.client_view client.old.books }
    ensures ready { MatchOption result ((client.old.books.arrived.items ≡ []) × (client.new ≡ client.old)) (λ out. (after : C) × (got : Got S S.Op S.Reply S.Task) × HasTaken after got client.old.books client.new.books × C.gives after got out) }
    ensures client { StaysOne P.theory.client_view client.old.books client.new.books }
{
    match client.next() {
        Some((after, got)) => Some(after.call(got)),
        None => None,
    }
}
