//! What a table of slots does, for whoever holds its sides.
//!
//! The trait says of each side what it stands for, and that this is good. It ties no client's view to
//! the log of the trustee: a table that served each client from a copy of its own would meet it. **So
//! each table owes a clause of its own: that all its sides show one good core**, which is its slots and
//! the one log behind them. For [`PlainTable`](crate::PlainTable) that is what `HasClient` and `HasTrustee`
//! say (`IsClientOf` and `IsTrusteeOf` in specs/Plain.antt): the table's core is good, and what a side
//! stands for is what that core shows of its slot, or of the trustee.
ghost use Rattle.std.specs.Prelude.{◌≡◌, ◌<◌, List, [], IsOk, OnOk, OnErr, IfErr, ◌↔◌};
ghost use Rattle.std.specs.declared.option.Option.TheVariants.{None};
ghost use Rattle.tm_model.specs.State.{place_count};
ghost use Rattle.tm_model.specs.declared.entry.Entry.{Entry};
ghost use Rattle.tm_pair.specs.Views.{hand_of};
ghost use Rattle.tm_pair.specs.Calls.{MaySend, Publishes, Collects, OnLook, Sees, MayAnswer, HasAnswered};
ghost use Rattle.tm_pair.specs.Moves.{answer_of};
ghost use Rattle.tm_pair.specs.Theory.{Theory, KeepsSides, KeepsClients, TheoryLaws};
ghost use Rattle.tm_pair.specs.declared.moves.Move.TheVariants.{Publish, See, Collect};

use std::marker::Brand;
use tm_batch::{AnswerBatch, Batch};
use tm_seq::Entrusted;

/// What a client finds when it looks for answers.
#[derive(Drop)]
pub enum Collected<S: Entrusted> {
    /// The answers to its batch that was out.
    Answers(AnswerBatch<S>),
    /// Its batch is still out.
    Pending,
    /// No batch of it is out.
    Idle,
}

/// A batch that was not published, since the last one of its side is still out.
#[derive(Drop)]
pub struct Held<S: Entrusted>(pub Batch<S>);

/// The resumes of a trustee's log since its last answer, for contracts alone: each call of
/// [`PairTable::answer`] picks them. Its parameters are a kind's values, operations, replies and
/// tasks.
pub trait Since<V, O, R, T> {
    /// The entries, in order.
    ghost resumes: { List (Entry V O R T) };
}

/// With no pick there are none.
impl<V, O, R, T> Since<V, O, R, T> for Brand {
    ghost resumes = { [] };
}

/// A trustee's table: a slot for each place, with a side for the client of the place, and one side
/// for the trustee.
///
/// What a call says is said of the side that it is passed, and of what never changes. Other sides
/// may be on other threads and change the slots between any two calls. A call takes constant time,
/// never waits and never allocates.
pub trait PairTable<S: Entrusted> {
    /// A client's side.
    type ClientSide: Drop;

    /// The trustee's side.
    type TrusteeSide: Drop;

    /// What the table and its sides stand for, which sides are its, which handles are of one table, and
    /// what a call did to the table itself, as far as a kind of table tells: one whose sides are all in
    /// one thread tells its words, its boxes and its log; one that others change meanwhile, nothing.
    ghost theory: { Theory S S.Op S.Reply S.Task Self Self.ClientSide Self.TrusteeSide };

    /// Sends a batch to the trustee, or hands it back where the last one was not collected. The batch
    /// has to be orderly after what the side sent and got: the side then holds each id that a request
    /// names, a grant is to a client, at most `WINDOW` launches lack their completion, a `Bye` stands alone
    /// and nothing follows it, and a trustee's place sends applies and a `Bye` alone.
    fn publish(&mut self, side: &mut Self::ClientSide, batch: Batch<S>) -> Result<(), Held<S>>
        requires mine { theory.HasClient self.old side.old }
        requires orderly { MaySend (theory.opening self.old) (theory.client_view side.old) batch.requests.items }
        ensures free { IsOk result ↔ ((theory.client_view side.old).out ≡ None) }
        ensures ok { OnOk result (Publishes batch.requests.items batch.room (theory.client_view side.old) (theory.client_view side.new)) }
        ensures err { OnErr result (theory.client_view side.new ≡ theory.client_view side.old) }
        ensures back { IfErr result (λ held. held.0 ≡ batch) }
        ensures did { OnOk result (theory.Did (Publish (theory.client_view side.old).place batch) self.old self.new) }
        ensures stays { OnErr result (self.new ≡ self.old) }
        ensures keeps { KeepsSides theory self.old self.new side.old side.new };

    /// Looks for the answers to the batch that is out, and takes them. It does not look where
    /// nothing is out.
    fn collect(&mut self, side: &mut Self::ClientSide) -> Collected<S>
        requires mine { theory.HasClient self.old side.old }
        ensures collects { Collects (theory.client_view side.old) (theory.client_view side.new) result }
        ensures did { OnLook result (self.new ≡ self.old) (λ found. theory.Did (Collect (theory.client_view side.old).place found) self.old self.new) }
        ensures keeps { KeepsSides theory self.old self.new side.old side.new };

    /// Looks for a batch of a place of which none is in hand, and takes it in hand. It is orderly, and
    /// whatever is resumed first, each id that a request of it names is live and held by the place once
    /// the requests before were run.
    fn see(&mut self, side: &mut Self::TrusteeSide, client: u32) -> Option<Batch<S>>
        requires mine { theory.HasTrustee self.old side.old }
        requires in_range { client < place_count (theory.opening self.old).setup }
        requires free { hand_of (theory.trustee_view side.old) client ≡ None }
        ensures sees { Sees S.kind (theory.opening self.old) client result (theory.trustee_view side.old) (theory.trustee_view side.new) }
        ensures did { theory.Did (See client result) self.old self.new }
        ensures keeps { KeepsClients theory self.old self.new side.new };

    /// Answers the batch of a place that is in hand: an answer for each request, gifts and completions
    /// that are ready, at most as many gifts as the batch has room, and as `front` the length of the
    /// log then, or `u64::MAX`. The trustee's log grows by the resumes that the call picks, and then by
    /// the entries of the batch.
    fn answer<E: Since<S, S::Op, S::Reply, S::Task>>(
        &mut self,
        side: &mut Self::TrusteeSide,
        client: u32,
        answers: AnswerBatch<S>,
    )
        requires mine { theory.HasTrustee self.old side.old }
        requires may { MayAnswer S.kind (theory.opening self.old) client E.resumes answers (theory.trustee_view side.old) }
        ensures answers { HasAnswered client E.resumes answers (theory.trustee_view side.old) (theory.trustee_view side.new) }
        ensures did { theory.Did (answer_of client E.resumes answers) self.old self.new }
        ensures keeps { KeepsClients theory self.old self.new side.new };

    /// What each table owes: its sides are good, and `Same` is an equivalence that keeps the opening state.
    ghost laws: { TheoryLaws theory S.kind };
}
