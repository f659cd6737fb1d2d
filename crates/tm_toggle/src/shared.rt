//! A table for many threads.
ghost use Rattle.std.specs.Prelude.{◌≡◌, ◌<◌, IsOk, OnOk, OnErr, IfErr, ◌↔◌};
ghost use Rattle.std.specs.declared.option.Option.TheVariants.{None};
ghost use Rattle.tm_model.specs.State.{place_count};
ghost use Rattle.tm_pair.specs.Views.{hand_of};
ghost use Rattle.tm_pair.specs.Calls.{MaySend, Publishes, Collects, OnLook, Sees, MayAnswer, HasAnswered};
ghost use Rattle.tm_pair.specs.Moves.{answer_of};
ghost use Rattle.tm_pair.specs.Theory.{KeepsSides, KeepsClients};
ghost use Rattle.tm_pair.specs.declared.moves.Move.TheVariants.{Publish, See, Collect};
ghost use Rattle.tm_toggle.specs.Ruled.{IsByClient, IsByTrustee, IsNext};
ghost use Rattle.tm_toggle.specs.Shared.{opening_at, client_at, trustee_at, client_past, trustee_past, IsClientOf, IsTrusteeOf, shared_theory, shared_laws};

use crate::content::Content;
use crate::fitting::Shareable;
use crate::ruling::{AnswerStep, CollectStep, Lays, Lifts, Order, PublishStep, SeeStep};
use crate::sides::{Key, SharedClient, SharedTrustee};
use crate::view::View;
use atomic_table::Table;
use std::alloc::Global;
use std::sync::Arc;
use tm_batch::{AnswerBatch, Batch};
use tm_pair::{Collected, Held, PairTable, Since};

/// A trustee's table for many threads: each thread has a handle of its own, and no call waits, locks
/// or allocates.
///
/// Its rule is [`Order`]: between any two atomic steps one list of calls tells all words, all slots
/// and what each side stands for, and the core that it leaves is good. Each call takes its place in
/// that list by one atomic step.
pub struct SharedTable<S: Shareable> {
    pub(crate) table: Arc<Table<Content<S>, View<S>, Key<S>, Order<S>, Global>>,
}

/// As a derived one, but proved here.
impl<S: Shareable> Drop for SharedTable<S> {
    fn drop(self) {
        let SharedTable { table: _ } = self;
    }
}

impl<S: Shareable> PairTable<S> for SharedTable<S> {
    type ClientSide = SharedClient<S>;

    type TrusteeSide = SharedTrustee<S>;

    ghost theory = { shared_theory S.kind };

    /// One store, and the requests of the batch. It is the side's next call at the table.
    fn publish(&mut self, side: &mut SharedClient<S>, batch: Batch<S>) -> Result<(), Held<S>>
        requires mine { IsClientOf S.kind self.old side.old }
        requires orderly { MaySend (opening_at self.old) (client_at side.old) batch.requests.items }
        ensures free { IsOk result ↔ ((client_at side.old).out ≡ None) }
        ensures ok { OnOk result (Publishes batch.requests.items batch.room (client_at side.old) (client_at side.new)) }
        ensures err { OnErr result (client_at side.new ≡ client_at side.old) }
        ensures back { IfErr result (λ held. held.0 ≡ batch) }
        ensures did { OnOk result (Unit {0}) }
        ensures stays { OnErr result (self.new ≡ self.old) }
        ensures keeps { KeepsSides (shared_theory S.kind) self.old self.new side.old side.new }
        ensures none { OnErr result (client_past side.new ≡ client_past side.old) }
        ensures next { OnOk result (IsNext (IsByClient (client_at side.old).place) (client_past side.old) (client_past side.new) (Publish (client_at side.old).place batch)) }
    {
        if side.out {
            return Err(Held(batch));
        }
        let _ = (batch.len(), batch.room());
        let shared = &self.table.shared;
        let place = side.place as usize;
        let word = 1 - side.word;
        side.seat.slot_mut(shared, place).put_batch(batch);
        shared.store::<PublishStep<S>>(&mut side.seat, 32 * place + 16, word);
        side.word = word;
        side.out = true;
        Ok(())
    }

    /// One load, and the answers. Where it looks, it is the side's next call at the table.
    fn collect(&mut self, side: &mut SharedClient<S>) -> Collected<S>
        requires mine { IsClientOf S.kind self.old side.old }
        ensures collects { Collects (client_at side.old) (client_at side.new) result }
        ensures did { OnLook result (self.new ≡ self.old) (λ found. Unit {0}) }
        ensures keeps { KeepsSides (shared_theory S.kind) self.old self.new side.old side.new }
        ensures next { OnLook result (client_past side.new ≡ client_past side.old) (λ found. IsNext (IsByClient (client_at side.old).place) (client_past side.old) (client_past side.new) (Collect (client_at side.old).place found)) }
    {
        if !side.out {
            return Collected::Idle;
        }
        let shared = &self.table.shared;
        let place = side.place as usize;
        let found = shared.load::<CollectStep<S>>(&mut side.seat, 32 * place + 32);
        if found != side.word {
            return Collected::Pending;
        }
        side.out = false;
        Collected::Answers(side.seat.slot_mut(shared, place).take_answers())
    }

    /// One load where nothing is asked; else two, and the requests of the batch. It is the trustee's
    /// next call at the table.
    fn see(&mut self, side: &mut SharedTrustee<S>, client: u32) -> Option<Batch<S>>
        requires mine { IsTrusteeOf S.kind self.old side.old }
        requires in_range { client < place_count (opening_at self.old).setup }
        requires free { hand_of (trustee_at side.old) client ≡ None }
        ensures sees { Sees S.kind (opening_at self.old) client result (trustee_at side.old) (trustee_at side.new) }
        ensures did { Unit {0} }
        ensures keeps { KeepsClients (shared_theory S.kind) self.old self.new side.new }
        ensures next { IsNext IsByTrustee (trustee_past side.old) (trustee_past side.new) (See client result) }
    {
        let shared = &self.table.shared;
        let client = client as usize;
        let found = shared.load::<SeeStep<S>>(&mut side.seat, 32 * client + 16);
        if found == side.words[client] {
            return None;
        }
        let batch = side.seat.slot_mut(shared, client).take_batch();
        shared.load::<Lays>(&mut side.seat, 32 * client + 32);
        Some(batch)
    }

    /// One load and one store, and the answers. It is the trustee's next call at the table.
    fn answer<E: Since<S, S::Op, S::Reply, S::Task>>(
        &mut self,
        side: &mut SharedTrustee<S>,
        client: u32,
        answers: AnswerBatch<S>,
    )
        requires mine { IsTrusteeOf S.kind self.old side.old }
        requires may { MayAnswer S.kind (opening_at self.old) client E.resumes answers (trustee_at side.old) }
        ensures answers { HasAnswered client E.resumes answers (trustee_at side.old) (trustee_at side.new) }
        ensures did { Unit {0} }
        ensures keeps { KeepsClients (shared_theory S.kind) self.old self.new side.new }
        ensures next { IsNext IsByTrustee (trustee_past side.old) (trustee_past side.new) (answer_of client E.resumes answers) }
    {
        let shared = &self.table.shared;
        let client = client as usize;
        let word = 1 - side.words[client];
        shared.load::<Lifts>(&mut side.seat, 32 * client + 32);
        side.seat.slot_mut(shared, client).put_answers(answers);
        shared.store::<AnswerStep<S, E>>(&mut side.seat, 32 * client + 32, word);
        side.words[client] = word;
    }

    ghost laws = { shared_laws S.kind };
}
