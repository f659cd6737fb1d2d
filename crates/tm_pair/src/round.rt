//! One round of an empty batch through any table.
ghost use Rattle.std.specs.Prelude.{◌≡◌, ◌≢◌, ℕ, ◌+◌, ◌-◌, ◌^◌, ◌<◌, ◌↔◌, min, List, [], length, IsTrue, IsOk, OnOk, OnErr, IfErr, IsSomeAnd};
ghost use Rattle.std.specs.declared.option.Option.{Option};
ghost use Rattle.std.specs.declared.option.Option.TheVariants.{None, Some};
ghost use Rattle.tm_batch.specs.declared.batch.Batch.{Batch};
ghost use Rattle.tm_model.specs.State.{State, place_count};
ghost use Rattle.tm_model.specs.Serve.{state_after};
ghost use Rattle.tm_pair.specs.Views.{ClientView, BatchView, TrusteeView, hand_of};
ghost use Rattle.tm_pair.specs.Theory.{KeepsSides, KeepsClients};
ghost use Rattle.tm_pair.specs.Calls.{Publishes};
ghost use Rattle.tm_pair.specs.declared.moves.Move.TheVariants.{Publish};
ghost use Rattle.tm_pair.specs.Rounds.{NothingWaits, AnswersNothing, AnswersFound, FindsNothing};

use crate::fits_batches::FitsBatches;
use crate::table::{Collected, Held, PairTable};
use std::marker::Brand;
use tm_batch::{AnswerBatch, Batch, FitsAnswers};
use tm_core::{batches_have_all_answers, batches_join, legal_logs_join, states_are_sound};
use tm_seq::Entrusted;

/// Publishes a batch with no request and no room for gifts, or hands it back where the last one was not
/// collected.
pub fn ask_nothing<S: Entrusted, P: PairTable<S>>(
    table: &mut P,
    side: &mut P::ClientSide,
) -> Result<(), Held<S>>
    requires mine { P.theory.HasClient table.old side.old }
    ensures free { IsOk result ↔ ((P.theory.client_view side.old).out ≡ None) }
    ensures ok { OnOk result (Publishes [] 0 (P.theory.client_view side.old) (P.theory.client_view side.new)) }
    ensures err { OnErr result (P.theory.client_view side.new ≡ P.theory.client_view side.old) }
    ensures back { IfErr result (λ held. (held.0.requests.items ≡ []) × (held.0.room ≡ 0)) }
    ensures stays { OnErr result (table.new ≡ table.old) }
    ensures did { OnOk result ((batch : Batch S S.Op S.Reply S.Task) × (batch.requests.items ≡ []) × (batch.room ≡ 0) × P.theory.Did (Publish (P.theory.client_view side.old).place batch) table.old table.new) }
    ensures keeps { KeepsSides P.theory table.old table.new side.old side.new }
{
    table.publish(side, Batch::new(0))
}

/// Whether there is a batch and it has no request.
fn is_nothing<S: Entrusted>(seen: &Option<Batch<S>>) -> bool
    ensures { IsTrue result ↔ IsSomeAnd seen.now (λ b. b.requests.items ≡ []) }
{
    match seen {
        Some(batch) => batch.is_empty(),
        None => false,
    }
}

/// Answers a batch in hand that has no request, where nothing waits for its place.
fn answer_empty<S: FitsAnswers, P: PairTable<S>>(
    table: &mut P,
    side: &mut P::TrusteeSide,
    client: u32,
    front: u64,
)
    requires mine { P.theory.HasTrustee table.old side.old }
    requires in_range { client < place_count (P.theory.opening table.old).setup }
    requires hand { (room : ℕ) × (hand_of (P.theory.trustee_view side.old) client ≡ Some (record { requests = []; room = room })) }
    requires waits { NothingWaits (state_after S.kind (P.theory.opening table.old) (P.theory.trustee_view side.old).log) client }
    requires front { front ≡ min (length (P.theory.trustee_view side.old).log + 1) (2 ^ 64 - 1) }
    ensures answers { (room : ℕ) → hand_of (P.theory.trustee_view side.old) client ≡ Some (record { requests = []; room = room }) → AnswersNothing client room (P.theory.trustee_view side.old) (P.theory.trustee_view side.new) }
    ensures looks { (P.theory.trustee_view side.new).looks ≡ (P.theory.trustee_view side.old).looks }
    ensures keeps { KeepsClients P.theory table.old table.new side.new }
{
    legal_logs_join::<S>();
    states_are_sound::<S>();
    batches_join::<S>();
    batches_have_all_answers::<S>();
    table.answer::<Brand>(side, client, AnswerBatch::new(front));
}

/// Looks for a batch of a place for which nothing waits, and answers it if it has no request; one
/// that has some stays in hand. `front` is the length of the log with its answer. The batch that it
/// found, if there was one.
pub fn answer_nothing<S: FitsAnswers, P: PairTable<S>>(
    table: &mut P,
    side: &mut P::TrusteeSide,
    client: u32,
    front: u64,
) -> Option<Batch<S>>
    requires mine { P.theory.HasTrustee table.old side.old }
    requires in_range { client < place_count (P.theory.opening table.old).setup }
    requires free { hand_of (P.theory.trustee_view side.old) client ≡ None }
    requires waits { NothingWaits (state_after S.kind (P.theory.opening table.old) (P.theory.trustee_view side.old).log) client }
    requires front { front ≡ min (length (P.theory.trustee_view side.old).log + 1) (2 ^ 64 - 1) }
    ensures answers { IsSomeAnd result (λ b. b.requests.items ≡ []) → (room : ℕ) × AnswersNothing client room (P.theory.trustee_view side.old) (P.theory.trustee_view side.new) }
    ensures found { AnswersFound client result (P.theory.trustee_view side.old) (P.theory.trustee_view side.new) }
    ensures log { ¬ IsSomeAnd result (λ b. b.requests.items ≡ []) → (P.theory.trustee_view side.new).log ≡ (P.theory.trustee_view side.old).log }
    ensures keeps { KeepsClients P.theory table.old table.new side.new }
{
    let seen = table.see(side, client);
    if is_nothing(&seen) {
        answer_empty(table, side, client, front);
    }
    seen
}

/// Asks nothing with a side that has nothing out.
fn ask_free<S: FitsBatches, P: PairTable<S>>(table: &mut P, side: &mut P::ClientSide)
    requires mine { P.theory.HasClient table.old side.old }
    requires out { (P.theory.client_view side.old).out ≡ None }
    ensures asks { Publishes [] 0 (P.theory.client_view side.old) (P.theory.client_view side.new) }
    ensures keeps { KeepsSides P.theory table.old table.new side.old side.new }
{
    let _ = ask_nothing(table, side);
}

/// Answers as [`answer_nothing`], and lets the batch go.
fn answer_free<S: FitsBatches, P: PairTable<S>>(
    table: &mut P,
    side: &mut P::TrusteeSide,
    client: u32,
    front: u64,
)
    requires mine { P.theory.HasTrustee table.old side.old }
    requires in_range { client < place_count (P.theory.opening table.old).setup }
    requires free { hand_of (P.theory.trustee_view side.old) client ≡ None }
    requires waits { NothingWaits (state_after S.kind (P.theory.opening table.old) (P.theory.trustee_view side.old).log) client }
    requires front { front ≡ min (length (P.theory.trustee_view side.old).log + 1) (2 ^ 64 - 1) }
    ensures found { (seen : Option (Batch S S.Op S.Reply S.Task)) × AnswersFound client seen (P.theory.trustee_view side.old) (P.theory.trustee_view side.new) }
    ensures keeps { KeepsClients P.theory table.old table.new side.new }
{
    let _ = answer_nothing(table, side, client, front);
}

/// One round: a client's side with nothing out asks nothing, the trustee looks at its place and
/// answers, and the client looks for the answers. No batch of the place may be in hand, and nothing may
/// wait for it in the trustee's log. `front` is the length of the log with its answer.
/// Another thread may come between any two of the three calls, so the trustee may find no batch, and
/// the client no answers yet.
pub fn once_round<S: FitsBatches, P: PairTable<S>>(
    table: &mut P,
    client: &mut P::ClientSide,
    trustee: &mut P::TrusteeSide,
    place: u32,
    front: u64,
) -> Collected<S>
    requires client { P.theory.HasClient table.old client.old }
    requires trustee { P.theory.HasTrustee table.old trustee.old }
    requires place { (P.theory.client_view client.old).place ≡ place }
    requires out { (P.theory.client_view client.old).out ≡ None }
    requires hand { hand_of (P.theory.trustee_view trustee.old) place ≡ None }
    requires waits { NothingWaits (state_after S.kind (P.theory.opening table.old) (P.theory.trustee_view trustee.old).log) place }
    requires front { front ≡ min (length (P.theory.trustee_view trustee.old).log + 1) (2 ^ 64 - 1) }
    ensures finds { FindsNothing (P.theory.client_view client.old) (P.theory.client_view client.new) result }
    ensures found { (seen : Option (Batch S S.Op S.Reply S.Task)) × AnswersFound place seen (P.theory.trustee_view trustee.old) (P.theory.trustee_view trustee.new) }
    ensures same { P.theory.Same table.old table.new }
    ensures client { P.theory.HasClient table.new client.new }
    ensures trustee { P.theory.HasTrustee table.new trustee.new }
    ensures opening { P.theory.opening table.new ≡ P.theory.opening table.old }
    ensures clients { (other : P.ClientSide) → (P.theory.client_view other).place ≢ place → P.theory.HasClient table.old other → P.theory.HasClient table.new other }
{
    ask_free(table, client);
    answer_free(table, trustee, place, front);
    table.collect(client)
}
