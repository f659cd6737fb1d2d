//! A trustee serves the places of its table.
ghost use Rattle.std.specs.Prelude.{◌≡◌, ℕ, ◌+◌, ◌-◌, ◌^◌, ◌<◌, ◌≤◌, ◌++◌, cond, []};
ghost use Rattle.std.specs.declared.option.Option.TheVariants.{None, Some};
ghost use Rattle.tm_batch.specs.declared.message.AnswerBatch.{AnswerBatch};
ghost use Rattle.tm_model.specs.declared.entry.Entry.{Entry};
ghost use Rattle.tm_model.specs.State.{place_count};
ghost use Rattle.tm_pair.specs.Views.{hand_of, looks_at};
ghost use Rattle.tm_pair.specs.Calls.{MayAnswer, HasAnswered};
ghost use Rattle.tm_pair.specs.Moves.{answer_of};
ghost use Rattle.tm_pair.specs.Theory.{KeepsClients};
ghost use Rattle.tm_trustee.specs.Places.{HasReplied, ServesPlace, ServesBelow, found_below};
ghost use Rattle.tm_trustee.specs.Serving.{IsCurrent, GoesOn};

use std::marker::Brand;
use tm_base::Gate;
use tm_batch::{AnswerBatch, Batch};
use tm_ghost::GhostList;
use tm_model::Entry;
use tm_pair::{FitsBatches, PairTable, Since};
use tm_state::TrusteeState;

/// Answers a place, behind the resumes that the caller's proof picks.
fn answer_behind<S: FitsBatches, P: PairTable<S>, E: Since<S, S::Op, S::Reply, S::Task>>(
    table: &mut P,
    side: &mut P::TrusteeSide,
    place: u32,
    answers: AnswerBatch<S>,
    _since: &GhostList<Entry<S>>,
)
    requires mine { P.theory.HasTrustee table.old side.old }
    requires may { MayAnswer S.kind (P.theory.opening table.old) place E.resumes answers (P.theory.trustee_view side.old) }
    ensures answers { HasAnswered place E.resumes answers (P.theory.trustee_view side.old) (P.theory.trustee_view side.new) }
    ensures did { P.theory.Did (answer_of place E.resumes answers) table.old table.new }
    ensures keeps { KeepsClients P.theory table.old table.new side.new }
{
    table.answer::<E>(side, place, answers);
}

/// Runs the batch of a place that is in hand, and answers it, behind what was resumed since the last
/// answer. Nothing is resumed since then.
fn answer_batch<S: FitsBatches, P: PairTable<S>, G: Gate>(
    table: &mut P,
    side: &mut P::TrusteeSide,
    state: &mut TrusteeState<S>,
    since: &mut GhostList<Entry<S>>,
    place: u32,
    batch: Batch<S>,
    gate: &G,
)
    requires mine { P.theory.HasTrustee table.old side.old }
    requires current { IsCurrent S.kind (P.theory.opening table.old) (P.theory.trustee_view side.old).log since.old.items state.old }
    requires place { place < place_count (P.theory.opening table.old).setup }
    requires hand { hand_of (P.theory.trustee_view side.old) place ≡ Some (record { requests = batch.requests.items; room = batch.room }) }
    ensures replied { HasReplied P.theory S.kind (P.theory.opening table.old) place table.old table.new side.old side.new }
    ensures current { IsCurrent S.kind (P.theory.opening table.old) (P.theory.trustee_view side.new).log since.new.items state.new }
    ensures goes_on { GoesOn ((P.theory.trustee_view side.old).log ++ since.old.items) ((P.theory.trustee_view side.new).log ++ since.new.items) }
    ensures keeps { KeepsClients P.theory table.old table.new side.new }
{
    let answers = state.answer(gate, place, batch);
    answer_behind::<S, P, Brand>(table, side, place, answers, since);
    *since = GhostList::new();
}

/// Looks once at a place, and answers the batch that it finds. Whether it found one.
pub(crate) fn serve_place<S: FitsBatches, P: PairTable<S>, G: Gate>(
    table: &mut P,
    side: &mut P::TrusteeSide,
    state: &mut TrusteeState<S>,
    since: &mut GhostList<Entry<S>>,
    place: u32,
    gate: &G,
) -> bool
    requires mine { P.theory.HasTrustee table.old side.old }
    requires current { IsCurrent S.kind (P.theory.opening table.old) (P.theory.trustee_view side.old).log since.old.items state.old }
    requires place { place < place_count (P.theory.opening table.old).setup }
    requires free { hand_of (P.theory.trustee_view side.old) place ≡ None }
    ensures serves { ServesPlace P.theory S.kind (P.theory.opening table.old) place table.old table.new side.old side.new }
    ensures found { result ≡ (looks_at (P.theory.trustee_view side.new) place).found }
    ensures current { IsCurrent S.kind (P.theory.opening table.old) (P.theory.trustee_view side.new).log since.new.items state.new }
    ensures goes_on { GoesOn ((P.theory.trustee_view side.old).log ++ since.old.items) ((P.theory.trustee_view side.new).log ++ since.new.items) }
    ensures keeps { KeepsClients P.theory table.old table.new side.new }
{
    match table.see(side, place) {
        Some(batch) => {
            answer_batch(table, side, state, since, place, batch, gate);
            true
        }
        None => false,
    }
}

/// One more, where `more` says so.
// A function of its own, so that the loop below has no branch.
fn count(found: u64, more: bool) -> u64
    requires { found < 2 ^ 64 - 1 }
    ensures { result ≡ found + cond more 1 0 }
{
    if more { found + 1 } else { found }
}

/// Serves the places below a number, in order. At how many of them it found a batch.
pub(crate) fn serve_places<S: FitsBatches, P: PairTable<S>, G: Gate>(
    table: &mut P,
    side: &mut P::TrusteeSide,
    state: &mut TrusteeState<S>,
    since: &mut GhostList<Entry<S>>,
    places: u32,
    gate: &G,
) -> u64
    requires mine { P.theory.HasTrustee table.old side.old }
    requires current { IsCurrent S.kind (P.theory.opening table.old) (P.theory.trustee_view side.old).log since.old.items state.old }
    requires places { places ≤ place_count (P.theory.opening table.old).setup }
    requires free { (c : ℕ) → hand_of (P.theory.trustee_view side.old) c ≡ None }
    ensures serves { ServesBelow P.theory S.kind (P.theory.opening table.old) places table.old table.new side.old side.new }
    ensures free { (c : ℕ) → hand_of (P.theory.trustee_view side.new) c ≡ None }
    ensures found { result ≡ found_below places (P.theory.trustee_view side.new) }
    ensures current { IsCurrent S.kind (P.theory.opening table.old) (P.theory.trustee_view side.new).log since.new.items state.new }
    ensures goes_on { GoesOn ((P.theory.trustee_view side.old).log ++ since.old.items) ((P.theory.trustee_view side.new).log ++ since.new.items) }
    ensures keeps { KeepsClients P.theory table.old table.new side.new }
{
    let mut found = 0;
    for place in 0..places {
        let more = serve_place(table, side, state, since, place, gate);
        found = count(found, more);
    }
    found
}
