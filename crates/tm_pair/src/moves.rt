//! What was done at a table in one thread, for contracts alone.
ghost use Rattle.std.specs.Prelude.{◌≡◌, ◌≤◌, List, [], ◌∷◌, ◌++◌, length};
ghost use Rattle.tm_batch.specs.declared.limits.TheConstants.{MOST_REQUESTS, MOST_ROOM};
ghost use Rattle.tm_pair.specs.declared.moves.Move.TheVariants.{Open, Publish, See, Collect};
ghost use Rattle.tm_pair.specs.Moves.{answer_of, answers_found};

use crate::table::{Collected, Since};
use std::marker::Brand;
use tm_batch::{AnswerBatch, Batch};
use tm_ghost::{GhostList, Items};
use tm_model::Entry;
use tm_seq::Entrusted;

/// One call at a table. No program makes one: contracts speak of lists of them.
#[derive(Drop)]
pub enum Move<S: Entrusted> {
    /// A table of so many places was made.
    Open(u32),
    /// A place published a batch.
    Publish(u32, Batch<S>),
    /// The trustee looked at a place, and found a batch or none.
    See(u32, Option<Batch<S>>),
    /// The trustee answered a place, after some resumes.
    Answer(u32, GhostList<Entry<S>>, AnswerBatch<S>),
    /// A place looked for answers, and found some or none.
    Collect(u32, Option<AnswerBatch<S>>),
}

/// A batch has at most `MOST_REQUESTS` requests, and room for at most `MOST_ROOM` gifts.
pub(crate) fn is_bounded<S: Entrusted>(batch: &Batch<S>)
    ensures requests { length batch.now.requests.items ≤ MOST_REQUESTS }
    ensures room { batch.now.room ≤ MOST_ROOM }
{
    let _ = (batch.len(), batch.room());
}

/// The same moves.
pub(crate) fn again<S: Entrusted>(past: &GhostList<Move<S>>) -> GhostList<Move<S>>
    ensures { result.items ≡ past.now.items }
{
    pick_past::<S, Brand>(past)
}

fn pick_past<S: Entrusted, E: Items<Move<S>>>(_past: &GhostList<Move<S>>) -> GhostList<Move<S>>
    ensures { result.items ≡ E.items }
{
    GhostList::of::<E>()
}

/// A table of so many places was made, and nothing else was done.
pub(crate) fn opened<S: Entrusted>(places: u32) -> GhostList<Move<S>>
    ensures { result.items ≡ Open places ∷ [] }
{
    pick_open::<S, Brand>(places)
}

fn pick_open<S: Entrusted, E: Items<Move<S>>>(_places: u32) -> GhostList<Move<S>>
    ensures { result.items ≡ E.items }
{
    GhostList::of::<E>()
}

/// Then a place published a batch.
pub(crate) fn published<S: Entrusted>(
    past: &GhostList<Move<S>>,
    place: u32,
    batch: &Batch<S>,
) -> GhostList<Move<S>>
    ensures { result.items ≡ past.now.items ++ Publish place batch.now ∷ [] }
{
    pick_publish::<S, Brand>(past, place, batch)
}

fn pick_publish<S: Entrusted, E: Items<Move<S>>>(
    _past: &GhostList<Move<S>>,
    _place: u32,
    _batch: &Batch<S>,
) -> GhostList<Move<S>>
    ensures { result.items ≡ E.items }
{
    GhostList::of::<E>()
}

/// Then the trustee looked at a place, and found a batch or none.
pub(crate) fn seen<S: Entrusted>(
    past: &GhostList<Move<S>>,
    place: u32,
    found: &Option<Batch<S>>,
) -> GhostList<Move<S>>
    ensures { result.items ≡ past.now.items ++ See place found.now ∷ [] }
{
    pick_see::<S, Brand>(past, place, found)
}

fn pick_see<S: Entrusted, E: Items<Move<S>>>(
    _past: &GhostList<Move<S>>,
    _place: u32,
    _found: &Option<Batch<S>>,
) -> GhostList<Move<S>>
    ensures { result.items ≡ E.items }
{
    GhostList::of::<E>()
}

/// Then a place looked for answers, and found some or none.
pub(crate) fn collected<S: Entrusted>(
    past: &GhostList<Move<S>>,
    place: u32,
    found: &Collected<S>,
) -> GhostList<Move<S>>
    ensures { result.items ≡ past.now.items ++ Collect place (answers_found found.now) ∷ [] }
{
    pick_collect::<S, Brand>(past, place, found)
}

fn pick_collect<S: Entrusted, E: Items<Move<S>>>(
    _past: &GhostList<Move<S>>,
    _place: u32,
    _found: &Collected<S>,
) -> GhostList<Move<S>>
    ensures { result.items ≡ E.items }
{
    GhostList::of::<E>()
}

/// Then the trustee answered a place, after the resumes that the caller's proof picks.
pub(crate) fn answered<S: Entrusted, E: Since<S, S::Op, S::Reply, S::Task>>(
    past: &GhostList<Move<S>>,
    place: u32,
    answers: &AnswerBatch<S>,
) -> GhostList<Move<S>>
    ensures { result.items ≡ past.now.items ++ answer_of place E.resumes answers.now ∷ [] }
{
    pick_answer::<S, Brand>(past, place, answers)
}

fn pick_answer<S: Entrusted, E: Items<Move<S>>>(
    _past: &GhostList<Move<S>>,
    _place: u32,
    _answers: &AnswerBatch<S>,
) -> GhostList<Move<S>>
    ensures { result.items ≡ E.items }
{
    GhostList::of::<E>()
}
