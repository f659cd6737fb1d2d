//! What a turn does with batches.
ghost use Rattle.std.specs.Prelude.{◌≡◌, ◌+◌, ◌-◌, ◌<◌, ◌≤◌, [], ◌∷◌, ◌++◌, length, drop, take, min};
ghost use Rattle.tm_batch.specs.declared.limits.TheConstants.{MOST_REQUESTS, MOST_ROOM};
ghost use Rattle.tm_client.specs.Asking.{At};
ghost use Rattle.tm_client.specs.Receiving.{MayReceive, HasTakenIn};
ghost use Rattle.tm_client.specs.Launches.{ticket_in, arrivals_of, launches_of};
ghost use Rattle.tm_client.specs.Turns.{gifts_from};

use crate::answers::{Arrival, Came};
use crate::books::Books;
use crate::finishing::finish;
use crate::lane::{Unfinished, Waiting};
use crate::trust::Trust;
use arrayvec::ArrayVec;
use circular_buffer::HeapCircularBuffer;
use tm_batch::{Answer, AnswerBatch, Name};
use tm_pair::FitsBatches;

/// The ticket that an answer tells, if it is one to a launch.
fn ticket_of<S: FitsBatches>(answer: &Answer<S>) -> Option<u64>
    ensures { result ≡ ticket_in answer.now }
{
    match answer {
        Answer::Launched(ticket) => Some(*ticket),
        _ => None,
    }
}

/// Lets the first of what waits for answers, if there is one, arrive with an answer, or wait for the completion of the
/// launch whose ticket it is.
fn arrive_first<S: FitsBatches, C: Drop>(
    trustee: u32,
    answer: Answer<S>,
    afters: &mut HeapCircularBuffer<Waiting<C>>,
    launched: &mut HeapCircularBuffer<Unfinished<C>>,
    arrived: &mut HeapCircularBuffer<Arrival<S, C>>,
)
    requires room { length arrived.old.items + min 1 (length afters.old.items) ≤ arrived.old.capacity }
    requires launched { length launched.old.items + min 1 (length afters.old.items) ≤ launched.old.capacity }
    ensures arrived { arrived.new.items ≡ arrived.old.items ++ arrivals_of trustee afters.old.items (answer ∷ []) }
    ensures capacity { arrived.new.capacity ≡ arrived.old.capacity }
    ensures launched { launched.new.items ≡ launched.old.items ++ launches_of afters.old.items (answer ∷ []) }
    ensures launched_room { launched.new.capacity ≡ launched.old.capacity }
    ensures afters { afters.new.items ≡ drop 1 afters.old.items }
    ensures afters_room { afters.new.capacity ≡ afters.old.capacity }
{
    let Some(waiting) = afters.pop_front() else {
        return;
    };
    if let Some(ticket) = ticket_of(&answer) {
        let _ = launched.try_push_back(Unfinished {
            ticket,
            after: waiting.after,
            name: waiting.name,
        });
    } else {
        let _ = arrived.try_push_back(Arrival {
            trustee,
            name: waiting.name,
            after: waiting.after,
            came: Came::Answered(answer),
        });
    }
}

/// Lets each of what waits for answers arrive with the answer of its position, or wait for the completion of the launch
/// whose ticket it is. No answer is left then.
pub(crate) fn arrive<S: FitsBatches, C: Drop>(
    trustee: u32,
    batch: &mut AnswerBatch<S>,
    afters: &mut HeapCircularBuffer<Waiting<C>>,
    launched: &mut HeapCircularBuffer<Unfinished<C>>,
    arrived: &mut HeapCircularBuffer<Arrival<S, C>>,
)
    requires room { length arrived.old.items + min (length batch.old.answers.items) (length afters.old.items) ≤ arrived.old.capacity }
    requires launched { length launched.old.items + min (length batch.old.answers.items) (length afters.old.items) ≤ launched.old.capacity }
    ensures arrived { arrived.new.items ≡ arrived.old.items ++ arrivals_of trustee afters.old.items batch.old.answers.items }
    ensures capacity { arrived.new.capacity ≡ arrived.old.capacity }
    ensures launched { launched.new.items ≡ launched.old.items ++ launches_of afters.old.items batch.old.answers.items }
    ensures launched_room { launched.new.capacity ≡ launched.old.capacity }
    ensures count { length arrived.new.items + length launched.new.items ≡ length arrived.old.items + length launched.old.items + min (length batch.old.answers.items) (length afters.old.items) }
    ensures afters { afters.new.items ≡ drop (length batch.old.answers.items) afters.old.items }
    ensures afters_room { afters.new.capacity ≡ afters.old.capacity }
    ensures gifts { batch.new.gifts ≡ batch.old.gifts }
    ensures completions { batch.new.completions ≡ batch.old.completions }
{
    while !batch.answers.is_empty() {
        let answer = batch.answers.remove(0);
        arrive_first(trustee, answer, afters, launched, arrived);
    }
}

/// Lets gifts of trustee `trustee` wait to be taken.
pub(crate) fn receive(
    trustee: u32,
    client: u32,
    names: ArrayVec<Name, 16>,
    gifts: &mut HeapCircularBuffer<Trust>,
)
    requires room { length gifts.old.items + length names.items ≤ gifts.old.capacity }
    ensures gifts { gifts.new.items ≡ gifts.old.items ++ gifts_from trustee client names.items }
    ensures capacity { gifts.new.capacity ≡ gifts.old.capacity }
{
    let mut names = names;
    while !names.is_empty() {
        let name = names.remove(0);
        let _ = gifts.try_push_back(Trust {
            trustee,
            name,
            client,
            at: 0,
        });
    }
}

/// Takes in the answers of a trustee to the batch that was out, after which nothing is out. How many answers, gifts
/// and completions came.
pub(crate) fn take_in<S: FitsBatches, C: Drop, D>(
    books: &mut Books<S, C, D>,
    trustee: u32,
    batch: AnswerBatch<S>,
) -> u32
    requires trustee { trustee < length books.old.lanes.items }
    requires room { At books.old trustee (λ lane. MayReceive batch lane books.old) }
    ensures received { HasTakenIn trustee batch books.old books.new }
    ensures count { result ≡ length batch.answers.items + length batch.gifts.items + length batch.completions.items }
{
    let mut batch = batch;
    let gifts = batch.gifts.len() as u32;
    let count = batch.answers.len() as u32 + gifts + batch.completions.len() as u32;
    let lane = &mut books.lanes[trustee as usize];
    books.coming -= lane.room - gifts;
    lane.out = false;
    lane.room = 0;
    arrive(
        trustee,
        &mut batch,
        &mut lane.afters,
        &mut lane.launched,
        &mut books.arrived,
    );
    finish(trustee, &mut batch, &mut lane.launched, &mut books.arrived);
    receive(trustee, books.number, batch.gifts, &mut books.gifts);
    count
}

/// As many as are free, at most 16.
pub(crate) fn room_of(most: u32, held: usize, coming: u32) -> u32
    requires { held + coming ≤ most }
    ensures value { result ≡ min (most - (held + coming)) MOST_ROOM }
    ensures most { result ≤ MOST_ROOM }
    ensures fits { held + (coming + result) ≤ most }
{
    let free = most - held as u32 - coming;
    if free < 16 { free } else { 16 }
}
