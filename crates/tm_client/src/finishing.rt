//! What a turn does with the completions of a batch.
ghost use Rattle.std.specs.Prelude.{◌≡◌, ◌≢◌, nat_eq, ◌+◌, ◌<◌, ◌≤◌, ◌↔◌, ◌++◌, length, drop, take, remove, slice_get, IsTrue, IfSome, IfNone};
ghost use Rattle.std.specs.List.{AllByRecursion, IsDistinct};
ghost use Rattle.tm_client.specs.Launches.{ended_tickets, tickets_of, HasTicket, other_launches, launches_left, finished_by, finished_of};

use crate::answers::{Arrival, Came};
use crate::lane::Unfinished;
use circular_buffer::HeapCircularBuffer;
use tm_batch::{AnswerBatch, Completion};
use tm_pair::FitsBatches;

/// Moves the first item, if there is one, behind the others.
fn send_behind<T: Drop>(ring: &mut HeapCircularBuffer<T>)
    requires fits { length ring.old.items ≤ ring.old.capacity }
    ensures items { ring.new.items ≡ drop 1 ring.old.items ++ take 1 ring.old.items }
    ensures capacity { ring.new.capacity ≡ ring.old.capacity }
{
    let Some(item) = ring.pop_front() else {
        return;
    };
    let _ = ring.try_push_back(item);
}

/// Moves the first `count` items behind the others.
fn rotate<T: Drop>(ring: &mut HeapCircularBuffer<T>, count: usize)
    requires count { count ≤ length ring.old.items }
    requires fits { length ring.old.items ≤ ring.old.capacity }
    ensures items { ring.new.items ≡ drop count ring.old.items ++ take count ring.old.items }
    ensures capacity { ring.new.capacity ≡ ring.old.capacity }
{
    for _ in 0..count {
        send_behind(ring);
    }
}

/// Takes out the item at `at`, counted from the front. The first costs a constant time, another a move of each item.
fn take_out<T: Drop>(ring: &mut HeapCircularBuffer<T>, at: usize) -> Option<T>
    requires { at < length ring.old.items }
    ensures taken { result ≡ slice_get ring.old.items at }
    ensures items { ring.new.items ≡ remove ring.old.items at }
    ensures capacity { ring.new.capacity ≡ ring.old.capacity }
{
    if at == 0 {
        return ring.pop_front();
    }
    let behind = ring.len() - at - 1;
    rotate(ring, at);
    let item = ring.pop_front();
    rotate(ring, behind);
    item
}

/// Whether the launch at `at`, counted from the front, is that of a ticket.
fn is_of<C: Drop>(launched: &HeapCircularBuffer<Unfinished<C>>, at: usize, ticket: u64) -> bool
    ensures { IsTrue result ↔ HasTicket launched.now.items at ticket }
{
    match launched.get(at) {
        Some(launch) => launch.ticket == ticket,
        None => false,
    }
}

/// Where the launch of a ticket stands, counted from the front, if it is there: looked for from the front.
fn place_of<C: Drop>(launched: &HeapCircularBuffer<Unfinished<C>>, ticket: u64) -> Option<usize>
    ensures there { IfSome result (λ at. HasTicket launched.now.items at ticket) }
    ensures absent { IfNone result (AllByRecursion (λ l. l.ticket ≢ ticket) launched.now.items) }
{
    for at in 0..launched.len() {
        if is_of(launched, at, ticket) {
            return Some(at);
        }
    }
    None
}

/// Lets the launch of a completion, if it is there, arrive with it.
fn finish_one<S: FitsBatches, C: Drop>(
    trustee: u32,
    completion: Completion<S>,
    launched: &mut HeapCircularBuffer<Unfinished<C>>,
    arrived: &mut HeapCircularBuffer<Arrival<S, C>>,
)
    requires once { IsDistinct nat_eq (tickets_of launched.old.items) }
    requires room { length arrived.old.items + length launched.old.items ≤ arrived.old.capacity }
    ensures arrived { arrived.new.items ≡ arrived.old.items ++ finished_by trustee launched.old.items completion }
    ensures capacity { arrived.new.capacity ≡ arrived.old.capacity }
    ensures launched { launched.new.items ≡ other_launches completion.ticket launched.old.items }
    ensures launched_room { launched.new.capacity ≡ launched.old.capacity }
{
    let Some(at) = place_of(launched, completion.ticket) else {
        return;
    };
    if let Some(launch) = take_out(launched, at) {
        let _ = arrived.try_push_back(Arrival {
            trustee,
            name: launch.name,
            after: launch.after,
            came: Came::Finished(completion.reply),
        });
    }
}

/// Lets the launch of each completion arrive with it, in the order of the completions, of which none is left then.
pub(crate) fn finish<S: FitsBatches, C: Drop>(
    trustee: u32,
    batch: &mut AnswerBatch<S>,
    launched: &mut HeapCircularBuffer<Unfinished<C>>,
    arrived: &mut HeapCircularBuffer<Arrival<S, C>>,
)
    requires once { IsDistinct nat_eq (tickets_of launched.old.items) }
    requires ended { IsDistinct nat_eq (ended_tickets batch.old.completions.items) }
    requires room { length arrived.old.items + length launched.old.items ≤ arrived.old.capacity }
    ensures arrived { arrived.new.items ≡ arrived.old.items ++ finished_of trustee launched.old.items batch.old.completions.items }
    ensures capacity { arrived.new.capacity ≡ arrived.old.capacity }
    ensures launched { launched.new.items ≡ launches_left (ended_tickets batch.old.completions.items) launched.old.items }
    ensures launched_room { launched.new.capacity ≡ launched.old.capacity }
    ensures gifts { batch.new.gifts ≡ batch.old.gifts }
{
    while !batch.completions.is_empty() {
        let completion = batch.completions.remove(0);
        finish_one(trustee, completion, launched, arrived);
    }
}
