//! What is due at a trustee where nothing is out.
ghost use Rattle.std.specs.Prelude.{◌≡◌, ◌≢◌, ◌≤◌, ◌<◌, ◌↔◌, ◌⊎◌, [], ◌∷◌, ◌++◌, length, take, drop, MatchOption, IsTrue, true, false};
ghost use Rattle.std.specs.declared.option.Option.TheVariants.{Some};
ghost use Rattle.tm_batch.specs.declared.batch.Batch.{Batch};
ghost use Rattle.tm_batch.specs.declared.limits.TheConstants.{MOST_REQUESTS, MOST_ROOM};
ghost use Rattle.tm_batch.specs.declared.message.Request.TheVariants.{Bye};
ghost use Rattle.tm_client.specs.Due.{WaitsDue, ByeDue, FetchDue, NothingDue, HasLeft};

use crate::lane::Lane;
use circular_buffer::HeapCircularBuffer;
use tm_batch::{Batch, MOST_REQUESTS, Request};
use tm_pair::FitsBatches;

/// A batch of the first of some requests, at most 16, which wait no more.
pub(crate) fn first_of<S: FitsBatches>(
    waits: &mut HeapCircularBuffer<Request<S>>,
    room: u32,
) -> Batch<S>
    requires room { room ≤ MOST_ROOM }
    ensures requests { result.requests.items ≡ take MOST_REQUESTS waits.old.items }
    ensures room { result.room ≡ room }
    ensures rest { waits.new.items ≡ drop MOST_REQUESTS waits.old.items }
    ensures capacity { waits.new.capacity ≡ waits.old.capacity }
{
    let mut batch = Batch::new(room);
    for _ in 0..MOST_REQUESTS {
        take_one(waits, &mut batch);
    }
    batch
}

/// Moves the first request that waits, if one does, behind those of a batch that has room.
fn take_one<S: FitsBatches>(waits: &mut HeapCircularBuffer<Request<S>>, batch: &mut Batch<S>)
    requires { length batch.old.requests.items < MOST_REQUESTS }
    ensures requests { batch.new.requests.items ≡ batch.old.requests.items ++ take 1 waits.old.items }
    ensures room { batch.new.room ≡ batch.old.room }
    ensures rest { waits.new.items ≡ drop 1 waits.old.items }
    ensures capacity { waits.new.capacity ≡ waits.old.capacity }
{
    let Some(request) = waits.pop_front() else {
        return;
    };
    let _ = batch.push(request);
}

/// A Bye alone.
fn bye_of<S: FitsBatches>(room: u32) -> Batch<S>
    requires room { room ≤ MOST_ROOM }
    ensures requests { result.requests.items ≡ Bye ∷ [] }
    ensures room { result.room ≡ room }
{
    let mut batch = Batch::new(room);
    let _ = batch.push(Request::Bye);
    batch
}

impl<S: FitsBatches, C: Drop, D> Lane<S, C, D> {
    /// Whether a Bye is due, where nothing waits.
    fn is_bye_due(&self) -> bool
        requires { self.now.waits.items ≡ [] }
        ensures { IsTrue result ↔ ByeDue self.now }
    {
        self.closing && !self.said && self.counting == 0
    }

    /// Whether a launch lacks its completion.
    fn has_launched(&self) -> bool
        ensures { IsTrue result ↔ (self.now.launched.items ≢ []) }
    {
        !self.launched.is_empty()
    }

    /// Whether something is to be fetched: `fetch` was called since the last batch, or a launch lacks its completion.
    fn is_fetching(&self) -> bool
        ensures { IsTrue result ↔ ((self.now.fetching ≡ true) ⊎ (self.now.launched.items ≢ [])) }
    {
        self.fetching || self.has_launched()
    }

    /// Whether an empty batch is due, where nothing waits and no Bye is due.
    fn is_fetch_due(&self) -> bool
        requires waits { self.now.waits.items ≡ [] }
        requires bye { ¬ (ByeDue self.now) }
        ensures { IsTrue result ↔ FetchDue self.now }
    {
        !self.said && self.is_fetching()
    }

    /// Whether nothing is due.
    pub(crate) fn is_idle(&self) -> bool
        ensures idle { IsTrue result → NothingDue self.now }
        ensures due { (result ≡ false) → ¬ (NothingDue self.now) }
    {
        if !self.waits.is_empty() {
            return false;
        }
        if self.is_bye_due() {
            return false;
        }
        !self.is_fetch_due()
    }

    /// Takes out what is due, with room for so many gifts.
    pub(crate) fn take_due(&mut self, room: u32) -> Option<Batch<S>>
        requires room { room ≤ MOST_ROOM }
        ensures due { MatchOption result (NothingDue self.old × (self.new ≡ self.old)) (λ batch. HasLeft batch.requests.items self.old self.new) }
        ensures room { (batch : Batch S S.Op S.Reply S.Task) → result ≡ Some batch → batch.room ≡ room }
    {
        if !self.waits.is_empty() {
            return Some(first_of(&mut self.waits, room));
        }
        if self.is_bye_due() {
            self.said = true;
            return Some(bye_of(room));
        }
        if self.is_fetch_due() {
            return Some(Batch::new(room));
        }
        None
    }
}
