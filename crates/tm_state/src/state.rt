//! What a trustee has.
ghost use Rattle.std.specs.Prelude.{◌≡◌, ◌+◌, ◌^◌, ◌<◌, ◌≤◌, ◌↔◌, [], length, take, IsTrue, All, IfOk, IfErr, drop, slice_index_or, slice_set};
ghost use Rattle.tm_batch.specs.declared.limits.TheConstants.{MOST_COMPLETIONS};
ghost use Rattle.tm_objects.specs.Stock.{gifts_of, gifts_taken};
ghost use Rattle.tm_state.specs.Asking.{IsAnswerable, HasRunAll, HasAnswered, IsRunnable, HasRun, MayLeave, HasLeft, TellsEnd};
ghost use Rattle.tm_state.specs.Launches.{Grows};
ghost use Rattle.tm_state.specs.Opened.{IsOpenable, HasOpened};
ghost use Rattle.tm_state.specs.PlacedObjects.{MayPlace, placed, begun_with};

use crate::launches::Launches;
use crate::placing::place_on;
use crate::ready::Ready;
use std::alloc::{AllocError, Global};
use std::marker::Model;
use std::mem;
use tm_base::Gate;
use tm_batch::{
    Answer, AnswerBatch, Batch, Config, First, FitsAnswers, MOST_COMPLETIONS, MOST_ROOM, Request,
    WINDOW,
};
use tm_objects::Objects;
use tm_seq::Entrusted;

/// What one trustee has of its own, at some point of its log.
///
/// Launched work is accepted under a ticket, and [`resume`](TrusteeState::resume) lets it go on: of the launches on
/// one object one at a time, from its begin to its end, in the order in which they came. A launch that asks an
/// object above is handed out with its ask, and [`reply`](TrusteeState::reply) takes it back. The completion of one
/// that has ended leaves with an answer to its place.
#[derive(Drop)]
pub struct TrusteeState<S: Entrusted> {
    pub(crate) config: Config,
    pub(crate) number: u32,
    pub(crate) objects: Objects<S>,
    // By place, whether it has said `Bye`.
    pub(crate) closed: Vec<bool>,
    // The launches that have not ended.
    pub(crate) launches: Launches<S>,
    // By place, the completions that are ready for it.
    pub(crate) ready: Ready<S>,
    // How many tickets were given out.
    pub(crate) tickets: u64,
    // How many requests were run, and how many entries the log has, each `u64::MAX` where it is greater.
    pub(crate) run: u64,
    pub(crate) entries: u64,
}

impl<S: Entrusted> Model for TrusteeState<S> {
    ghost use Rattle.std.specs.Prelude.{◌≡◌, ◌+◌, ◌*◌, length};
    ghost use Rattle.tm_batch.specs.declared.limits.TheConstants.{WINDOW};
    ghost use Rattle.tm_state.specs.Launches.{Begins};
    ghost use Rattle.tm_state.specs.StateView.{StateView, state_view_code};

    ghost Value = { StateView S S.Op S.Reply S.Task };

    ghost coded = { state_view_code S.code S.Reply.code S.Task.code };

    ghost view = { λ a. record {
      config = a.config;
      number = a.number;
      stock = a.objects;
      closed = a.closed.items;
      launched = a.launches.launched;
      ready = a.ready;
      next_ticket = a.tickets + 1;
      run = a.run;
      entries = a.entries;
    } };

    // There is room for all launches that the places may have, and each that may begin is kept as such.
    ghost invariant = { λ a. (a.launches.room ≡ WINDOW * length a.closed.items) × Begins a.launches.launched a.launches.begins };
}

impl<S: Entrusted> TrusteeState<S> {
    /// What trustee `number` has at first, of a runtime built from a config and a list of objects of which
    /// `first` are those placed on it, in order. All room is reserved, so that nothing allocates afterwards but the
    /// operations: that of [`Objects::new`], and [`WINDOW`](tm_batch::WINDOW) launches and completions for each place.
    /// Where memory lacks the objects come back.
    pub fn new(
        alloc: Global,
        number: u32,
        config: Config,
        first: Vec<First<S>>,
    ) -> Result<TrusteeState<S>, Vec<First<S>>>
        requires { IsOpenable number config first.items }
        ensures opened { IfOk result (λ state. HasOpened S.kind number config first.items state) }
        ensures none { IfOk result (λ state. state.launched ≡ []) }
        ensures back { IfErr result (λ back. back.items ≡ first.items) }
    {
        let Ok(mut state) = TrusteeState::empty(alloc, number, config) else {
            return Err(first);
        };
        for object in first {
            state.place(object);
        }
        Ok(state)
    }

    // No object, with all room reserved.
    fn empty(alloc: Global, number: u32, config: Config) -> Result<TrusteeState<S>, AllocError>
        requires { config.clients + number < 2 ^ 24 }
        ensures { IfOk result (λ state. state ≡ begun_with S.Op S.Reply S.Task number config []) }
    {
        let places = config.clients + number;
        Ok(TrusteeState {
            config,
            number,
            objects: Objects::new(alloc, config.objects, config.last_id, places)?,
            closed: vec![in alloc; false; places as usize]?,
            launches: Launches::new(alloc, WINDOW as u32 * places)?,
            ready: Ready::new(alloc, places as usize)?,
            tickets: 0,
            run: 0,
            entries: 0,
        })
    }

    // Places an object of the build.
    fn place(&mut self, object: First<S>)
        requires { MayPlace object self.old.stock }
        ensures { self.new ≡ record self.old { stock = placed S.Task object self.old.stock } }
    {
        place_on(&mut self.objects, object);
    }

    /// Whether every place has said `Bye`. It costs a look at each place.
    pub fn is_closed(&self) -> bool
        ensures { TellsEnd S.kind self.now result }
    {
        are_all(self.closed.as_slice())
    }

    /// How many requests its log has run, or `u64::MAX` where that is greater.
    pub fn requests_run(&self) -> u64
        ensures { result ≡ self.now.run }
    {
        self.run
    }

    // Runs a request of a place, once it has passed the gate.
    fn run<G: Gate>(&mut self, gate: &G, place: u32, request: Request<S>) -> Answer<S>
        requires { IsRunnable S.kind place request self.old }
        ensures run { HasRun S.kind place request result self.old self.new }
        ensures launched { Grows self.old.launched self.new.launched }
    {
        gate.at(self.number, self.run);
        let answer = self.serve(place, request);
        self.run = self.run.saturating_add(1);
        self.entries = self.entries.saturating_add(1);
        answer
    }
}

impl<S: FitsAnswers> TrusteeState<S> {
    /// Runs all requests of a batch of a place, in order, each once it has passed the gate, and gives the
    /// answers that leave: one for each request, the gifts that wait for the place as far as the batch has room,
    /// and the completions that are ready for it, at most [`MOST_COMPLETIONS`], the longest waiting first. No
    /// launch goes on, and those that it accepts wait behind all others. Beside what the operations do it allocates
    /// nothing. Its time is that of the requests, the gifts and the completions; a `Bye` takes as long as its place
    /// holds objects and gifts.
    pub fn answer<G: Gate>(&mut self, gate: &G, place: u32, batch: Batch<S>) -> AnswerBatch<S>
        requires { IsAnswerable S.kind place batch.requests.items self.old }
        ensures answered { HasAnswered S.kind place batch.requests.items batch.room result self.old self.new }
        ensures launched { Grows self.old.launched self.new.launched }
    {
        let room = batch.room();
        let mut answers = AnswerBatch::new(0);
        self.run_all(gate, place, batch, &mut answers);
        self.leave(place, room, &mut answers);
        answers
    }

    // Runs all requests of a batch, and notes their answers.
    fn run_all<G: Gate>(
        &mut self,
        gate: &G,
        place: u32,
        mut batch: Batch<S>,
        answers: &mut AnswerBatch<S>,
    )
        requires empty { answers.old.answers.items ≡ [] }
        requires may { IsAnswerable S.kind place batch.requests.items self.old }
        ensures gifts { answers.new.gifts.items ≡ answers.old.gifts.items }
        ensures completions { answers.new.completions.items ≡ answers.old.completions.items }
        ensures ran { HasRunAll S.kind place batch.requests.items answers.new.answers.items self.old self.new }
        ensures launched { Grows self.old.launched self.new.launched }
    {
        // Each request is taken out where it stands, since an iterator would own the whole batch.
        for request in batch.requests.as_mut_slice() {
            let answer = self.run(gate, place, mem::take(request));
            answers.answers.push(answer);
        }
    }

    // Lets the answers to a batch of a place leave, with at most `room` of the gifts that wait for it, and at most
    // [`MOST_COMPLETIONS`] of the completions that are ready, the longest waiting first.
    fn leave(&mut self, place: u32, room: u32, answers: &mut AnswerBatch<S>)
        requires room { room ≤ MOST_ROOM }
        requires empty { answers.old.gifts.items ≡ [] }
        requires none { answers.old.completions.items ≡ [] }
        requires may { MayLeave S.kind place self.old }
        ensures answers { answers.new.answers.items ≡ answers.old.answers.items }
        ensures left { HasLeft S.kind place room answers.new self.old self.new }
        ensures launched { self.new.launched ≡ self.old.launched }
    {
        take_gifts(&mut self.objects, place, room, answers);
        take_ready(&mut self.ready, place, answers);
        self.entries = self.entries.saturating_add(1);
        answers.front = self.entries;
    }
}

// Takes at most `room` of the gifts that wait for a place, the longest waiting first.
fn take_gifts<S: FitsAnswers>(
    objects: &mut Objects<S>,
    place: u32,
    room: u32,
    answers: &mut AnswerBatch<S>,
)
    requires room { room ≤ MOST_ROOM }
    requires empty { answers.old.gifts.items ≡ [] }
    requires place { place < length objects.old.gifts }
    ensures answers { answers.new.answers.items ≡ answers.old.answers.items }
    ensures completions { answers.new.completions.items ≡ answers.old.completions.items }
    ensures gifts { answers.new.gifts.items ≡ take room (gifts_of objects.old.gifts place) }
    ensures taken { objects.new ≡ gifts_taken place room objects.old }
{
    for _ in 0..room {
        if let Some(gift) = objects.take_gift(place) {
            answers.gifts.push(gift);
        }
    }
}

// Takes at most [`MOST_COMPLETIONS`] of the completions that are ready for a place, the longest waiting first.
fn take_ready<S: FitsAnswers>(ready: &mut Ready<S>, place: u32, answers: &mut AnswerBatch<S>)
    requires empty { answers.old.completions.items ≡ [] }
    requires place { place < length ready.old }
    ensures answers { answers.new.answers.items ≡ answers.old.answers.items }
    ensures gifts { answers.new.gifts.items ≡ answers.old.gifts.items }
    ensures completions { answers.new.completions.items ≡ take MOST_COMPLETIONS (slice_index_or ready.old place []) }
    ensures taken { ready.new ≡ slice_set ready.old place (drop MOST_COMPLETIONS (slice_index_or ready.old place [])) }
{
    for _ in 0..ready.count(place).min(MOST_COMPLETIONS) {
        if let Some(completion) = ready.take(place) {
            answers.completions.push(completion);
        }
    }
}

// Whether each of some places is closed.
fn are_all(closed: &[bool]) -> bool
    ensures { IsTrue result ↔ All IsTrue closed.now }
{
    closed.iter().all(|closed| *closed)
}
