//! What stands in a slot, in arrays that stay there.
ghost use Rattle.std.specs.Prelude.{◌≡◌};
ghost use Rattle.tm_toggle.specs.Contents.{batch_in, answers_in, HasNoRequests, HasNoAnswers, no_content};

use crate::rows::{Row, blanks, put, take_out};
use tm_batch::{Answer, AnswerBatch, Batch, Completion, Name, Request, Room};
use tm_pair::FitsBatches;

/// Where the counts of a [`Content`] say how many requests stand there, answers, gifts and completions.
const REQUESTS: usize = 0;

const ANSWERS: usize = 1;

const GIFTS: usize = 2;

const COMPLETIONS: usize = 3;

/// What stands in a slot: nothing, a batch, or the answers to one.
///
/// A batch is moved in and out element by element, so that only the memory of what is in it changes
/// hands. The arrays are always full: how many of their elements count stands behind them all, so
/// that who puts elements in reads no count that the other side wrote, and who takes them out finds
/// all counts beside one another.
pub struct Content<S: FitsBatches> {
    pub(crate) front: u64,
    pub(crate) room: Room,
    pub(crate) requests: Row<Request<S>>,
    pub(crate) answers: Row<Answer<S>>,
    pub(crate) gifts: Row<Name>,
    pub(crate) completions: Row<Completion<S>>,
    /// Four counts; the others keep the next slot apart.
    pub(crate) counts: [u64; 16],
}

/// As a derived one, but proved here: a derived one is proved in each crate that drops a table.
impl<S: FitsBatches> Drop for Content<S> {
    fn drop(self) {
        let Content {
            front: _,
            room: _,
            requests: _,
            answers: _,
            gifts: _,
            completions: _,
            counts: _,
        } = self;
    }
}

impl<S: FitsBatches> Content<S> {
    /// Nothing.
    pub(crate) fn new() -> Content<S>
        ensures { result ≡ no_content S.kind }
    {
        Content {
            front: 0,
            room: Room::new(0),
            requests: blanks(),
            answers: blanks(),
            gifts: blanks(),
            completions: blanks(),
            counts: [0; 16],
        }
    }

    /// Puts a batch in.
    pub(crate) fn put_batch(&mut self, mut batch: Batch<S>)
        requires requests { HasNoRequests self.old }
        requires answers { HasNoAnswers self.old }
        ensures batch { batch_in self.new ≡ batch }
        ensures answers { HasNoAnswers self.new }
    {
        self.counts[REQUESTS] = batch.len() as u64;
        put(&mut self.requests, &mut batch.requests);
        self.room = batch.room;
    }

    /// Takes the batch out.
    pub(crate) fn take_batch(&mut self) -> Batch<S>
        requires answers { HasNoAnswers self.old }
        ensures batch { result ≡ batch_in self.old }
        ensures requests { HasNoRequests self.new }
        ensures answers { HasNoAnswers self.new }
    {
        let mut batch = Batch::new(self.room.gifts());
        let count = self.counts[REQUESTS] as usize;
        take_out(&mut self.requests, count, &mut batch.requests);
        self.counts[REQUESTS] = 0;
        batch
    }

    /// Puts answers in.
    pub(crate) fn put_answers(&mut self, mut answers: AnswerBatch<S>)
        requires requests { HasNoRequests self.old }
        requires answers { HasNoAnswers self.old }
        ensures answers { answers_in self.new ≡ answers }
        ensures requests { HasNoRequests self.new }
    {
        self.front = answers.front;
        self.counts[ANSWERS] = answers.answers.len() as u64;
        put(&mut self.answers, &mut answers.answers);
        self.counts[GIFTS] = answers.gifts.len() as u64;
        put(&mut self.gifts, &mut answers.gifts);
        self.counts[COMPLETIONS] = answers.completions.len() as u64;
        put(&mut self.completions, &mut answers.completions);
    }

    /// Takes the answers out.
    pub(crate) fn take_answers(&mut self) -> AnswerBatch<S>
        requires requests { HasNoRequests self.old }
        ensures answers { result ≡ answers_in self.old }
        ensures requests { HasNoRequests self.new }
        ensures none { HasNoAnswers self.new }
    {
        let mut answers = AnswerBatch::new(self.front);
        let count = self.counts[ANSWERS] as usize;
        take_out(&mut self.answers, count, &mut answers.answers);
        self.counts[ANSWERS] = 0;
        let count = self.counts[GIFTS] as usize;
        take_out(&mut self.gifts, count, &mut answers.gifts);
        self.counts[GIFTS] = 0;
        let count = self.counts[COMPLETIONS] as usize;
        take_out(&mut self.completions, count, &mut answers.completions);
        self.counts[COMPLETIONS] = 0;
        answers
    }
}
