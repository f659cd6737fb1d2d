//! One place of a table in one thread.
ghost use Rattle.std.specs.Prelude.{◌≡◌, ◌↔◌, false, not, IsTrue};
ghost use Rattle.tm_pair.specs.declared.place.Content.TheVariants.{Empty, Asked, Taken, Answered};
ghost use Rattle.tm_pair.specs.Places.{IsNewPlace, KeepsWords, Gave, Found};

use crate::fits_batches::FitsBatches;
use crate::table::Collected;
use std::mem;
use tm_batch::{AnswerBatch, Batch};

/// What stands in the slot of a place.
#[derive(Drop)]
pub(crate) enum Content<S: FitsBatches> {
    Empty,
    /// A batch that was published.
    Asked(Batch<S>),
    /// The trustee has a batch in hand.
    Taken,
    /// The answers to a batch.
    Answered(AnswerBatch<S>),
}

/// A place: its two words, and its slot.
#[derive(Drop)]
pub(crate) struct Place<S: FitsBatches> {
    pub(crate) request_word: bool,
    pub(crate) response_word: bool,
    pub(crate) content: Content<S>,
}

impl<S: FitsBatches> Place<S> {
    /// A place at first.
    pub(crate) fn new() -> Place<S>
        ensures { IsNewPlace result }
    {
        Place {
            request_word: false,
            response_word: false,
            content: Content::Empty,
        }
    }

    /// Whether nothing stands in the slot.
    pub(crate) fn is_free(&self) -> bool
        ensures { IsTrue result ↔ (self.now.content ≡ Empty) }
    {
        match &self.content {
            Content::Empty => true,
            Content::Asked(_) => false,
            Content::Taken => false,
            Content::Answered(_) => false,
        }
    }

    /// Publishes a batch.
    pub(crate) fn publish(&mut self, batch: Batch<S>)
        ensures request { self.new.request_word ≡ not self.old.request_word }
        ensures response { self.new.response_word ≡ self.old.response_word }
        ensures content { self.new.content ≡ Asked batch }
    {
        self.request_word = !self.request_word;
        self.content = Content::Asked(batch);
    }

    /// Gives a batch that was published, which is then taken.
    pub(crate) fn see(&mut self) -> Option<Batch<S>>
        ensures gave { Gave self.old.content self.new.content result }
        ensures words { KeepsWords self.old self.new }
    {
        match mem::replace(&mut self.content, Content::Empty) {
            Content::Asked(batch) => {
                self.content = Content::Taken;
                Some(batch)
            }
            Content::Empty => None,
            Content::Taken => {
                self.content = Content::Taken;
                None
            }
            Content::Answered(answers) => {
                self.content = Content::Answered(answers);
                None
            }
        }
    }

    /// Puts answers where a batch was taken.
    pub(crate) fn answer(&mut self, answers: AnswerBatch<S>)
        requires { self.old.content ≡ Taken }
        ensures request { self.new.request_word ≡ self.old.request_word }
        ensures response { self.new.response_word ≡ not self.old.response_word }
        ensures content { self.new.content ≡ Answered answers }
    {
        self.response_word = !self.response_word;
        self.content = Content::Answered(answers);
    }

    /// Gives answers that stand there, and the slot is free then.
    pub(crate) fn collect(&mut self) -> Collected<S>
        ensures found { Found self.old.content self.new.content result }
        ensures words { KeepsWords self.old self.new }
    {
        match mem::replace(&mut self.content, Content::Empty) {
            Content::Answered(answers) => Collected::Answers(answers),
            Content::Empty => Collected::Idle,
            Content::Asked(batch) => {
                self.content = Content::Asked(batch);
                Collected::Pending
            }
            Content::Taken => {
                self.content = Content::Taken;
                Collected::Pending
            }
        }
    }
}
