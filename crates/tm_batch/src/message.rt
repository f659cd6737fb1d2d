//! Requests, and the answers to them.
ghost use Rattle.std.specs.Prelude.{◌≡◌, []};
ghost use Rattle.tm_batch.specs.declared.message.Request.TheVariants.{Bye};
ghost use Rattle.tm_batch.specs.declared.message.Answer.TheVariants.{ByeDone};

use crate::limits::{MOST_COMPLETIONS, MOST_LEAVING, MOST_REQUESTS};
use arrayvec::ArrayVec;
use tm_seq::Entrusted;

/// The name of an object at its trustee.
#[derive(Debug, Clone, Copy, Default, PartialEq, Eq)]
pub struct Name {
    /// The object's number, which is never given to another object.
    pub id: u64,
    /// Where the trustee keeps the object.
    pub place: u32,
}

/// What a place may ask of a trustee.
#[derive(Drop)]
pub enum Request<S: Entrusted> {
    /// Takes a value as an object of the trustee.
    Entrust(S),
    /// Runs an operation on an object.
    Apply(Name, S::Op),
    /// Launches work on an object.
    Launch(Name, S::Task),
    /// Gives one more hold on an object to the client of that number.
    Grant(Name, u32),
    /// Gives one hold up.
    Release(Name),
    /// Takes the value back, where no other hold is left.
    Reclaim(Name),
    /// Is the last request of its place.
    Bye,
}

/// Why an object was not taken.
#[derive(Debug, Clone, Copy, PartialEq, Eq)]
pub enum Refusal {
    /// As many objects are live as may be.
    ObjectsFull,
    /// The last id was given out.
    SerialsSpent,
}

/// What a trustee answers to a request.
#[derive(Drop)]
pub enum Answer<S: Entrusted> {
    /// To `Entrust`: the object's name.
    Entrusted(Name),
    /// To `Entrust`: why not, and the value.
    NotEntrusted(Refusal, S),
    /// To `Apply`: the object's reply.
    Replied(S::Reply),
    /// To `Launch`: the ticket, under which the completion comes later.
    Launched(u64),
    /// To `Launch`: the last ticket was given out; the task.
    TicketsSpent(S::Task),
    /// To `Grant`: the gift waits for the other client.
    Granted,
    /// To `Grant`: the other client has said `Bye`.
    Gone,
    /// To `Grant`: no further gift may wait for the other client.
    GiftsFull,
    /// To `Release`.
    Released,
    /// To `Reclaim`: the value.
    Reclaimed(S),
    /// To `Reclaim`: another hold is left, and the hold stays.
    Shared,
    /// To `Bye`.
    ByeDone,
}

/// What launched work ended with.
#[derive(Drop)]
pub struct Completion<S: Entrusted> {
    /// The ticket of the launch.
    pub ticket: u64,
    /// The object's reply.
    pub reply: S::Reply,
}

/// The answers to one batch of requests, and what leaves with them.
#[derive(Drop)]
pub struct AnswerBatch<S: Entrusted> {
    /// The length of the trustee's log after the entries of this batch, or `u64::MAX` where that is
    /// greater.
    pub front: u64,
    /// One answer for each request, in order, at most [`MOST_REQUESTS`].
    pub answers: ArrayVec<Answer<S>, MOST_REQUESTS>,
    /// The gifts that waited longest, as many as the batch had room for, at most
    /// [`MOST_ROOM`](crate::MOST_ROOM).
    pub gifts: ArrayVec<Name, MOST_LEAVING>,
    /// The completions that waited longest, at most [`MOST_COMPLETIONS`].
    pub completions: ArrayVec<Completion<S>, MOST_COMPLETIONS>,
}

impl<S: Entrusted> AnswerBatch<S> {
    /// An answer batch with nothing in it.
    pub fn new(front: u64) -> AnswerBatch<S>
        ensures front { result.front ≡ front }
        ensures answers { result.answers.items ≡ [] }
        ensures gifts { result.gifts.items ≡ [] }
        ensures completions { result.completions.items ≡ [] }
    {
        AnswerBatch {
            front,
            answers: ArrayVec::new(),
            gifts: ArrayVec::new(),
            completions: ArrayVec::new(),
        }
    }
}

/// What stands in a free place of a batch.
impl<S: Entrusted> Default for Request<S> {
    ghost is_default = { λ q. q ≡ Bye };

    fn default() -> Self {
        Request::Bye
    }
}

/// What stands in a free place of an answer batch.
impl<S: Entrusted> Default for Answer<S> {
    ghost is_default = { λ a. a ≡ ByeDone };

    fn default() -> Self {
        Answer::ByeDone
    }
}

/// What stands in a free place of an answer batch.
impl<S: Entrusted> Default for Completion<S> {
    ghost is_default = { λ c. (c.ticket ≡ 0) × (c.reply ≡ S.kind.no_memory) };

    fn default() -> Self {
        Completion {
            ticket: 0,
            reply: S::no_memory(),
        }
    }
}
