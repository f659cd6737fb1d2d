//! What the calls of a client answer.

use crate::trust::Trust;
use tm_batch::{Answer, Name, Refusal};
use tm_seq::Entrusted;

/// Why a request was not accepted.
#[derive(Debug, Clone, Copy, PartialEq, Eq)]
pub enum Why {
    /// The trust names another client, or the client's list lacks it.
    NotHeld = 1,
    /// [`WINDOW`](tm_batch::WINDOW) requests count at the trustee.
    WindowFull = 2,
    /// `close` was called for the trustee.
    Closed = 3,
    /// The client's trusts and what may bring trusts are as many as may be.
    TrustsFull = 4,
    /// No client has that number.
    NoClient = 5,
}

/// A request that was not accepted: why, and what was passed.
#[derive(Debug, Drop)]
pub struct Refused<A> {
    /// Why.
    pub why: Why,
    /// What was passed.
    pub back: A,
}

/// What comes of a request of a client: its answer, or the completion of its launch.
#[derive(Drop)]
pub enum Got<S: Entrusted> {
    /// The value was taken: a trust of it.
    Entrusted(Trust),
    /// The value was not taken: why, and the value.
    NotEntrusted(Refusal, S),
    /// The reply of the object.
    Replied(S::Reply),
    /// What launched work ended with.
    Finished(S::Reply),
    /// The last ticket was given out; the task.
    TicketsSpent(S::Task),
    /// The gift waits for the other client.
    Granted,
    /// The other client has said `Bye`.
    Gone,
    /// No further gift may wait for the other client.
    GiftsFull,
    /// The hold was given up.
    Released,
    /// The value, of which no other hold was left.
    Reclaimed(S),
    /// Another hold is left: the trust.
    Shared(Trust),
}

/// What a turn at a trustee did.
#[derive(Debug, Clone, Copy, PartialEq, Eq)]
pub enum Turn {
    /// It published so many requests.
    Sent(u32),
    /// It looked for answers and found none.
    Pending,
    /// It got so many answers, gifts and completions.
    Got(u32),
    /// There was nothing to do.
    Idle,
}

/// What came for a request.
#[derive(Drop)]
pub enum Came<S: Entrusted> {
    /// The answer to it.
    Answered(Answer<S>),
    /// The reply with which the work ended that it launched.
    Finished(S::Reply),
}

/// What came for a request and was not taken: of which trustee, the request's name and continuation, and what came.
#[derive(Drop)]
pub struct Arrival<S: Entrusted, C> {
    /// The number of the trustee.
    pub trustee: u32,
    /// The name that the request had; the default name for an entrust.
    pub name: Name,
    /// The continuation of the request.
    pub after: C,
    /// The answer to the request, or the completion of its launch.
    pub came: Came<S>,
}
