//! What stands in a trustee's log.

use tm_batch::{Answer, Request};
use tm_seq::{Entrusted, Event, Next};

/// An entry of a trustee's log. No program makes one: contracts speak of lists of them.
#[derive(Drop)]
pub enum Entry<S: Entrusted> {
    /// A request was answered.
    By {
        /// The place whose request it is.
        place: u32,
        /// How many requests of that place were answered before.
        number: u64,
        /// The request.
        request: Request<S>,
        /// Its answer.
        answer: Answer<S>,
    },
    /// Launched work went on.
    Resume {
        /// The id of its object.
        id: u64,
        /// The ticket of its launch.
        ticket: u64,
        /// What it was told.
        event: Event<S::Reply>,
        /// What it does next.
        next: Next<S::Op, S::Task, S::Reply>,
    },
    /// The answers to a batch left.
    Sent {
        /// The place whose batch it is.
        place: u32,
        /// The room of the batch.
        room: u32,
    },
}
