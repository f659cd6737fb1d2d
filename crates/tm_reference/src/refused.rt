//! Why a call did nothing.

use tm_batch::Request;
use tm_seq::{Entrusted, Event};

/// Why a request was not served. It is handed back.
#[derive(Drop)]
pub enum NotServed<S: Entrusted> {
    /// No answer to it may come: the place is none of the table's, the id is not live or not held by
    /// the place, or the grant is to no client.
    NotLegal(Request<S>),
    /// There was no memory, or as many requests of the place were run as are counted.
    NoMemory(Request<S>),
}

/// Why no work was resumed. The event is handed back.
#[derive(Drop)]
pub enum NotResumed<S: Entrusted> {
    /// No launched work on the id may be told the event: the id is not live, nothing is launched on
    /// it, or its first launch awaits another event.
    NotLegal(Event<S::Reply>),
    /// There was no memory.
    NoMemory(Event<S::Reply>),
}

/// Why no answers left.
#[derive(Debug, Clone, Copy, PartialEq, Eq)]
pub enum NotSent {
    /// The place is none of the table's, or the room is above [`MOST_ROOM`](tm_batch::MOST_ROOM).
    NotLegal,
    /// There was no memory.
    NoMemory,
}
