//! What comes of launched work that was resumed.

use tm_seq::Entrusted;

/// What the caller is told.
#[derive(Drop)]
pub enum Resumed<S: Entrusted> {
    /// The work under that ticket asks an object of another trustee.
    Asked {
        /// The ticket of the launch.
        ticket: u64,
        /// The number of the trustee that is asked.
        trustee: u32,
        /// Which of the objects held there, from 0.
        index: u32,
        /// The operation.
        op: S::Op,
    },
    /// The work under that ticket has ended, and its completion is ready.
    Ended {
        /// The ticket of the launch.
        ticket: u64,
    },
}

/// What an object tells of it.
#[derive(Drop)]
pub(crate) enum Advance<S: Entrusted> {
    Asks {
        ticket: u64,
        trustee: u32,
        index: u32,
        op: S::Op,
    },
    Ends {
        ticket: u64,
        reply: S::Reply,
    },
}
