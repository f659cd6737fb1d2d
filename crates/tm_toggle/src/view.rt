//! What a seat knows, for contracts alone.

use tm_batch::{Config, First};
use tm_ghost::GhostList;
use tm_model::Entry;
use tm_pair::{FitsBatches, Move};

/// What a seat knows. No program makes one.
pub struct View<S: FitsBatches> {
    /// The number of the trustee.
    pub number: u32,
    /// How the runtime was built.
    pub config: Config,
    /// The list of the build.
    pub first: GhostList<First<S>>,
    /// Whether it is the trustee's seat.
    pub trustee: bool,
    /// Whether it is a note that one seat leaves another.
    pub note: bool,
    /// The place of a client's seat.
    pub place: u32,
    /// Whether a client's seat took its slot.
    pub settled: bool,
    /// One more than the place whose slot the trustee has, or 0.
    pub up: u32,
    /// How many clients' seats the trustee made.
    pub made: u32,
    /// The calls at the table, up to the last one of this seat.
    pub past: GhostList<Move<S>>,
    /// The log that a note tells, or that the last note told that this seat took in.
    pub noted: GhostList<Entry<S>>,
}
