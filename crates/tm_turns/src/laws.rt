//! What holds of launched work on one thread, between any two turns.
//!
//! Nothing here runs: each function states a law.
ghost use Rattle.tm_turns.specs.Laws.{AreAllLatched, AreAllTied};

use tm_pair::FitsTable;

/// Launched work on one object runs one at a time, in the order of its launches, each ended before the next begins: in
/// all that each trustee has done, and so in its log.
pub fn launches_are_latched<S: FitsTable, C: Drop>()
    ensures { AreAllLatched C S.kind }
{}

/// What each trustee has done is tied to each of its sides above: what it sent there is a front of what its work asked,
/// in order, or all of it and a `Bye`; the j-th reply from there was told to the ticket that made the j-th ask; and it
/// is the j-th answer to its place in the log that its own side there has seen.
pub fn asks_are_tied<S: FitsTable, C: Drop>()
    ensures { AreAllTied C S.kind }
{}
