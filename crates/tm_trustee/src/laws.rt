//! What holds of each trustee that is ready for a turn.
//!
//! Nothing here runs: each function states a law.
ghost use Rattle.tm_trustee.specs.Laws.{AreTied, AreLatched};

use tm_pair::{FitsBatches, PairTable};

/// What a trustee has done is tied to each of its sides above: what it sent there is a front of what its work asked, in
/// order, or all of it and a `Bye`; the j-th reply from there was told to the ticket that made the j-th ask; and it is
/// the j-th answer to its place in the log that its own side there has seen.
pub fn trustees_are_tied<S: FitsBatches, P: PairTable<S>>()
    ensures { AreTied P.theory S.kind }
{}

/// Launched work on one object runs one at a time, in the order of its launches, each ended before the next begins: in
/// all that a trustee has done, and so in its log.
pub fn trustees_are_latched<S: FitsBatches, P: PairTable<S>>()
    ensures { AreLatched P.theory S.kind }
{}
