//! What trustees are between commands.
ghost use Rattle.tm_rest.specs.Resting.{RestsAreIdle};

use tm_pair::FitsTable;

/// Where no request of a client counts, no launch is unfinished. Each trustee has run all that each client sent, and for a
/// lower trustee just what that one's launched work asked, in order, with the replies that it was told.
pub fn rests_are_idle<S: FitsTable, C: Drop>()
    ensures { RestsAreIdle C S.kind }
{}
