//! What each call does is what the definitions do to a trustee's state.
//!
//! Nothing here runs: each function states a law, for every kind of object. The stock of a state has
//! its live objects, with their launches counted, and the gifts that wait.
ghost use Rattle.tm_objects.specs.Standing.{EntrustsAlike, GrantsAlike, ReleasesAlike, ReclaimsAlike, ClosesAlike, LaunchesAlike, FinishesAlike, ChangesAlike, SendsAlike, TakesNone, TakesOneMore};

use tm_seq::Entrusted;

/// An object that was entrusted is what `entrust` adds.
pub fn entrusts_alike<S: Entrusted>()
    ensures { EntrustsAlike S S.Op S.Reply S.Task }
{}

/// A grant adds the hold and the gift that `grant` adds.
pub fn grants_alike<S: Entrusted>()
    ensures { GrantsAlike S S.Op S.Reply S.Task }
{}

/// A release takes away what `release` does.
pub fn releases_alike<S: Entrusted>()
    ensures { ReleasesAlike S S.Op S.Reply S.Task }
{}

/// An object that was reclaimed goes as by `reclaim`.
pub fn reclaims_alike<S: Entrusted>()
    ensures { ReclaimsAlike S S.Op S.Reply S.Task }
{}

/// A place that has said `Bye` leaves what `drop_client` leaves.
pub fn closes_alike<S: Entrusted>()
    ensures { ClosesAlike S S.Op S.Reply S.Task }
{}

/// A launch adds the hold that `begin` adds.
pub fn launches_alike<S: Entrusted>()
    ensures { LaunchesAlike S S.Op S.Reply S.Task }
{}

/// The end of launched work takes away the hold that `finish` does.
pub fn finishes_alike<S: Entrusted>()
    ensures { FinishesAlike S S.Op S.Reply S.Task }
{}

/// An operation changes the value that `value_mut` lends.
pub fn changes_alike<S: Entrusted>()
    ensures { ChangesAlike S S.Op S.Reply S.Task }
{}

/// The gifts that leave with a batch are those that so many calls of `take_gift` take.
pub fn sends_alike<S: Entrusted>()
    ensures sent { SendsAlike S S.Op S.Reply S.Task }
    ensures none { TakesNone S }
    ensures one_more { TakesOneMore S }
{}
