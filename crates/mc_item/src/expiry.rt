//! When an item expires.
ghost use Rattle.std.specs.Prelude.{◌≡◌, ◌≤◌, ◌^◌};
ghost use Rattle.mc_item.specs.Expiry.{due_at, is_expired, IsDueBelow};

use crate::limits::{LATEST_TIME, LONGEST_RELATIVE};

/// When an item expires.
#[derive(Clone, Copy, Debug, PartialEq, Eq)]
pub enum Expiry {
    /// Never.
    Never,
    /// At a moment, in seconds, and from then on.
    At(u64),
}

/// When an item that is written at the moment `now` with this exptime expires. An exptime of 0 is
/// never, and a negative one at once.
#[tactic(auto, unfolding(crate::specs::Expiry::due_at))]
pub fn due(exptime: i64, now: u64) -> Expiry
    requires { now ≤ LATEST_TIME }
    ensures due { result ≡ due_at exptime now }
    ensures below { IsDueBelow (2 ^ 63) result }
{
    if exptime == 0 {
        return Expiry::Never;
    }
    if exptime < 0 {
        return Expiry::At(0);
    }
    let seconds = exptime as u64;
    if seconds <= LONGEST_RELATIVE {
        Expiry::At(now + seconds)
    } else {
        Expiry::At(seconds)
    }
}

/// Whether an item is expired at the moment `now`.
pub fn expired(due: Expiry, now: u64) -> bool
    ensures { result ≡ is_expired due now }
{
    match due {
        Expiry::Never => false,
        Expiry::At(moment) => moment <= now,
    }
}
