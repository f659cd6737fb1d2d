//! Whether a runtime may be built.
ghost use Rattle.std.specs.Prelude.{◌≡◌, ℕ, ◌≤◌, ◌<◌, ◌↔◌, nat_eq, length, count_by, IsTrue, All};
ghost use Rattle.std.specs.List.{IsDistinct};
ghost use Rattle.tm_batch.specs.declared.limits.TheConstants.{MOST_CLIENTS, MOST_TRUSTEES};
ghost use Rattle.tm_model.specs.Opening.{is_named, placed_on, IsBuildable};
ghost use Rattle.tm_build.specs.Checking.{IsInRange, IsWellPlaced, HasRoomOn, IsFewFor};

use tm_batch::{
    Config, FEWEST_TRUSTEES, First, MOST_CLIENTS, MOST_OBJECTS, MOST_TRUSTEES, MOST_TRUSTS,
};

/// Whether the numbers of a config are within their limits.
fn is_in_range(config: Config) -> bool
    ensures { IsTrue result ↔ IsInRange config }
{
    let clients = 1 <= config.clients && config.clients <= MOST_CLIENTS;
    let trustees = FEWEST_TRUSTEES <= config.trustees && config.trustees <= MOST_TRUSTEES;
    let objects = 1 <= config.objects && config.objects <= MOST_OBJECTS;
    let trusts = 1 <= config.trusts && config.trusts <= MOST_TRUSTS;
    clients && trustees && objects && trusts && 1 <= config.last_id
}

/// Whether no place stands twice among some.
fn is_distinct(places: &[u32]) -> bool
    ensures { IsTrue result ↔ IsDistinct nat_eq places.now }
{
    for i in 0..places.len() {
        if places[..i].contains(&places[i]) {
            return false;
        }
    }
    true
}

/// Whether each of some places is below a number.
fn are_below(places: &[u32], end: u32) -> bool
    ensures { IsTrue result ↔ All (λ h. h < end) places.now }
{
    places.iter().all(|place| *place < end)
}

/// Whether an object is placed on a trustee and has holders, each once, which may hold it.
fn is_well_placed<S>(config: Config, f: &First<S>) -> bool
    requires clients { config.clients ≤ MOST_CLIENTS }
    requires trustees { config.trustees ≤ MOST_TRUSTEES }
    ensures { IsTrue result ↔ IsWellPlaced config f.now }
{
    let places = f.holders.places();
    f.trustee < config.trustees
        && !places.is_empty()
        && are_below(places, config.clients + f.trustee)
        && is_distinct(places)
}

/// Whether each object is.
fn are_well_placed<S>(config: Config, first: &Vec<First<S>>) -> bool
    requires clients { config.clients ≤ MOST_CLIENTS }
    requires trustees { config.trustees ≤ MOST_TRUSTEES }
    ensures { IsTrue result ↔ All (IsWellPlaced config) first.now.items }
{
    for f in first {
        if !is_well_placed(config, f) {
            return false;
        }
    }
    true
}

/// How many objects are placed on a trustee.
fn count_on<S>(first: &Vec<First<S>>, trustee: u32) -> usize
    ensures { result ≡ length (placed_on trustee first.now.items) }
{
    let mut count = 0;
    for f in first {
        count += usize::from(f.trustee == trustee);
    }
    count
}

/// Whether no trustee begins with more objects than may be live, or than there are ids.
fn has_room<S>(config: Config, first: &Vec<First<S>>) -> bool
    ensures { IsTrue result ↔ ((t : ℕ) → t < config.trustees → HasRoomOn config first.now.items t) }
{
    for trustee in 0..config.trustees {
        let count = count_on(first, trustee);
        if count > config.objects as usize || count as u64 > config.last_id {
            return false;
        }
    }
    true
}

/// Whether an object names a place as a holder.
pub(crate) fn names<S>(f: &First<S>, place: u32) -> bool
    ensures { result ≡ is_named place f.now }
{
    f.holders.places().contains(&place)
}

/// How many objects name a place.
fn count_naming<S>(first: &Vec<First<S>>, place: u32) -> usize
    ensures { result ≡ count_by (is_named place) first.now.items }
{
    let mut count = 0;
    for f in first {
        count += usize::from(names(f, place));
    }
    count
}

/// Whether no client begins with more trusts than it may hold.
fn are_few<S>(config: Config, first: &Vec<First<S>>) -> bool
    ensures { IsTrue result ↔ ((c : ℕ) → c < config.clients → IsFewFor config first.now.items c) }
{
    for client in 0..config.clients {
        if count_naming(first, client) > config.trusts as usize {
            return false;
        }
    }
    true
}

/// Whether a runtime may be built from a config and a list of objects: 1 to 64 clients, 2 to 32 trustees, 1 to 4,096
/// objects and trusts, at least one id; each object is placed on a trustee, and has holders, each once, which are clients or
/// trustees of a smaller number than its own; no trustee begins with more objects than may be live or than there are ids,
/// and no client with more trusts than it may hold. It takes a time for each object and each client and trustee.
pub fn is_buildable<S>(config: Config, first: &Vec<First<S>>) -> bool
    ensures { IsTrue result ↔ IsBuildable config first.now.items }
{
    is_in_range(config)
        && are_well_placed(config, first)
        && has_room(config, first)
        && are_few(config, first)
}
