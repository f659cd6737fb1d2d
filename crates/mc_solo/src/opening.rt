//! A runtime over the store is built, for sessions on one thread.
ghost use Rattle.std.specs.Prelude.{◌≡◌, ℕ, ◌≤◌, List, length, map, slice_get, Some, IfOk};
ghost use Rattle.tm_batch.specs.declared.limits.TheConstants.{MOST_CLIENTS, FEWEST_TRUSTEES, MOST_TRUSTEES};
ghost use Rattle.tm_client.specs.declared.trust.Trust.{Trust};
ghost use Rattle.tm_turns.specs.Whole.{AreTurns};
ghost use Rattle.tm_turns.specs.Making.{HasBuilt};
ghost use Rattle.mc_item.specs.declared.limits.TheConstants.{MOST_ITEMS};
ghost use Rattle.mc_next.specs.Parts.{store_kind};
ghost use Rattle.mc_route.specs.Places.{store_first};
ghost use Rattle.mc_solo.specs.Serving.{MayServe, store_config};

use mc_item::CLASSES;
use mc_route::{Store, store_first};
use std::alloc::{AllocError, Global};
use std::hash::RandomState;
use tm_batch::Config;
use tm_client::Trust;
use tm_turns::Turns;

/// Builds clients, tables and trustees over a new store, whose classes hold at most `bound` items each; and the trusts of
/// each client, those of the 64 classes and then of the desk, with which it may be served
/// ([`serve_in_turns`](crate::serve_in_turns)). All of the runtime's room is reserved here. An `Err` is want of memory.
pub fn open_store(
    alloc: Global,
    clients: u32,
    trustees: u32,
    bound: u32,
    hasher: RandomState,
) -> Result<(Turns<Store, u64>, Vec<Vec<Trust>>), AllocError>
    requires one { 1 ≤ clients }
    requires clients { clients ≤ MOST_CLIENTS }
    requires trustees { FEWEST_TRUSTEES ≤ trustees }
    requires most { trustees ≤ MOST_TRUSTEES }
    requires some { 1 ≤ bound }
    requires bound { bound ≤ MOST_ITEMS }
    // All is as a build makes it of the store's objects: new clients, empty classes of that bound, and the desk.
    ensures built { IfOk result (λ r. HasBuilt store_kind (store_config clients trustees) (store_first clients trustees bound) r.0 (map (λ l. l.items) r.1.items)) }
    ensures are { IfOk result (λ r. AreTurns store_kind r.0) }
    ensures clients { IfOk result (λ r. length r.1.items ≡ clients) }
    ensures may { IfOk result (λ r. (c : ℕ) (trusts : List Trust) → slice_get (map (λ l. l.items) r.1.items) c ≡ Some trusts → MayServe c trusts r.0) }
{
    let config = Config {
        clients,
        trustees,
        objects: CLASSES,
        trusts: CLASSES + 1,
        last_id: u64::MAX,
    };
    let first = store_first(alloc, clients, trustees, bound, hasher)?;
    match Turns::build(alloc, config, first) {
        Ok(built) => Ok(built),
        Err(_) => Err(AllocError),
    }
}
