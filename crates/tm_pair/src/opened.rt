//! How a table in one thread begins.
ghost use Rattle.std.specs.Prelude.{◌≡◌, ◌<◌, ◌≤◌, vec_len, IfOk};
ghost use Rattle.tm_model.specs.Opening.{IsBuildable, opening_of};
ghost use Rattle.tm_model.specs.Laws.{first_of};
ghost use Rattle.tm_pair.specs.Theory.{IsNewTable};
ghost use Rattle.tm_pair.specs.Plain.{core_at, plain_theory};
ghost use Rattle.tm_pair.specs.Opened.{AreNewPlaces, AreNewClients};

use crate::fits_table::FitsTable;
use crate::moves::opened;
use crate::place::Place;
use crate::plain::{PlainClient, PlainTable, PlainTrustee};
use std::alloc::{AllocError, Global};
use std::marker::Brand;
use tm_batch::{Config, First};
use tm_ghost::{GhostList, Items};

impl<S: FitsTable> PlainTable<S> {
    /// The table of trustee `number` of a runtime that is built from a config and a list of
    /// objects, one client's side for each of its `config.clients + number` places in order, and
    /// the trustee's side. The config and the list must be as a runtime may be built from them. A
    /// place has room for one batch of `MOST_REQUESTS` requests, or of as many answers, `MOST_ROOM` gifts and
    /// `MOST_COMPLETIONS` completions.
    /// Nothing allocates afterwards. An error is want of memory.
    pub fn new(
        alloc: Global,
        number: u32,
        config: Config,
        first: &Vec<First<S>>,
    ) -> Result<(PlainTable<S>, Vec<PlainClient<S>>, PlainTrustee<S>), AllocError>
        requires buildable { IsBuildable config first.now.items }
        requires number { number < config.trustees }
        ensures new { IfOk result (λ r. IsNewTable (plain_theory S.kind) (opening_of number config first.now.items) r.0 r.1.items r.2) }
        ensures core { IfOk result (λ r. core_at r.0 ≡ first_of (opening_of number config first.now.items)) }
    {
        let count = config.clients + number;
        let places = new_places(alloc, count)?;
        let clients = new_clients(alloc, count)?;
        let table = PlainTable {
            places,
            number,
            config,
            first: told(first),
            past: opened(count),
        };
        let trustee = PlainTrustee {
            past: opened(count),
        };
        Ok((table, clients, trustee))
    }
}

/// So many places at first.
fn new_places<S: FitsTable>(alloc: Global, count: u32) -> Result<Vec<Place<S>>, AllocError>
    ensures count { IfOk result (λ places. vec_len places ≡ count) }
    ensures new { IfOk result (λ places. AreNewPlaces places.items) }
{
    let mut places = Vec::new(alloc);
    for _ in 0..count {
        places.push(Place::new())?;
    }
    Ok(places)
}

/// The clients' sides of so many places at first.
fn new_clients<S: FitsTable>(alloc: Global, count: u32) -> Result<Vec<PlainClient<S>>, AllocError>
    ensures count { IfOk result (λ clients. vec_len clients ≡ count) }
    ensures new { IfOk result (λ clients. AreNewClients count clients.items) }
{
    let mut clients = Vec::new(alloc);
    for place in 0..count {
        clients.push(PlainClient {
            place,
            past: opened(count),
        })?;
    }
    Ok(clients)
}

/// The list of the build, for contracts alone.
fn told<S: FitsTable>(first: &Vec<First<S>>) -> GhostList<First<S>>
    ensures { result.items ≡ first.now.items }
{
    pick::<S, Brand>(first)
}

fn pick<S: FitsTable, E: Items<First<S>>>(_first: &Vec<First<S>>) -> GhostList<First<S>>
    ensures { result.items ≡ E.items }
{
    GhostList::of::<E>()
}
