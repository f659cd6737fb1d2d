//! A runtime of some clients and two trustees, of which the greater has a counter of 0 that each client holds.
ghost use Rattle.std.specs.Prelude.{◌≡◌, ℕ, ◌+◌, ◌<◌, ◌≤◌, [], All, IfOk};
ghost use Rattle.std.specs.List.{range_with_len};
ghost use Rattle.tm_seq.specs.Counting.{counter_kind};
ghost use Rattle.tm_pair.specs.Views.{new_trustee};
ghost use Rattle.tm_pair.specs.Theory.{IsNewTable, IsNewClientOf};
ghost use Rattle.tm_toggle.specs.Shared.{trustee_at, shared_theory};
ghost use Rattle.tm_trustee.specs.Serving.{IsServing};
ghost use Rattle.tm_trustee.specs.Tables.{IsReady};
ghost use Rattle.bench_counters.specs.Counting.{config_of, first_of, counting, AreSeats, MayAsk};

use crate::asking::bye;
use crate::serving::Home;
use std::alloc::{AllocError, Global};
use tm_batch::{Config, First, Holders};
use tm_pair::PairTable;
use tm_seq::Counter;
use tm_toggle::{SharedClient, SharedTable, SharedTrustee, handles_share_sides};
use tm_trustee::Trustee;

/// A handle of the greater trustee's table, and a client's side of it.
pub(crate) type Seat = (SharedTable<Counter>, SharedClient<Counter>);

/// The runtime: a seat for each client, and the greater trustee.
#[derive(Drop)]
pub(crate) struct Opened {
    pub(crate) seats: Vec<Seat>,
    pub(crate) home: Home,
}

fn config(clients: u32) -> Config
    ensures { result ≡ config_of clients }
{
    Config {
        clients,
        trustees: 2,
        objects: 1,
        trusts: 1,
        last_id: 1,
    }
}

/// All clients.
fn all(alloc: Global, clients: u32) -> Result<Vec<u32>, AllocError>
    ensures { IfOk result (λ places. places.items ≡ range_with_len 0 clients) }
{
    let mut places = Vec::new(alloc);
    for place in 0..clients {
        places.push(place)?;
    }
    Ok(places)
}

/// The counter.
fn first(alloc: Global, clients: u32) -> Result<Vec<First<Counter>>, AllocError>
    ensures { IfOk result (λ first. first.items ≡ first_of clients) }
{
    let holders = Holders::new(all(alloc, clients)?);
    Ok(vec![in alloc;
        First {
            trustee: 1,
            value: Counter { value: 0 },
            holders,
        },
    ]?)
}

/// The table of a trustee, and its sides.
fn table(
    alloc: Global,
    number: u32,
    clients: u32,
) -> Result<
    (
        SharedTable<Counter>,
        Vec<SharedClient<Counter>>,
        SharedTrustee<Counter>,
    ),
    AllocError,
>
    requires number { number < 2 }
    requires some { 1 ≤ clients }
    requires few { clients ≤ 3 }
    ensures { IfOk result (λ r. IsNewTable (shared_theory counter_kind) (counting clients number) r.0 r.1.items r.2) }
{
    SharedTable::new(alloc, number, config(clients), &first(alloc, clients)?)
}

/// The greater trustee.
fn trustee(
    alloc: Global,
    clients: u32,
    side: SharedTrustee<Counter>,
) -> Result<Trustee<Counter, SharedTable<Counter>>, AllocError>
    requires some { 1 ≤ clients }
    requires few { clients ≤ 3 }
    requires new { trustee_at side ≡ new_trustee (clients + 1) }
    ensures serving { IfOk result (λ t. IsServing (shared_theory counter_kind) counter_kind (counting clients 1) t) }
    ensures side { IfOk result (λ t. t.side ≡ side) }
    ensures above { IfOk result (λ t. t.above.items ≡ []) }
{
    let first = first(alloc, clients)?;
    match Trustee::new(
        alloc,
        1,
        config(clients),
        first,
        side,
        Vec::new(alloc),
        Vec::new(alloc),
    ) {
        Ok(trustee) => Ok(trustee),
        Err(_) => Err(AllocError),
    }
}

/// The lesser trustee says Bye, in its place at the greater one.
fn close(mut table: SharedTable<Counter>, mut side: SharedClient<Counter>)
    requires { (c : ℕ) × IsNewClientOf (shared_theory counter_kind) table c side }
{
    let _ = table.publish(&mut side, bye());
}

/// A client's side, with a handle of its own.
fn seat(table: &SharedTable<Counter>, side: SharedClient<Counter>) -> Result<Seat, AllocError>
    requires { MayAsk (shared_theory counter_kind) table.now side }
    ensures { IfOk result (λ seat. MayAsk (shared_theory counter_kind) seat.0 seat.1) }
{
    handles_share_sides::<Counter>();
    let handle = table.share()?;
    Ok((handle, side))
}

/// The clients' sides, each with a handle of its own.
fn seats(
    alloc: Global,
    table: &SharedTable<Counter>,
    mut sides: Vec<SharedClient<Counter>>,
) -> Result<Vec<Seat>, AllocError>
    requires { All (λ side. MayAsk (shared_theory counter_kind) table.now side) sides.items }
    ensures { IfOk result (λ seats. AreSeats (shared_theory counter_kind) seats.items) }
{
    let mut seats = Vec::new(alloc);
    while let Some(side) = sides.pop() {
        let one = seat(table, side)?;
        seats.push(one)?;
    }
    Ok(seats)
}

/// A runtime of so many clients.
pub(crate) fn open(alloc: Global, clients: u32) -> Result<Opened, AllocError>
    requires some { 1 ≤ clients }
    requires few { clients ≤ 3 }
    ensures seats { IfOk result (λ o. AreSeats (shared_theory counter_kind) o.seats.items) }
    ensures home { IfOk result (λ o. IsReady (shared_theory counter_kind) counter_kind o.home.tables.items o.home.trustee) }
{
    handles_share_sides::<Counter>();
    let (low, _, _) = table(alloc, 0, clients)?;
    let (high, mut sides, side) = table(alloc, 1, clients)?;
    let trustee = trustee(alloc, clients, side)?;
    // There is one.
    let Some(lower) = sides.pop() else {
        return Err(AllocError);
    };
    let handle = high.share()?;
    close(handle, lower);
    let seats = seats(alloc, &high, sides)?;
    let tables = vec![in alloc; low, high]?;
    let home = Home { tables, trustee };
    Ok(Opened { seats, home })
}
