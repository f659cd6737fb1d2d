//! The clients and the trustees of a build are made.
ghost use Rattle.std.specs.Prelude.{◌≡◌, ◌<◌, ◌+◌, ℕ, List, length, map, drop, IfOk, OnOk};
ghost use Rattle.tm_batch.specs.declared.config.First.{First};
ghost use Rattle.tm_model.specs.Opening.{IsBuildable};
ghost use Rattle.tm_turns.specs.Making.{AreNew, AreForClients, IsNewClient, AreNewClients, AreNestedLists, IsPart, AreParts, IsNewTrustee, AreNewTrustees};

use std::alloc::{AllocError, Global};
use tm_batch::{Config, First, Name};
use tm_build::held_by;
use tm_client::{Client, Trust};
use tm_pair::{FitsTable, PlainClient, PlainTable, PlainTrustee};
use tm_trustee::Trustee;

/// The client of a number, with these sides, and its trusts.
fn client_of<S: FitsTable, C: Drop>(
    alloc: Global,
    number: u32,
    config: Config,
    first: &Vec<First<S>>,
    sides: Vec<PlainClient<S>>,
) -> Result<(Client<S, C, PlainTable<S>>, Vec<Trust>), AllocError>
    requires buildable { IsBuildable config first.now.items }
    requires number { number < config.clients }
    requires as_many { length sides.items ≡ config.trustees }
    requires new { AreNew number sides.items }
    ensures { IfOk result (λ r. IsNewClient S.kind config first.now.items number sides.items r.0 r.1.items) }
{
    let held = held_by(alloc, config, first, number)?;
    Client::new(alloc, number, config, sides, held)
}

/// The clients, in order, with the first of some lists of sides, which go, and their trusts.
pub(crate) fn clients_of<S: FitsTable, C: Drop>(
    alloc: Global,
    config: Config,
    first: &Vec<First<S>>,
    seats: &mut Vec<Vec<PlainClient<S>>>,
) -> Result<(Vec<Client<S, C, PlainTable<S>>>, Vec<Vec<Trust>>), AllocError>
    requires buildable { IsBuildable config first.now.items }
    requires seats { AreForClients config (map (λ l. l.items) seats.old.items) }
    ensures clients { IfOk result (λ r. AreNewClients S.kind config first.now.items config.clients (map (λ l. l.items) seats.old.items) r.0.items (map (λ l. l.items) r.1.items)) }
    ensures rest { OnOk result (seats.new.items ≡ drop config.clients seats.old.items) }
{
    let mut clients = Vec::new(alloc);
    let mut trusts = Vec::new(alloc);
    for number in 0..config.clients {
        let sides = seats.remove(0);
        let (client, of_client) = client_of(alloc, number, config, first, sides)?;
        clients.push(client)?;
        trusts.push(of_client)?;
    }
    Ok((clients, trusts))
}

/// What each trustee holds above.
pub(crate) fn nested_of<S: FitsTable>(
    alloc: Global,
    config: Config,
    first: &Vec<First<S>>,
) -> Result<Vec<Vec<(u32, Name)>>, AllocError>
    requires { IsBuildable config first.now.items }
    ensures { IfOk result (λ nested. AreNestedLists config first.now.items (map (λ l. l.items) nested.items)) }
{
    let mut nested = Vec::new(alloc);
    for number in 0..config.trustees {
        nested.push(held_by(alloc, config, first, config.clients + number)?)?;
    }
    Ok(nested)
}

/// The trustee of a number, of its parts.
fn trustee_of<S: FitsTable>(
    alloc: Global,
    number: u32,
    config: Config,
    placed: Vec<First<S>>,
    home: PlainTrustee<S>,
    seats: Vec<PlainClient<S>>,
    nested: Vec<(u32, Name)>,
) -> Result<Trustee<S, PlainTable<S>>, AllocError>
    requires { (first : List (First S)) × IsPart config first number placed.items home seats.items nested.items }
    ensures { IfOk result (λ r. (first : List (First S)) → IsPart config first number placed.items home seats.items nested.items → IsNewTrustee S.kind config first number home seats.items r) }
{
    let Ok(trustee) = Trustee::new(alloc, number, config, placed, home, seats, nested) else {
        return Err(AllocError);
    };
    Ok(trustee)
}

/// The trustees, in order, of their parts.
pub(crate) fn trustees_of<S: FitsTable>(
    alloc: Global,
    config: Config,
    homes: Vec<PlainTrustee<S>>,
    seats: Vec<Vec<PlainClient<S>>>,
    nested: Vec<Vec<(u32, Name)>>,
    placed: Vec<Vec<First<S>>>,
) -> Result<Vec<Trustee<S, PlainTable<S>>>, AllocError>
    requires { (first : List (First S)) × AreParts config first homes.items (map (λ l. l.items) seats.items) (map (λ l. l.items) nested.items) (map (λ l. l.items) placed.items) }
    ensures { IfOk result (λ r. (first : List (First S)) → AreParts config first homes.items (map (λ l. l.items) seats.items) (map (λ l. l.items) nested.items) (map (λ l. l.items) placed.items) → AreNewTrustees S.kind config first config.trustees homes.items (map (λ l. l.items) seats.items) r.items) }
{
    let mut homes = homes;
    let mut seats = seats;
    let mut nested = nested;
    let mut placed = placed;
    let mut trustees = Vec::new(alloc);
    for number in 0..config.trustees {
        let first = placed.remove(0);
        let home = homes.remove(0);
        let above = seats.remove(0);
        let names = nested.remove(0);
        trustees.push(trustee_of(alloc, number, config, first, home, above, names)?)?;
    }
    Ok(trustees)
}
