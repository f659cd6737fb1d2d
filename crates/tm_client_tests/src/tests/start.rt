//! How the runtime of these tests begins: two clients, two trustees, and an object on the greater of them.
ghost use Rattle.std.specs.Prelude.{◌≡◌, ℕ, ◌<◌, ◌≤◌, [], ◌∷◌, IfOk};
ghost use Rattle.tm_batch.specs.declared.limits.TheConstants.{MOST_TRUSTS};
ghost use Rattle.tm_pair.specs.Theory.{IsNewTable};
ghost use Rattle.tm_pair.specs.Views.{new_client, new_trustee};
ghost use Rattle.tm_pair.specs.Plain.{client_at, trustee_at, plain_theory};
ghost use Rattle.tm_client.specs.Begun.{HasBegun};
ghost use Rattle.tm_client.specs.Clients.{IsClient};
ghost use Rattle.tm_trustee.specs.Serving.{IsServing};
ghost use Rattle.tm_client_tests.specs.Playing.{one_object, small, opening, held_by, IsPlaying};

use super::play::Play;
use std::alloc::{AllocError, Global};
use tm_batch::{Config, First, Holders, Name};
use tm_client::{Client, Trust};
use tm_pair::{FitsTable, PlainClient, PlainTable, PlainTrustee};
use tm_trustee::Trustee;

/// With room for two objects and so many trusts of each client, and with as many ids, at least three.
fn small(trusts: u32) -> Config
    ensures { result ≡ small trusts }
{
    Config {
        clients: 2,
        trustees: 2,
        objects: 2,
        trusts,
        last_id: u64::from(trusts.max(3)),
    }
}

/// A value on the greater trustee, which client 0 holds.
fn one_object<S: FitsTable>(alloc: Global, value: S) -> Result<Vec<First<S>>, AllocError>
    ensures { IfOk result (λ first. first.items ≡ one_object value) }
{
    let holders = Holders::new(vec![in alloc; 0]?);
    let mut first = Vec::new(alloc);
    first.push(First {
        trustee: 1,
        value,
        holders,
    })?;
    Ok(first)
}

/// A trustee's table, with its sides.
type Opened<S> = (PlainTable<S>, Vec<PlainClient<S>>, PlainTrustee<S>);

/// The table of a trustee.
fn table<S: FitsTable>(
    alloc: Global,
    number: u32,
    trusts: u32,
    first: &Vec<First<S>>,
) -> Result<Opened<S>, AllocError>
    requires first { (v : S) × (first.now.items ≡ one_object v) }
    requires number { number < 2 }
    requires some { 1 ≤ trusts }
    requires most { trusts ≤ MOST_TRUSTS }
    ensures { IfOk result (λ r. (v : S) → first.now.items ≡ one_object v → IsNewTable (plain_theory S.kind) (opening v trusts number) r.0 r.1.items r.2) }
{
    let opened = PlainTable::new(alloc, number, small(trusts), first)?;
    Ok(opened)
}

/// The greater trustee, with what is placed on it.
fn greater<S: FitsTable>(
    alloc: Global,
    trusts: u32,
    first: Vec<First<S>>,
    side: PlainTrustee<S>,
) -> Result<Trustee<S, PlainTable<S>>, AllocError>
    requires first { (v : S) × (first.items ≡ one_object v) }
    requires some { 1 ≤ trusts }
    requires most { trusts ≤ MOST_TRUSTS }
    requires side { trustee_at side ≡ new_trustee 3 }
    ensures serving { IfOk result (λ t. (v : S) → first.items ≡ one_object v → IsServing (plain_theory S.kind) S.kind (opening v trusts 1) t) }
    ensures side { IfOk result (λ t. t.side ≡ side) }
    ensures above { IfOk result (λ t. t.above.items ≡ []) }
{
    match Trustee::new(
        alloc,
        1,
        small(trusts),
        first,
        side,
        Vec::new(alloc),
        Vec::new(alloc),
    ) {
        Ok(trustee) => Ok(trustee),
        Err(_) => Err(AllocError),
    }
}

/// What a client holds at first.
fn held_by(alloc: Global, number: u32) -> Result<Vec<(u32, Name)>, AllocError>
    ensures { IfOk result (λ held. held.items ≡ held_by number) }
{
    if number == 0 {
        Ok(vec![in alloc; (1, Name { id: 1, place: 0 })]?)
    } else {
        Ok(Vec::new(alloc))
    }
}

/// A client and its trusts.
type Began<S> = (Client<S, u32, PlainTable<S>>, Vec<Trust>);

/// A client with its sides at both trustees.
fn client<S: FitsTable>(
    alloc: Global,
    number: u32,
    trusts: u32,
    low: PlainClient<S>,
    high: PlainClient<S>,
) -> Result<Began<S>, AllocError>
    requires value { S }
    requires number { number < 2 }
    requires some { 1 ≤ trusts }
    requires most { trusts ≤ MOST_TRUSTS }
    requires low { client_at low ≡ new_client number }
    requires high { client_at high ≡ new_client number }
    ensures begun { IfOk result (λ r. HasBegun number (small trusts) (low ∷ high ∷ []) (held_by number) r.0.books) }
    ensures client { IfOk result (λ r. (v : S) → IsClient (λ side. client_at side) (opening v trusts) r.0.books) }
{
    let sides = vec![in alloc; low, high]?;
    let held = held_by(alloc, number)?;
    let began = Client::new(alloc, number, small(trusts), sides, held)?;
    Ok(began)
}

/// Two clients, each of which may have so many trusts, and what client 0 holds at first: this value.
pub(super) fn start<S: FitsTable>(
    alloc: Global,
    value: S,
    trusts: u32,
) -> Result<(Play<S, PlainTable<S>>, Vec<Trust>), AllocError>
    requires some { 1 ≤ trusts }
    requires most { trusts ≤ MOST_TRUSTS }
    ensures { IfOk result (λ r. IsPlaying (plain_theory S.kind) S.kind r.0.tables.items r.0.trustee r.0.clients.items) }
{
    let first = one_object(alloc, value)?;
    let (low, mut at_low, _) = table(alloc, 0, trusts, &first)?;
    let (high, mut at_high, side) = table(alloc, 1, trusts, &first)?;
    let (other, _) = client(alloc, 1, trusts, at_low.remove(1), at_high.remove(1))?;
    let (one, held) = client(alloc, 0, trusts, at_low.remove(0), at_high.remove(0))?;
    let trustee = greater(alloc, trusts, first, side)?;
    let clients = vec![in alloc; one, other]?;
    let tables = vec![in alloc; low, high]?;
    let play = Play {
        clients,
        tables,
        trustee,
    };
    Ok((play, held))
}
