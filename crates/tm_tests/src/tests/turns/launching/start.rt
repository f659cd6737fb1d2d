//! A runtime of one client and three trustees: the middle one has a counter of the client's, and holds one of the
//! greatest.
ghost use Rattle.std.specs.Prelude.{◌≡◌, ◌<◌, [], ◌∷◌, IfOk};
ghost use Rattle.tm_seq.specs.Counting.{counter_kind};
ghost use Rattle.tm_pair.specs.Theory.{IsNewTable};
ghost use Rattle.tm_pair.specs.Views.{new_client, new_trustee};
ghost use Rattle.tm_pair.specs.Plain.{client_at, trustee_at, plain_theory};
ghost use Rattle.tm_tests.specs.Launching.{two_counters, launching};
ghost use Rattle.tm_trustee.specs.Serving.{IsServing};

use std::alloc::{AllocError, Global};
use tm_batch::{Config, First, Holders, Name};
use tm_pair::{PlainClient, PlainTable, PlainTrustee};
use tm_seq::Counter;
use tm_trustee::Trustee;

const THREE: Config = Config {
    clients: 1,
    trustees: 3,
    objects: 4,
    trusts: 4,
    last_id: 99,
};

/// A counter of a trustee, with one holder.
fn counter(
    alloc: Global,
    trustee: u32,
    value: u64,
    holder: u32,
) -> Result<First<Counter>, AllocError>
    ensures { IfOk result (λ first. first ≡ record { trustee = trustee; value = record { value = value }; holders = holder ∷ [] }) }
{
    Ok(First {
        trustee,
        value: Counter { value },
        holders: Holders::new(vec![in alloc; holder]?),
    })
}

/// A counter of 7 on trustee 2, which the place of trustee 1 holds, and one of 5 on trustee 1, which client 0 holds.
fn two_counters(alloc: Global) -> Result<Vec<First<Counter>>, AllocError>
    ensures { IfOk result (λ first. first.items ≡ two_counters) }
{
    Ok(vec![in alloc; counter(alloc, 2, 7, 2)?, counter(alloc, 1, 5, 0)?]?)
}

/// A trustee's table, with its sides.
type Opened = (
    PlainTable<Counter>,
    Vec<PlainClient<Counter>>,
    PlainTrustee<Counter>,
);

/// The table of a trustee.
pub(super) fn table(alloc: Global, number: u32) -> Result<Opened, AllocError>
    requires { number < 3 }
    ensures { IfOk result (λ r. IsNewTable (plain_theory counter_kind) (launching number) r.0 r.1.items r.2) }
{
    PlainTable::new(alloc, number, THREE, &two_counters(alloc)?)
}

/// The greatest trustee.
pub(super) fn greatest(
    alloc: Global,
    side: PlainTrustee<Counter>,
) -> Result<Trustee<Counter, PlainTable<Counter>>, AllocError>
    requires { trustee_at side ≡ new_trustee 3 }
    ensures serving { IfOk result (λ t. IsServing (plain_theory counter_kind) counter_kind (launching 2) t) }
    ensures side { IfOk result (λ t. t.side ≡ side) }
    ensures above { IfOk result (λ t. t.above.items ≡ []) }
{
    let first = vec![in alloc; counter(alloc, 2, 7, 2)?]?;
    match Trustee::new(
        alloc,
        2,
        THREE,
        first,
        side,
        Vec::new(alloc),
        Vec::new(alloc),
    ) {
        Ok(trustee) => Ok(trustee),
        Err(_) => Err(AllocError),
    }
}

/// The middle one, with its side of the greatest one's table.
pub(super) fn middle(
    alloc: Global,
    side: PlainTrustee<Counter>,
    seat: PlainClient<Counter>,
) -> Result<Trustee<Counter, PlainTable<Counter>>, AllocError>
    requires side { trustee_at side ≡ new_trustee 2 }
    requires seat { client_at seat ≡ new_client 2 }
    ensures serving { IfOk result (λ t. IsServing (plain_theory counter_kind) counter_kind (launching 1) t) }
    ensures side { IfOk result (λ t. t.side ≡ side) }
    ensures above { IfOk result (λ t. t.above.items ≡ seat ∷ []) }
{
    let first = vec![in alloc; counter(alloc, 1, 5, 0)?]?;
    let above = vec![in alloc; seat]?;
    let nested = vec![in alloc; (2, Name { id: 1, place: 0 })]?;
    match Trustee::new(alloc, 1, THREE, first, side, above, nested) {
        Ok(trustee) => Ok(trustee),
        Err(_) => Err(AllocError),
    }
}
