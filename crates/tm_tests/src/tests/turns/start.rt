//! A runtime of one client and two trustees, of which the greater has a counter.
ghost use Rattle.std.specs.Prelude.{◌≡◌, [], ◌∷◌, IfOk};
ghost use Rattle.tm_seq.specs.Counting.{counter_kind};
ghost use Rattle.tm_pair.specs.Theory.{IsNewTable};
ghost use Rattle.tm_pair.specs.Views.{new_client, new_trustee};
ghost use Rattle.tm_pair.specs.Plain.{client_at, trustee_at, plain_theory};
ghost use Rattle.tm_tests.specs.Driving.{one_counter, counting};
ghost use Rattle.tm_trustee.specs.Serving.{IsServing};

use std::alloc::{AllocError, Global};
use tm_batch::{Config, First, Holders, Name};
use tm_pair::{PlainClient, PlainTable, PlainTrustee};
use tm_seq::Counter;
use tm_trustee::Trustee;

const SMALL: Config = Config {
    clients: 1,
    trustees: 2,
    objects: 4_096,
    trusts: 4,
    last_id: 9,
};

/// The counter of 0, which client 0 holds, and the lesser trustee.
fn one_counter(alloc: Global) -> Result<Vec<First<Counter>>, AllocError>
    ensures { IfOk result (λ first. first.items ≡ one_counter) }
{
    let holders = Holders::new(vec![in alloc; 0, 1]?);
    Ok(vec![in alloc;
        First {
            trustee: 1,
            value: Counter { value: 0 },
            holders,
        },
    ]?)
}

/// A trustee's table, with its sides.
type Opened = (
    PlainTable<Counter>,
    Vec<PlainClient<Counter>>,
    PlainTrustee<Counter>,
);

/// The table of the lesser trustee.
pub(super) fn low(alloc: Global) -> Result<Opened, AllocError>
    ensures { IfOk result (λ r. IsNewTable (plain_theory counter_kind) (counting 0) r.0 r.1.items r.2) }
{
    PlainTable::new(alloc, 0, SMALL, &one_counter(alloc)?)
}

/// The table of the greater one.
pub(super) fn high(alloc: Global) -> Result<Opened, AllocError>
    ensures { IfOk result (λ r. IsNewTable (plain_theory counter_kind) (counting 1) r.0 r.1.items r.2) }
{
    PlainTable::new(alloc, 1, SMALL, &one_counter(alloc)?)
}

/// The greater trustee.
pub(super) fn greater(
    alloc: Global,
    side: PlainTrustee<Counter>,
) -> Result<Trustee<Counter, PlainTable<Counter>>, AllocError>
    requires { trustee_at side ≡ new_trustee 2 }
    ensures serving { IfOk result (λ t. IsServing (plain_theory counter_kind) counter_kind (counting 1) t) }
    ensures side { IfOk result (λ t. t.side ≡ side) }
    ensures above { IfOk result (λ t. t.above.items ≡ []) }
{
    let first = one_counter(alloc)?;
    match Trustee::new(
        alloc,
        1,
        SMALL,
        first,
        side,
        Vec::new(alloc),
        Vec::new(alloc),
    ) {
        Ok(trustee) => Ok(trustee),
        Err(_) => Err(AllocError),
    }
}

/// The lesser trustee, on which no object is placed, with its side of the greater one's table.
pub(super) fn lesser(
    alloc: Global,
    side: PlainTrustee<Counter>,
    seat: PlainClient<Counter>,
) -> Result<Trustee<Counter, PlainTable<Counter>>, AllocError>
    requires side { trustee_at side ≡ new_trustee 1 }
    requires seat { client_at seat ≡ new_client 1 }
    ensures serving { IfOk result (λ t. IsServing (plain_theory counter_kind) counter_kind (counting 0) t) }
    ensures side { IfOk result (λ t. t.side ≡ side) }
    ensures above { IfOk result (λ t. t.above.items ≡ seat ∷ []) }
{
    let above = vec![in alloc; seat]?;
    let nested = vec![in alloc; (1, Name { id: 1, place: 0 })]?;
    match Trustee::new(alloc, 0, SMALL, Vec::new(alloc), side, above, nested) {
        Ok(trustee) => Ok(trustee),
        Err(_) => Err(AllocError),
    }
}
