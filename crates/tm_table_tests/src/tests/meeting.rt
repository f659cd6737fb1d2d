//! Two clients and their trustee meet, on one thread: once before any step, and once more after a batch was
//! answered and collected.
ghost use Rattle.std.specs.Prelude.{◌≡◌, IfOk};
ghost use Rattle.tm_seq.specs.Counting.{counter_kind};
ghost use Rattle.tm_pair.specs.Views.{new_client, new_trustee};
ghost use Rattle.tm_pair.specs.Theory.{IsNewTable};
ghost use Rattle.tm_pair.specs.Plain.{plain_theory};
ghost use Rattle.tm_toggle.specs.Shared.{shared_theory};
ghost use Rattle.tm_table_tests.specs.Sample.{sample, sample_first};

use std::alloc::{AllocError, Global};
use std::process::Abort;
use std::test::Fail;
use tm_batch::{Config, First, Holders};
use tm_pair::{Collected, Meet, PlainClient, PlainTable, PlainTrustee, once_round};
use tm_seq::Counter;
use tm_toggle::{SharedClient, SharedTable, SharedTrustee};

const TWO_CLIENTS: Config = Config {
    clients: 2,
    trustees: 2,
    objects: 4,
    trusts: 4,
    last_id: 9,
};

/// The object of the build, a counter of 0.
fn first(alloc: Global) -> Result<Vec<First<Counter>>, AllocError>
    ensures { IfOk result (λ first. first.items ≡ sample_first (record { value = 0 })) }
{
    let holders = Holders::new(vec![in alloc; 0]?);
    Ok(vec![in alloc;
        First {
            trustee: 0,
            value: Counter { value: 0 },
            holders
        },
    ]?)
}

fn plain(
    alloc: Global,
) -> Result<
    (
        PlainTable<Counter>,
        Vec<PlainClient<Counter>>,
        PlainTrustee<Counter>,
    ),
    AllocError,
>
    ensures { IfOk result (λ r. IsNewTable (plain_theory counter_kind) (sample (record { value = 0 })) r.0 r.1.items r.2) }
{
    PlainTable::new(alloc, 0, TWO_CLIENTS, &first(alloc)?)
}

fn shared(
    alloc: Global,
) -> Result<
    (
        SharedTable<Counter>,
        Vec<SharedClient<Counter>>,
        SharedTrustee<Counter>,
    ),
    AllocError,
>
    ensures { IfOk result (λ r. IsNewTable (shared_theory counter_kind) (sample (record { value = 0 })) r.0 r.1.items r.2) }
{
    SharedTable::new(alloc, 0, TWO_CLIENTS, &first(alloc)?)
}

/// What client 0 sees goes on while client 1 stays at its start.
fn meet_twice<P: Meet<Counter>>(
    rt: &impl Abort,
    table: &mut P,
    zero: &mut P::ClientSide,
    one: &mut P::ClientSide,
    trustee: &mut P::TrusteeSide,
)
    requires zero { P.PairTable.theory.HasClient table.old zero.old }
    requires one { P.PairTable.theory.HasClient table.old one.old }
    requires trustee { P.PairTable.theory.HasTrustee table.old trustee.old }
    requires opening { P.PairTable.theory.opening table.old ≡ sample (record { value = 0 }) }
    requires first { P.PairTable.theory.client_view zero.old ≡ new_client 0 }
    requires next { P.PairTable.theory.client_view one.old ≡ new_client 1 }
    requires log { P.PairTable.theory.trustee_view trustee.old ≡ new_trustee 2 }
{
    assert!(rt; table.compare(zero, one).is_ok());
    assert!(rt; table.follow(trustee, zero).is_ok());
    let found = once_round(table, zero, trustee, 0, 1);
    assert!(rt; matches!(found, Collected::Answers(_)), "collected");
    assert!(rt; table.compare(zero, one).is_ok());
    assert!(rt; table.compare(one, zero).is_ok());
    assert!(rt; table.follow(trustee, zero).is_ok());
    assert!(rt; table.follow(trustee, one).is_ok());
}

#[test]
fn sides_of_one_thread_meet(rt: HostRuntime) -> Result<(), Fail> {
    let (mut table, mut clients, mut trustee) = plain(rt.alloc())?;
    let mut one = clients.remove(1);
    let mut zero = clients.remove(0);
    meet_twice(&rt, &mut table, &mut zero, &mut one, &mut trustee);
    Ok(())
}

#[test]
fn sides_of_many_threads_meet_on_one(rt: HostRuntime) -> Result<(), Fail> {
    let (mut table, mut clients, mut trustee) = shared(rt.alloc())?;
    let mut one = clients.remove(1);
    let mut zero = clients.remove(0);
    meet_twice(&rt, &mut table, &mut zero, &mut one, &mut trustee);
    Ok(())
}
