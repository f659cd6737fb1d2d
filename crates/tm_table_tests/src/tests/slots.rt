//! A table in one thread, call by call.
ghost use Rattle.std.specs.Prelude.{◌≡◌, [], IsTrue};
ghost use Rattle.tm_pair.specs.Views.{new_client, new_trustee};
ghost use Rattle.tm_table_tests.specs.Sample.{sample};

mod answering;
mod asking;
mod less;
mod looking;
mod shared;
mod start;

use self::answering::{answer_gift, answer_grant, answer_two};
use self::asking::{ask_gifts, ask_grant, ask_over, ask_two, the_name};
use self::less::Less;
use self::looking::{are_replies, asks, comes_empty, is_granted, is_one_gift};
use self::start::start;
use std::process::Abort;
use std::test::Fail;
use tm_batch::{Batch, Request};
use tm_pair::{Collected, Held, PairTable, ask_nothing, once_round};

/// A batch that asks 7 of the object.
fn seven() -> Batch<Less> {
    let mut batch = Batch::new(0);
    let _ = batch.push(Request::Apply(the_name(), 7));
    batch
}

/// Whether a batch that asks 7 of the object came back.
fn is_seven(back: Result<(), Held<Less>>) -> bool {
    match back {
        Ok(()) => false,
        Err(Held(mut batch)) => asks(&mut batch, 7) && batch.is_empty(),
    }
}

/// What one place and the trustee do, call by call.
fn one_place<P: PairTable<Less>>(
    rt: &impl Abort,
    table: &mut P,
    client: &mut P::ClientSide,
    trustee: &mut P::TrusteeSide,
)
    requires client { P.theory.HasClient table.old client.old }
    requires trustee { P.theory.HasTrustee table.old trustee.old }
    requires opening { P.theory.opening table.old ≡ sample (record { by = 4 }) }
    requires first { P.theory.client_view client.old ≡ new_client 0 }
    requires log { P.theory.trustee_view trustee.old ≡ new_trustee 2 }
{
    assert!(rt; ask_two(table, client).is_ok());
    assert!(rt; is_seven(ask_over(table, client, seven())), "held");
    assert!(rt; answer_two(table, trustee), "answered");
    assert!(rt;
        is_seven(ask_over(table, client, seven())),
        "held over its answers"
    );
    assert!(rt; are_replies(table.collect(client), 1, 2), "collected");
    assert!(rt; matches!(table.collect(client), Collected::Idle));
    assert!(rt; ask_nothing(table, client).is_ok());
    assert!(rt; matches!(table.collect(client), Collected::Pending));
    assert!(rt;
        table.see(trustee, 1).is_none(),
        "nothing was asked at place 1"
    );
    assert!(rt; table.see(trustee, 0).is_some_and(|batch| batch.is_empty()));
    assert!(rt;
        matches!(table.collect(client), Collected::Pending),
        "taken"
    );
}

/// One round of nothing, whose front is the first entry of the log.
fn round_goes<P: PairTable<Less>>(
    rt: &impl Abort,
    table: &mut P,
    client: &mut P::ClientSide,
    trustee: &mut P::TrusteeSide,
)
    requires client { P.theory.HasClient table.old client.old }
    requires trustee { P.theory.HasTrustee table.old trustee.old }
    requires opening { P.theory.opening table.old ≡ sample (record { by = 4 }) }
    requires first { P.theory.client_view client.old ≡ new_client 0 }
    requires log { P.theory.trustee_view trustee.old ≡ new_trustee 2 }
{
    assert!(rt; comes_empty(once_round(table, client, trustee, 0, 1)));
}

/// A grant by one client reaches another.
fn gift_goes<P: PairTable<Less>>(
    rt: &impl Abort,
    table: &mut P,
    zero: &mut P::ClientSide,
    one: &mut P::ClientSide,
    trustee: &mut P::TrusteeSide,
)
    requires zero { P.theory.HasClient table.old zero.old }
    requires one { P.theory.HasClient table.old one.old }
    requires trustee { P.theory.HasTrustee table.old trustee.old }
    requires opening { P.theory.opening table.old ≡ sample (record { by = 4 }) }
    requires first { P.theory.client_view zero.old ≡ new_client 0 }
    requires next { P.theory.client_view one.old ≡ new_client 1 }
    requires log { P.theory.trustee_view trustee.old ≡ new_trustee 2 }
{
    assert!(rt; ask_grant(table, zero).is_ok());
    assert!(rt; answer_grant(table, trustee));
    assert!(rt; ask_gifts(table, one).is_ok());
    assert!(rt; answer_gift(table, trustee));
    assert!(rt; is_one_gift(table.collect(one)));
    assert!(rt; is_granted(table.collect(zero)));
}

#[test]
fn one_place_call_by_call(rt: HostRuntime) -> Result<(), Fail> {
    let (mut table, mut clients, mut trustee) = start(rt.alloc())?;
    let mut client = clients.remove(0);
    one_place(&rt, &mut table, &mut client, &mut trustee);
    Ok(())
}

#[test]
fn a_round_of_nothing_comes_back(rt: HostRuntime) -> Result<(), Fail> {
    let (mut table, mut clients, mut trustee) = start(rt.alloc())?;
    let mut client = clients.remove(0);
    round_goes(&rt, &mut table, &mut client, &mut trustee);
    Ok(())
}

#[test]
fn a_gift_goes_to_the_other_client(rt: HostRuntime) -> Result<(), Fail> {
    let (mut table, mut clients, mut trustee) = start(rt.alloc())?;
    let mut one = clients.remove(1);
    let mut zero = clients.remove(0);
    gift_goes(&rt, &mut table, &mut zero, &mut one, &mut trustee);
    Ok(())
}
