//! The place of a lesser trustee applies an operation, which is run as a client's is.
ghost use Rattle.std.specs.Prelude.{◌≡◌};
ghost use Rattle.tm_pair.specs.Views.{new_client};
ghost use Rattle.tm_tests.specs.Driving.{IsSeated, IsDriven};

use super::asking::{ask_more, ask_sum};
use super::looking::{collect_greater_sum, collect_sum};
use super::start::{greater, high, low};
use super::turning::turn;
use std::process::Abort;
use std::test::Fail;
use tm_base::{FreeGate, Gate};
use tm_pair::PairTable;
use tm_seq::Counter;
use tm_trustee::{Served, Trustee};

/// Both places add to the counter, the client first.
fn both_add<P: PairTable<Counter>, G: Gate>(
    rt: &impl Abort,
    tables: &mut [P],
    trustee: &mut Trustee<Counter, P>,
    client: &mut P::ClientSide,
    lower: &mut P::ClientSide,
    gate: &G,
)
    requires ready { IsDriven P.theory tables.old 1 trustee.old }
    requires client { IsSeated P.theory tables.old 1 client.old }
    requires client_view { P.theory.client_view client.old ≡ new_client 0 }
    requires lower { IsSeated P.theory tables.old 1 lower.old }
    requires lower_view { P.theory.client_view lower.old ≡ new_client 1 }
{
    assert!(rt; ask_sum(tables, client));
    assert!(rt; ask_more(tables, lower));
    assert_eq!(rt; turn(trustee, tables, gate), Served::Moved(2));
    assert!(rt; collect_sum(tables, client));
    assert!(rt; collect_greater_sum(tables, lower));
}

#[test]
fn the_place_of_a_trustee_applies(rt: HostRuntime) -> Result<(), Fail> {
    let alloc = rt.alloc();
    let (low, _, _) = low(alloc)?;
    let (high, mut sides, side) = high(alloc)?;
    let mut lower = sides.remove(1);
    let mut client = sides.remove(0);
    let mut trustee = greater(alloc, side)?;
    let mut tables = vec![in alloc; low, high]?;
    both_add(
        &rt,
        &mut tables,
        &mut trustee,
        &mut client,
        &mut lower,
        &FreeGate,
    );
    Ok(())
}
