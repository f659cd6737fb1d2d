//! Two objects of a client have names of two places.
ghost use Rattle.std.specs.Prelude.{◌≡◌};
ghost use Rattle.tm_pair.specs.Views.{new_client};
ghost use Rattle.tm_tests.specs.Driving.{IsSeated, IsDriven};

use super::asking::entrust_two;
use super::looking::collect_names;
use super::start::{greater, high, low};
use super::turning::turn;
use std::process::Abort;
use std::test::Fail;
use tm_base::{FreeGate, Gate};
use tm_pair::PairTable;
use tm_seq::Counter;
use tm_trustee::{Served, Trustee};

/// The client entrusts two counters, and looks for their names.
fn two_names<P: PairTable<Counter>, G: Gate>(
    rt: &impl Abort,
    tables: &mut [P],
    trustee: &mut Trustee<Counter, P>,
    client: &mut P::ClientSide,
    gate: &G,
)
    requires ready { IsDriven P.theory tables.old 1 trustee.old }
    requires client { IsSeated P.theory tables.old 1 client.old }
    requires client_view { P.theory.client_view client.old ≡ new_client 0 }
{
    assert!(rt; entrust_two(tables, client));
    assert_eq!(rt; turn(trustee, tables, gate), Served::Moved(1));
    assert!(rt; collect_names(tables, client));
}

#[test]
fn two_objects_have_names_of_two_places(rt: HostRuntime) -> Result<(), Fail> {
    let alloc = rt.alloc();
    let (low, _, _) = low(alloc)?;
    let (high, mut sides, side) = high(alloc)?;
    let mut client = sides.remove(0);
    let mut trustee = greater(alloc, side)?;
    let mut tables = vec![in alloc; low, high]?;
    two_names(&rt, &mut tables, &mut trustee, &mut client, &FreeGate);
    Ok(())
}
