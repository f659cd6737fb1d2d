//! A `Bye` that goes upward through two trustees, which end one after the other.
ghost use Rattle.std.specs.Prelude.{◌≡◌};
ghost use Rattle.tm_pair.specs.Views.{new_client};
ghost use Rattle.tm_tests.specs.Driving.{IsSeated, IsDriven};

use super::asking::say_bye;
use super::start::{greater, high, lesser, low};
use super::turning::turn;
use std::process::Abort;
use std::test::Fail;
use tm_base::{FreeGate, Gate};
use tm_pair::PairTable;
use tm_seq::Counter;
use tm_trustee::{Served, Trustee};

/// The turns of both trustees, and the `Bye`s of the client between them, by its sides of the two tables.
fn two_trustees<P: PairTable<Counter>, G: Gate>(
    rt: &impl Abort,
    tables: &mut [P],
    lesser: &mut Trustee<Counter, P>,
    greater: &mut Trustee<Counter, P>,
    at_low: &mut P::ClientSide,
    at_high: &mut P::ClientSide,
    gate: &G,
)
    requires lesser { IsDriven P.theory tables.old 0 lesser.old }
    requires greater { IsDriven P.theory tables.old 1 greater.old }
    requires at_low { IsSeated P.theory tables.old 0 at_low.old }
    requires low_view { P.theory.client_view at_low.old ≡ new_client 0 }
    requires at_high { IsSeated P.theory tables.old 1 at_high.old }
    requires high_view { P.theory.client_view at_high.old ≡ new_client 0 }
{
    assert_eq!(rt; turn(lesser, tables, gate), Served::Quiet);
    assert!(rt; say_bye(tables, 0, at_low));
    assert_eq!(rt; turn(lesser, tables, gate), Served::Moved(2));
    assert_eq!(rt; turn(lesser, tables, gate), Served::Quiet);
    assert!(rt; say_bye(tables, 1, at_high));
    assert_eq!(rt; turn(greater, tables, gate), Served::Ended);
    assert_eq!(rt; greater.moved(), 2);
    assert_eq!(rt; turn(lesser, tables, gate), Served::Ended);
    assert_eq!(rt; lesser.moved(), 1);
    assert_eq!(rt; lesser.requests_run(), 1);
    assert_eq!(rt; greater.requests_run(), 2);
}

#[test]
fn a_bye_goes_upward_through_two_trustees(rt: HostRuntime) -> Result<(), Fail> {
    let alloc = rt.alloc();
    let (low, mut low_sides, low_side) = low(alloc)?;
    let (high, mut high_sides, high_side) = high(alloc)?;
    let seat = high_sides.remove(1);
    let mut at_high = high_sides.remove(0);
    let mut at_low = low_sides.remove(0);
    let mut lesser = lesser(alloc, low_side, seat)?;
    let mut greater = greater(alloc, high_side)?;
    let mut tables = vec![in alloc; low, high]?;
    two_trustees(
        &rt,
        &mut tables,
        &mut lesser,
        &mut greater,
        &mut at_low,
        &mut at_high,
        &FreeGate,
    );
    Ok(())
}
