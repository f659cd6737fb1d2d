//! A trustee from its opening to its end, turn by turn.
ghost use Rattle.std.specs.Prelude.{◌≡◌};
ghost use Rattle.tm_pair.specs.Views.{new_client};
ghost use Rattle.tm_tests.specs.Driving.{IsSeated, IsDriven};

mod asking;
mod gate;
mod launching;
mod looking;
mod names;
mod nested;
mod start;
mod turning;
mod upward;

use self::asking::{ask_sum, say_bye};
use self::gate::CountingGate;
use self::looking::collect_sum;
use self::start::{greater, high, low};
use self::turning::turn;
use std::process::Abort;
use std::test::Fail;
use tm_base::Gate;
use tm_pair::PairTable;
use tm_seq::Counter;
use tm_trustee::{Served, Trustee};

/// The turns of the greater trustee, and what both of its places do between them.
fn one_trustee<P: PairTable<Counter>, G: Gate>(
    rt: &impl Abort,
    tables: &mut [P],
    trustee: &mut Trustee<Counter, P>,
    client: &mut P::ClientSide,
    lower: &mut P::ClientSide,
    gate: &G,
)
    requires ready { IsDriven P.theory tables.old 1 trustee.old }
    requires client { IsSeated P.theory tables.old 1 client.old }
    requires client_view { P.theory.client_view client.old ≡ new_client 0 }
    requires lower { IsSeated P.theory tables.old 1 lower.old }
    requires lower_view { P.theory.client_view lower.old ≡ new_client 1 }
{
    assert_eq!(rt; trustee.moved(), 0);
    assert_eq!(rt; turn(trustee, tables, gate), Served::Quiet);
    assert!(rt; ask_sum(tables, client));
    assert_eq!(rt; turn(trustee, tables, gate), Served::Moved(1));
    assert!(rt; collect_sum(tables, client));
    assert!(rt; say_bye(tables, 1, client));
    assert!(rt; say_bye(tables, 1, lower));
    assert_eq!(rt; turn(trustee, tables, gate), Served::Ended);
    assert_eq!(rt; trustee.moved(), 2);
    assert_eq!(rt; turn(trustee, tables, gate), Served::Ended);
    assert_eq!(rt; trustee.moved(), 0);
    assert_eq!(rt; trustee.requests_run(), 4);
}

#[test]
fn a_trustee_serves_until_all_have_said_bye(rt: HostRuntime) -> Result<(), Fail> {
    let alloc = rt.alloc();
    let (low, _, _) = low(alloc)?;
    let (high, mut sides, side) = high(alloc)?;
    let mut lower = sides.remove(1);
    let mut client = sides.remove(0);
    let mut trustee = greater(alloc, side)?;
    let mut tables = vec![in alloc; low, high]?;
    let gate = CountingGate::new();
    one_trustee(
        &rt,
        &mut tables,
        &mut trustee,
        &mut client,
        &mut lower,
        &gate,
    );
    assert_eq!(rt; gate.passed(), 4);
    assert!(rt; gate.is_in_order());
    Ok(())
}
