//! When the gate is passed.
ghost use Rattle.tm_client_tests.specs.Echoing.{echo_kind};
ghost use Rattle.tm_client_tests.specs.Playing.{IsPlaying};

use super::echo::{Echo, SeenGate};
use super::play::Play;
use super::start::start;
use std::cell::Cell;
use std::process::Abort;
use std::rc::Rc;
use std::test::Fail;
use tm_client::{Got, Trust, Turn};
use tm_pair::PairTable;
use tm_trustee::Served;

/// Three numbers of one batch are echoed.
fn three<P: PairTable<Echo>>(
    rt: &impl Abort,
    play: &mut Play<Echo, P>,
    trust: &Trust,
    gate: &SeenGate,
)
    requires { IsPlaying P.theory echo_kind play.old.tables.items play.old.trustee play.old.clients.items }
{
    assert!(rt; play.apply(0, trust, 7, 0).is_ok());
    assert!(rt; play.apply(0, trust, 8, 1).is_ok());
    assert!(rt; play.apply(0, trust, 9, 2).is_ok());
    assert_eq!(rt; play.turn(0), Turn::Sent(3));
    assert_eq!(rt; play.serve(gate), Served::Moved(1));
    assert_eq!(rt; play.turn(0), Turn::Got(3));
    assert!(rt; matches!(play.next(0), Some((0, Got::Replied(7)))));
    assert!(rt; matches!(play.next(0), Some((1, Got::Replied(8)))));
    assert!(rt; matches!(play.next(0), Some((2, Got::Replied(9)))));
}

#[test]
fn each_operation_runs_behind_its_own_pass_of_the_gate(rt: HostRuntime) -> Result<(), Fail> {
    let passed = Rc::new(rt.alloc(), Cell::new(0))?;
    let seen = Rc::new(rt.alloc(), Cell::new(0))?;
    let echo = Echo {
        passed: passed.clone()?,
        seen: seen.clone()?,
    };
    let (mut play, mut trusts) = start(rt.alloc(), echo, 2)?;
    assert_eq!(rt; trusts.len(), 1);
    three(
        &rt,
        &mut play,
        &trusts.remove(0),
        &SeenGate {
            passed: passed.clone()?,
        },
    );
    assert_eq!(rt; passed.get(), 3);
    // One had passed before the first ran, two before the second, three before the third.
    assert_eq!(rt; seen.get(), 1 + 2 + 3);
    Ok(())
}
