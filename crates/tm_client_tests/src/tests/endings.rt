//! Empty batches and the `Bye`.
ghost use Rattle.std.specs.Prelude.{◌<◌};
ghost use Rattle.tm_seq.specs.Counting.{counter_kind};
ghost use Rattle.tm_client_tests.specs.Playing.{IsPlaying};

use super::gifts::seventeen;
use super::play::Play;
use super::start::start;
use super::trusts::round;
use std::process::Abort;
use std::test::Fail;
use tm_base::FreeGate;
use tm_client::{Got, Refused, Trust, Turn, Why};
use tm_pair::PairTable;
use tm_seq::{Counter, CounterOp};
use tm_trustee::Served;

/// A client says `Bye`, after which it has nothing to do.
fn bye<P: PairTable<Counter>>(rt: &impl Abort, play: &mut Play<Counter, P>, who: usize)
    requires plays { IsPlaying P.theory counter_kind play.old.tables.items play.old.trustee play.old.clients.items }
    requires who { who < 2 }
    ensures { IsPlaying P.theory counter_kind play.new.tables.items play.new.trustee play.new.clients.items }
{
    play.close(who);
    assert_eq!(rt; play.turn(who), Turn::Sent(1));
    assert!(rt; !play.is_closed(who));
    assert_eq!(rt; play.serve(&FreeGate), Served::Moved(1));
    assert_eq!(rt; play.turn(who), Turn::Got(1));
    assert!(rt; play.is_closed(who));
    assert!(rt; play.next(who).is_none());
    assert_eq!(rt; play.turn(who), Turn::Idle);
}

/// An empty batch goes once for each `fetch`.
fn fetch<P: PairTable<Counter>>(rt: &impl Abort, play: &mut Play<Counter, P>)
    requires { IsPlaying P.theory counter_kind play.old.tables.items play.old.trustee play.old.clients.items }
    ensures { IsPlaying P.theory counter_kind play.new.tables.items play.new.trustee play.new.clients.items }
{
    assert_eq!(rt; play.turn(0), Turn::Idle);
    play.fetch(0);
    round(rt, play, 0, 0);
    assert_eq!(rt; play.turn(0), Turn::Idle);
}

/// Nothing is accepted once the client closed.
fn refused<P: PairTable<Counter>>(rt: &impl Abort, play: &mut Play<Counter, P>, trust: &Trust)
    requires { IsPlaying P.theory counter_kind play.old.tables.items play.old.trustee play.old.clients.items }
{
    assert!(rt;
        matches!(
            play.apply(0, trust, CounterOp::Add(1), 3),
            Err(Refused {
                why: Why::Closed,
                back: (CounterOp::Add(1), 3),
            })
        )
    );
}

/// The gifts that wait for a client that says `Bye` are given up, and a later grant to it is told.
fn gone<P: PairTable<Counter>>(rt: &impl Abort, play: &mut Play<Counter, P>, trust: Trust)
    requires { IsPlaying P.theory counter_kind play.old.tables.items play.old.trustee play.old.clients.items }
{
    assert!(rt; play.grant(0, &trust, 1, 1).is_ok());
    round(rt, play, 0, 1);
    assert!(rt; matches!(play.next(0), Some((1, Got::Gone))));
    assert!(rt; play.reclaim(0, trust, 2).is_ok());
    round(rt, play, 0, 1);
    assert!(rt;
        matches!(
            play.next(0),
            Some((2, Got::Reclaimed(Counter { value: 0 })))
        )
    );
}

#[test]
fn a_client_fetches_and_closes(rt: HostRuntime) -> Result<(), Fail> {
    let (mut play, mut trusts) = start(rt.alloc(), Counter { value: 0 }, 2)?;
    assert_eq!(rt; trusts.len(), 1);
    fetch(&rt, &mut play);
    bye(&rt, &mut play, 0);
    refused(&rt, &mut play, &trusts.remove(0));
    Ok(())
}

#[test]
fn gifts_of_a_client_that_left_are_given_up(rt: HostRuntime) -> Result<(), Fail> {
    let (mut play, mut trusts) = start(rt.alloc(), Counter { value: 0 }, 2)?;
    assert_eq!(rt; trusts.len(), 1);
    let trust = trusts.remove(0);
    seventeen(&rt, &mut play, &trust);
    bye(&rt, &mut play, 1);
    gone(&rt, &mut play, trust);
    Ok(())
}
