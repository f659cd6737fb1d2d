//! Holds that one client grants to another.
ghost use Rattle.std.specs.Prelude.{◌<◌};
ghost use Rattle.tm_seq.specs.Counting.{counter_kind};
ghost use Rattle.tm_client_tests.specs.Playing.{IsPlaying};

use super::play::Play;
use super::start::start;
use super::trusts::round;
use std::process::Abort;
use std::test::Fail;
use tm_base::FreeGate;
use tm_client::{Got, Refused, Trust, Turn, Why};
use tm_pair::PairTable;
use tm_seq::{Counter, CounterOp, CounterReply};
use tm_trustee::Served;

/// A client fetches, and so many gifts come.
fn fetch<P: PairTable<Counter>>(
    rt: &impl Abort,
    play: &mut Play<Counter, P>,
    who: usize,
    count: u32,
)
    requires plays { IsPlaying P.theory counter_kind play.old.tables.items play.old.trustee play.old.clients.items }
    requires who { who < 2 }
    ensures { IsPlaying P.theory counter_kind play.new.tables.items play.new.trustee play.new.clients.items }
{
    play.fetch(who);
    assert_eq!(rt; play.turn(who), Turn::Sent(0));
    assert_eq!(rt; play.serve(&FreeGate), Served::Moved(1));
    assert_eq!(rt; play.turn(who), Turn::Got(count));
}

/// Client 0 grants a hold to client 1 and gives its own up, in one batch. Client 1 gets the gift.
fn give<P: PairTable<Counter>>(
    rt: &impl Abort,
    play: &mut Play<Counter, P>,
    trust: Trust,
) -> Option<Trust>
    requires { IsPlaying P.theory counter_kind play.old.tables.items play.old.trustee play.old.clients.items }
    ensures { IsPlaying P.theory counter_kind play.new.tables.items play.new.trustee play.new.clients.items }
{
    assert!(rt; play.grant(0, &trust, 1, 0).is_ok());
    assert!(rt; play.release(0, trust, 1).is_ok());
    round(rt, play, 0, 2);
    assert!(rt; matches!(play.next(0), Some((0, Got::Granted))));
    assert!(rt; matches!(play.next(0), Some((1, Got::Released))));
    fetch(rt, play, 1, 1);
    play.take_gift(1)
}

/// Client 1 alone holds the counter: client 0 can't use the trust, and client 1 gets the value back.
fn take<P: PairTable<Counter>>(rt: &impl Abort, play: &mut Play<Counter, P>, trust: Trust)
    requires { IsPlaying P.theory counter_kind play.old.tables.items play.old.trustee play.old.clients.items }
    ensures { IsPlaying P.theory counter_kind play.new.tables.items play.new.trustee play.new.clients.items }
{
    assert_eq!(rt; (trust.trustee(), trust.id(), trust.client()), (1, 1, 1));
    assert!(rt;
        matches!(
            play.apply(0, &trust, CounterOp::Add(1), 2),
            Err(Refused {
                why: Why::NotHeld,
                back: (CounterOp::Add(1), 2),
            })
        )
    );
    assert!(rt; play.apply(1, &trust, CounterOp::Add(5), 3).is_ok());
    round(rt, play, 1, 1);
    assert!(rt; matches!(play.next(1), Some((3, Got::Replied(CounterReply::Is(5))))));
    assert!(rt; play.reclaim(1, trust, 4).is_ok());
    round(rt, play, 1, 1);
    assert!(rt;
        matches!(
            play.next(1),
            Some((4, Got::Reclaimed(Counter { value: 5 })))
        )
    );
}

/// Client 0 entrusts a value and grants client 1 a hold. No client has the number 2.
fn share<P: PairTable<Counter>>(rt: &impl Abort, play: &mut Play<Counter, P>) -> Option<Trust>
    requires { IsPlaying P.theory counter_kind play.old.tables.items play.old.trustee play.old.clients.items }
    ensures { IsPlaying P.theory counter_kind play.new.tables.items play.new.trustee play.new.clients.items }
{
    assert!(rt; play.entrust(0, Counter { value: 7 }, 5).is_ok());
    round(rt, play, 0, 1);
    let Some((5, Got::Entrusted(trust))) = play.next(0) else {
        return None;
    };
    assert!(rt;
        matches!(
            play.grant(0, &trust, 2, 6),
            Err(Refused {
                why: Why::NoClient,
                back: 6,
            })
        )
    );
    assert!(rt; play.grant(0, &trust, 1, 6).is_ok());
    round(rt, play, 0, 1);
    assert!(rt; matches!(play.next(0), Some((6, Got::Granted))));
    fetch(rt, play, 1, 1);
    play.take_gift(1)
}

/// Client 1 asks for the value, which client 0 holds too: the trust comes back, and may be used.
fn keep<P: PairTable<Counter>>(rt: &impl Abort, play: &mut Play<Counter, P>, trust: Trust)
    requires { IsPlaying P.theory counter_kind play.old.tables.items play.old.trustee play.old.clients.items }
{
    assert!(rt; play.reclaim(1, trust, 7).is_ok());
    round(rt, play, 1, 1);
    let Some((7, Got::Shared(trust))) = play.next(1) else {
        assert!(rt; false);
        return;
    };
    assert_eq!(rt; (trust.trustee(), trust.id(), trust.client()), (1, 2, 1));
    assert!(rt; play.apply(1, &trust, CounterOp::Add(1), 8).is_ok());
    round(rt, play, 1, 1);
    assert!(rt; matches!(play.next(1), Some((8, Got::Replied(CounterReply::Is(8))))));
}

/// Client 0 grants client 1 so many holds. Whether each request was accepted.
fn grant_all<P: PairTable<Counter>>(play: &mut Play<Counter, P>, trust: &Trust, count: u32) -> bool
    requires { IsPlaying P.theory counter_kind play.old.tables.items play.old.trustee play.old.clients.items }
    ensures { IsPlaying P.theory counter_kind play.new.tables.items play.new.trustee play.new.clients.items }
{
    let mut all = true;
    for after in 0..count {
        all = play.grant(0, trust, 1, after).is_ok() && all;
    }
    all
}

/// Whether the next so many answers of client 0 say that the gift waits.
fn are_granted<P: PairTable<Counter>>(play: &mut Play<Counter, P>, count: u32) -> bool
    requires { IsPlaying P.theory counter_kind play.old.tables.items play.old.trustee play.old.clients.items }
    ensures { IsPlaying P.theory counter_kind play.new.tables.items play.new.trustee play.new.clients.items }
{
    let mut all = true;
    for after in 0..count {
        all = all
            && match play.next(0) {
                Some((told, Got::Granted)) => told == after,
                _ => false,
            };
    }
    all
}

/// 17 gifts wait for client 1: 16 were granted in a batch, and then one.
pub(super) fn seventeen<P: PairTable<Counter>>(
    rt: &impl Abort,
    play: &mut Play<Counter, P>,
    trust: &Trust,
)
    requires { IsPlaying P.theory counter_kind play.old.tables.items play.old.trustee play.old.clients.items }
    ensures { IsPlaying P.theory counter_kind play.new.tables.items play.new.trustee play.new.clients.items }
{
    assert!(rt; grant_all(play, trust, 17));
    round(rt, play, 0, 16);
    round(rt, play, 0, 1);
    assert!(rt; are_granted(play, 17));
}

/// Takes so many gifts of client 1. Whether each is a trust of the counter.
fn take_all<P: PairTable<Counter>>(play: &mut Play<Counter, P>, count: u32) -> bool
    requires { IsPlaying P.theory counter_kind play.old.tables.items play.old.trustee play.old.clients.items }
    ensures { IsPlaying P.theory counter_kind play.new.tables.items play.new.trustee play.new.clients.items }
{
    let mut all = true;
    for _ in 0..count {
        all = all
            && match play.take_gift(1) {
                Some(gift) => gift.id() == 1,
                None => false,
            };
    }
    all
}

/// Two fetches bring 17 gifts: 16 and one.
fn two_fetches<P: PairTable<Counter>>(rt: &impl Abort, play: &mut Play<Counter, P>)
    requires { IsPlaying P.theory counter_kind play.old.tables.items play.old.trustee play.old.clients.items }
{
    fetch(rt, play, 1, 16);
    assert!(rt; take_all(play, 16));
    assert!(rt; play.take_gift(1).is_none());
    fetch(rt, play, 1, 1);
    assert!(rt; take_all(play, 1));
    assert!(rt; play.take_gift(1).is_none());
}

/// A gift leaves with the answers to the batch by which it was granted, where that has room for it.
fn own_gift<P: PairTable<Counter>>(rt: &impl Abort, play: &mut Play<Counter, P>, trust: &Trust)
    requires { IsPlaying P.theory counter_kind play.old.tables.items play.old.trustee play.old.clients.items }
{
    assert!(rt; play.grant(0, trust, 0, 7).is_ok());
    assert_eq!(rt; play.turn(0), Turn::Sent(1));
    assert_eq!(rt; play.serve(&FreeGate), Served::Moved(1));
    assert_eq!(rt; play.turn(0), Turn::Got(2));
    assert!(rt; matches!(play.next(0), Some((7, Got::Granted))));
    assert!(rt; play.take_gift(0).is_some());
    assert!(rt; play.take_gift(0).is_none());
}

#[test]
fn a_hold_goes_to_another_client(rt: HostRuntime) -> Result<(), Fail> {
    let (mut play, mut trusts) = start(rt.alloc(), Counter { value: 0 }, 2)?;
    assert_eq!(rt; trusts.len(), 1);
    match give(&rt, &mut play, trusts.remove(0)) {
        Some(gift) => take(&rt, &mut play, gift),
        None => assert!(rt; false),
    }
    Ok(())
}

#[test]
fn a_trust_comes_back_where_another_holds_the_object(rt: HostRuntime) -> Result<(), Fail> {
    let (mut play, _) = start(rt.alloc(), Counter { value: 0 }, 2)?;
    match share(&rt, &mut play) {
        Some(gift) => keep(&rt, &mut play, gift),
        None => assert!(rt; false),
    }
    Ok(())
}

#[test]
fn seventeen_gifts_come_with_two_batches(rt: HostRuntime) -> Result<(), Fail> {
    let (mut play, mut trusts) = start(rt.alloc(), Counter { value: 0 }, 20)?;
    assert_eq!(rt; trusts.len(), 1);
    seventeen(&rt, &mut play, &trusts.remove(0));
    two_fetches(&rt, &mut play);
    Ok(())
}

#[test]
fn a_gift_comes_with_its_own_batch(rt: HostRuntime) -> Result<(), Fail> {
    let (mut play, mut trusts) = start(rt.alloc(), Counter { value: 0 }, 2)?;
    assert_eq!(rt; trusts.len(), 1);
    own_gift(&rt, &mut play, &trusts.remove(0));
    Ok(())
}
