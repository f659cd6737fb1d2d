//! Trusts that are entrusted and given up, and values that are refused.
ghost use Rattle.std.specs.Prelude.{◌<◌};
ghost use Rattle.tm_seq.specs.Counting.{counter_kind};
ghost use Rattle.tm_client_tests.specs.Playing.{IsPlaying};

use super::play::Play;
use super::start::start;
use std::process::Abort;
use std::test::Fail;
use tm_base::FreeGate;
use tm_batch::Refusal;
use tm_client::{Got, Refused, Trust, Turn, Why};
use tm_pair::PairTable;
use tm_seq::{Counter, CounterOp, CounterReply};
use tm_trustee::Served;

/// So many requests of a client go, and their answers come.
pub(super) fn round<P: PairTable<Counter>>(
    rt: &impl Abort,
    play: &mut Play<Counter, P>,
    who: usize,
    count: u32,
)
    requires plays { IsPlaying P.theory counter_kind play.old.tables.items play.old.trustee play.old.clients.items }
    requires who { who < 2 }
    ensures { IsPlaying P.theory counter_kind play.new.tables.items play.new.trustee play.new.clients.items }
{
    assert_eq!(rt; play.turn(who), Turn::Sent(count));
    assert_eq!(rt; play.serve(&FreeGate), Served::Moved(1));
    assert_eq!(rt; play.turn(who), Turn::Got(count));
}

/// With one trust held and room for two, one more value may be entrusted.
fn full<P: PairTable<Counter>>(rt: &impl Abort, play: &mut Play<Counter, P>)
    requires { IsPlaying P.theory counter_kind play.old.tables.items play.old.trustee play.old.clients.items }
{
    assert!(rt; play.entrust(0, Counter { value: 5 }, 0).is_ok());
    assert!(rt;
        matches!(
            play.entrust(0, Counter { value: 6 }, 1),
            Err(Refused {
                why: Why::TrustsFull,
                back: (Counter { value: 6 }, 1),
            })
        )
    );
    round(rt, play, 0, 1);
    match play.next(0) {
        Some((0, Got::Entrusted(trust))) => {
            assert_eq!(rt; (trust.trustee(), trust.id(), trust.client()), (1, 2, 0));
        }
        _ => assert!(rt; false),
    }
}

/// Of two values that are entrusted at once one is taken, since two objects may be live.
fn one_of_two<P: PairTable<Counter>>(rt: &impl Abort, play: &mut Play<Counter, P>) -> Option<Trust>
    requires { IsPlaying P.theory counter_kind play.old.tables.items play.old.trustee play.old.clients.items }
    ensures { IsPlaying P.theory counter_kind play.new.tables.items play.new.trustee play.new.clients.items }
{
    assert!(rt; play.entrust(0, Counter { value: 5 }, 0).is_ok());
    assert!(rt; play.entrust(0, Counter { value: 6 }, 1).is_ok());
    round(rt, play, 0, 2);
    let got = play.next(0);
    assert!(rt;
        matches!(
            play.next(0),
            Some((
                1,
                Got::NotEntrusted(Refusal::ObjectsFull, Counter { value: 6 }),
            ))
        )
    );
    match got {
        Some((0, Got::Entrusted(trust))) => Some(trust),
        _ => None,
    }
}

/// The trust is given up, and another value entrusted in its place.
fn in_its_place<P: PairTable<Counter>>(
    rt: &impl Abort,
    play: &mut Play<Counter, P>,
    trust: Trust,
) -> Option<(u32, Got<Counter>)>
    requires { IsPlaying P.theory counter_kind play.old.tables.items play.old.trustee play.old.clients.items }
    ensures { IsPlaying P.theory counter_kind play.new.tables.items play.new.trustee play.new.clients.items }
{
    assert!(rt; play.release(0, trust, 2).is_ok());
    assert!(rt; play.entrust(0, Counter { value: 7 }, 3).is_ok());
    round(rt, play, 0, 2);
    assert!(rt; matches!(play.next(0), Some((2, Got::Released))));
    play.next(0)
}

/// Two values were given ids, and a third is refused, since the last one was given out.
fn spent<P: PairTable<Counter>>(rt: &impl Abort, play: &mut Play<Counter, P>)
    requires { IsPlaying P.theory counter_kind play.old.tables.items play.old.trustee play.old.clients.items }
{
    let Some(trust) = one_of_two(rt, play) else {
        assert!(rt; false);
        return;
    };
    let Some((3, Got::Entrusted(trust))) = in_its_place(rt, play, trust) else {
        assert!(rt; false);
        return;
    };
    assert_eq!(rt; trust.id(), 3);
    assert!(rt;
        matches!(
            in_its_place(rt, play, trust),
            Some((
                3,
                Got::NotEntrusted(Refusal::SerialsSpent, Counter { value: 7 }),
            ))
        )
    );
}

/// What waits before a release is run before it.
fn release<P: PairTable<Counter>>(rt: &impl Abort, play: &mut Play<Counter, P>, trust: Trust)
    requires { IsPlaying P.theory counter_kind play.old.tables.items play.old.trustee play.old.clients.items }
{
    assert!(rt; play.apply(0, &trust, CounterOp::Add(1), 0).is_ok());
    assert!(rt; play.release(0, trust, 1).is_ok());
    round(rt, play, 0, 2);
    assert!(rt; matches!(play.next(0), Some((0, Got::Replied(CounterReply::Is(1))))));
    assert!(rt; matches!(play.next(0), Some((1, Got::Released))));
    assert!(rt; play.next(0).is_none());
}

#[test]
fn trusts_are_full_with_those_that_may_come(rt: HostRuntime) -> Result<(), Fail> {
    let (mut play, _) = start(rt.alloc(), Counter { value: 0 }, 2)?;
    full(&rt, &mut play);
    Ok(())
}

#[test]
fn a_value_is_refused_where_objects_are_full_or_ids_spent(rt: HostRuntime) -> Result<(), Fail> {
    let (mut play, _) = start(rt.alloc(), Counter { value: 0 }, 3)?;
    spent(&rt, &mut play);
    Ok(())
}

#[test]
fn a_release_goes_behind_what_waits(rt: HostRuntime) -> Result<(), Fail> {
    let (mut play, mut trusts) = start(rt.alloc(), Counter { value: 0 }, 2)?;
    assert_eq!(rt; trusts.len(), 1);
    release(&rt, &mut play, trusts.remove(0));
    Ok(())
}
