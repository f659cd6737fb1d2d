//! How many requests count, and how many go in a batch.
ghost use Rattle.tm_seq.specs.Counting.{counter_kind};
ghost use Rattle.tm_client_tests.specs.Playing.{IsPlaying};

use super::play::Play;
use super::start::start;
use std::process::Abort;
use std::test::Fail;
use tm_base::FreeGate;
use tm_client::{Got, Refused, Trust, Turn, Why};
use tm_pair::PairTable;
use tm_seq::{Counter, CounterOp, CounterReply};
use tm_trustee::Served;

/// Client 0 adds 1 so many times. Whether each request was accepted.
fn add_all<P: PairTable<Counter>>(play: &mut Play<Counter, P>, trust: &Trust, count: u32) -> bool
    requires { IsPlaying P.theory counter_kind play.old.tables.items play.old.trustee play.old.clients.items }
    ensures { IsPlaying P.theory counter_kind play.new.tables.items play.new.trustee play.new.clients.items }
{
    let mut all = true;
    for after in 0..count {
        all = play.apply(0, trust, CounterOp::Add(1), after).is_ok() && all;
    }
    all
}

/// 64 requests count, and go in batches of 16.
fn window<P: PairTable<Counter>>(rt: &impl Abort, play: &mut Play<Counter, P>, trust: &Trust)
    requires { IsPlaying P.theory counter_kind play.old.tables.items play.old.trustee play.old.clients.items }
{
    assert!(rt; add_all(play, trust, 64));
    assert!(rt;
        matches!(
            play.apply(0, trust, CounterOp::Add(1), 64),
            Err(Refused {
                why: Why::WindowFull,
                back: (CounterOp::Add(1), 64),
            })
        )
    );
    assert_eq!(rt; play.turn(0), Turn::Sent(16));
    assert_eq!(rt; play.turn(0), Turn::Pending);
    assert_eq!(rt; play.serve(&FreeGate), Served::Moved(1));
    assert_eq!(rt; play.turn(0), Turn::Got(16));
    assert_eq!(rt; play.counting(0), 64);
    assert!(rt; matches!(play.next(0), Some((0, Got::Replied(CounterReply::Is(1))))));
    assert!(rt; matches!(play.next(0), Some((1, Got::Replied(CounterReply::Is(2))))));
    assert_eq!(rt; play.counting(0), 62);
    assert_eq!(rt; play.turn(0), Turn::Sent(16));
}

/// Of 17 requests 16 go, and then one.
fn seventeen<P: PairTable<Counter>>(rt: &impl Abort, play: &mut Play<Counter, P>, trust: &Trust)
    requires { IsPlaying P.theory counter_kind play.old.tables.items play.old.trustee play.old.clients.items }
{
    assert!(rt; add_all(play, trust, 17));
    assert_eq!(rt; play.turn(0), Turn::Sent(16));
    assert_eq!(rt; play.serve(&FreeGate), Served::Moved(1));
    assert_eq!(rt; play.turn(0), Turn::Got(16));
    assert_eq!(rt; play.turn(0), Turn::Sent(1));
}

#[test]
fn sixty_four_requests_count(rt: HostRuntime) -> Result<(), Fail> {
    let (mut play, mut trusts) = start(rt.alloc(), Counter { value: 0 }, 2)?;
    assert_eq!(rt; trusts.len(), 1);
    window(&rt, &mut play, &trusts.remove(0));
    Ok(())
}

#[test]
fn seventeen_requests_go_in_two_batches(rt: HostRuntime) -> Result<(), Fail> {
    let (mut play, mut trusts) = start(rt.alloc(), Counter { value: 0 }, 2)?;
    assert_eq!(rt; trusts.len(), 1);
    seventeen(&rt, &mut play, &trusts.remove(0));
    Ok(())
}
