//! Launches, and their completions.
ghost use Rattle.tm_seq.specs.Counting.{counter_kind};
ghost use Rattle.tm_client_tests.specs.Playing.{IsPlaying};

use super::play::Play;
use super::start::start;
use super::trusts::round;
use std::process::Abort;
use std::test::Fail;
use tm_base::FreeGate;
use tm_client::{Got, Refused, Trust, Turn, Why};
use tm_pair::PairTable;
use tm_seq::{Counter, CounterOp, CounterReply, CounterTask};
use tm_trustee::Served;

/// Client 0 launches work that ends with the counter's number, so many times. Whether each launch was accepted.
fn launch_all<P: PairTable<Counter>>(play: &mut Play<Counter, P>, trust: &Trust, count: u32) -> bool
    requires { IsPlaying P.theory counter_kind play.old.tables.items play.old.trustee play.old.clients.items }
    ensures { IsPlaying P.theory counter_kind play.new.tables.items play.new.trustee play.new.clients.items }
{
    let mut all = true;
    for after in 0..count {
        all = play.launch(0, trust, CounterTask::End, after).is_ok() && all;
    }
    all
}

/// Whether the next so many continuations of client 0, in their order from `first`, come with the end of their work.
fn are_finished<P: PairTable<Counter>>(play: &mut Play<Counter, P>, first: u32, end: u32) -> bool
    requires { IsPlaying P.theory counter_kind play.old.tables.items play.old.trustee play.old.clients.items }
    ensures { IsPlaying P.theory counter_kind play.new.tables.items play.new.trustee play.new.clients.items }
{
    let mut all = true;
    for after in first..end {
        all = all
            && match play.next(0) {
                Some((told, Got::Finished(CounterReply::Is(0)))) => told == after,
                _ => false,
            };
    }
    all
}

/// Of 17 launches 16 go, whose tickets come; with the last one's come 16 completions, and with an empty batch the last.
fn seventeen<P: PairTable<Counter>>(rt: &impl Abort, play: &mut Play<Counter, P>, trust: &Trust)
    requires { IsPlaying P.theory counter_kind play.old.tables.items play.old.trustee play.old.clients.items }
{
    assert!(rt; launch_all(play, trust, 17));
    round(rt, play, 0, 16);
    assert!(rt; play.next(0).is_none());
    assert_eq!(rt; play.counting(0), 17);
    assert_eq!(rt; play.turn(0), Turn::Sent(1));
    assert!(rt; matches!(play.serve(&FreeGate), Served::Moved(_)));
    assert_eq!(rt; play.turn(0), Turn::Got(17));
    assert!(rt; are_finished(play, 0, 16));
    assert!(rt; play.next(0).is_none());
    assert_eq!(rt; play.counting(0), 1);
    assert_eq!(rt; play.turn(0), Turn::Sent(0));
    assert!(rt; matches!(play.serve(&FreeGate), Served::Moved(_)));
    assert_eq!(rt; play.turn(0), Turn::Got(1));
    assert_eq!(rt; play.turn(0), Turn::Idle);
    assert!(rt; are_finished(play, 16, 17));
    assert_eq!(rt; play.counting(0), 0);
}

/// The `Bye` waits until the completion came and was taken.
fn bye<P: PairTable<Counter>>(rt: &impl Abort, play: &mut Play<Counter, P>, trust: &Trust)
    requires { IsPlaying P.theory counter_kind play.old.tables.items play.old.trustee play.old.clients.items }
{
    assert!(rt; play.launch(0, trust, CounterTask::End, 5).is_ok());
    play.close(0);
    assert!(rt;
        matches!(
            play.launch(0, trust, CounterTask::End, 6),
            Err(Refused {
                why: Why::Closed,
                back: (CounterTask::End, 6),
            })
        )
    );
    round(rt, play, 0, 1);
    assert_eq!(rt; play.turn(0), Turn::Sent(0));
    assert!(rt; matches!(play.serve(&FreeGate), Served::Moved(_)));
    assert_eq!(rt; play.turn(0), Turn::Got(1));
    assert_eq!(rt; play.turn(0), Turn::Idle);
    assert!(rt; are_finished(play, 5, 6));
    assert_eq!(rt; play.turn(0), Turn::Sent(1));
    assert_eq!(rt; play.serve(&FreeGate), Served::Moved(1));
    assert_eq!(rt; play.turn(0), Turn::Got(1));
    assert!(rt; play.is_closed(0));
}

/// Behind the last ticket a launch is refused, and its task comes back in its place among the answers.
fn spent<P: PairTable<Counter>>(rt: &impl Abort, play: &mut Play<Counter, P>, trust: &Trust)
    requires { IsPlaying P.theory counter_kind play.old.tables.items play.old.trustee play.old.clients.items }
{
    assert!(rt; launch_all(play, trust, 4));
    assert!(rt; play.apply(0, trust, CounterOp::Read, 4).is_ok());
    assert_eq!(rt; play.turn(0), Turn::Sent(5));
    assert!(rt; matches!(play.serve(&FreeGate), Served::Moved(_)));
    assert_eq!(rt; play.turn(0), Turn::Got(5));
    assert!(rt; matches!(play.next(0), Some((3, Got::TicketsSpent(CounterTask::End)))));
    assert!(rt; matches!(play.next(0), Some((4, Got::Replied(CounterReply::Is(0))))));
    assert!(rt; play.next(0).is_none());
    assert_eq!(rt; play.counting(0), 3);
    assert_eq!(rt; play.turn(0), Turn::Sent(0));
    assert!(rt; matches!(play.serve(&FreeGate), Served::Moved(_)));
    assert_eq!(rt; play.turn(0), Turn::Got(3));
    assert!(rt; are_finished(play, 0, 3));
    assert_eq!(rt; play.turn(0), Turn::Idle);
}

#[test]
fn seventeen_launches_end(rt: HostRuntime) -> Result<(), Fail> {
    let (mut play, mut trusts) = start(rt.alloc(), Counter { value: 0 }, 20)?;
    assert_eq!(rt; trusts.len(), 1);
    seventeen(&rt, &mut play, &trusts.remove(0));
    Ok(())
}

#[test]
fn a_bye_waits_for_a_completion(rt: HostRuntime) -> Result<(), Fail> {
    let (mut play, mut trusts) = start(rt.alloc(), Counter { value: 0 }, 2)?;
    assert_eq!(rt; trusts.len(), 1);
    bye(&rt, &mut play, &trusts.remove(0));
    Ok(())
}

#[test]
fn a_launch_is_refused_where_tickets_are_spent(rt: HostRuntime) -> Result<(), Fail> {
    let (mut play, mut trusts) = start(rt.alloc(), Counter { value: 0 }, 2)?;
    assert_eq!(rt; trusts.len(), 1);
    spent(&rt, &mut play, &trusts.remove(0));
    Ok(())
}
