//! Launched work goes on turn by turn: it asks a greater trustee, is told the reply, and ends.
ghost use Rattle.tm_tests.specs.Launching.{IsPlayed};

mod play;
mod said;
mod start;

use self::play::{Play, Work, start};
use self::said::Said;
use std::process::Abort;
use std::test::Fail;
use tm_pair::PairTable;
use tm_seq::Counter;
use tm_trustee::Served;

/// A launch that asks what is not above ends as soon as it begins, by two resumes. Its completion comes with the next
/// answers.
fn is_refused<P: PairTable<Counter>>(
    rt: &impl Abort,
    play: &mut Play<P>,
    ticket: u64,
    trustee: u32,
    index: u32,
)
    requires { IsPlayed P.theory play.old.tables.items play.old.middle play.old.greatest play.old.client play.old.asked }
    ensures { IsPlayed P.theory play.new.tables.items play.new.middle play.new.greatest play.new.client play.new.asked }
{
    assert!(rt; play.ask(&[Work::AskAt(trustee, index)]));
    assert_eq!(rt; play.turn(), Served::Moved(1));
    assert!(rt; play.finds(&[Said::Launched(ticket)], &[]));
    assert_eq!(rt; play.turn(), Served::Moved(2));
    assert_eq!(rt; play.turn(), Served::Quiet);
    assert!(rt; play.ask(&[]));
    assert_eq!(rt; play.turn(), Served::Moved(1));
    assert!(rt; play.finds(&[], &[(ticket, Said::Refused)]));
}

/// A launch asks in the turn in which it begins, its ask is sent in the next, and it goes on in the one that finds the
/// reply.
fn asks_above<P: PairTable<Counter>>(rt: &impl Abort, play: &mut Play<P>)
    requires { IsPlayed P.theory play.old.tables.items play.old.middle play.old.greatest play.old.client play.old.asked }
    ensures { IsPlayed P.theory play.new.tables.items play.new.middle play.new.greatest play.new.client play.new.asked }
{
    assert!(rt; play.ask(&[Work::AskAt(2, 0)]));
    assert_eq!(rt; play.turn(), Served::Moved(1));
    assert_eq!(rt; play.turn_above(), Served::Quiet);
    assert_eq!(rt; play.turn(), Served::Moved(1));
    assert_eq!(rt; play.turn_above(), Served::Quiet);
    assert_eq!(rt; play.turn(), Served::Moved(1));
    assert_eq!(rt; play.turn(), Served::Quiet);
    assert_eq!(rt; play.turn_above(), Served::Moved(1));
    assert_eq!(rt; play.turn(), Served::Moved(2));
    assert_eq!(rt; play.turn(), Served::Quiet);
    assert!(rt; play.finds(&[Said::Launched(1)], &[]));
    assert!(rt; play.ask(&[]));
    assert_eq!(rt; play.turn(), Served::Moved(1));
    assert!(rt; play.finds(&[], &[(1, Said::Is(7))]));
}

#[test]
fn a_launch_is_told_what_it_asks_above(rt: HostRuntime) -> Result<(), Fail> {
    let mut play = start(rt.alloc())?;
    asks_above(&rt, &mut play);
    // Its own trustee, a lesser one, an object that is not held there, and a trustee that is not there.
    is_refused(&rt, &mut play, 2, 1, 0);
    is_refused(&rt, &mut play, 3, 0, 0);
    is_refused(&rt, &mut play, 4, 2, 1);
    is_refused(&rt, &mut play, 5, 3, 0);
    Ok(())
}

/// Two launches on one object run one after the other, and applies between them and beside them are not held up.
fn launches_and_applies<P: PairTable<Counter>>(rt: &impl Abort, play: &mut Play<P>)
    requires { IsPlayed P.theory play.old.tables.items play.old.middle play.old.greatest play.old.client play.old.asked }
{
    assert!(rt; play.ask(&[Work::AskAt(2, 0), Work::Add(1), Work::AskAt(2, 0)]));
    assert_eq!(rt; play.turn(), Served::Moved(1));
    assert!(rt; play.finds(&[Said::Launched(1), Said::Is(6), Said::Launched(2)], &[]));
    // The first asks, and the second does not begin.
    assert_eq!(rt; play.turn(), Served::Moved(1));
    assert!(rt; play.ask(&[Work::Add(1)]));
    // The ask is sent, and the apply answered.
    assert_eq!(rt; play.turn(), Served::Moved(2));
    assert!(rt; play.finds(&[Said::Is(7)], &[]));
    assert_eq!(rt; play.turn_above(), Served::Moved(1));
    // The reply came, the first ended, and the second began.
    assert_eq!(rt; play.turn(), Served::Moved(3));
    assert_eq!(rt; play.turn(), Served::Moved(1));
    assert_eq!(rt; play.turn_above(), Served::Moved(1));
    assert_eq!(rt; play.turn(), Served::Moved(2));
    assert_eq!(rt; play.turn(), Served::Quiet);
    assert!(rt; play.ask(&[]));
    assert_eq!(rt; play.turn(), Served::Moved(1));
    assert!(rt; play.finds(&[], &[(1, Said::Is(7)), (2, Said::Is(7))]));
}

#[test]
fn launches_on_one_object_run_one_after_the_other(rt: HostRuntime) -> Result<(), Fail> {
    let mut play = start(rt.alloc())?;
    launches_and_applies(&rt, &mut play);
    Ok(())
}

/// Sixteen launches that end at once.
const ENDS: [Work; 16] = [Work::End; 16];

/// Their answers.
const TICKETS: [Said; 16] = [
    Said::Launched(1),
    Said::Launched(2),
    Said::Launched(3),
    Said::Launched(4),
    Said::Launched(5),
    Said::Launched(6),
    Said::Launched(7),
    Said::Launched(8),
    Said::Launched(9),
    Said::Launched(10),
    Said::Launched(11),
    Said::Launched(12),
    Said::Launched(13),
    Said::Launched(14),
    Said::Launched(15),
    Said::Launched(16),
];

/// Their completions.
const COMPLETIONS: [(u64, Said); 16] = [
    (1, Said::Is(5)),
    (2, Said::Is(5)),
    (3, Said::Is(5)),
    (4, Said::Is(5)),
    (5, Said::Is(5)),
    (6, Said::Is(5)),
    (7, Said::Is(5)),
    (8, Said::Is(5)),
    (9, Said::Is(5)),
    (10, Said::Is(5)),
    (11, Said::Is(5)),
    (12, Said::Is(5)),
    (13, Said::Is(5)),
    (14, Said::Is(5)),
    (15, Said::Is(5)),
    (16, Said::Is(5)),
];

/// Of 17 launches that ended, 16 completions come with the answers to the last launch, and one with those to nothing.
fn seventeen<P: PairTable<Counter>>(rt: &impl Abort, play: &mut Play<P>)
    requires { IsPlayed P.theory play.old.tables.items play.old.middle play.old.greatest play.old.client play.old.asked }
{
    assert!(rt; play.ask(&ENDS));
    assert_eq!(rt; play.turn(), Served::Moved(1));
    assert!(rt; play.finds(&TICKETS, &[]));
    assert!(rt; play.ask(&[Work::End]));
    assert_eq!(rt; play.turn(), Served::Moved(17));
    assert!(rt; play.finds(&[Said::Launched(17)], &COMPLETIONS));
    assert!(rt; play.ask(&[]));
    assert_eq!(rt; play.turn(), Served::Moved(2));
    assert!(rt; play.finds(&[], &[(17, Said::Is(5))]));
}

#[test]
fn completions_come_sixteen_at_most(rt: HostRuntime) -> Result<(), Fail> {
    let mut play = start(rt.alloc())?;
    seventeen(&rt, &mut play);
    Ok(())
}
