//! Launched work that asks greater trustees, in turns until nothing moves.
ghost use Rattle.std.specs.Prelude.{IfSome};
ghost use Rattle.tm_turns_tests.specs.Launching.{HasClient};

use crate::Counters;
use std::alloc::{AllocError, Global};
use std::process::Abort;
use std::test::Fail;
use tm_base::FreeGate;
use tm_batch::{Config, First, Holders};
use tm_client::{Got, Trust};
use tm_seq::{Counter, CounterOp, CounterReply, CounterTask};
use tm_turns::Turns;

/// The list of the build: a counter of 5 on trustee 0, which the client holds; one of 3 on trustee 1, which the client and
/// trustee 0 hold; and one of 7 on trustee 2, which trustees 0 and 1 hold.
fn counters(alloc: Global) -> Result<Vec<First<Counter>>, AllocError> {
    let least = First {
        trustee: 0,
        value: Counter { value: 5 },
        holders: Holders::new(vec![in alloc; 0]?),
    };
    let middle = First {
        trustee: 1,
        value: Counter { value: 3 },
        holders: Holders::new(vec![in alloc; 0, 1]?),
    };
    let greatest = First {
        trustee: 2,
        value: Counter { value: 7 },
        holders: Holders::new(vec![in alloc; 1, 2]?),
    };
    Ok(vec![in alloc; least, middle, greatest]?)
}

/// One client and three trustees with these counters, and the client's trusts: that of trustee 0's, and that of trustee 1's.
/// None is want of memory.
fn start(alloc: Global) -> Option<(Counters, Vec<Trust>)>
    ensures { IfSome result (λ r. HasClient r.0) }
{
    let config = Config {
        clients: 1,
        trustees: 3,
        objects: 1,
        trusts: 2,
        last_id: 9,
    };
    let first = counters(alloc).ok()?;
    let Ok((turns, mut trusts)) = Turns::build(alloc, config, first) else {
        return None;
    };
    let trusts = trusts.pop()?;
    Some((turns, trusts))
}

/// The client launches work. Whether that was accepted.
fn launch(turns: &mut Counters, trust: &Trust, task: CounterTask, after: u64) -> bool
    requires { HasClient turns.old }
    ensures { HasClient turns.new }
{
    turns.clients[0].launch(trust, task, after).is_ok()
}

/// The client launches work that reads the first counter that the trust's trustee holds at another.
fn launch_ask(turns: &mut Counters, trust: &Trust, trustee: u32, after: u64) -> bool
    requires { HasClient turns.old }
    ensures { HasClient turns.new }
{
    let task = CounterTask::AskAt { trustee, index: 0 };
    launch(turns, trust, task, after)
}

/// The client adds 1. Whether that was accepted.
fn add_one(turns: &mut Counters, trust: &Trust, after: u64) -> bool
    requires { HasClient turns.old }
    ensures { HasClient turns.new }
{
    turns.clients[0]
        .apply_then(trust, CounterOp::Add(1), after)
        .is_ok()
}

/// Makes turns until nothing moves. How many moved something.
fn run(turns: &mut Counters) -> u64
    requires { HasClient turns.old }
    ensures { HasClient turns.new }
{
    turns.run(&[], &FreeGate)
}

/// What came first, with its continuation.
fn take(turns: &mut Counters) -> Option<(u64, Got<Counter>)>
    requires { HasClient turns.old }
    ensures { HasClient turns.new }
{
    turns.clients[0].next()
}

/// Work on both objects asks trustee 2. An addition is not held up by work that waits for its reply, and the second launch
/// on an object begins when the first has ended.
fn asks_of_two_trustees(rt: &impl Abort, turns: &mut Counters, least: &Trust, middle: &Trust)
    requires { HasClient turns.old }
    ensures { HasClient turns.new }
{
    assert!(rt; launch_ask(turns, least, 2, 1));
    assert!(rt; add_one(turns, least, 2));
    assert!(rt; launch(turns, least, CounterTask::End, 3));
    assert!(rt; launch_ask(turns, middle, 2, 4));
    assert!(rt; add_one(turns, middle, 5));
    assert!(rt; run(turns) > 0);
    assert!(rt; matches!(take(turns), Some((2, Got::Replied(CounterReply::Is(6))))));
    assert!(rt; matches!(take(turns), Some((5, Got::Replied(CounterReply::Is(4))))));
    assert!(rt; matches!(take(turns), Some((1, Got::Finished(CounterReply::Is(7))))));
    assert!(rt; matches!(take(turns), Some((3, Got::Finished(CounterReply::Is(6))))));
    assert!(rt; matches!(take(turns), Some((4, Got::Finished(CounterReply::Is(7))))));
    assert!(rt; take(turns).is_none());
}

/// Work on trustee 0's counter asks trustee 1. What trustee 1's own work asks is not above, or not held there; it ends
/// at once, so it comes first.
fn asks_between_them(rt: &impl Abort, turns: &mut Counters, least: &Trust, middle: &Trust)
    requires { HasClient turns.old }
    ensures { HasClient turns.new }
{
    let task = CounterTask::AskAt {
        trustee: 2,
        index: 1,
    };
    assert!(rt; launch_ask(turns, least, 1, 6));
    assert!(rt; launch_ask(turns, middle, 1, 7));
    assert!(rt; launch(turns, middle, task, 8));
    assert!(rt; run(turns) > 0);
    assert!(rt; matches!(take(turns), Some((7, Got::Finished(CounterReply::Refused)))));
    assert!(rt; matches!(take(turns), Some((8, Got::Finished(CounterReply::Refused)))));
    assert!(rt; matches!(take(turns), Some((6, Got::Finished(CounterReply::Is(4))))));
    assert!(rt; take(turns).is_none());
}

/// How many requests each trustee has run, once all is closed.
fn close(turns: Counters) -> Vec<u64>
    requires { HasClient turns }
{
    turns.close(&FreeGate)
}

#[test]
fn launched_work_asks_greater_trustees(rt: HostRuntime) -> Result<(), Fail> {
    let Some((mut turns, mut trusts)) = start(rt.alloc()) else {
        return Err(Fail::new("no memory"));
    };
    assert_eq!(rt; trusts.len(), 2);
    let least = trusts.remove(0);
    let middle = trusts.remove(0);
    asks_of_two_trustees(&rt, &mut turns, &least, &middle);
    asks_between_them(&rt, &mut turns, &least, &middle);
    // Trustee 0 ran four requests of the client and its Bye. Trustee 1 ran four and a Bye too, and a read and the Bye of
    // trustee 0. Trustee 2 ran the client's Bye, and a read and a Bye of each of the others.
    assert_eq!(rt; close(turns).as_slice(), [5, 7, 5].as_slice());
    Ok(())
}
