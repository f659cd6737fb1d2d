//! A first program with the runtime.
ghost use Rattle.std.specs.Prelude.{◌<◌, length};
ghost use Rattle.tm_seq.specs.Counting.{counter_kind};
ghost use Rattle.tm_turns.specs.Whole.{AreTurns};

use std::test::Fail;
use tm_base::FreeGate;
use tm_batch::{Config, First, Holders};
use tm_client::{Got, Trust};
use tm_seq::{Counter, CounterOp, CounterReply};
use tm_turns::Turns;

/// The only trust of the only client.
fn only(trusts: Vec<Vec<Trust>>) -> Option<Trust> {
    let mut trusts = trusts;
    trusts.pop()?.pop()
}

/// The first client adds 5 by a trust, turns are made until nothing moves, and what came is taken.
fn add_five(
    turns: &mut Turns<Counter, &'static str>,
    trust: &Trust,
) -> Option<(&'static str, Got<Counter>)>
    requires are { AreTurns counter_kind turns.old }
    requires client { 0 < length turns.old.clients.items }
{
    let asked = turns.clients[0].apply_then(trust, CounterOp::Add(5), "added");
    asked.ok()?;
    turns.run(&[], &FreeGate);
    turns.clients[0].next()
}

#[test]
fn a_first_program(rt: HostRuntime) -> Result<(), Fail> {
    // One client, two trustees, and a counter of 37 on trustee 1, which the client holds.
    let config = Config {
        clients: 1,
        trustees: 2,
        objects: 1,
        trusts: 1,
        last_id: 1,
    };
    let counter = First {
        trustee: 1,
        value: Counter { value: 37 },
        holders: Holders::new(vec![in rt.alloc(); 0]?),
    };
    let built = Turns::build(rt.alloc(), config, vec![in rt.alloc(); counter]?);
    let Ok((mut turns, trusts)) = built else {
        return Err(Fail::new("no memory"));
    };
    let trust = only(trusts).expect(&rt, "a trust");
    let came = add_five(&mut turns, &trust);
    assert!(rt; matches!(came, Some(("added", Got::Replied(CounterReply::Is(42))))));
    Ok(())
}
