//! Additions to a counter, through a client and its trustee in turns, and by plain calls: a test compares the replies, and
//! bench/client_loop.sh times both.
ghost use Rattle.std.specs.Prelude.{IfSome};
ghost use Rattle.tm_turns_tests.specs.Adding.{IsOfOne};

use std::alloc::Global;
use tm_base::FreeGate;
use tm_batch::{Config, First, Holders, MOST_REQUESTS, WINDOW};
use tm_client::{Got, Trust};
use tm_seq::{Counter, CounterOp, CounterReply, Entrusted};
use tm_turns::Turns;

/// A runtime of counters, whose continuations are numbers.
pub type Counters = Turns<Counter, u64>;

/// Numbers to add, which look drawn, and a digest of what was replied.
#[derive(Drop)]
pub struct Additions {
    drawn: u64,
    digest: u64,
}

impl Additions {
    /// The same numbers each time, and nothing replied yet.
    pub fn new() -> Additions {
        Additions {
            drawn: 12_345,
            digest: 0,
        }
    }

    /// The next addition.
    fn next(&mut self) -> CounterOp {
        self.drawn = self
            .drawn
            .wrapping_mul(6_364_136_223_846_793_005)
            .wrapping_add(1_442_695_040_888_963_407);
        CounterOp::Add(self.drawn >> 33)
    }

    /// Takes in a reply.
    fn note(&mut self, reply: &CounterReply) {
        if let CounterReply::Is(sum) = reply {
            self.digest = self.digest.rotate_left(1) ^ *sum;
        }
    }

    /// What tells the replies so far, in their order.
    pub fn digest(&self) -> u64 {
        self.digest
    }
}

/// One client, two trustees, and a counter of 0 on trustee 1, which the client holds: the runtime, and the trust. None is want
/// of memory.
pub fn one_counter(alloc: Global) -> Option<(Counters, Trust)>
    ensures { IfSome result (λ r. IsOfOne r.0) }
{
    let config = Config {
        clients: 1,
        trustees: 2,
        objects: 1,
        trusts: 1,
        last_id: 1,
    };
    let counter = First {
        trustee: 1,
        value: Counter { value: 0 },
        holders: Holders::new(vec![in alloc; 0].ok()?),
    };
    let first = vec![in alloc; counter].ok()?;
    let Ok((turns, mut trusts)) = Turns::build(alloc, config, first) else {
        return None;
    };
    let trust = trusts.pop()?.pop()?;
    Some((turns, trust))
}

/// Lets the client ask an addition. Its number is the continuation.
fn ask(turns: &mut Counters, trust: &Trust, op: CounterOp, number: u64)
    requires { IsOfOne turns.old }
    ensures { IsOfOne turns.new }
{
    let _ = turns.clients[0].apply_then(trust, op, number);
}

/// Makes the client's turn at trustee 1.
fn turn(turns: &mut Counters)
    requires { IsOfOne turns.old }
    ensures { IsOfOne turns.new }
{
    let table = &mut turns.tables[1];
    turns.clients[0].turn(table, 1);
}

/// Makes trustee 1's turn.
fn serve(turns: &mut Counters)
    requires { IsOfOne turns.old }
    ensures { IsOfOne turns.new }
{
    turns.serve(1, &FreeGate);
}

/// What came first, with its continuation.
fn take(turns: &mut Counters) -> Option<(u64, Got<Counter>)>
    requires { IsOfOne turns.old }
    ensures { IsOfOne turns.new }
{
    turns.clients[0].next()
}

/// Asks as many additions as count at once.
pub(crate) fn fill(turns: &mut Counters, trust: &Trust, additions: &mut Additions)
    requires { IsOfOne turns.old }
    ensures { IsOfOne turns.new }
{
    for number in 0..WINDOW {
        ask(turns, trust, additions.next(), number as u64);
    }
}

/// A full batch goes, is served, and its replies are taken.
fn go(turns: &mut Counters, additions: &mut Additions)
    requires { IsOfOne turns.old }
    ensures { IsOfOne turns.new }
{
    turn(turns);
    serve(turns);
    turn(turns);
    for _ in 0..MOST_REQUESTS {
        if let Some((_, Got::Replied(reply))) = take(turns) {
            additions.note(&reply);
        }
    }
}

/// Adds through the client in full windows, each of 64 requests in 4 batches of 16, and takes in the replies.
pub fn add_in_windows(turns: &mut Counters, trust: &Trust, additions: &mut Additions, windows: u64)
    requires { IsOfOne turns.old }
    ensures { IsOfOne turns.new }
{
    for _ in 0..windows {
        fill(turns, trust, additions);
        for _ in 0..WINDOW / MOST_REQUESTS {
            go(turns, additions);
        }
    }
}

/// Adds by as many plain calls, and takes in the replies.
pub fn add_by_calls(counter: &mut Counter, additions: &mut Additions, windows: u64) {
    for _ in 0..windows {
        for _ in 0..WINDOW {
            let reply = counter.run(additions.next());
            additions.note(&reply);
        }
    }
}
