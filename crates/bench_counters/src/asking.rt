//! A client's thread.
ghost use Rattle.std.specs.Prelude.{◌≡◌, ◌+◌, ◌<◌, ◌≤◌, [], ◌∷◌, IfSome};
ghost use Rattle.std.specs.List.{AllByRecursion};
ghost use Rattle.std.specs.declared.option.Option.TheVariants.{None};
ghost use Rattle.tm_batch.specs.declared.message.Request.TheVariants.{Bye};
ghost use Rattle.tm_batch.specs.declared.message.Answer.TheVariants.{Replied};
ghost use Rattle.tm_seq.specs.declared.counter.CounterReply.TheVariants.{Is};
ghost use Rattle.bench_counters.specs.Counting.{IsOfCounter, CameInOrder, HasAsked, MayAsk, UnlessPending};

use crate::waiting::Waiting;
use crate::work::Work;
use std::sync::Wait;
use tm_batch::{Answer, AnswerBatch, Batch, Name, Request};
use tm_pair::{Collected, PairTable};
use tm_seq::{Counter, CounterOp, CounterReply};

/// Puts an addition behind the others, where there is room.
fn add(batch: &mut Batch<Counter>, by: u64)
    requires { AllByRecursion IsOfCounter batch.old.requests.items }
    ensures { AllByRecursion IsOfCounter batch.new.requests.items }
{
    let name = Name { id: 1, place: 0 };
    let _ = batch.push(Request::Apply(name, CounterOp::Add(by)));
}

/// A batch that adds 1, 2 and so on, up to its number of requests.
fn adds(size: u64) -> Batch<Counter>
    ensures { AllByRecursion IsOfCounter result.requests.items }
{
    let mut batch = Batch::new(0);
    for by in 1..=size {
        add(&mut batch, by);
    }
    batch
}

/// A batch that says Bye.
pub(crate) fn bye() -> Batch<Counter>
    ensures { result.requests.items ≡ Bye ∷ [] }
{
    let mut batch = Batch::new(0);
    let _ = batch.push(Request::Bye);
    batch
}

/// What the counter stands at behind an addition of `by`, if it was answered so, and nothing else was added since it stood
/// at `last`. Others may have added before the first of a batch, which adds 1.
fn next_of(answer: &Answer<Counter>, last: u64, by: u64) -> Option<u64>
    ensures { IfSome result (λ sum. (answer.now ≡ Replied (Is sum)) × (last + by ≤ sum) × (1 < by → sum ≡ last + by)) }
{
    let Answer::Replied(CounterReply::Is(sum)) = answer else {
        return None;
    };
    let added = sum.checked_sub(last)?;
    if added < by || (added > by && by > 1) {
        return None;
    }
    Some(*sum)
}

/// The reply to the last request of a batch of [`adds`], if it came to them in order: nothing else is added between two
/// requests of a batch, and nothing is taken away between two batches.
fn last_of(answers: &[Answer<Counter>], before: u64) -> Option<u64>
    ensures { IfSome result (λ last. CameInOrder before answers.now last) }
{
    let mut last = before;
    for (at, answer) in answers.iter().enumerate() {
        last = next_of(answer, last, at as u64 + 1)?;
    }
    Some(last)
}

/// Looks once for the answers to the batch that is out.
fn look<P: PairTable<Counter>>(table: &mut P, side: &mut P::ClientSide) -> Collected<Counter>
    requires { HasAsked P.theory table.old side.old }
    ensures asked { HasAsked P.theory table.new side.new }
    ensures free { UnlessPending result ((P.theory.client_view side.new).out ≡ None) }
{
    table.collect(side)
}

/// Waits for the answers to the batch that is out.
fn wait_for<R: Wait, P: PairTable<Counter>>(
    rt: &R,
    table: &mut P,
    side: &mut P::ClientSide,
) -> Option<AnswerBatch<Counter>>
    requires { HasAsked P.theory table.old side.old }
    ensures { MayAsk P.theory table.new side.new }
{
    let mut waiting = Waiting::new();
    for _ in rt.forever() {
        match look(table, side) {
            Collected::Answers(answers) => return Some(answers),
            Collected::Idle => return None,
            Collected::Pending => waiting.pause(),
        }
    }
    unreachable!()
}

/// Sends a batch of operations on the counter.
fn send<P: PairTable<Counter>>(table: &mut P, side: &mut P::ClientSide, batch: Batch<Counter>)
    requires may { MayAsk P.theory table.old side.old }
    requires batch { AllByRecursion IsOfCounter batch.requests.items }
    ensures { HasAsked P.theory table.new side.new }
{
    let _ = table.publish(side, batch);
}

/// Sends a batch, and waits for its answers. The last reply, if all came in order.
fn ask<R: Wait, P: PairTable<Counter>>(
    rt: &R,
    table: &mut P,
    side: &mut P::ClientSide,
    size: u64,
    before: u64,
) -> Option<u64>
    requires { MayAsk P.theory table.old side.old }
    ensures { MayAsk P.theory table.new side.new }
{
    send(table, side, adds(size));
    let answers = wait_for(rt, table, side)?;
    if answers.answers.len() as u64 != size {
        return None;
    }
    last_of(answers.answers.as_slice(), before)
}

/// Says Bye. No answer is awaited.
fn say_bye<P: PairTable<Counter>>(table: &mut P, side: &mut P::ClientSide)
    requires { MayAsk P.theory table.old side.old }
{
    let _ = table.publish(side, bye());
}

/// Sends all batches of a client one after another, and says Bye. The last reply, if all came in order.
pub(crate) fn count<R: Wait, P: PairTable<Counter>>(
    rt: &R,
    table: &mut P,
    side: &mut P::ClientSide,
    work: Work,
) -> Option<u64>
    requires { MayAsk P.theory table.old side.old }
{
    let mut last = Some(0);
    for _ in 0..work.rounds {
        last = match last {
            Some(before) => ask(rt, table, side, work.size, before),
            None => break,
        };
    }
    say_bye(table, side);
    last
}
