//! A counter, a kind for tests.
ghost use Rattle.std.specs.Prelude.{◌≡◌, refl};
ghost use Rattle.tm_seq.specs.Counting.{counter_kind};
ghost use Rattle.tm_seq.specs.CountingLaws.{counter_laws};
ghost use Rattle.tm_seq.specs.Kind.{IsRun, IsResume};
ghost use Rattle.tm_seq.specs.declared.counter.CounterReply.TheVariants.{Refused};

use crate::kind::{Entrusted, Event, Next};
use crate::sum::Beside;

/// A number that wraps at 2^64.
#[derive(Drop)]
pub struct Counter {
    /// The number.
    pub value: u64,
}

/// What may be asked of a counter.
#[derive(Drop)]
pub enum CounterOp {
    /// Adds a number, and answers the sum.
    Add(u64),
    /// Answers the number.
    Read,
}

/// What a counter answers.
#[derive(Drop)]
pub enum CounterReply {
    /// The number after the operation.
    Is(u64),
    /// A task could not ask, was told what it did not await, or is of the other side of a sum.
    Refused,
    /// There was no memory.
    NoMemory,
}

/// Launched work on a counter.
#[derive(Drop)]
pub enum CounterTask {
    /// Is done with the number.
    End,
    /// Reads the counter of that index at that trustee, and is done with the reply.
    AskAt {
        /// The number of the trustee that is asked.
        trustee: u32,
        /// Which of the objects held there, from 0.
        index: u32,
    },
    /// Has asked, and is done with the reply.
    Wait,
}

impl Entrusted for Counter {
    type Op = CounterOp;

    type Reply = CounterReply;

    type Task = CounterTask;

    ghost kind = { counter_kind };

    ghost laws = { counter_laws };

    // A counter takes no memory, so it says more than its kind.
    fn run(&mut self, op: CounterOp) -> CounterReply
        ensures lawful { IsRun counter_kind self.old op self.new result }
        ensures exact { (self.new, result) ≡ counter_kind.step self.old op }
    {
        match op {
            CounterOp::Add(by) => {
                self.value = self.value.wrapping_add(by);
                CounterReply::Is(self.value)
            }
            CounterOp::Read => CounterReply::Is(self.value),
        }
    }

    fn resume(
        &mut self,
        task: CounterTask,
        event: Event<CounterReply>,
    ) -> Next<CounterOp, CounterTask, CounterReply>
        ensures lawful { IsResume counter_kind self.old task event self.new result }
        ensures exact { (self.new, result) ≡ counter_kind.advance self.old task event }
    {
        match (task, event) {
            (CounterTask::End, Event::Begin) => Next::Done {
                reply: CounterReply::Is(self.value),
            },
            (CounterTask::AskAt { trustee, index }, Event::Begin) => Next::Ask {
                trustee,
                index,
                op: CounterOp::Read,
                task: CounterTask::Wait,
            },
            (CounterTask::Wait, Event::Reply(reply)) => Next::Done { reply },
            _ => Next::Done {
                reply: CounterReply::Refused,
            },
        }
    }

    fn left(task: &CounterTask) -> u64 {
        match task {
            CounterTask::AskAt { .. } => 1,
            _ => 0,
        }
    }

    fn no_memory() -> CounterReply {
        CounterReply::NoMemory
    }
}

/// Two counters as one kind, for tests of sums.
impl Beside<Counter> for Counter {
    ghost other_side = { Refused };

    ghost same_no_memory = { refl };

    fn other() -> CounterReply {
        CounterReply::Refused
    }
}
