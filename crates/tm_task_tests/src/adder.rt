//! Tasks that add 1 to a counter again and again.
ghost use Rattle.std.specs.Prelude.{◌≡◌};
ghost use Rattle.tm_task.specs.Rules.{Begins, GoesOn, Lessens};
ghost use Rattle.tm_task_tests.specs.Adding.{adder_rules, next_of, sum_of};

use tm_client::Got;
use tm_seq::{Counter, CounterOp, CounterReply};
use tm_task::{Move, Task};

/// Adds 1 to the first trust's counter so many times, and ends with the last sum.
#[derive(Drop)]
pub struct Adder {
    /// How often it still adds.
    pub left: u64,
}

/// What one does next that is to add so often, after a sum.
fn next_of(left: u64, sum: u64) -> Move<Counter, Adder, u64>
    ensures next { result ≡ next_of left sum }
    ensures less { Lessens adder_rules left result }
{
    if left == 0 {
        return Move::Done(sum);
    }
    Move::Apply {
        trust: 0,
        op: CounterOp::Add(1),
        task: Adder { left: left - 1 },
    }
}

/// The sum that an answer tells, or 0.
fn sum_of(got: Got<Counter>) -> u64
    ensures { result ≡ sum_of got }
{
    match got {
        Got::Replied(CounterReply::Is(sum)) => sum,
        _ => 0,
    }
}

impl Task<Counter> for Adder {
    type Out = u64;

    ghost rules = { adder_rules };

    fn start(self) -> Move<Counter, Adder, u64>
        ensures { Begins adder_rules self result }
    {
        next_of(self.left, 0)
    }

    fn resume(self, got: Got<Counter>) -> Move<Counter, Adder, u64>
        ensures { GoesOn adder_rules self got result }
    {
        let sum = sum_of(got);
        next_of(self.left, sum)
    }

    fn left(&self) -> u64
        ensures { result ≡ adder_rules.left self.now }
    {
        self.left
    }
}
