//! A kind for these tests, whose values look at the gate.
ghost use Rattle.std.proofs.Common.{lit<};
ghost use Rattle.tm_seq.specs.Kind.{IsResume};
ghost use Rattle.tm_client_tests.specs.Echoing.{echo_kind, echo_laws};

use std::cell::Cell;
use std::rc::Rc;
use tm_base::Gate;
use tm_batch::Fits;
use tm_seq::{Entrusted, Event, Next};

/// Answers each number with itself. Each time it adds to `seen` how many requests have passed the gate.
#[derive(Drop)]
pub(super) struct Echo {
    pub(super) passed: Rc<Cell<u64>>,
    pub(super) seen: Rc<Cell<u64>>,
}

impl Entrusted for Echo {
    type Op = u64;

    type Reply = u64;

    type Task = u64;

    ghost kind = { echo_kind };

    ghost laws = { echo_laws };

    fn run(&mut self, number: u64) -> u64 {
        self.seen
            .set(self.seen.get().saturating_add(self.passed.get()));
        number
    }

    fn resume(&mut self, task: u64, event: Event<u64>) -> Next<u64, u64, u64>
        ensures { IsResume echo_kind self.old task event self.new result }
    {
        let _ = (task, event);
        Next::Done { reply: 0 }
    }

    fn left(_task: &u64) -> u64 {
        0
    }

    fn no_memory() -> u64 {
        0
    }
}

impl Fits for Echo {
    ghost fits = { lit< tt };

    ghost fits_batch = { lit< tt };

    ghost fits_held = { lit< tt };

    ghost fits_seen = { lit< tt };

    ghost fits_found = { lit< tt };

    ghost fits_place = { lit< tt };

    ghost fits_move = { lit< tt };

    ghost fits_content = { lit< tt };
}

/// Counts what passes.
#[derive(Drop)]
pub(super) struct SeenGate {
    pub(super) passed: Rc<Cell<u64>>,
}

impl Gate for SeenGate {
    fn at(&self, _trustee: u32, _number: u64) {
        self.passed.set(self.passed.get().saturating_add(1));
    }
}
