//! Tasks with the runtime of their client, and the calls of the tests at them.
ghost use Rattle.tm_task_tests.specs.Playing.{IsPlaying};

use crate::adder::Adder;
use tm_base::FreeGate;
use tm_seq::Counter;
use tm_task::{Progress, Tasks};
use tm_trustee::Served;
use tm_turns::Turns;

/// The tasks of the only client, and the runtime.
#[derive(Drop)]
pub(super) struct Play {
    pub(super) tasks: Tasks<Counter, Adder>,
    pub(super) turns: Turns<Counter, u64>,
}

impl Play {
    /// Adds a task that is to add so often.
    pub(super) fn add(&mut self, left: u64) -> Result<u64, Adder>
        requires { IsPlaying self.old.tasks self.old.turns }
        ensures { IsPlaying self.new.tasks self.new.turns }
    {
        self.tasks.add(Adder { left })
    }

    /// A turn of the tasks.
    pub(super) fn turn(&mut self) -> Progress
        requires { IsPlaying self.old.tasks self.old.turns }
        ensures { IsPlaying self.new.tasks self.new.turns }
    {
        let client = &mut self.turns.clients[0];
        self.tasks.turn(client, self.turns.tables.as_mut_slice())
    }

    /// A turn of the greater trustee.
    pub(super) fn serve(&mut self) -> Served
        requires { IsPlaying self.old.tasks self.old.turns }
        ensures { IsPlaying self.new.tasks self.new.turns }
    {
        self.turns.serve(1, &FreeGate)
    }

    /// How many tasks have ended.
    pub(super) fn ended(&self) -> u32
        requires { IsPlaying self.now.tasks self.now.turns }
    {
        self.tasks.ended()
    }
}
