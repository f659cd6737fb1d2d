//! Tasks that ask one request after another.
ghost use Rattle.std.specs.Prelude.{◌≡◌};
ghost use Rattle.tm_task.specs.Rules.{Rules, Begins, GoesOn};

use tm_client::Got;
use tm_seq::Entrusted;

/// What a task does next.
#[derive(Drop)]
pub enum Move<S: Entrusted, T, O> {
    /// It applies an operation, and goes on with the answer.
    Apply {
        /// Which of the trusts that the tasks have, from 0. One past the last ends the task.
        trust: u32,
        /// The operation.
        op: S::Op,
        /// The task that goes on.
        task: T,
    },
    /// It has ended, with an output.
    Done(O),
}

/// A task of a client: it asks one request after another, and is done at some time.
///
/// Each type of tasks states which moves are lawful for it, at its start and at an answer.
pub trait Task<S: Entrusted>: Sized + Drop {
    /// What it ends with.
    type Out: Drop;

    /// Which moves are lawful, and how many requests a task may still make, for contracts.
    ghost rules: { Rules S Self Self.Out S.Op S.Reply S.Task };

    /// Makes the first move: a lawful one, and the task that goes on may make fewer requests.
    fn start(self) -> Move<S, Self, Self::Out>
        ensures { Begins rules self result };

    /// Makes the next move at the answer to its request: a lawful one, and the task that goes on may make fewer requests.
    fn resume(self, got: Got<S>) -> Move<S, Self, Self::Out>
        ensures { GoesOn rules self got result };

    /// How many requests it may still make at most.
    fn left(&self) -> u64
        ensures { result ≡ rules.left self.now };
}
