//! What an entrusted kind is.
ghost use Rattle.std.specs.Prelude.{◌≡◌, ℕ};
ghost use Rattle.tm_seq.specs.Kind.{Kind, KindLaws, IsRun, IsResume};

/// What launched work is told.
#[derive(Drop)]
pub enum Event<R> {
    /// It begins.
    Begin,
    /// The reply to what it asked.
    Reply(R),
    /// It asked a trustee that does not stand above its own.
    NotAbove,
    /// It asked for an object that its trustee does not hold there.
    NoObject,
}

/// What launched work does next.
#[derive(Drop)]
pub enum Next<O, K, R> {
    /// It asks an object of another trustee, and goes on when it is told.
    Ask {
        /// The number of the trustee that is asked.
        trustee: u32,
        /// Which of the objects that its own trustee holds there, from 0.
        index: u32,
        /// The operation.
        op: O,
        /// The task that goes on.
        task: K,
    },
    /// It has ended.
    Done {
        /// What whoever launched it is told.
        reply: R,
    },
}

/// A kind of object that may be entrusted.
pub trait Entrusted: Sized + Drop {
    /// What may be asked of a value.
    type Op: Drop;

    /// What is answered.
    type Reply: Drop;

    /// Launched work on a value.
    type Task: Drop;

    /// What the kind does, for contracts.
    ghost kind: { Kind Self Self.Op Self.Reply Self.Task };

    /// Runs an operation: what the kind's `step` gives, or the value as it was and `no_memory`.
    fn run(&mut self, op: Self::Op) -> Self::Reply
        ensures { IsRun kind self.old op self.new result };

    /// Goes on with launched work: what the kind's `advance` gives, or the value as it was and an
    /// end with `no_memory`.
    fn resume(
        &mut self,
        task: Self::Task,
        event: Event<Self::Reply>,
    ) -> Next<Self::Op, Self::Task, Self::Reply>
        ensures { IsResume kind self.old task event self.new result };

    /// How many more times a task may ask at most.
    fn left(task: &Self::Task) -> u64
        ensures { result ≡ kind.left task.now };

    /// The reply for want of memory.
    fn no_memory() -> Self::Reply
        ensures { result ≡ kind.no_memory };

    /// A reply for want of memory leaves the value, and each ask is closer to the task's end.
    ghost laws: { KindLaws kind };
}
