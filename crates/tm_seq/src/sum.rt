//! Two kinds as one.
ghost use Rattle.std.specs.Prelude.{◌≡◌};
ghost use Rattle.tm_seq.specs.Kind.{IsResume};
ghost use Rattle.tm_seq.specs.Summing.{sum_kind, IsOfOtherSide};
ghost use Rattle.tm_seq.specs.declared.kind.Next.TheVariants.{Done};
ghost use Rattle.tm_seq.specs.SummingLaws.{sum_laws};

use crate::kind::{Entrusted, Event, Next};

/// A kind that may stand beside the kind `A` in a [`Sum`]: it has the operations and the replies of
/// `A`, and tasks of its own.
pub trait Beside<A: Entrusted>: Entrusted<Op = A::Op, Reply = A::Reply> {
    /// What `other` answers, for contracts.
    ghost other_side: { A.Reply };

    /// The reply with which a task ends on a value of the other side.
    fn other() -> Self::Reply
        ensures { result ≡ other_side };

    /// Both kinds have one reply for want of memory.
    ghost same_no_memory: { A.kind.no_memory ≡ Self.Entrusted.kind.no_memory };
}

/// A value or a task of one of two kinds.
///
/// Values of both kinds can be entrusted to one trustee as objects of one kind. Each operation and
/// each task runs on the side that the value is of. Asks and events are those of both sides, so a
/// task of one side may ask an object of the other. A task whose side is not the value's leaves the
/// value as it is and is done with [`Beside::other`].
#[derive(Drop)]
pub enum Sum<A, B> {
    /// Of the first kind.
    First(A),
    /// Of the second kind.
    Second(B),
}

impl<A: Entrusted, B: Beside<A>> Entrusted for Sum<A, B> {
    type Op = A::Op;

    type Reply = A::Reply;

    type Task = Sum<A::Task, B::Task>;

    ghost kind = { sum_kind A.kind B.kind B.other_side };

    ghost laws = { sum_laws A.laws B.laws B.same_no_memory };

    fn run(&mut self, op: A::Op) -> A::Reply {
        match self {
            Sum::First(value) => value.run(op),
            Sum::Second(value) => value.run(op),
        }
    }

    fn resume(
        &mut self,
        task: Sum<A::Task, B::Task>,
        event: Event<A::Reply>,
    ) -> Next<A::Op, Sum<A::Task, B::Task>, A::Reply>
        ensures lawful { IsResume (sum_kind A.kind B.kind B.other_side) self.old task event self.new result }
        ensures other { IsOfOtherSide self.old task → result ≡ Done B.other_side }
        ensures stays { IsOfOtherSide self.old task → self.new ≡ self.old }
    {
        match (self, task) {
            (Sum::First(value), Sum::First(task)) => match value.resume(task, event) {
                Next::Ask {
                    trustee,
                    index,
                    op,
                    task,
                } => Next::Ask {
                    trustee,
                    index,
                    op,
                    task: Sum::First(task),
                },
                Next::Done { reply } => Next::Done { reply },
            },
            (Sum::Second(value), Sum::Second(task)) => match value.resume(task, event) {
                Next::Ask {
                    trustee,
                    index,
                    op,
                    task,
                } => Next::Ask {
                    trustee,
                    index,
                    op,
                    task: Sum::Second(task),
                },
                Next::Done { reply } => Next::Done { reply },
            },
            _ => Next::Done { reply: B::other() },
        }
    }

    fn left(task: &Sum<A::Task, B::Task>) -> u64 {
        match task {
            Sum::First(task) => A::left(task),
            Sum::Second(task) => B::left(task),
        }
    }

    fn no_memory() -> A::Reply {
        A::no_memory()
    }
}
