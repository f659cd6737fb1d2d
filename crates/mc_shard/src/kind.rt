//! A class as a kind of object that may be entrusted.
ghost use Rattle.std.specs.Prelude.{◌≡◌};
ghost use Rattle.tm_seq.specs.Kind.{IsRun, IsResume};
ghost use Rattle.mc_shard.specs.Shard.{shard_kind};
ghost use Rattle.mc_shard.specs.Laws.{shard_laws};

use crate::op::{NoTask, ShardOp};
use crate::shard::Shard;
use mc_model::ShardReply;
use tm_seq::{Entrusted, Event, Next};

impl Entrusted for Shard {
    type Op = ShardOp;

    type Reply = ShardReply;

    type Task = NoTask;

    ghost kind = { shard_kind };

    ghost laws = { shard_laws };

    /// Runs an operation. A `NoMemory` leaves all as it was.
    ///
    /// The cost is one or two searches of the key by its hash, three where bytes are joined to a
    /// value, and a copy of the value's bytes where the operation stores or gets them, joins them to
    /// others or writes a number. An item that goes at a moment costs a logarithm of the number of
    /// such items, when it is put and when it goes, which is at the first operation after. `Count`
    /// looks at no item. A `Flush` that is done, and one that comes due, drops all items.
    fn run(&mut self, op: ShardOp) -> ShardReply
        ensures { IsRun shard_kind self.old op self.new result }
    {
        self.state.run(op)
    }

    fn resume(
        &mut self,
        _task: NoTask,
        _event: Event<ShardReply>,
    ) -> Next<ShardOp, NoTask, ShardReply>
        ensures { IsResume shard_kind self.old _task _event self.new result }
    {
        Next::Done {
            reply: ShardReply::NoMemory,
        }
    }

    fn left(_task: &NoTask) -> u64
        ensures { result ≡ shard_kind.left _task.now }
    {
        0
    }

    fn no_memory() -> ShardReply {
        ShardReply::NoMemory
    }
}
