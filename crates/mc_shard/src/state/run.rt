//! Each operation by its call.
ghost use Rattle.std.specs.Prelude.{◌≡◌, IfOk, OnErr};
ghost use Rattle.tm_seq.specs.Kind.{IsRun};
ghost use Rattle.mc_shard.specs.Shard.{shard_kind};

use crate::op::ShardOp;
use crate::state::State;
use mc_model::ShardReply;
use std::alloc::AllocError;

// The reply, or that memory was wanting.
fn or_no_memory(reply: Result<ShardReply, AllocError>) -> ShardReply
    ensures ok { IfOk reply (λ value. result ≡ value) }
    ensures err { OnErr reply (result ≡ ShardReply.NoMemory) }
{
    match reply {
        Ok(reply) => reply,
        Err(AllocError) => ShardReply::NoMemory,
    }
}

impl State {
    /// Runs an operation. A `NoMemory` leaves all as it was.
    pub(crate) fn run(&mut self, op: ShardOp) -> ShardReply
        ensures { IsRun shard_kind self.old op self.new result }
    {
        match op {
            ShardOp::Store {
                how,
                key,
                flags,
                exptime,
                value,
                moment,
            } => or_no_memory(self.store(how, key, flags, exptime, value, moment)),
            ShardOp::Get { key, moment } => or_no_memory(self.get(&key, moment)),
            ShardOp::GetTouch {
                key,
                exptime,
                moment,
            } => or_no_memory(self.get_touch(key, exptime, moment)),
            ShardOp::Change {
                up,
                key,
                by,
                moment,
            } => or_no_memory(self.change(up, &key, by, moment)),
            ShardOp::Touch {
                key,
                exptime,
                moment,
            } => or_no_memory(self.touch(key, exptime, moment)),
            ShardOp::Delete { key, moment } => self.delete(&key, moment),
            ShardOp::Flush { delay, moment } => self.flush(delay, moment),
            ShardOp::Count { moment } => self.count(moment),
        }
    }
}
