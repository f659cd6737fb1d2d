//! How a class runs an operation: by what the key has, and then what the operation does.
ghost use Rattle.std.specs.Prelude.{◌≡◌, IfOk};
ghost use Rattle.mc_model.specs.Rows.{Store, Get, GetTouch, Change, Touch, Delete};
ghost use Rattle.mc_model.specs.Class.{key_step, flush_step, count_step};
ghost use Rattle.mc_shard.specs.Shard.{shard_step};

use crate::plain::Plain;
use mc_item::{Bytes, Key, LATEST_TIME};
use mc_model::{How, ShardReply};
use mc_shard::ShardOp;
use std::alloc::AllocError;

impl Plain {
    fn store(
        mut self,
        how: How,
        key: Key,
        flags: u32,
        exptime: i64,
        value: Bytes,
        moment: u64,
    ) -> Result<(Plain, ShardReply), AllocError>
        ensures { IfOk result (λ done. done ≡ key_step self key (Store how flags exptime value) moment) }
    {
        self.settle(moment);
        let before = self.item(&key)?;
        let done = self.store_done(how, flags, exptime, value, before)?;
        self.conclude(key, done)
    }

    fn get(mut self, key: Key, moment: u64) -> Result<(Plain, ShardReply), AllocError>
        ensures { IfOk result (λ done. done ≡ key_step self key Get moment) }
    {
        self.settle(moment);
        let before = self.item(&key)?;
        let done = Plain::get_done(before)?;
        self.conclude(key, done)
    }

    fn get_touch(
        mut self,
        key: Key,
        exptime: i64,
        moment: u64,
    ) -> Result<(Plain, ShardReply), AllocError>
        ensures { IfOk result (λ done. done ≡ key_step self key (GetTouch exptime) moment) }
    {
        self.settle(moment);
        let before = self.item(&key)?;
        let done = self.get_touch_done(exptime, before)?;
        self.conclude(key, done)
    }

    fn change(
        mut self,
        up: bool,
        key: Key,
        by: u64,
        moment: u64,
    ) -> Result<(Plain, ShardReply), AllocError>
        ensures { IfOk result (λ done. done ≡ key_step self key (Change up by) moment) }
    {
        self.settle(moment);
        let before = self.item(&key)?;
        let done = self.change_done(up, by, before)?;
        self.conclude(key, done)
    }

    fn touch(
        mut self,
        key: Key,
        exptime: i64,
        moment: u64,
    ) -> Result<(Plain, ShardReply), AllocError>
        ensures { IfOk result (λ done. done ≡ key_step self key (Touch exptime) moment) }
    {
        self.settle(moment);
        let before = self.item(&key)?;
        let done = self.touch_done(exptime, before);
        self.conclude(key, done)
    }

    fn delete(mut self, key: Key, moment: u64) -> Result<(Plain, ShardReply), AllocError>
        ensures { IfOk result (λ done. done ≡ key_step self key Delete moment) }
    {
        self.settle(moment);
        let before = self.item(&key)?;
        let done = Plain::delete_done(before);
        self.conclude(key, done)
    }

    fn flush(mut self, delay: u32, moment: u64) -> (Plain, ShardReply)
        ensures { result ≡ flush_step self delay moment }
    {
        self.settle(moment);
        self.flush_at(moment.min(LATEST_TIME) + u64::from(delay));
        (self, ShardReply::Flushed)
    }

    fn count(mut self, moment: u64) -> (Plain, ShardReply)
        ensures { result ≡ count_step self moment }
    {
        self.settle(moment);
        let reply = ShardReply::Counts {
            held: self.len(),
            stored: self.stored(),
        };
        (self, reply)
    }

    /// Runs an operation. It fails for want of memory alone, and the class is gone then. The cost
    /// is that of all items.
    pub fn run(self, op: ShardOp) -> Result<(Plain, ShardReply), AllocError>
        ensures { IfOk result (λ done. done ≡ shard_step self op) }
    {
        match op {
            ShardOp::Store {
                how,
                key,
                flags,
                exptime,
                value,
                moment,
            } => self.store(how, key, flags, exptime, value, moment),
            ShardOp::Get { key, moment } => self.get(key, moment),
            ShardOp::GetTouch {
                key,
                exptime,
                moment,
            } => self.get_touch(key, exptime, moment),
            ShardOp::Change {
                up,
                key,
                by,
                moment,
            } => self.change(up, key, by, moment),
            ShardOp::Touch {
                key,
                exptime,
                moment,
            } => self.touch(key, exptime, moment),
            ShardOp::Delete { key, moment } => self.delete(key, moment),
            ShardOp::Flush { delay, moment } => Ok(self.flush(delay, moment)),
            ShardOp::Count { moment } => Ok(self.count(moment)),
        }
    }
}
