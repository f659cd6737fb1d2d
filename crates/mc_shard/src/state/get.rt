//! Retrieval.
ghost use Rattle.std.specs.Prelude.{◌≡◌, OnErr, IfOk, option_map};
ghost use Rattle.mc_model.specs.Items.{item_at};
ghost use Rattle.mc_model.specs.Rows.{Get, GetTouch, shows};
ghost use Rattle.mc_model.specs.Class.{settled, key_step};

use crate::state::State;
use mc_item::{Key, due};
use mc_model::ShardReply;
use std::alloc::AllocError;

impl State {
    // A copy of the item of a key, if it has one.
    fn copy_of(&self, key: &Key, moment: u64) -> Result<Option<ShardReply>, AllocError>
        ensures { IfOk result (λ reply. reply ≡ option_map shows (item_at (settled self.now moment).items key.now)) }
    {
        match self.found(key, moment) {
            Some(item) => Ok(Some(ShardReply::Item {
                flags: item.flags(),
                cas: item.cas(),
                value: item.value().clone()?,
            })),
            None => Ok(None),
        }
    }

    /// Gets the item of a key. An `Err` leaves all as it was.
    pub(crate) fn get(&mut self, key: &Key, moment: u64) -> Result<ShardReply, AllocError>
        ensures ok { IfOk result (λ reply. (self.new, reply) ≡ key_step self.old key.now Get moment) }
        ensures err { OnErr result (self.new ≡ self.old) }
    {
        let Some(reply) = self.copy_of(key, moment)? else {
            self.settle(moment);
            return Ok(ShardReply::Missing);
        };
        self.use_item(key, moment);
        Ok(reply)
    }

    /// Gets the item of a key, which goes at another moment. An `Err` leaves all as it was.
    pub(crate) fn get_touch(
        &mut self,
        key: Key,
        exptime: i64,
        moment: u64,
    ) -> Result<ShardReply, AllocError>
        ensures ok { IfOk result (λ reply. (self.new, reply) ≡ key_step self.old key (GetTouch exptime) moment) }
        ensures err { OnErr result (self.new ≡ self.old) }
    {
        let Some(reply) = self.copy_of(&key, moment)? else {
            self.settle(moment);
            return Ok(ShardReply::Missing);
        };
        let due = due(exptime, self.latest(moment));
        self.set_due(key, due, moment)?;
        Ok(reply)
    }
}
