//! `incr`, `decr`, `touch` and `delete`.
ghost use Rattle.std.specs.Prelude.{◌≡◌, OnErr, IfOk};
ghost use Rattle.std.specs.Fmt.{decimal};
ghost use Rattle.mc_model.specs.Items.{item_at};
ghost use Rattle.mc_model.specs.Rows.{Change, Touch, Delete, changed};
ghost use Rattle.mc_model.specs.Class.{settled, key_step};
ghost use Rattle.mc_shard.specs.Shard.{number_of};

use crate::state::State;
use mc_item::number::number;
use mc_item::{Bytes, Key, MOST_CHANGES, due};
use mc_model::ShardReply;
use std::alloc::{AllocError, Global};

// A number after a change: it wraps upwards, and stops at 0 downwards.
fn changed(up: bool, number: u64, by: u64) -> u64
    ensures { result ≡ changed up number by }
{
    if up {
        number.wrapping_add(by)
    } else {
        number.saturating_sub(by)
    }
}

// The decimal text of a number.
fn text_of(alloc: Global, number: u64) -> Result<Bytes, AllocError>
    ensures { IfOk result (λ text. text ≡ decimal number) }
{
    Ok(Bytes::from(number.to_string(alloc)?.into_bytes()))
}

impl State {
    // The number that a change reads, or why it is refused.
    fn number_at(&self, key: &Key, moment: u64) -> Result<u64, ShardReply>
        ensures { result ≡ number_of self.now.changes (item_at (settled self.now moment).items key.now) }
    {
        let Some(item) = self.found(key, moment) else {
            return Err(ShardReply::NotFound);
        };
        let Some(number) = number(item.value().get(), u64::MAX) else {
            return Err(ShardReply::NonNumeric);
        };
        if self.changes == MOST_CHANGES {
            Err(ShardReply::OutOfCas)
        } else {
            Ok(number)
        }
    }

    /// Adds to the number that a value spells, or takes from it. An `Err` leaves all as it was.
    pub(crate) fn change(
        &mut self,
        up: bool,
        key: &Key,
        by: u64,
        moment: u64,
    ) -> Result<ShardReply, AllocError>
        ensures ok { IfOk result (λ reply. (self.new, reply) ≡ key_step self.old key.now (Change up by) moment) }
        ensures err { OnErr result (self.new ≡ self.old) }
    {
        let number = match self.number_at(key, moment) {
            Ok(number) => number,
            Err(refusal) => {
                self.settle(moment);
                return Ok(refusal);
            }
        };
        let after = changed(up, number, by);
        let text = text_of(self.alloc, after)?;
        let cas = self.next_cas();
        self.rewrite(key, text, cas, moment);
        self.count_change();
        Ok(ShardReply::Number(after))
    }

    /// Lets an item go at another moment. An `Err` leaves all as it was.
    pub(crate) fn touch(
        &mut self,
        key: Key,
        exptime: i64,
        moment: u64,
    ) -> Result<ShardReply, AllocError>
        ensures ok { IfOk result (λ reply. (self.new, reply) ≡ key_step self.old key (Touch exptime) moment) }
        ensures err { OnErr result (self.new ≡ self.old) }
    {
        if self.found(&key, moment).is_none() {
            self.settle(moment);
            return Ok(ShardReply::NotFound);
        }
        let due = due(exptime, self.latest(moment));
        self.set_due(key, due, moment)?;
        Ok(ShardReply::Touched)
    }

    /// Takes an item out.
    pub(crate) fn delete(&mut self, key: &Key, moment: u64) -> ShardReply
        ensures { (self.new, result) ≡ key_step self.old key.now Delete moment }
    {
        if self.remove(key, moment) {
            ShardReply::Deleted
        } else {
            ShardReply::NotFound
        }
    }
}
