//! Storage commands.
ghost use Rattle.std.specs.Prelude.{◌≡◌, ◌+◌, ◌<◌, ◌≤◌, Some, None, OnOk, OnErr, IfOk, length, option_copied};
ghost use Rattle.mc_item.specs.Expiry.{due_at};
ghost use Rattle.mc_model.specs.Items.{item_at};
ghost use Rattle.mc_model.specs.Rows.{Store, cas_of, refusal_of, stored_item};
ghost use Rattle.mc_model.specs.Class.{settled, key_step};
ghost use Rattle.mc_shard.specs.Shard.{with_item, store_refusal};

use crate::item::KeptItem;
use crate::state::State;
use mc_item::{Bytes, Key, LARGEST_VALUE, MOST_CHANGES, due};
use mc_model::{How, ShardReply};
use std::alloc::AllocError;

// What the item of the key says against a store of a value of this length.
fn item_refusal(how: How, size: usize, before: Option<&KeptItem>) -> Option<ShardReply>
    requires { size ≤ LARGEST_VALUE }
    ensures { result ≡ refusal_of how size (option_copied before.entry) }
{
    match (how, before) {
        (How::Add, Some(_)) => Some(ShardReply::NotStored),
        (How::Replace | How::Append | How::Prepend, None) => Some(ShardReply::NotStored),
        (How::Append | How::Prepend, Some(item)) => {
            (LARGEST_VALUE - size < item.value().len()).then_some(ShardReply::TooLarge)
        }
        (How::Cas(_), None) => Some(ShardReply::NotFound),
        (How::Cas(unique), Some(item)) => (item.cas() != unique).then_some(ShardReply::Exists),
        (How::Set, _) | (How::Add, None) | (How::Replace, Some(_)) => None,
    }
}

impl State {
    // Why a store is refused.
    fn store_refusal(&self, how: How, key: &Key, size: usize, moment: u64) -> Option<ShardReply>
        ensures why { result ≡ store_refusal how size self.now.changes (item_at (settled self.now moment).items key.now) }
        ensures room { result ≡ None → self.now.changes < MOST_CHANGES }
    {
        if LARGEST_VALUE < size {
            return Some(ShardReply::TooLarge);
        }
        let refusal = match how {
            How::Set => None,
            _ => item_refusal(how, size, self.found(key, moment)),
        };
        if refusal.is_none() && self.changes == MOST_CHANGES {
            return Some(ShardReply::OutOfCas);
        }
        refusal
    }

    // Writes what is not refused.
    fn write(
        &mut self,
        how: How,
        key: Key,
        flags: u32,
        exptime: i64,
        value: Bytes,
        moment: u64,
    ) -> Result<(), AllocError>
        requires accepted { refusal_of how (length value) (item_at (settled self.old moment).items key) ≡ None }
        requires room { self.old.changes < MOST_CHANGES }
        ensures ok { OnOk result (self.new ≡ with_item (settled self.old moment) key (stored_item how flags (due_at exptime (settled self.old moment).moment) value (cas_of self.old.class (self.old.changes + 1)) (item_at (settled self.old moment).items key))) }
        ensures err { OnErr result (self.new ≡ self.old) }
    {
        let cas = self.next_cas();
        match how {
            How::Append => self.append(&key, &value, cas, moment),
            How::Prepend => self.prepend(&key, &value, cas, moment),
            How::Set | How::Add | How::Replace | How::Cas(_) => {
                let due = due(exptime, self.latest(moment));
                self.put(key, KeptItem::new(value, flags, due, cas), moment)
            }
        }
    }

    /// Runs a storage command. An `Err` leaves all as it was.
    pub(crate) fn store(
        &mut self,
        how: How,
        key: Key,
        flags: u32,
        exptime: i64,
        value: Bytes,
        moment: u64,
    ) -> Result<ShardReply, AllocError>
        ensures ok { IfOk result (λ reply. (self.new, reply) ≡ key_step self.old key (Store how flags exptime value) moment) }
        ensures err { OnErr result (self.new ≡ self.old) }
    {
        if let Some(refusal) = self.store_refusal(how, &key, value.len(), moment) {
            self.settle(moment);
            return Ok(refusal);
        }
        self.write(how, key, flags, exptime, value, moment)?;
        self.count_change();
        self.count_store();
        Ok(ShardReply::Stored)
    }
}
