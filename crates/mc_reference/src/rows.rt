//! What each operation on a key does, row by row, where the key has `before`.
ghost use Rattle.std.specs.Prelude.{◌≡◌, ◌+◌, ◌<◌, ◌≤◌, IfOk, length};
ghost use Rattle.mc_model.specs.Rows.{cas_of, refusal_of, stored_item, shows, changes_after, store_outcome, get_outcome, get_touch_outcome, changed, change_outcome, touch_outcome, delete_outcome};
ghost use Rattle.mc_reference.specs.Deed.{effect_of, outcome};

use crate::deed::{Deed, Done, refused, with_deed};
use crate::plain::Plain;
use mc_item::number::number;
use mc_item::{Bytes, CLASSES, LARGEST_VALUE, MOST_CHANGES, due};
use mc_model::{How, Item, ShardReply};
use std::alloc::AllocError;

// What the item of the key says against a store of a value of this length.
fn refusal(how: How, size: usize, before: &Option<Item>) -> Option<ShardReply>
    requires { size ≤ LARGEST_VALUE }
    ensures { result ≡ refusal_of how size before.now }
{
    match before {
        None => match how {
            How::Set | How::Add => None,
            How::Replace | How::Append | How::Prepend => Some(ShardReply::NotStored),
            How::Cas(_) => Some(ShardReply::NotFound),
        },
        Some(item) => match how {
            How::Set | How::Replace => None,
            How::Add => Some(ShardReply::NotStored),
            How::Append | How::Prepend => {
                let is_large = LARGEST_VALUE - size < item.value.len();
                is_large.then_some(ShardReply::TooLarge)
            }
            How::Cas(unique) => (item.cas != unique).then_some(ShardReply::Exists),
        },
    }
}

// The item stored: an append or a prepend joins the values, and keeps flags and due.
fn stored_item(how: How, fresh: Item, before: Option<Item>) -> Result<Item, AllocError>
    ensures { IfOk result (λ item. item ≡ stored_item how fresh.flags fresh.due fresh.value fresh.cas before) }
{
    match (how, before) {
        (How::Append, Some(mut item)) => {
            item.value.extend(fresh.value.get())?;
            item.cas = fresh.cas;
            Ok(item)
        }
        (How::Prepend, Some(mut item)) => {
            item.value.prepend(fresh.value.get())?;
            item.cas = fresh.cas;
            Ok(item)
        }
        (How::Append | How::Prepend, None) => Ok(fresh),
        (How::Set | How::Add | How::Replace | How::Cas(_), _) => Ok(fresh),
    }
}

// A number after a change: it wraps upwards, and stops at 0 downwards.
fn changed(up: bool, number: u64, by: u64) -> u64
    ensures { result ≡ changed up number by }
{
    if up {
        number.wrapping_add(by)
    } else {
        number.saturating_sub(by)
    }
}

// A copy of what an item shows.
fn shown(item: &Item) -> Result<ShardReply, AllocError>
    ensures { IfOk result (λ reply. reply ≡ shows item.now) }
{
    Ok(ShardReply::Item {
        flags: item.flags,
        cas: item.cas,
        value: item.value.clone()?,
    })
}

impl Plain {
    // The cas number of the next change.
    fn next_cas(&self) -> u64
        requires { self.now.changes < MOST_CHANGES }
        ensures { result ≡ cas_of self.now.class (self.now.changes + 1) }
    {
        u64::from(CLASSES) * (self.changes() + 1) + u64::from(self.class())
    }

    /// What a storage command does.
    pub(crate) fn store_done(
        &self,
        how: How,
        flags: u32,
        exptime: i64,
        value: Bytes,
        before: Option<Item>,
    ) -> Result<Done, AllocError>
        ensures outcome { IfOk result (λ done. outcome done ≡ store_outcome self.now.class self.now.moment self.now.changes how flags exptime value before) }
        ensures count { IfOk result (λ done. changes_after self.now.changes (effect_of done.deed) ≤ MOST_CHANGES) }
    {
        let changes = self.changes();
        if LARGEST_VALUE < value.len() {
            return Ok(refused(ShardReply::TooLarge));
        }
        if let Some(refusal) = refusal(how, value.len(), &before) {
            return Ok(refused(refusal));
        }
        if changes == MOST_CHANGES {
            return Ok(refused(ShardReply::OutOfCas));
        }
        let fresh = Item {
            value,
            flags,
            due: due(exptime, self.moment()),
            cas: self.next_cas(),
        };
        Ok(Done {
            reply: ShardReply::Stored,
            deed: Deed::Put(stored_item(how, fresh, before)?),
            is_store: true,
        })
    }

    /// What `get` does.
    pub(crate) fn get_done(before: Option<Item>) -> Result<Done, AllocError>
        ensures { IfOk result (λ done. outcome done ≡ get_outcome before) }
    {
        let Some(item) = before else {
            return Ok(refused(ShardReply::Missing));
        };
        Ok(with_deed(shown(&item)?, Deed::Use(item)))
    }

    /// What `gat` does.
    pub(crate) fn get_touch_done(
        &self,
        exptime: i64,
        before: Option<Item>,
    ) -> Result<Done, AllocError>
        ensures { IfOk result (λ done. outcome done ≡ get_touch_outcome self.now.moment exptime before) }
    {
        let Some(mut item) = before else {
            return Ok(refused(ShardReply::Missing));
        };
        let reply = shown(&item)?;
        item.due = due(exptime, self.moment());
        Ok(with_deed(reply, Deed::Use(item)))
    }

    /// What `incr` does where `up`, else `decr`.
    pub(crate) fn change_done(
        &self,
        up: bool,
        by: u64,
        before: Option<Item>,
    ) -> Result<Done, AllocError>
        ensures outcome { IfOk result (λ done. outcome done ≡ change_outcome self.now.class self.now.changes up by before) }
        ensures count { IfOk result (λ done. changes_after self.now.changes (effect_of done.deed) ≤ MOST_CHANGES) }
    {
        let changes = self.changes();
        let Some(mut item) = before else {
            return Ok(refused(ShardReply::NotFound));
        };
        let Some(number) = number(item.value.get(), u64::MAX) else {
            return Ok(refused(ShardReply::NonNumeric));
        };
        if changes == MOST_CHANGES {
            return Ok(refused(ShardReply::OutOfCas));
        }
        let after = changed(up, number, by);
        item.value = Bytes::from(after.to_string(self.allocator())?.into_bytes());
        item.cas = self.next_cas();
        Ok(with_deed(ShardReply::Number(after), Deed::Put(item)))
    }

    /// What `touch` does.
    pub(crate) fn touch_done(&self, exptime: i64, before: Option<Item>) -> Done
        ensures { outcome result ≡ touch_outcome self.now.moment exptime before }
    {
        let Some(mut item) = before else {
            return refused(ShardReply::NotFound);
        };
        item.due = due(exptime, self.moment());
        with_deed(ShardReply::Touched, Deed::Use(item))
    }

    /// What `delete` does.
    pub(crate) fn delete_done(before: Option<Item>) -> Done
        ensures { outcome result ≡ delete_outcome before }
    {
        match before {
            Some(_) => with_deed(ShardReply::Deleted, Deed::Remove),
            None => refused(ShardReply::NotFound),
        }
    }
}
