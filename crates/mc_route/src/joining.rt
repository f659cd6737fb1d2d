//! What the replies to a command show.
ghost use Rattle.std.specs.Prelude.{◌≡◌, ◌++◌, IfOk};
ghost use Rattle.std.specs.List.{list_any};
ghost use Rattle.std.specs.Option.{option_map};
ghost use Rattle.mc_model.specs.declared.message.Command.{Command};
ghost use Rattle.mc_model.specs.Showing.{is_no_memory, items_of, all_items_of, get_shows, only_reply, shown_of};
ghost use Rattle.mc_route.specs.Plans.{frame_of};
ghost use Rattle.mc_route.specs.Joins.{only_of, some_if, reply_shows, shows_by};

use crate::frame::{Frame, Operation, Showing};
use mc_item::Key;
use mc_model::{Keys, Said, ShardReply, Shown, ShownItem, ShownItems};
use mc_reply::{
    change_shows, delete_says, flush_says, lacks_memory, stats_shows, store_says, touch_says,
};
use std::alloc::{AllocError, Global};

// The only reply, where there is no other.
fn only_of(replies: Vec<ShardReply>) -> Option<ShardReply>
    ensures { result ≡ only_of replies.items }
{
    let mut replies = replies.into_iter();
    let first = replies.next()?;
    match replies.next() {
        None => Some(first),
        Some(_) => None,
    }
}

// Whether memory was wanting for one of some replies.
fn any_lacks_memory(replies: &[ShardReply]) -> bool
    ensures { result ≡ list_any is_no_memory replies.now }
{
    replies.iter().any(|reply| lacks_memory(reply))
}

// Puts the item last that the reply to a get of a key shows, if it shows one. Whether a get has such a reply.
fn add_item(items: &mut ShownItems, key: Key, reply: ShardReply) -> Result<bool, AllocError>
    ensures { IfOk result (λ known. option_map (λ found. items.old ++ found) (items_of key reply) ≡ some_if known items.new) }
{
    match reply {
        ShardReply::Item { flags, cas, value } => {
            items.push(ShownItem {
                key,
                flags,
                cas,
                value,
            })?;
            Ok(true)
        }
        ShardReply::Missing => Ok(true),
        _ => Ok(false),
    }
}

// The items that the replies to a get's keys show, in the order of the keys.
fn all_items_of(
    alloc: Global,
    keys: Keys,
    replies: Vec<ShardReply>,
) -> Result<Option<ShownItems>, AllocError>
    ensures { IfOk result (λ items. items ≡ all_items_of keys replies.items) }
{
    let mut items = ShownItems::new(alloc);
    let mut left = replies.into_iter();
    for key in keys.into_vec() {
        let Some(reply) = left.next() else {
            return Ok(None);
        };
        if !add_item(&mut items, key, reply)? {
            return Ok(None);
        }
    }
    match left.next() {
        None => Ok(Some(items)),
        Some(_) => Ok(None),
    }
}

// What the replies to a get show.
fn get_shows(
    alloc: Global,
    keys: Keys,
    with_cas: bool,
    replies: Vec<ShardReply>,
) -> Result<Shown, AllocError>
    ensures { IfOk result (λ shown. shown ≡ get_shows keys with_cas replies.items) }
{
    match all_items_of(alloc, keys, replies)? {
        Some(items) => Ok(Shown::Values { items, with_cas }),
        None => Ok(Shown::Line(Said::Error)),
    }
}

// What the reply to an operation shows.
fn reply_shows(operation: Operation, reply: &ShardReply) -> Shown
    ensures { result ≡ reply_shows operation reply.now }
{
    match operation {
        Operation::Store(how) => Shown::Line(store_says(how, reply)),
        Operation::Delete => Shown::Line(delete_says(reply)),
        Operation::Change => change_shows(reply),
        Operation::Touch => Shown::Line(touch_says(reply)),
        Operation::FlushAll => Shown::Line(flush_says(reply)),
        Operation::Stats => stats_shows(reply),
    }
}

// What the only reply to an operation shows; another number of replies shows an error.
fn only_reply_shows(operation: Operation, replies: Vec<ShardReply>) -> Shown
    ensures { result ≡ only_reply (reply_shows operation) replies.items }
{
    match only_of(replies) {
        Some(reply) => reply_shows(operation, &reply),
        None => Shown::Line(Said::Error),
    }
}

// What replies show, of which none is for want of memory.
fn shows_by(alloc: Global, showing: Showing, replies: Vec<ShardReply>) -> Result<Shown, AllocError>
    ensures { IfOk result (λ shown. shown ≡ shows_by showing replies.items) }
{
    match showing {
        Showing::Nothing => Ok(Shown::Nothing),
        Showing::Line(said) => Ok(Shown::Line(said)),
        Showing::ReplyTo(operation) => Ok(only_reply_shows(operation, replies)),
        Showing::Values { keys, with_cas } => get_shows(alloc, keys, with_cas, replies),
    }
}

/// What a command shows whose frame this is and that had these replies, in the order of its parts.
///
/// A quiet command shows nothing, whatever its replies. Else, where memory was wanting for one of them, that line alone
/// is shown. A reply that the operation never has, a launch that ended with another reply than its work's own, and
/// another number of replies than there were parts show `ERROR`. An `Err`, for want of memory for the list of items,
/// drops the replies. The values of a `get` are moved.
pub fn join(alloc: Global, frame: Frame, replies: Vec<ShardReply>) -> Result<Shown, AllocError>
    ensures { IfOk result (λ shown. (command : Command) → frame ≡ frame_of command → shown ≡ shown_of command replies.items) }
{
    if frame.quiet {
        return Ok(Shown::Nothing);
    }
    if any_lacks_memory(replies.as_slice()) {
        return Ok(Shown::Line(Said::NoMemory));
    }
    shows_by(alloc, frame.showing, replies)
}
