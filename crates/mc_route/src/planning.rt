//! What is asked for a command.
ghost use Rattle.std.specs.Prelude.{◌≡◌, [], ◌∷◌, map, IfOk};
ghost use Rattle.mc_model.specs.Plain.{parts_of};
ghost use Rattle.mc_route.specs.Desks.{first_task};
ghost use Rattle.mc_route.specs.Plans.{asked_of, shard_part, ask_of, frame_of};

use crate::desk::{DeskTask, DeskWork};
use crate::frame::Frame;
use crate::parts::{ShardPart, ShardParts};
use mc_item::{Key, class_of};
use mc_model::{Command, Keys};
use mc_shard::ShardOp;
use std::alloc::{AllocError, Global};

/// What is asked for one command.
#[derive(Drop)]
pub enum Ask {
    /// Nothing: there will be no reply.
    Nobody,
    /// Each part of the class that it names, in order: there will be one reply for each.
    Shards(ShardParts),
    /// A launch of this task on the desk: there will be one reply, of the launch's end.
    Desk(DeskTask),
}

/// A command, planned.
#[derive(Drop)]
pub struct Planned {
    /// What is asked.
    pub ask: Ask,
    /// What is kept until the replies are there.
    pub frame: Frame,
}

// One part alone.
fn one_part(alloc: Global, class: u32, op: ShardOp) -> Result<ShardParts, AllocError>
    ensures { IfOk result (λ parts. parts ≡ record { class = class; op = op } ∷ []) }
{
    let mut parts = ShardParts::new(alloc);
    parts.push(ShardPart { class, op })?;
    Ok(parts)
}

// The part that gets the item of a key, which goes at another time where there is an exptime.
fn part_of(key: Key, exptime: Option<i64>, moment: u64) -> ShardPart
    ensures { result ≡ shard_part moment (key, asked_of exptime) }
{
    let class = class_of(&key);
    let op = match exptime {
        None => ShardOp::Get { key, moment },
        Some(exptime) => ShardOp::GetTouch {
            key,
            exptime,
            moment,
        },
    };
    ShardPart { class, op }
}

// Such a part for each key, in order.
fn part_for_each(
    alloc: Global,
    exptime: Option<i64>,
    keys: Keys,
    moment: u64,
) -> Result<ShardParts, AllocError>
    ensures { IfOk result (λ parts. parts ≡ map (shard_part moment) (map (λ key. (key, asked_of exptime)) keys)) }
{
    let mut parts = ShardParts::new(alloc);
    for key in keys.into_vec() {
        parts.push(part_of(key, exptime, moment))?;
    }
    Ok(parts)
}

// A launch of this work.
fn launch(work: DeskWork, trustees: u32) -> Ask
    ensures { result ≡ Ask.Desk (first_task work trustees) }
{
    Ask::Desk(DeskTask {
        work,
        trustees,
        class: 0,
        held: 0,
        stored: 0,
    })
}

// The parts of a command, none of one that is no command on keys.
fn parts_of(alloc: Global, command: Command, moment: u64) -> Result<ShardParts, AllocError>
    ensures { IfOk result (λ parts. parts ≡ map (shard_part moment) (parts_of command)) }
{
    let (class, op) = match command {
        Command::Get { keys, .. } => return part_for_each(alloc, None, keys, moment),
        Command::GetTouch { exptime, keys, .. } => {
            return part_for_each(alloc, Some(exptime), keys, moment);
        }
        Command::Store {
            how,
            key,
            flags,
            exptime,
            value,
            ..
        } => (
            class_of(&key),
            ShardOp::Store {
                how,
                key,
                flags,
                exptime,
                value,
                moment,
            },
        ),
        Command::Delete { key, .. } => (class_of(&key), ShardOp::Delete { key, moment }),
        Command::Change { up, key, by, .. } => (
            class_of(&key),
            ShardOp::Change {
                up,
                key,
                by,
                moment,
            },
        ),
        Command::Touch { key, exptime, .. } => (
            class_of(&key),
            ShardOp::Touch {
                key,
                exptime,
                moment,
            },
        ),
        Command::FlushAll { .. }
        | Command::Stats
        | Command::Version
        | Command::Verbosity { .. }
        | Command::Quit => return Ok(ShardParts::new(alloc)),
    };
    one_part(alloc, class, op)
}

// What is asked for a command.
fn ask_of(alloc: Global, command: Command, moment: u64, trustees: u32) -> Result<Ask, AllocError>
    ensures { IfOk result (λ ask. ask ≡ ask_of command moment trustees) }
{
    match command {
        Command::FlushAll { delay, .. } => Ok(launch(DeskWork::Flush { delay, moment }, trustees)),
        Command::Stats => Ok(launch(DeskWork::Count { moment }, trustees)),
        Command::Version | Command::Verbosity { .. } | Command::Quit => Ok(Ask::Nobody),
        keyed => Ok(Ask::Shards(parts_of(alloc, keyed, moment)?)),
    }
}

/// What is asked for a command at a moment, where there are so many trustees, and what is kept of it.
///
/// A `moment` is in seconds of Unix time. Of a command on keys there is one part for each key, in order, at the key's
/// class; `flush_all` and `stats` are launches on the desk; for `version`, `verbosity` and `quit` nothing is asked. An
/// `Err`, for want of memory, drops the command. The value is moved, and each key of a `get` copied once.
pub fn plan(
    alloc: Global,
    command: Command,
    moment: u64,
    trustees: u32,
) -> Result<Planned, AllocError>
    ensures ask { IfOk result (λ planned. planned.ask ≡ ask_of command moment trustees) }
    ensures frame { IfOk result (λ planned. planned.frame ≡ frame_of command) }
{
    let frame = Frame::of(alloc, &command)?;
    let ask = ask_of(alloc, command, moment, trustees)?;
    Ok(Planned { ask, frame })
}
