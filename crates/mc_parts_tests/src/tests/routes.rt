//! That calls succeed with ample memory, that the desk asks the classes where they were placed, and what a request
//! weighs.

use mc_item::{Bytes, Key};
use mc_model::{Command, How, Keys, Said, ShardReply, Shown};
use mc_route::{Ask, Desk, Planned, Store, join, plan, store_first};
use mc_shard::ShardOp;
use std::alloc::Global;
use std::hash::RandomState;
use std::mem::size_of;
use std::test::Fail;
use tm_batch::{First, Request};
use tm_seq::{Entrusted, Event, Next, Sum};

// Asks the object that a trustee holds at an index.
fn ask_at(
    objects: &mut [First<Store>],
    trustee: u32,
    index: u32,
    op: ShardOp,
) -> Event<ShardReply> {
    let mut left = index;
    for object in objects.iter_mut() {
        if object.trustee == trustee {
            if left == 0 {
                return Event::Reply(object.value.run(op));
            }
            left -= 1;
        }
    }
    Event::NoObject
}

// The replies to what is asked for a command, each asked where it is to be asked.
fn replies_of(
    alloc: Global,
    objects: &mut Vec<First<Store>>,
    ask: Ask,
) -> Result<Vec<ShardReply>, Fail> {
    let mut replies = Vec::new(alloc);
    match ask {
        Ask::Nobody => {}
        Ask::Shards(parts) => {
            for part in parts.into_vec() {
                let object = objects
                    .get_mut(part.class as usize)
                    .ok_or("a class is missing")?;
                replies.push(object.value.run(part.op))?;
            }
        }
        Ask::Desk(task) => {
            let mut desk: Store = Sum::Second(Desk { done: 0 });
            let mut next = desk.resume(Sum::Second(task), Event::Begin);
            for _ in 0..65u32 {
                match next {
                    Next::Done { reply } => {
                        replies.push(reply)?;
                        return Ok(replies);
                    }
                    Next::Ask {
                        trustee,
                        index,
                        op,
                        task,
                    } => {
                        let event = ask_at(objects.as_mut_slice(), trustee, index, op);
                        next = desk.resume(task, event);
                    }
                }
            }
        }
    }
    Ok(replies)
}

// What a command shows.
fn shown(
    alloc: Global,
    objects: &mut Vec<First<Store>>,
    trustees: u32,
    command: Command,
) -> Result<Shown, Fail> {
    let Planned { ask, frame } = plan(alloc, command, 100, trustees)?;
    let replies = replies_of(alloc, objects, ask)?;
    Ok(join(alloc, frame, replies)?)
}

// How many items are shown.
fn items_in(shown: &Shown) -> usize {
    match shown {
        Shown::Values { items, .. } => items.len(),
        _ => 0,
    }
}

fn set(alloc: Global, key: &[u8], value: &[u8]) -> Result<Command, Fail> {
    Ok(Command::Store {
        how: How::Set,
        key: Key::of(alloc, key)?,
        flags: 7,
        exptime: 0,
        value: Bytes::of(alloc, value)?,
        quiet: false,
    })
}

#[test]
fn commands_reach_the_classes(rt: HostRuntime) -> Result<(), Fail> {
    let alloc = rt.alloc();
    for trustees in [2, 3, 5, 31, 32] {
        let mut objects = store_first(alloc, 2, trustees, 4, RandomState::new(&rt)?)?;
        assert_eq!(rt; objects.len(), 65);
        for key in [b"a", b"b", b"k"] {
            let stored = shown(alloc, &mut objects, trustees, set(alloc, key, b"xyz")?)?;
            assert!(rt; matches!(stored, Shown::Line(Said::Stored)));
        }
        let mut keys = Keys::new(alloc);
        keys.push(Key::of(alloc, b"a")?)?;
        keys.push(Key::of(alloc, b"z")?)?;
        let got = shown(
            alloc,
            &mut objects,
            trustees,
            Command::Get {
                keys,
                with_cas: false,
            },
        )?;
        assert_eq!(rt; items_in(&got), 1);
        let counted = shown(alloc, &mut objects, trustees, Command::Stats)?;
        assert!(rt; matches!(counted, Shown::Stats { held: 3, stored: 3 }));
        let flush = Command::FlushAll {
            delay: 0,
            quiet: false,
        };
        let flushed = shown(alloc, &mut objects, trustees, flush)?;
        assert!(rt; matches!(flushed, Shown::Line(Said::Ok)));
        let after = shown(alloc, &mut objects, trustees, Command::Stats)?;
        assert!(rt; matches!(after, Shown::Stats { held: 0, stored: 3 }));
    }
    Ok(())
}

#[test]
fn a_request_weighs_little(rt: HostRuntime) {
    assert!(rt; size_of::<Request<Store>>() <= 128);
}
