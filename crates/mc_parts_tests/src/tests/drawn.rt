//! The class of `mc_shard` against the plain one, over operations that a generator draws.
ghost use Rattle.std.specs.Prelude.{◌<◌};

use mc_item::{Bytes, Key, MOST_CHANGES, USUAL_ITEMS};
use mc_reference::Plain;
use mc_shard::{How, Shard, ShardOp, ShardReply};
use std::alloc::Global;
use std::hash::RandomState;
use std::test::Fail;
use tm_seq::Entrusted;

const KEYS: [&str; 8] = ["a", "b", "c", "d", "e", "f", "g", "h"];

const VALUES: [&str; 9] = [
    "",
    "0",
    "007",
    "18446744073709551615",
    "18446744073709551616",
    "18446744073709551599",
    "000000000000000000001",
    "12x",
    "some text",
];

// Stores of a value of so many bytes, one after another to one key.
const LONG_STORES: [(How, usize); 6] = [
    (How::Set, 1_048_577),
    (How::Set, 1_048_575),
    (How::Append, 1),
    (How::Prepend, 1),
    (How::Append, 0),
    (How::Add, 1_048_577),
];

// A linear congruential generator, with the factor and the addend of Knuth's MMIX.
#[derive(Drop)]
struct Dice {
    state: u64,
}

impl Dice {
    // A number below another, from the high half of the state.
    fn roll(&mut self, below: u64) -> u64
        requires { 0 < below }
        ensures { result < below }
    {
        let product = self.state.wrapping_mul(6_364_136_223_846_793_005);
        self.state = product.wrapping_add(1_442_695_040_888_963_407);
        (self.state >> 33) % below
    }
}

// What is drawn for an operation, which is made from it twice.
#[derive(Clone, Copy)]
struct Draw {
    asks: u64,
    how: How,
    key: &'static str,
    value: &'static str,
    // How often the value stands in what is stored.
    copies: usize,
    number: u32,
    by: u64,
    exptime: i64,
    moment: u64,
}

fn how(dice: &mut Dice, last_cas: u64) -> How {
    match dice.roll(10) {
        0 => How::Add,
        1 => How::Replace,
        2 => How::Append,
        3 => How::Prepend,
        4 => How::Cas(last_cas),
        5 => How::Cas(last_cas.wrapping_sub(64 * dice.roll(4))),
        _ => How::Set,
    }
}

// Never, at once, within seconds, or a moment near this one.
fn exptime(dice: &mut Dice, now: u32) -> i64 {
    match dice.roll(12) {
        0 => -1,
        1 => 1,
        2 => 2,
        3 => 5,
        4 => i64::from(now),
        5 => i64::from(now) + 2,
        _ => 0,
    }
}

// An operation at a moment near `now`, mostly at that moment.
fn drawn(dice: &mut Dice, now: u32, last_cas: u64) -> Draw {
    let moment = match dice.roll(32) {
        0 => u64::from(now).saturating_sub(9),
        _ => u64::from(now),
    };
    Draw {
        asks: dice.roll(80),
        how: how(dice, last_cas),
        key: KEYS[dice.roll(8) as usize],
        value: VALUES[dice.roll(9) as usize],
        copies: 1,
        number: dice.roll(4) as u32,
        by: match dice.roll(4) {
            0 => u64::MAX,
            _ => dice.roll(9),
        },
        exptime: exptime(dice, now),
        moment,
    }
}

fn store_of(alloc: Global, key: Key, draw: Draw) -> Result<ShardOp, Fail> {
    let text = draw.value.repeat(alloc, draw.copies)?;
    Ok(ShardOp::Store {
        how: draw.how,
        key,
        flags: draw.number,
        exptime: draw.exptime,
        value: Bytes::from(text.into_bytes()),
        moment: draw.moment,
    })
}

fn operation_of(alloc: Global, draw: Draw) -> Result<ShardOp, Fail> {
    let key = Key::of(alloc, draw.key.as_bytes())?;
    let moment = draw.moment;
    let exptime = draw.exptime;
    let up = draw.number < 2;
    Ok(match draw.asks {
        0 => ShardOp::Flush {
            delay: draw.number,
            moment,
        },
        1 | 2 => ShardOp::Count { moment },
        3..=6 => ShardOp::Delete { key, moment },
        7..=16 => ShardOp::Touch {
            key,
            exptime,
            moment,
        },
        17..=25 => ShardOp::Get { key, moment },
        26..=28 => ShardOp::GetTouch {
            key,
            exptime,
            moment,
        },
        29..=44 => ShardOp::Change {
            up,
            key,
            by: draw.by,
            moment,
        },
        _ => return store_of(alloc, key, draw),
    })
}

// Which reply this is.
fn kind_of(reply: &ShardReply) -> usize {
    match reply {
        ShardReply::Stored => 0,
        ShardReply::NotStored => 1,
        ShardReply::Exists => 2,
        ShardReply::NotFound => 3,
        ShardReply::Deleted => 4,
        ShardReply::Touched => 5,
        ShardReply::Flushed => 6,
        ShardReply::Item { .. } => 7,
        ShardReply::Missing => 8,
        ShardReply::Number(_) => 9,
        ShardReply::NonNumeric => 10,
        ShardReply::TooLarge => 11,
        ShardReply::OutOfCas => 12,
        ShardReply::Counts { .. } => 13,
        ShardReply::NoMemory => 14,
    }
}

fn are_same(got: &ShardReply, want: &ShardReply) -> bool {
    match (got, want) {
        (
            ShardReply::Item { flags, cas, value },
            ShardReply::Item {
                flags: want_flags,
                cas: want_cas,
                value: want_value,
            },
        ) => flags == want_flags && cas == want_cas && value == want_value,
        (ShardReply::Number(got), ShardReply::Number(want)) => got == want,
        (
            ShardReply::Counts { held, stored },
            ShardReply::Counts {
                held: want_held,
                stored: want_stored,
            },
        ) => held == want_held && stored == want_stored,
        (got, want) => kind_of(got) == kind_of(want),
    }
}

// Whether the two classes show the same.
fn agree(alloc: Global, shard: &Shard, plain: &Plain) -> Result<bool, Fail> {
    let mut held: u64 = 0;
    for text in KEYS {
        let key = Key::of(alloc, text.as_bytes())?;
        let want = plain.value_of(&key);
        if shard.value_of(&key) != want {
            return Ok(false);
        }
        held = held.saturating_add(u64::from(want.is_some()));
    }
    Ok(
        shard.held() == held
            && shard.stored() == plain.stored()
            && shard.changes() == plain.changes()
            && shard.pending() == plain.pending(),
    )
}

// Runs an operation on both, but on the plain class only where the other had the memory. Tells
// which reply there was, and whether all is the same.
fn step(
    alloc: Global,
    shard: &mut Shard,
    plain: Plain,
    draw: Draw,
) -> Result<(Plain, usize, bool), Fail> {
    let got = shard.run(operation_of(alloc, draw)?);
    let kind = kind_of(&got);
    if let ShardReply::NoMemory = got {
        let same = agree(alloc, shard, &plain)?;
        return Ok((plain, kind, same));
    }
    let (plain, want) = plain.run(operation_of(alloc, draw)?)?;
    let same = are_same(&got, &want) && agree(alloc, shard, &plain)?;
    Ok((plain, kind, same))
}

#[test]
fn same_as_plain(rt: HostRuntime) -> Result<(), Fail> {
    let alloc = rt.alloc();
    let mut seen = [0u32; 15];
    let hasher = RandomState::new(&rt)?;
    for (class, first, bound) in [
        (33, 0, USUAL_ITEMS),
        (7, MOST_CHANGES - 600, 8),
        (5, 0, 3),
        (6, 0, 1),
    ] {
        let mut shard = Shard::new(alloc, class, first, bound, hasher)?;
        let mut plain = Plain::new(alloc, class, first, bound);
        let mut dice = Dice { state: first };
        let mut now: u32 = 1_700_000_000;
        for count in 0..3000u32 {
            if dice.roll(4) == 0 {
                now = now.saturating_add(dice.roll(4) as u32);
            }
            let last_cas = plain
                .changes()
                .wrapping_mul(64)
                .wrapping_add(u64::from(class));
            let drawn = drawn(&mut dice, now, last_cas);
            let (next, kind, same) = step(alloc, &mut shard, plain, drawn)?;
            assert!(rt; same, "class {class}, operation {count}, reply {kind}");
            if let Some(times) = seen.get_mut(kind) {
                *times = times.saturating_add(1);
            }
            plain = next;
        }
    }
    // All replies came, but for the one that wants large values, and never that memory was wanting.
    for kind in [0, 1, 2, 3, 4, 5, 6, 7, 8, 9, 10, 12, 13] {
        assert!(rt; 20 <= seen[kind], "reply {kind}");
    }
    assert_eq!(rt; seen[14], 0);
    Ok(())
}

#[test]
fn same_as_plain_at_the_limit(rt: HostRuntime) -> Result<(), Fail> {
    let alloc = rt.alloc();
    let mut shard = Shard::new(alloc, 5, 0, 1, RandomState::new(&rt)?)?;
    let mut plain = Plain::new(alloc, 5, 0, 1);
    for (how, copies) in LONG_STORES {
        let drawn = Draw {
            asks: 79,
            how,
            key: "a",
            value: "x",
            copies,
            number: 0,
            by: 0,
            exptime: 0,
            moment: 1,
        };
        let (next, kind, same) = step(alloc, &mut shard, plain, drawn)?;
        assert!(rt; same && kind != 14, "{how:?} {copies}");
        plain = next;
    }
    Ok(())
}
