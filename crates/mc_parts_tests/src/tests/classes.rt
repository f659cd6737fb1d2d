//! Rows of memcached's commands, run on a class of number 33, and each read once.

mod tables;

use self::tables::{SMALL_TABLES, TABLES};
use mc_item::{Bytes, Key, MOST_CHANGES, USUAL_ITEMS};
use mc_shard::{How, Shard, ShardOp, ShardReply};
use std::alloc::{AllocError, Global};
use std::hash::RandomState;
use std::test::Fail;
use tm_seq::Entrusted;

// A line `moment operation key number exptime value = reply`.
#[derive(Clone, Copy)]
struct Row<'a> {
    moment: u64,
    asks: &'a str,
    key: &'a str,
    number: u32,
    exptime: i64,
    value: &'a str,
    want: &'a str,
}

fn word<'a>(rest: &mut &'a str) -> Result<&'a str, Fail> {
    let text = *rest;
    let (first, others) = text.split_once(' ').ok_or("a word is missing")?;
    *rest = others;
    Ok(first)
}

fn row_of(line: &str) -> Result<Row<'_>, Fail> {
    let (asked, want) = line.split_once(" = ").ok_or("no reply")?;
    let mut rest = asked;
    let moment = word(&mut rest)?.parse::<u64>()?;
    let asks = word(&mut rest)?;
    let key = word(&mut rest)?;
    let number = word(&mut rest)?.parse::<u32>()?;
    let exptime = word(&mut rest)?.parse::<i64>()?;
    Ok(Row {
        moment,
        asks,
        key,
        number,
        exptime,
        value: rest,
        want,
    })
}

fn how_of(asks: &str) -> How {
    match asks {
        "add" => How::Add,
        "replace" => How::Replace,
        "append" => How::Append,
        "prepend" => How::Prepend,
        "cas-97" => How::Cas(97),
        "cas-1" => How::Cas(1),
        _ => How::Set,
    }
}

fn key_of(alloc: Global, text: &str) -> Result<Key, Fail> {
    Ok(Key::of(alloc, text.as_bytes())?)
}

fn store_of(alloc: Global, row: Row<'_>) -> Result<ShardOp, Fail> {
    let value = Bytes::of(alloc, row.value.as_bytes())?;
    Ok(ShardOp::Store {
        how: how_of(row.asks),
        key: key_of(alloc, row.key)?,
        flags: row.number,
        exptime: row.exptime,
        value,
        moment: row.moment,
    })
}

fn operation_of(alloc: Global, row: Row<'_>) -> Result<ShardOp, Fail> {
    let moment = row.moment;
    match row.asks {
        "count" => return Ok(ShardOp::Count { moment }),
        "flush" => {
            return Ok(ShardOp::Flush {
                delay: row.number,
                moment,
            });
        }
        _ => {}
    }
    let key = key_of(alloc, row.key)?;
    let exptime = row.exptime;
    let by = u64::from(row.number);
    Ok(match row.asks {
        "get" => ShardOp::Get { key, moment },
        "delete" => ShardOp::Delete { key, moment },
        "gat" => ShardOp::GetTouch {
            key,
            exptime,
            moment,
        },
        "touch" => ShardOp::Touch {
            key,
            exptime,
            moment,
        },
        "incr" | "decr" => ShardOp::Change {
            up: row.asks == "incr",
            key,
            by,
            moment,
        },
        _ => return store_of(alloc, row),
    })
}

fn plain(reply: &ShardReply) -> &'static str {
    match reply {
        ShardReply::Stored => "stored",
        ShardReply::NotStored => "not stored",
        ShardReply::Exists => "exists",
        ShardReply::NotFound => "not found",
        ShardReply::Deleted => "deleted",
        ShardReply::Touched => "touched",
        ShardReply::Flushed => "flushed",
        ShardReply::Missing => "missing",
        ShardReply::NonNumeric => "no number",
        ShardReply::TooLarge => "too large",
        ShardReply::OutOfCas => "out of cas",
        _ => "no memory",
    }
}

fn words(alloc: Global, reply: &ShardReply) -> Result<String, AllocError> {
    match reply {
        ShardReply::Item { flags, cas, value } => {
            format!(in alloc; "{flags} {cas} {}", value.get().escape_ascii())
        }
        ShardReply::Number(number) => format!(in alloc; "{number}"),
        ShardReply::Counts { held, stored } => format!(in alloc; "{held} of {stored}"),
        _ => String::from_str(alloc, plain(reply)),
    }
}

// What any kind with these operations replies to a line, and what it is to reply.
fn said<S: Entrusted<Op = ShardOp, Reply = ShardReply>>(
    alloc: Global,
    value: &mut S,
    line: &str,
) -> Result<String, Fail> {
    let reply = value.run(operation_of(alloc, row_of(line)?)?);
    Ok(words(alloc, &reply)?)
}

#[test]
fn rows(rt: HostRuntime) -> Result<(), Fail> {
    let alloc = rt.alloc();
    for table in TABLES {
        let mut shard = Shard::new(alloc, 33, 0, USUAL_ITEMS, RandomState::new(&rt)?)?;
        for line in table.lines() {
            let reply = said(alloc, &mut shard, line)?;
            assert_eq!(rt; reply.as_str(), row_of(line)?.want, "{line}");
        }
    }
    Ok(())
}

#[test]
fn small_classes(rt: HostRuntime) -> Result<(), Fail> {
    let alloc = rt.alloc();
    for table in SMALL_TABLES {
        let mut shard = Shard::new(alloc, 33, 0, 2, RandomState::new(&rt)?)?;
        for line in table.lines() {
            let reply = said(alloc, &mut shard, line)?;
            assert_eq!(rt; reply.as_str(), row_of(line)?.want, "{line}");
        }
    }
    Ok(())
}

// Each class has a bound of its own. (The keys are of two classes, the one next to the other.)
#[test]
fn classes_of_one_item(rt: HostRuntime) -> Result<(), Fail> {
    let alloc = rt.alloc();
    let mut first = Shard::new(alloc, 33, 0, 1, RandomState::new(&rt)?)?;
    let mut second = Shard::new(alloc, 34, 0, 1, RandomState::new(&rt)?)?;
    assert_eq!(rt;
        said(alloc, &mut first, "1 set a 0 0 x = -")?.as_str(),
        "stored"
    );
    assert_eq!(rt;
        said(alloc, &mut second, "1 set b 0 0 y = -")?.as_str(),
        "stored"
    );
    assert_eq!(rt;
        said(alloc, &mut first, "1 get a 0 0 - = -")?.as_str(),
        "0 97 x"
    );
    assert_eq!(rt;
        said(alloc, &mut second, "1 get b 0 0 - = -")?.as_str(),
        "0 98 y"
    );
    assert_eq!(rt;
        said(alloc, &mut first, "1 set ! 0 0 z = -")?.as_str(),
        "stored"
    );
    assert_eq!(rt;
        said(alloc, &mut first, "1 get a 0 0 - = -")?.as_str(),
        "missing"
    );
    Ok(())
}

// A store of so many bytes of `x` in the key `a`.
fn large(alloc: Global, how: How, length: usize) -> Result<ShardOp, Fail> {
    Ok(ShardOp::Store {
        how,
        key: key_of(alloc, "a")?,
        flags: 0,
        exptime: 0,
        value: Bytes::from(vec![in alloc; b'x'; length]?),
        moment: 1,
    })
}

#[test]
fn limits(rt: HostRuntime) -> Result<(), Fail> {
    let alloc = rt.alloc();
    let mut shard = Shard::new(alloc, 33, MOST_CHANGES - 1, 2, RandomState::new(&rt)?)?;
    let last = "5 set a 7 0 x = stored\n5 set a 0 0 y = out of cas\n5 set b 0 0 y = out of cas\n\
        5 get a 0 0 - = 7 18446744073709551585 x";
    for line in last.lines() {
        let reply = said(alloc, &mut shard, line)?;
        assert_eq!(rt; reply.as_str(), row_of(line)?.want, "{line}");
    }
    let mut shard = Shard::new(alloc, 0, 0, 1, RandomState::new(&rt)?)?;
    for (how, length, want) in [
        (How::Set, 1_048_577, "too large"),
        (How::Set, 1_048_576, "stored"),
        (How::Append, 1, "too large"),
        (How::Prepend, 1, "too large"),
    ] {
        let reply = shard.run(large(alloc, how, length)?);
        assert_eq!(rt; plain(&reply), want);
    }
    assert_eq!(rt; shard.held(), 1);
    Ok(())
}

#[test]
fn reads(rt: HostRuntime) -> Result<(), Fail> {
    let alloc = rt.alloc();
    let mut shard = Shard::new(alloc, 33, 5, 3, RandomState::new(&rt)?)?;
    let asked = "1 set a 0 0 x = stored\n1 set b 0 -1 y = stored\n1 touch a 0 60 - = touched";
    for line in asked.lines() {
        said(alloc, &mut shard, line)?;
    }
    let a = key_of(alloc, "a")?;
    let b = key_of(alloc, "b")?;
    assert_eq!(rt; shard.value_of(&a), Some(b"x".as_slice()));
    assert_eq!(rt; shard.value_of(&b), None);
    assert_eq!(rt; (shard.held(), shard.stored(), shard.changes()), (1, 2, 7));
    assert_eq!(rt; shard.pending(), None);
    said(alloc, &mut shard, "4 flush - 3 0 - = flushed")?;
    assert_eq!(rt; shard.pending(), Some(7));
    assert_eq!(rt; plain(&Shard::no_memory()), "no memory");
    Ok(())
}
