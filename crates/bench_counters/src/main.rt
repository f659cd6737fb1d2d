//! Clients and a trustee, each on a thread of its own, count through a table that they share.
//!
//! The words are how many clients there are, 1 to 3, how many requests a batch has, 1 to 16, and how many batches each
//! client sends, at most 1,000,000,000. Standard output says what was run, and whether each request was answered in
//! order; standard error says how many requests were answered in a second.
#![tactic(auto)]

ghost use Rattle.std.specs.Prelude.{◌≡◌};
ghost use Rattle.std.specs.Thread.{IsSync};
ghost use Rattle.tm_seq.specs.Counting.{counter_kind};
ghost use Rattle.tm_toggle.specs.Shared.{shared_theory};
ghost use Rattle.tm_trustee.specs.Tables.{IsReady};
ghost use Rattle.bench_counters.specs.Counting.{AreSeats, MayAsk};

mod asking;
mod open;
mod serving;
mod waiting;
mod work;

use self::asking::count;
use self::open::{Opened, Seat, open};
use self::serving::{Home, serve};
use self::work::{Work, work_of};
use std::alloc::{AllocError, Global};
use std::process::ExitCode;
use std::rt::Clock;
use std::sync::Wait;
use std::thread::{self, Threads};
use std::time::Instant;
use std::{env, io};

/// A client at its seat. Its last reply, if all came in order.
fn count_at<R: Wait>(rt: &R, seat: Seat, work: Work) -> Option<u64>
    requires { MayAsk (shared_theory counter_kind) seat.0 seat.1 }
{
    let (mut table, mut side) = seat;
    count(rt, &mut table, &mut side, work)
}

/// The trustee on a thread of its own, and each client on one. How many requests the trustee ran, and the last reply to
/// each client, where all came in order.
fn run<R: Threads + Wait + Clock + Sync>(
    rt: &R,
    opened: Opened,
    work: Work,
) -> (u64, Result<Vec<Option<u64>>, AllocError>)
    requires seats { AreSeats (shared_theory counter_kind) opened.seats.items }
    requires home { IsReady (shared_theory counter_kind) counter_kind opened.home.tables.items opened.home.trustee }
{
    let Opened { seats, home } = opened;
    thread::join(
        rt,
        move || -> u64
            requires { IsReady (shared_theory counter_kind) counter_kind home.tables.items home.trustee }
        { serve(rt, home) },
        move || -> Result<Vec<Option<u64>>, AllocError>
            requires seats { AreSeats (shared_theory counter_kind) seats.items }
            requires sync { IsSync R.row }
        {
            let asks = |seat: Seat| -> Option<u64>
                requires { MayAsk (shared_theory counter_kind) seat.0 seat.1 }
            { count_at(rt, seat, work) };
            thread::map_vec(rt, seats, &asks)
        },
    )
}

/// The greatest of the last replies, if each client has one.
fn greatest(replies: &[Option<u64>]) -> Option<u64> {
    let mut most = 0;
    for reply in replies {
        most = most.max((*reply)?);
    }
    Some(most)
}

fn main(rt: HostRuntime) -> io::Result<ExitCode> {
    let alloc = rt.alloc();
    let words: Vec<String> = env::args(&rt)?.skip(1).collect(alloc)?;
    let Some(work) = work_of(&words) else {
        eprintln!(rt; "words: clients (1 to 3), requests in a batch (1 to 16), batches")?;
        return Ok(ExitCode::FAILURE);
    };
    let opened = open(alloc, work.clients)?;
    let start = Instant::now(&rt)?;
    let (ran, replies) = run(&rt, opened, work);
    let micros = start.elapsed(&rt)?.as_micros();
    let Some(sum) = greatest(&replies?) else {
        println!(rt; "a request was not answered in order")?;
        return Ok(ExitCode::FAILURE);
    };
    println!(rt; "{ran} requests ran, each answered in order, and the counter is {sum}")?;
    let asked = u128::from(work.clients) * u128::from(work.size) * u128::from(work.rounds);
    eprintln!(rt; "{} operations a second", asked * 1_000_000 / micros.max(1))?;
    Ok(ExitCode::SUCCESS)
}
