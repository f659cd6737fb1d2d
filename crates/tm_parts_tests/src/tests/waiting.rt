//! What a thread does between two looks, told by how often it has read its clock, and how wakes end its sleep.

use std::alloc::{AllocError, Global};
use std::cell::Cell;
use std::sync::Wait;
use std::sync::atomic::{AtomicU64, Ordering};
use std::test::Fail;
use std::thread::{Threads, join};
use std::time::Duration;
use std::{io, rt};
use tm_waiting::{Waiting, Waker, Wakers, Wakes};

// A runtime whose clock is ten microseconds further at each reading.
#[derive(Drop)]
struct Stepping<R> {
    rt: R,
    readings: Cell<u64>,
}

impl<R: Wait> Wait for Stepping<R> {}

impl<R> rt::Clock for Stepping<R> {
    fn monotonic(&self) -> io::Result<Duration> {
        let before = self.readings.get();
        self.readings.set(before.saturating_add(1));
        Ok(Duration::from_micros(before.saturating_mul(10)))
    }

    fn since_1970(&self) -> io::Result<Duration> {
        Ok(Duration::from_micros(0))
    }
}

// A table of two places, whose calls wake or do not.
#[derive(Drop)]
struct Bench {
    wakers: Option<Wakers>,
}

impl Wakes for Bench {
    fn waker(&self, place: u32) -> Option<&Waker> {
        self.wakers.as_ref()?.of(place)
    }
}

// The thread at this place goes on after a look.
fn go_on<P: Wakes, R: Wait + rt::Clock>(
    rt: &R,
    table: &P,
    place: u32,
    waiting: &mut Waiting,
    found: bool,
) {
    waiting.go_on(rt, table.waker(place), found);
}

// What befalls the thread at place 1.
#[derive(Clone, Copy)]
enum Act {
    // It looks in vain.
    Vain,
    // It looks, and finds something.
    Found,
    // Another thread wakes the thread of this place.
    Wake(u32),
}

use Act::{Found, Vain, Wake};

// How a thread waits, and how often it has read its clock after each act.
struct Row {
    is_trustee: bool,
    has_wakers: bool,
    acts: &'static [(Act, u64)],
}

const ROWS: [Row; 8] = [
    // A client's thread lets others run for 20 microseconds. Then it announces a sleep, looks, and sleeps; where nobody
    // ended that, it announces the next at once. What it finds begins all anew.
    Row {
        is_trustee: false,
        has_wakers: true,
        acts: &[
            (Vain, 1),
            (Vain, 2),
            (Vain, 3),
            (Vain, 3),
            (Vain, 3),
            (Vain, 3),
            (Found, 3),
            (Vain, 4),
            (Vain, 5),
            (Vain, 6),
            (Vain, 6),
        ],
    },
    // A trustee's does so for 50.
    Row {
        is_trustee: true,
        has_wakers: true,
        acts: &[
            (Vain, 1),
            (Vain, 2),
            (Vain, 3),
            (Vain, 4),
            (Vain, 5),
            (Vain, 6),
            (Vain, 6),
            (Vain, 6),
        ],
    },
    // What it finds while it lets others run begins the time anew.
    Row {
        is_trustee: false,
        has_wakers: true,
        acts: &[
            (Vain, 1),
            (Vain, 2),
            (Found, 2),
            (Vain, 3),
            (Vain, 4),
            (Vain, 5),
            (Vain, 5),
        ],
    },
    // A wake ends the sleep that is announced, and the thread lets others run again.
    Row {
        is_trustee: false,
        has_wakers: true,
        acts: &[
            (Vain, 1),
            (Vain, 2),
            (Vain, 3),
            (Wake(1), 3),
            (Vain, 3),
            (Vain, 4),
        ],
    },
    // So it does after a sleep that nobody ended.
    Row {
        is_trustee: false,
        has_wakers: true,
        acts: &[
            (Vain, 1),
            (Vain, 2),
            (Vain, 3),
            (Vain, 3),
            (Vain, 3),
            (Wake(1), 3),
            (Vain, 3),
            (Vain, 4),
        ],
    },
    // A wake of another place ends nothing, and neither does one before the sleep is announced.
    Row {
        is_trustee: false,
        has_wakers: true,
        acts: &[
            (Wake(1), 0),
            (Vain, 1),
            (Vain, 2),
            (Wake(1), 2),
            (Vain, 3),
            (Wake(0), 3),
            (Wake(2), 3),
            (Vain, 3),
            (Vain, 3),
        ],
    },
    // The look before the sleep finds something: the sleep is called off, and a wake that comes late ends no other.
    Row {
        is_trustee: false,
        has_wakers: true,
        acts: &[
            (Vain, 1),
            (Vain, 2),
            (Vain, 3),
            (Found, 3),
            (Wake(1), 3),
            (Vain, 4),
            (Vain, 5),
            (Vain, 6),
            (Vain, 6),
            (Vain, 6),
        ],
    },
    // With nothing to sleep on it lets others run, and reads no clock.
    Row {
        is_trustee: true,
        has_wakers: false,
        acts: &[(Vain, 0), (Vain, 0), (Found, 0), (Vain, 0)],
    },
];

// The number of the first act after which the clock was read another number of times, and that number.
fn first_fault<R: Wait + Drop>(
    rt: R,
    alloc: Global,
    row: &Row,
) -> Result<Option<(usize, u64)>, AllocError> {
    let rt = Stepping {
        rt,
        readings: Cell::new(0),
    };
    let mut table = Bench { wakers: None };
    if row.has_wakers {
        table.wakers = Some(Wakers::new(alloc, 2)?);
    }
    let mut waiting = if row.is_trustee {
        Waiting::of_trustee()
    } else {
        Waiting::of_client()
    };
    for (number, (act, want)) in row.acts.iter().enumerate() {
        match (*act, &table.wakers) {
            (Wake(place), Some(wakers)) => wakers.wake(place),
            (Wake(_), None) => (),
            (Vain, _) => go_on(&rt, &table, 1, &mut waiting, false),
            (Found, _) => go_on(&rt, &table, 1, &mut waiting, true),
        }
        let got = rt.readings.get();
        if got != *want {
            return Ok(Some((number, got)));
        }
    }
    Ok(None)
}

#[test]
fn a_thread_that_looks_in_vain_waits_as_told(rt: HostRuntime) -> Result<(), Fail> {
    for (number, row) in ROWS.iter().enumerate() {
        let fault = first_fault(rt, rt.alloc(), row)?;
        assert!(rt; fault.is_none(), "row {number}: {fault:?}");
    }
    Ok(())
}

// How long so many sleeps take that nobody ends.
fn time_of_sleeps<R: Wait + rt::Clock>(rt: &R, count: u64) -> io::Result<Duration> {
    let (waker, mut waiting) = (Waker::default(), Waiting::of_client());
    let stepping = Stepping {
        rt,
        readings: Cell::new(0),
    };
    for _ in 0..3 {
        waiting.go_on(&stepping, Some(&waker), false);
    }
    // Now the first sleep is announced, and each further one is after the sleep before.
    let before = rt.monotonic()?;
    for _ in 0..count {
        waiting.go_on(&stepping, Some(&waker), false);
        waiting.go_on(&stepping, Some(&waker), false);
    }
    Ok(rt.monotonic()?.saturating_sub(before))
}

#[test]
fn a_sleep_that_nobody_ends_lasts_about_a_millisecond(rt: HostRuntime) -> Result<(), Fail> {
    // The system may end some sleeps early, and it may begin others late.
    let passed = time_of_sleeps(&rt, 20)?;
    assert!(rt;
        Duration::from_millis(10) <= passed && passed < Duration::from_secs(10),
        "20 sleeps took {passed:?}"
    );
    Ok(())
}

/// How often one thread asks and the other answers.
const ROUNDS: u64 = 1_000;

// Two words by which two threads hand over, and what each sleeps on.
#[derive(Drop)]
struct Words {
    asked: AtomicU64,
    answered: AtomicU64,
    wakers: Wakers,
}

// Waits until the word is this.
fn wait_for<R: Wait + rt::Clock>(
    rt: &R,
    word: &AtomicU64,
    want: u64,
    waker: Option<&Waker>,
    waiting: &mut Waiting,
) {
    for _ in rt.forever() {
        let found = word.load(Ordering::SeqCst) == want;
        waiting.go_on(rt, waker, found);
        if found {
            break;
        }
    }
}

// Asks, and waits for the answer, over and over.
fn ask_all<R: Wait + rt::Clock>(rt: &R, words: &Words) {
    let mut waiting = Waiting::of_client();
    for round in 1..ROUNDS + 1 {
        words.asked.store(round, Ordering::SeqCst);
        words.wakers.wake(1);
        wait_for(rt, &words.answered, round, words.wakers.of(0), &mut waiting);
    }
}

// Waits for each question, and answers it.
fn answer_all<R: Wait + rt::Clock>(rt: &R, words: &Words) {
    let mut waiting = Waiting::of_trustee();
    for round in 1..ROUNDS + 1 {
        wait_for(rt, &words.asked, round, words.wakers.of(1), &mut waiting);
        words.answered.store(round, Ordering::SeqCst);
        words.wakers.wake(0);
    }
}

// Both at once.
fn hand_over<R: Threads + Wait + rt::Clock + Sync>(rt: &R, words: &Words) {
    join(rt, || ask_all(rt, words), || answer_all(rt, words));
}

#[test]
fn two_threads_wake_each_other(rt: HostRuntime) -> Result<(), Fail> {
    let words = Words {
        asked: AtomicU64::new(0),
        answered: AtomicU64::new(0),
        wakers: Wakers::new(rt.alloc(), 2)?,
    };
    hand_over(&rt, &words);
    assert_eq!(rt; words.answered.load(Ordering::SeqCst), ROUNDS);
    Ok(())
}
