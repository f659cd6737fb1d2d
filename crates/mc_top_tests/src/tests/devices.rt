//! Runs over devices that fail, and limits of an input.
ghost use Rattle.std.specs.Prelude.{None};

use super::{NOW, run_by, text, words};
use mc_top::{Status, top_in_turns};
use std::alloc::{AllocError, Global};
use std::cell::Cell;
use std::hash::RandomState;
use std::process::Abort;
use std::test::Fail;
use tm_base::{Clock, Failed, FreeGate, Gate, MemClock, MemSink, MemSource, Source};

const SAMPLE: &[u8] = b"set a 5 0 3\r\nabc\r\nget a\r\n";

const SAMPLE_SHOWN: &[u8] = b"STORED\r\nVALUE a 5 3\r\nabc\r\nEND\r\n";

// What is written for the sample in such pieces, with a read that fails.
fn run_failing(
    alloc: Global,
    cuts: Vec<usize>,
    read: u64,
    hasher: RandomState,
) -> Result<(Vec<u8>, Status), AllocError> {
    let words = words(alloc, &["run", "--turns"])?;
    let failing = vec![in alloc; read]?;
    let mut source = MemSource::new(Vec::from_slice(alloc, SAMPLE)?, cuts, failing);
    let mut sink = MemSink::new(alloc, 1 << 30, Vec::new(alloc));
    let mut clock = MemClock::new(vec![in alloc; NOW]?);
    let status = top_in_turns(
        alloc,
        &words,
        &mut source,
        &mut sink,
        &mut clock,
        &FreeGate,
        hasher,
    );
    Ok((Vec::from_slice(alloc, sink.bytes())?, status))
}

#[test]
fn what_came_before_a_failed_read_is_answered(rt: HostRuntime) -> Result<(), Fail> {
    let alloc = rt.alloc();
    let rows: [(usize, u64, &[u8]); 4] = [
        (25, 0, b""),
        (17, 1, b""),
        (18, 1, b"STORED\r\n"),
        (25, 1, SAMPLE_SHOWN),
    ];
    for (cut, read, output) in rows {
        let (written, status) = run_failing(
            alloc,
            vec![in alloc; cut]?,
            read,
            RandomState::new(&rt)?,
        )?;
        assert!(rt; written.as_slice() == output, "after {cut} bytes");
        assert_eq!(rt; status, Status::ReadFault, "after {cut} bytes");
    }
    Ok(())
}

// After the end of the input, and after a `quit`, no read is made that could fail.
#[test]
fn nothing_is_read_after_the_end(rt: HostRuntime) -> Result<(), Fail> {
    let alloc = rt.alloc();
    let rows: [(&str, u64, Status); 4] = [
        ("set a 5 0 3~abc~get a~", 2, Status::Ended),
        ("", 1, Status::Ended),
        ("set a 5 0 3~ab", 2, Status::EndedInside),
        ("version~quit~get a~", 1, Status::Ended),
    ];
    for (input, read, want) in rows {
        let words = words(alloc, &["run", "--turns"])?;
        let failing = vec![in alloc; read]?;
        let mut source = MemSource::new(text(alloc, input)?, Vec::new(alloc), failing);
        let mut sink = MemSink::new(alloc, 1 << 30, Vec::new(alloc));
        let mut clock = MemClock::new(vec![in alloc; NOW]?);
        let status = top_in_turns(
            alloc,
            &words,
            &mut source,
            &mut sink,
            &mut clock,
            &FreeGate,
            RandomState::new(&rt)?,
        );
        assert_eq!(rt; status, want, "at {input}");
        assert_eq!(rt; source.faults(), 0, "at {input}");
    }
    Ok(())
}

/// A source at its end, which notes how often it was read, and how much room it was offered last.
#[derive(Drop)]
struct Ended {
    reads: u64,
    room: usize,
}

impl Source for Ended {
    ghost left = { λ _. None };

    ghost faults = { λ _. 0 };

    fn read(&mut self, into: &mut [u8]) -> Result<usize, Failed> {
        self.reads = self.reads.saturating_add(1);
        self.room = into.len();
        Ok(0)
    }
}

#[test]
fn a_read_offers_64_kib(rt: HostRuntime) -> Result<(), Fail> {
    let alloc = rt.alloc();
    let words = words(alloc, &["run", "--turns"])?;
    let mut source = Ended { reads: 0, room: 0 };
    let mut sink = MemSink::new(alloc, 1 << 30, Vec::new(alloc));
    let mut clock = MemClock::new(Vec::new(alloc));
    let status = top_in_turns(
        alloc,
        &words,
        &mut source,
        &mut sink,
        &mut clock,
        &FreeGate,
        RandomState::new(&rt)?,
    );
    assert_eq!(rt; status, Status::Ended);
    assert!(rt; source.reads == 1 && source.room == 65_536);
    Ok(())
}

#[test]
fn a_failed_write_leaves_a_front(rt: HostRuntime) -> Result<(), Fail> {
    let alloc = rt.alloc();
    let words = words(alloc, &["run", "--turns"])?;
    for k in 0..SAMPLE_SHOWN.len() {
        let input = Vec::from_slice(alloc, SAMPLE)?;
        let mut source = MemSource::new(input, Vec::new(alloc), Vec::new(alloc));
        let mut sink = MemSink::new(alloc, 1, vec![in alloc; k as u64]?);
        let mut clock = MemClock::new(Vec::new(alloc));
        let status = top_in_turns(
            alloc,
            &words,
            &mut source,
            &mut sink,
            &mut clock,
            &FreeGate,
            RandomState::new(&rt)?,
        );
        assert_eq!(rt; status, Status::WriteFault, "at write {k}");
        assert!(rt; sink.bytes() == &SAMPLE_SHOWN[..k], "at write {k}");
        assert_eq!(rt; sink.lacked(), 0);
    }
    Ok(())
}

// Only the first bytes are read, and a `quit` among them is an end.
#[test]
fn an_input_has_a_limit(rt: HostRuntime) -> Result<(), Fail> {
    let alloc = rt.alloc();
    let all = "STORED~VALUE a 5 3~abc~END~";
    let rows = [
        ("25", "set a 5 0 3~abc~get a~", all, Status::Ended),
        ("24", "set a 5 0 3~abc~get a~", "STORED~", Status::TooMuch),
        (
            "24",
            "set a 5 0 3~abc~get a",
            "STORED~",
            Status::EndedInside,
        ),
        ("6", "quit~get a~", "", Status::Ended),
        ("5", "quit~get a~", "", Status::TooMuch),
        ("1", "~", "", Status::TooMuch),
        ("1", "", "", Status::Ended),
    ];
    for (most, input, output, end) in rows {
        let said = ["run", "--turns", "--max-bytes", most];
        let read = text(alloc, input)?;
        let wanted = text(alloc, output)?;
        let ones = vec![in alloc; 1usize; read.len()]?;
        for cuts in [Vec::new(alloc), ones] {
            let shown = run_by(alloc, &said, &[NOW], &read, cuts, RandomState::new(&rt)?)?;
            assert!(rt; shown.0 == wanted && shown.1 == end, "{most} of {input}");
        }
    }
    Ok(())
}

#[test]
fn other_words_are_bad(rt: HostRuntime) -> Result<(), Fail> {
    let alloc = rt.alloc();
    let rows: [&[&str]; 7] = [
        &[],
        &["run"],
        &["--turns"],
        &["--turns", "run"],
        &["run", "--turns", "--turns"],
        &["run", "--turn"],
        &["run", "--turns", "--items", "0"],
    ];
    for row in rows {
        let words = words(alloc, row)?;
        let input = Vec::from_slice(alloc, SAMPLE)?;
        let mut source = MemSource::new(input, Vec::new(alloc), Vec::new(alloc));
        let mut sink = MemSink::new(alloc, 1, Vec::new(alloc));
        let mut clock = MemClock::new(Vec::new(alloc));
        let status = top_in_turns(
            alloc,
            &words,
            &mut source,
            &mut sink,
            &mut clock,
            &FreeGate,
            RandomState::new(&rt)?,
        );
        assert_eq!(rt; status, Status::BadWords);
        assert!(rt; sink.bytes().is_empty());
        assert_eq!(rt; source.left().len(), SAMPLE.len());
    }
    Ok(())
}

/// A gate that counts what passes it, and notes whether each number is that of those before at its trustee, and the greatest
/// number of a trustee.
#[derive(Drop)]
struct Tally {
    passed: Cell<u64>,
    greatest: Cell<u32>,
    counts: Cell<[u64; 32]>,
    in_order: Cell<bool>,
}

impl Gate for Tally {
    fn at(&self, trustee: u32, number: u64) {
        let mut counts = self.counts.get();
        let mut in_order = false;
        if let Some(count) = counts.get_mut(trustee as usize) {
            in_order = *count == number;
            *count = number.saturating_add(1);
        }
        self.counts.set(counts);
        self.in_order.set(self.in_order.get() && in_order);
        self.greatest.set(self.greatest.get().max(trustee));
        self.passed.set(self.passed.get().saturating_add(1));
    }
}

// The clock is read once for each command, a `quit` too, and for no fault. Each request passes the gate of its trustee:
// one for each key, and for a `stats` or `flush_all` the launch and one for each of the 64 classes. Of n trustees the
// last one has the number n - 1, and a class.
#[test]
fn commands_read_the_clock_and_operations_pass_the_gate(rt: HostRuntime) -> Result<(), Fail> {
    let alloc = rt.alloc();
    for (count, greatest) in [("2", 1u32), ("5", 4), ("32", 31)] {
        let words = words(alloc, &["run", "--turns", "--trustees", count])?;
        let gate = Tally {
            passed: Cell::new(0),
            greatest: Cell::new(0),
            counts: Cell::new([0; 32]),
            in_order: Cell::new(true),
        };
        let input = text(
            alloc,
            "set a 0 0 1~x~foo~get a b c~version~verbosity 1 noreply~flush_all 0 noreply~stats~\
            delete a noreply~quit~get a~",
        )?;
        let mut source = MemSource::new(input, Vec::new(alloc), Vec::new(alloc));
        let mut sink = MemSink::new(alloc, 1 << 30, Vec::new(alloc));
        let mut clock = MemClock::new(vec![in alloc; 10, 11, 12, 13, 14, 15, 16, 17, 18, 19]?);
        let status = top_in_turns(
            alloc,
            &words,
            &mut source,
            &mut sink,
            &mut clock,
            &gate,
            RandomState::new(&rt)?,
        );
        assert_eq!(rt; status, Status::Ended);
        assert_eq!(rt; gate.passed.get(), 135, "of {count}");
        assert_eq!(rt; gate.greatest.get(), greatest, "of {count}");
        assert!(rt; gate.in_order.get(), "of {count}");
        assert_eq!(rt; clock.now(), 18);
    }
    Ok(())
}

/// A clock that does not tell its readings, which are 10, 11, 12 and so on.
#[derive(Drop)]
struct SilentClock {
    readings: u64,
}

impl Clock for SilentClock {
    ghost readings = { λ _. None };

    fn now(&mut self) -> u64 {
        self.readings = self.readings.saturating_add(1);
        self.readings.saturating_add(9)
    }
}

// A clock that does not tell its readings is read once for each command too, and that reading counts. Set at 10 for 3
// seconds, the item is there at 11 and gone at 13.
#[test]
fn each_command_reads_a_silent_clock_once(rt: HostRuntime) -> Result<(), Fail> {
    let alloc = rt.alloc();
    let words = words(alloc, &["run", "--turns"])?;
    let rows: [(&str, &str, u64); 6] = [
        ("set a 0 3 1~x~", "STORED~", 1),
        ("set a 0 3 1~x~get a b c~", "STORED~VALUE a 0 1~x~END~", 2),
        (
            "set a 0 3 1~x~get a b c~incr n 1~get a~",
            "STORED~VALUE a 0 1~x~END~NOT_FOUND~END~",
            4,
        ),
        (
            "set a 0 3 1~x~get a b c~incr n 1~get a~stats~flush_all 0 noreply~",
            "STORED~VALUE a 0 1~x~END~NOT_FOUND~END~STAT curr_items 0~STAT total_items 1~END~",
            6,
        ),
        ("foo~", "ERROR~", 0),
        (
            "version~verbosity 1 noreply~foo~quit~",
            "VERSION 1.0.0-trust~ERROR~",
            3,
        ),
    ];
    for (input, output, readings) in rows {
        let read = text(alloc, input)?;
        let mut source = MemSource::new(read, Vec::new(alloc), Vec::new(alloc));
        let mut sink = MemSink::new(alloc, 1 << 30, Vec::new(alloc));
        let mut clock = SilentClock { readings: 0 };
        let status = top_in_turns(
            alloc,
            &words,
            &mut source,
            &mut sink,
            &mut clock,
            &FreeGate,
            RandomState::new(&rt)?,
        );
        assert_eq!(rt; status, Status::Ended, "at {input}");
        assert!(rt;
            sink.bytes() == text(alloc, output)?.as_slice(),
            "at {input}"
        );
        assert_eq!(rt; clock.readings, readings, "at {input}");
    }
    Ok(())
}
