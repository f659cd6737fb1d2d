//! The devices on worked cases.

mod calm;
mod network;
mod over_std;
mod serving;
mod starting;

use std::alloc::{AllocError, Global};
use std::test::Fail;
use tm_base::{
    Clock, CountingGate, Failed, FreeGate, Gate, MemClock, MemSink, MemSource, Sink, Source,
    write_all,
};

// What a call answers: the bytes that it moved, or a failure.
type Answer = Result<&'static str, Failed>;

// A source and what its calls give, in order, to a buffer of this many bytes.
struct Reading {
    bytes: &'static str,
    cuts: &'static [usize],
    failing: &'static [u64],
    room: usize,
    answers: &'static [Answer],
    left: &'static str,
    faults: u64,
}

const READINGS: [Reading; 7] = [
    // No cut: as much as there is room for, and then the end.
    Reading {
        bytes: "hello",
        cuts: &[],
        failing: &[],
        room: 4,
        answers: &[Ok("hell"), Ok("o"), Ok(""), Ok("")],
        left: "",
        faults: 0,
    },
    // A cut holds for one read, and 0 counts as 1.
    Reading {
        bytes: "hello",
        cuts: &[2, 0],
        failing: &[],
        room: 4,
        answers: &[Ok("he"), Ok("l"), Ok("lo"), Ok("")],
        left: "",
        faults: 0,
    },
    // A cut above the room or the bytes left.
    Reading {
        bytes: "hello",
        cuts: &[9, 9],
        failing: &[],
        room: 3,
        answers: &[Ok("hel"), Ok("lo"), Ok("")],
        left: "",
        faults: 0,
    },
    // A call that fails gives nothing and uses up no cut.
    Reading {
        bytes: "abc",
        cuts: &[1, 2],
        failing: &[1],
        room: 8,
        answers: &[Ok("a"), Err(Failed), Ok("bc"), Ok("")],
        left: "",
        faults: 1,
    },
    // The list of failing calls has no order, and a number counts once.
    Reading {
        bytes: "ab",
        cuts: &[],
        failing: &[2, 0, 2],
        room: 1,
        answers: &[Err(Failed), Ok("a"), Err(Failed), Ok("b"), Ok("")],
        left: "",
        faults: 2,
    },
    // A buffer with no room is given nothing, and uses up a cut.
    Reading {
        bytes: "ab",
        cuts: &[1],
        failing: &[],
        room: 0,
        answers: &[Ok(""), Ok("")],
        left: "ab",
        faults: 0,
    },
    Reading {
        bytes: "",
        cuts: &[3],
        failing: &[0],
        room: 2,
        answers: &[Err(Failed), Ok(""), Ok("")],
        left: "",
        faults: 1,
    },
];

// Reads once through the bound, into a buffer of eight bytes at most.
fn read_some<S: Source>(
    alloc: Global,
    source: &mut S,
    room: usize,
) -> Result<Result<Vec<u8>, Failed>, AllocError> {
    let mut buffer = [b'?'; 8];
    let room = room.min(buffer.len());
    match source.read(&mut buffer[..room]) {
        Ok(count) => Ok(Ok(buffer[..count].to_vec(alloc)?)),
        Err(failed) => Ok(Err(failed)),
    }
}

fn is_text(bytes: &[u8], text: &str) -> bool {
    bytes == text.as_bytes()
}

fn is_answer(got: &Result<Vec<u8>, Failed>, want: &Answer) -> bool {
    match (got, want) {
        (Ok(bytes), Ok(text)) => is_text(bytes.as_slice(), text),
        (Err(_), Err(_)) => true,
        _ => false,
    }
}

// Reads the source of a case, and says whether all is as told.
fn is_read_as_told(alloc: Global, case: &Reading) -> Result<bool, AllocError> {
    let mut source = MemSource::new(
        case.bytes.as_bytes().to_vec(alloc)?,
        case.cuts.to_vec(alloc)?,
        case.failing.to_vec(alloc)?,
    );
    for want in case.answers {
        if !is_answer(&read_some(alloc, &mut source, case.room)?, want) {
            return Ok(false);
        }
    }
    Ok(source.faults() == case.faults && is_text(source.left(), case.left))
}

#[test]
fn a_source_is_cut_and_fails_as_told(rt: HostRuntime) -> Result<(), Fail> {
    for (number, case) in READINGS.iter().enumerate() {
        let is_right = is_read_as_told(rt.alloc(), case)?;
        assert!(rt; is_right, "case {number}");
    }
    Ok(())
}

// A sink, what `write_all` of each piece answers, and what is written in the end.
struct Writing {
    most: usize,
    failing: &'static [u64],
    pieces: &'static [(&'static str, bool)],
    written: &'static str,
    faults: u64,
}

const WRITINGS: [Writing; 5] = [
    Writing {
        most: 0,
        failing: &[],
        pieces: &[("ab", true), ("", true), ("c", true)],
        written: "abc",
        faults: 0,
    },
    Writing {
        most: 1,
        failing: &[3],
        pieces: &[("abc", true), ("de", false), ("f", true)],
        written: "abcf",
        faults: 1,
    },
    // The third call fails, after one byte of the second piece.
    Writing {
        most: 1,
        failing: &[2],
        pieces: &[("a", true), ("bcd", false), ("e", true)],
        written: "abe",
        faults: 1,
    },
    Writing {
        most: 3,
        failing: &[1],
        pieces: &[("abcdefg", false), ("hi", true)],
        written: "abchi",
        faults: 1,
    },
    Writing {
        most: 3,
        failing: &[0, 1],
        pieces: &[("a", false), ("b", false), ("cdef", true)],
        written: "cdef",
        faults: 2,
    },
];

// Writes the pieces of a case, and says whether all is as told.
fn is_written_as_told(alloc: Global, case: &Writing) -> Result<bool, AllocError> {
    let mut sink = MemSink::new(alloc, case.most, case.failing.to_vec(alloc)?);
    for (piece, is_whole) in case.pieces {
        if write_all(&mut sink, piece.as_bytes()).is_ok() != *is_whole {
            return Ok(false);
        }
    }
    Ok(sink.faults() == case.faults && sink.lacked() == 0 && is_text(sink.bytes(), case.written))
}

#[test]
fn a_sink_takes_pieces_and_fails_as_told(rt: HostRuntime) -> Result<(), Fail> {
    for (number, case) in WRITINGS.iter().enumerate() {
        let is_right = is_written_as_told(rt.alloc(), case)?;
        assert!(rt; is_right, "case {number}");
    }
    Ok(())
}

fn read_clock<W: Clock>(clock: &mut W) -> u64 {
    clock.now()
}

#[test]
fn a_clock_in_memory_repeats_its_last_reading(rt: HostRuntime) -> Result<(), Fail> {
    let alloc = rt.alloc();
    let mut clock = MemClock::new([7, 3].to_vec(alloc)?);
    for want in [7, 3, 3, 3] {
        assert_eq!(rt; read_clock(&mut clock), want);
    }
    let mut empty = MemClock::new(Vec::new(alloc));
    assert_eq!(rt; read_clock(&mut empty), 0);
    assert_eq!(rt; read_clock(&mut empty), 0);
    Ok(())
}

fn pass<G: Gate>(gate: &G, trustee: u32, number: u64) {
    gate.at(trustee, number)
}

#[test]
fn gates_are_passed(rt: HostRuntime) {
    pass(&FreeGate, 3, 7);
    let gate = CountingGate::new(3);
    assert!(rt; gate.passed() == 0 && gate.is_in_order());
    pass(&gate, 3, 0);
    pass(&gate, 3, 1);
    assert!(rt; gate.passed() == 2 && gate.is_in_order());
    pass(&gate, 3, 1);
    pass(&gate, 3, 3);
    assert!(rt; gate.passed() == 4 && !gate.is_in_order());
    let other = CountingGate::new(3);
    pass(&other, 2, 0);
    assert!(rt; other.passed() == 1 && !other.is_in_order());
}

fn moves<T: Send>(value: T) -> T {
    value
}

#[test]
fn devices_move_between_threads(rt: HostRuntime) {
    let alloc = rt.alloc();
    let _ = moves(MemSource::new(Vec::new(alloc), Vec::new(alloc), Vec::new(alloc)));
    let _ = moves(MemSink::new(alloc, 1, Vec::new(alloc)));
    let _ = moves(MemClock::new(Vec::new(alloc)));
    let _ = moves(FreeGate);
}
