//! The devices over std, and what they do where std fails.
ghost use Rattle.std.specs.Prelude.{◌≤◌, IfOk};

use super::{is_answer, read_clock, read_some};
use std::cell::Cell;
use std::test::Fail;
use std::time::{Duration, SystemTime, UNIX_EPOCH};
use std::{io, rt};
use tm_base::{Failed, Sink, Source, StdSink, StdSource, SystemClock, write_all};

// The whole seconds since 1970 that std tells.
fn seconds_now<C: rt::Clock>(clock: &C) -> Result<u64, Fail> {
    Ok(
        SystemTime::now(clock)?
            .duration_since(UNIX_EPOCH)?
            .as_secs(),
    )
}

#[test]
fn the_system_clock_tells_the_seconds_of_std(rt: HostRuntime) -> Result<(), Fail> {
    let mut clock = SystemClock::new(&rt);
    for _ in 0..3 {
        let before = seconds_now(&rt)?;
        let now = read_clock(&mut clock);
        let after = seconds_now(&rt)?;
        assert!(rt; before <= now && now <= after, "{before} {now} {after}");
    }
    Ok(())
}

// A clock of std that tells these times since 1970, in milliseconds, and fails where there is none.
#[derive(Drop)]
struct Fitful {
    milliseconds: [Option<u64>; 6],
    at: Cell<usize>,
}

impl rt::Clock for Fitful {
    fn monotonic(&self) -> io::Result<Duration> {
        Ok(Duration::from_millis(0))
    }

    fn since_1970(&self) -> io::Result<Duration> {
        let at = self.at.get();
        self.at.set(at.saturating_add(1));
        match self.milliseconds.get(at) {
            Some(Some(time)) => Ok(Duration::from_millis(*time)),
            _ => Err(io::Error::new(io::ErrorKind::Other, "it stands still")),
        }
    }
}

#[test]
fn a_clock_that_fails_repeats_its_last_good_reading(rt: HostRuntime) {
    let fitful = Fitful {
        milliseconds: [None, Some(1_999), None, Some(7_000), Some(5_500), None],
        at: Cell::new(0),
    };
    let mut clock = SystemClock::new(&fitful);
    for want in [0, 1, 1, 7, 5, 5, 5] {
        assert_eq!(rt; read_clock(&mut clock), want);
    }
    assert_eq!(rt; fitful.at.get(), 7, "each reading reads the clock");
}

#[test]
fn devices_over_std_pass_bytes_on(rt: HostRuntime) -> Result<(), Fail> {
    let alloc = rt.alloc();
    let mut source = StdSource::new("hello".as_bytes());
    for want in ["hel", "lo", "", ""] {
        let got = read_some(alloc, &mut source, 3)?;
        assert!(rt; is_answer(&got, &Ok(want)), "{got:?} in place of {want}");
    }
    assert_eq!(rt; source.faults(), 0);
    assert!(rt; source.into_inner().is_empty());

    let mut sink = StdSink::new(Vec::new(alloc));
    // One write takes as much as the writer does.
    assert_eq!(rt; sink.write(b"hello"), Ok(5));
    assert!(rt; write_all(&mut sink, b"").is_ok());
    assert!(rt; sink.flush().is_ok());
    assert_eq!(rt; sink.faults(), 0);
    assert_eq!(rt; sink.into_inner().as_slice(), b"hello".as_slice());

    // A writer with room for two bytes takes nothing more, which is a fault.
    let mut room = [0; 2];
    let mut full = StdSink::new(io::Cursor::new(&mut room[..]));
    assert_eq!(rt; write_all(&mut full, b"abc"), Err(Failed));
    assert_eq!(rt; full.faults(), 1);
    assert_eq!(rt; full.write(b""), Ok(0));
    let _ = full.into_inner();
    assert_eq!(rt; room, [b'a', b'b']);
    Ok(())
}

// A device of std that is interrupted three times in a row, moves a byte, is interrupted, breaks, and moves a byte, over and
// over.
#[derive(Drop)]
struct Shaky {
    calls: u8,
}

impl Shaky {
    fn answer(&mut self, room: usize) -> io::Result<usize>
        ensures { IfOk result (λ n. n ≤ room) }
    {
        let call = self.calls % 7;
        self.calls = call + 1;
        match call {
            3 | 6 => Ok(room.min(1)),
            5 => Err(io::Error::new(io::ErrorKind::Other, "it broke")),
            _ => Err(io::Error::new(io::ErrorKind::Interrupted, "a signal came")),
        }
    }
}

impl io::Read for Shaky {
    fn read(&mut self, buf: &mut [u8]) -> io::Result<usize> {
        self.answer(buf.len())
    }
}

impl io::Write for Shaky {
    fn write(&mut self, buf: &[u8]) -> io::Result<usize> {
        self.answer(buf.len())
    }

    fn flush(&mut self) -> io::Result<()> {
        self.answer(0)?;
        Ok(())
    }
}

#[test]
fn an_interrupted_call_is_no_fault_and_a_broken_one_is(rt: HostRuntime) {
    let mut source = StdSource::new(Shaky { calls: 0 });
    let mut buffer = [0; 3];
    for want in [Ok(1), Err(Failed), Ok(1), Ok(1), Err(Failed)] {
        assert_eq!(rt; source.read(&mut buffer), want);
    }
    assert_eq!(rt; source.faults(), 2);

    let mut sink = StdSink::new(Shaky { calls: 0 });
    for want in [Ok(1), Err(Failed), Ok(1), Ok(1), Err(Failed)] {
        assert_eq!(rt; sink.write(b"abc"), want);
    }
    assert_eq!(rt; sink.faults(), 2);

    // A flush is tried once, so an interrupt is a fault of it.
    let mut sink = StdSink::new(Shaky { calls: 2 });
    assert_eq!(rt; sink.flush(), Err(Failed));
    assert_eq!(rt; sink.flush(), Ok(()));
    assert_eq!(rt; sink.faults(), 1);
}

#[test]
fn a_flush_empties_the_buffer(rt: HostRuntime) -> Result<(), Fail> {
    let alloc = rt.alloc();
    let mut sink = StdSink::new(io::BufWriter::new(alloc, Vec::new(alloc))?);
    assert_eq!(rt; write_all(&mut sink, b"hello"), Ok(()));
    assert_eq!(rt; sink.flush(), Ok(()));
    assert_eq!(rt; sink.into_inner().get_ref().as_slice(), b"hello".as_slice());
    Ok(())
}
