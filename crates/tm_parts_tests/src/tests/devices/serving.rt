//! Links that a listener in memory hands out, each served on a thread of its own, and read afterwards by its post.
ghost use Rattle.std.specs.Prelude.{⊤};

use super::is_text;
use std::alloc::{AllocError, Global};
use std::sync::Wait;
use std::test::Fail;
use std::thread::{Promise, Threads};
use tm_base::{
    Clock, Failed, Link, Listener, MemClock, MemLink, MemListener, MemSource, Post, PostSink, Sink,
    Source, Spawner, ThreadSpawner, write_all,
};

// A promise of nothing.
#[derive(Clone, Copy)]
struct Anything;

impl Promise<bool> for Anything {
    ghost kept_by = { λ _ _. ⊤ };
}

// A link of this input, whose sink takes two bytes at a time and fails at these calls, and its post.
fn link<R: Drop>(
    alloc: Global,
    rt: R,
    input: &str,
    failing: &[u64],
) -> Result<(MemLink<R>, Post), AllocError> {
    let (sink, post) = PostSink::new(alloc, rt, 2, failing.to_vec(alloc)?)?;
    let link = Link {
        source: MemSource::new(
            input.as_bytes().to_vec(alloc)?,
            Vec::new(alloc),
            Vec::new(alloc),
        ),
        sink,
        clock: MemClock::new([b'0'.into()].to_vec(alloc)?),
    };
    Ok((link, post))
}

// Writes what one read gives, and then the reading of the clock, as a byte.
fn echo<I: Source + Drop, O: Sink + Drop, W: Clock + Drop>(
    link: Link<I, O, W>,
) -> Result<(), Failed> {
    let Link {
        mut source,
        mut sink,
        mut clock,
    } = link;
    let mut buffer = [0; 8];
    let count = source.read(&mut buffer)?;
    write_all(&mut sink, &buffer[..count])?;
    write_all(&mut sink, &[clock.now().to_le_bytes()[0]])
}

// Serves a link on a thread of its own, or here where none can be had. Whether all was written.
fn serve_link<
    I: Source + Send + Drop + 'static,
    O: Sink + Send + Drop + 'static,
    W: Clock + Send + Drop + 'static,
    S: Spawner,
    R: Threads,
>(rt: &R, spawner: &mut S, link: Link<I, O, W>) -> bool {
    match spawner.start(rt, Anything, move || echo(link).is_ok()) {
        Ok(handle) => handle.join(rt),
        Err(work) => work(),
    }
}

// Binds the listener and serves as many links as it gives. How many, and how many of those were written whole.
fn serve<L: Listener, S: Spawner, R: Threads + Wait>(
    rt: &R,
    listener: &mut L,
    spawner: &mut S,
) -> Result<(u64, u64), Failed> {
    listener.bind(7_000)?;
    let (mut served, mut whole) = (0u64, 0u64);
    for _ in 0..9 {
        let Ok(link) = listener.accept(rt) else {
            break;
        };
        served = served.saturating_add(1);
        let done = serve_link(rt, spawner, link);
        whole = whole.saturating_add(u64::from(done));
    }
    Ok((served, whole))
}

// What a listener of two links does, whose calls with these numbers fail: what `serve` answers, its faults and links
// handed out in the end, and what is written to each link.
struct Serving {
    failing: &'static [u64],
    answer: Result<(u64, u64), Failed>,
    faults: u64,
    accepted: u64,
    written: [&'static str; 2],
}

// The second link's sink fails at its second write, after two bytes.
const SERVINGS: [Serving; 4] = [
    // Past the last link `accept` fails.
    Serving {
        failing: &[],
        answer: Ok((2, 1)),
        faults: 1,
        accepted: 2,
        written: ["hello0", "wo"],
    },
    // `bind` is call 0.
    Serving {
        failing: &[0],
        answer: Err(Failed),
        faults: 1,
        accepted: 0,
        written: ["", ""],
    },
    Serving {
        failing: &[1],
        answer: Ok((0, 0)),
        faults: 1,
        accepted: 0,
        written: ["", ""],
    },
    Serving {
        failing: &[2],
        answer: Ok((1, 1)),
        faults: 1,
        accepted: 1,
        written: ["hello0", ""],
    },
];

#[test]
fn links_are_served_by_threads_as_told(rt: HostRuntime) -> Result<(), Fail> {
    let alloc = rt.alloc();
    for (number, case) in SERVINGS.iter().enumerate() {
        let (first, hello) = link(alloc, rt, "hello", &[])?;
        let (second, world) = link(alloc, rt, "world", &[1])?;
        let links = vec![in alloc; first, second]?;
        let mut listener = MemListener::new(links, case.failing.to_vec(alloc)?);
        let mut spawner = ThreadSpawner::new();
        let answer = serve(&rt, &mut listener, &mut spawner);
        assert_eq!(rt; answer, case.answer, "case {number}");
        assert_eq!(rt; listener.faults(), case.faults, "case {number}");
        assert_eq!(rt; listener.accepted(), case.accepted, "case {number}");
        for (post, want) in [hello, world].iter().zip(case.written.iter()) {
            let bytes = post.bytes(&rt)?;
            assert!(rt; is_text(bytes.as_slice(), want), "case {number}: {bytes:?}");
            assert_eq!(rt; post.lacked(&rt), 0, "case {number}");
        }
    }
    Ok(())
}

#[test]
fn a_failed_accept_leaves_the_link(rt: HostRuntime) -> Result<(), Fail> {
    let alloc = rt.alloc();
    let (only, _) = link(alloc, rt, "only", &[])?;
    let links = vec![in alloc; only]?;
    let mut listener = MemListener::new(links, [1].to_vec(alloc)?);
    assert_eq!(rt; listener.bind(0), Ok(0));
    assert!(rt; listener.accept(&rt).is_err());
    assert!(rt; listener.accept(&rt).is_ok());
    assert!(rt; listener.accept(&rt).is_err());
    assert!(rt; listener.accepted() == 1 && listener.faults() == 2);
    Ok(())
}

#[test]
fn a_posted_sink_counts_its_faults(rt: HostRuntime) -> Result<(), Fail> {
    let alloc = rt.alloc();
    let (mut sink, post) = PostSink::new(alloc, rt, 0, [1, 3].to_vec(alloc)?)?;
    for want in [Ok(1), Err(Failed), Ok(1), Err(Failed), Ok(1)] {
        assert_eq!(rt; sink.write(b"ab"), want);
    }
    assert_eq!(rt; sink.write(b""), Ok(0));
    assert_eq!(rt; sink.faults(), 2);
    assert!(rt; is_text(post.bytes(&rt)?.as_slice(), "aaa"));
    Ok(())
}
