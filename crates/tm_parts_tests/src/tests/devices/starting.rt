//! Work that is started, and that comes back.
ghost use Rattle.std.specs.Prelude.{◌≡◌, ◌+◌};

use std::thread::{Promise, Threads};
use tm_base::{NeverStarts, Spawner, ThreadSpawner};

// One more than this number.
#[derive(Clone, Copy)]
struct OneMore(u32);

impl Promise<u64> for OneMore {
    ghost kept_by = { λ promise given. given ≡ promise.0 + 1 };
}

fn one_more(number: u32) -> u64
    ensures { result ≡ number + 1 }
{
    u64::from(number) + 1
}

// One more than the number, and whether it was found on a thread of its own.
fn found<S: Spawner, R: Threads>(rt: &R, spawner: &mut S, number: u32) -> (bool, u64)
    ensures { result.1 ≡ number + 1 }
{
    match spawner.start(rt, OneMore(number), move || one_more(number)) {
        Ok(handle) => (true, handle.join(rt)),
        Err(work) => (false, work()),
    }
}

#[test]
fn work_runs_on_a_thread_of_its_own(rt: HostRuntime) {
    let mut spawner = ThreadSpawner::new();
    for number in [0, 6, u32::MAX] {
        assert_eq!(rt; found(&rt, &mut spawner, number), (true, one_more(number)));
    }
    assert_eq!(rt; spawner.faults(), 0);
}

#[test]
fn work_that_never_starts_comes_back(rt: HostRuntime) {
    let mut spawner = NeverStarts::new();
    for (faults, number) in [(1, 6), (2, 0)] {
        assert_eq!(rt; found(&rt, &mut spawner, number), (false, one_more(number)));
        assert_eq!(rt; spawner.faults(), faults);
    }
}
