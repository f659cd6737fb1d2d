//! A sink in memory whose bytes another thread reads.
ghost use Rattle.std.specs.Prelude.{◌≡◌, ℕ, ◌<◌, ◌≤◌, None, length, take, min, max, Contains, IsErr, IfOk, OnOk, OnErr};
ghost use Rattle.tm_base.specs.Causes.{HasCause};
ghost use Rattle.tm_base.specs.Visible.{Stays, Grows};
ghost use Rattle.tm_base.specs.Plan.{after_call, after_fault};

use crate::failed::Failed;
use crate::fault_plan::FaultPlan;
use crate::gathered::Gathered;
use crate::post::Post;
use crate::sink::Sink;
use std::alloc::{AllocError, Global};
use std::marker::Model;
use std::sync::{Arc, Mutex, Wait};

/// A sink that keeps the bytes in memory under a lock, as a [`MemSink`](crate::MemSink) keeps them without one: it takes
/// them in pieces as told, and fails at the calls that it was told, or where it finds no memory. It does not tell the
/// bytes written; its [`Post`] reads them.
#[derive(Drop)]
pub struct PostSink<R> {
    rt: R,
    most: usize,
    plan: FaultPlan,
    shared: Arc<Mutex<Gathered>, Global>,
}

impl<R> Model for PostSink<R> {
    ghost use Rattle.tm_base.specs.Memory.{PostState};

    ghost Value = { PostState };

    ghost view = { λ s. record { most = s.most; plan = s.plan; shared = s.shared } };
}

impl<R: Drop> PostSink<R> {
    /// An empty sink, and the post that reads it. A write takes at most the greater of `most` and 1 bytes. The calls
    /// with a number in `failing`, counted from 0, fail.
    pub fn new(
        alloc: Global,
        rt: R,
        most: usize,
        failing: Vec<u64>,
    ) -> Result<(PostSink<R>, Post), AllocError>
        ensures most { IfOk result (λ r. r.0.most ≡ most) }
        ensures plan { IfOk result (λ r. r.0.plan ≡ record { failing = failing.items; calls = 0; faults = 0 }) }
    {
        let shared = Arc::new(alloc, Mutex::new(Gathered::new(alloc)))?;
        let post = Post {
            shared: Arc::try_clone(&shared)?,
        };
        let sink = PostSink {
            rt,
            most,
            plan: FaultPlan::new(failing),
            shared,
        };
        Ok((sink, post))
    }
}

impl<R> PostSink<R> {
    /// The faults so far. The count stays at `u64::MAX`.
    pub fn faults(&self) -> u64
        ensures { result ≡ self.now.plan.faults }
    {
        self.plan.faults()
    }
}

impl<R: Wait> Sink for PostSink<R> {
    ghost written = { λ _. None };

    ghost faults = { λ s. s.plan.faults };

    /// It waits for the lock, except in a call that was told to fail. Its cost is that of the bytes taken, and of a
    /// search in the list of failing calls.
    fn write(&mut self, from: &[u8]) -> Result<usize, Failed>
        ensures bound { IfOk result (λ n. n ≤ length from.now) }
        ensures some { IfOk result (λ n. 0 < length from.now → 0 < n) }
        ensures bytes { IfOk result (λ n. Grows None None (take n from.now)) }
        ensures stays { OnErr result (Stays None None) }
        ensures cause { HasCause self.old.plan.faults self.new.plan.faults result }
        ensures no_fault { OnOk result (self.new.plan.faults ≡ self.old.plan.faults) }

        // What happens exactly. A call that fails and was not told to finds no memory.
        ensures fails { Contains self.old.plan.failing self.old.plan.calls → IsErr result }
        ensures count { IfOk result (λ n. n ≡ min (length from.now) (max self.old.most 1)) }
        ensures state { OnOk result (self.new ≡ record self.old { plan = after_call self.old.plan }) }
        ensures failed { OnErr result (self.new ≡ record self.old { plan = after_fault (after_call self.old.plan) }) }
    {
        if self.plan.fails_next() {
            return Err(Failed);
        }
        let count = from.len().min(self.most.max(1));
        let has_room = self.shared.lock(&self.rt).append(&from[..count]);
        if has_room {
            Ok(count)
        } else {
            self.plan.count_fault();
            Err(Failed)
        }
    }
}
