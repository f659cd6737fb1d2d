//! A sink in memory.
ghost use Rattle.std.specs.Prelude.{◌≡◌, ◌⊎◌, ℕ, ◌<◌, ◌≤◌, ◌++◌, [], Some, length, take, Contains, IsErr, IfOk, OnOk, OnErr};
ghost use Rattle.tm_base.specs.Causes.{HasCause};
ghost use Rattle.tm_base.specs.Visible.{Stays, Grows};
ghost use Rattle.tm_base.specs.Memory.{taken_by, after_write, after_failure, after_lack};

use crate::failed::Failed;
use crate::fault_plan::FaultPlan;
use crate::gathered::Gathered;
use crate::sink::Sink;
use std::alloc::Global;
use std::marker::Model;

/// A sink that keeps the bytes in memory, takes them in pieces as told, and fails at the calls that it was told, or
/// where it finds no memory.
#[derive(Debug, Drop)]
pub struct MemSink {
    gathered: Gathered,
    most: usize,
    plan: FaultPlan,
}

impl Model for MemSink {
    ghost use Rattle.tm_base.specs.Memory.{SinkState};

    ghost Value = { SinkState };

    ghost view = { λ s. record { written = s.gathered.bytes.items; most = s.most; plan = s.plan; lacked = s.gathered.lacked } };
}

impl MemSink {
    /// An empty sink. A write takes at most the greater of `most` and 1 bytes. The calls with a number in `failing`,
    /// counted from 0, fail. It takes no memory.
    pub fn new(alloc: Global, most: usize, failing: Vec<u64>) -> MemSink
        ensures { result ≡ record {
          written = [];
          most = most;
          plan = record { failing = failing.items; calls = 0; faults = 0 };
          lacked = 0;
        } }
    {
        MemSink {
            gathered: Gathered::new(alloc),
            most,
            plan: FaultPlan::new(failing),
        }
    }

    /// The bytes written so far.
    pub fn bytes(&self) -> &[u8]
        ensures { result.now ≡ self.now.written }
    {
        &self.gathered.bytes
    }

    /// How many of the faults were for want of memory. The count stays at `u64::MAX`.
    pub fn lacked(&self) -> u64
        ensures { result ≡ self.now.lacked }
    {
        self.gathered.lacked
    }

    /// The faults so far. The count stays at `u64::MAX`.
    pub fn faults(&self) -> u64
        ensures { result ≡ self.now.plan.faults }
    {
        self.plan.faults()
    }
}

impl Sink for MemSink {
    ghost written = { λ s. Some s.written };

    ghost faults = { λ s. s.plan.faults };

    /// Its cost is that of the bytes taken, and of a search in the list of failing calls.
    fn write(&mut self, from: &[u8]) -> Result<usize, Failed>
        ensures bound { IfOk result (λ n. n ≤ length from.now) }
        ensures some { IfOk result (λ n. 0 < length from.now → 0 < n) }
        ensures bytes { IfOk result (λ n. Grows (Some self.old.written) (Some self.new.written) (take n from.now)) }
        ensures stays { OnErr result (Stays (Some self.old.written) (Some self.new.written)) }
        ensures cause { HasCause self.old.plan.faults self.new.plan.faults result }
        ensures no_fault { OnOk result (self.new.plan.faults ≡ self.old.plan.faults) }

        // What happens exactly. A call that fails and was not told to finds no memory.
        ensures fails { Contains self.old.plan.failing self.old.plan.calls → IsErr result }
        ensures count { IfOk result (λ n. n ≡ taken_by self.old (length from.now)) }
        ensures state { IfOk result (λ n. self.new ≡ after_write (take n from.now) self.old) }
        ensures failed { OnErr result (
            (Contains self.old.plan.failing self.old.plan.calls × (self.new ≡ after_failure self.old))
            ⊎ (¬ Contains self.old.plan.failing self.old.plan.calls × (self.new ≡ after_lack self.old))) }
    {
        if self.plan.fails_next() {
            return Err(Failed);
        }
        let count = from.len().min(self.most.max(1));
        if self.gathered.append(&from[..count]) {
            Ok(count)
        } else {
            self.plan.count_fault();
            Err(Failed)
        }
    }
}
