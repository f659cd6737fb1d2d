//! A source in memory.
ghost use Rattle.std.specs.Prelude.{◌≡◌, ◌↔◌, ℕ, ◌<◌, ◌≤◌, ◌++◌, Some, length, take, drop, Contains, IsErr, IfOk, OnOk, OnErr};
ghost use Rattle.tm_base.specs.Causes.{HasCause};
ghost use Rattle.tm_base.specs.Visible.{Stays, Gives, IsEmptyWhereTold};
ghost use Rattle.tm_base.specs.Plan.{after_call, after_fault};
ghost use Rattle.tm_base.specs.Memory.{given_by, within_cut, after_read};

use crate::failed::Failed;
use crate::fault_plan::FaultPlan;
use crate::source::Source;
use std::marker::Model;

/// A source that gives bytes from memory, in pieces as told, and fails at the calls that it was told.
#[derive(Debug, Drop)]
pub struct MemSource {
    bytes: Vec<u8>,
    // How many bytes were read.
    at: usize,
    cuts: Vec<usize>,
    // How many cuts were used.
    used: usize,
    plan: FaultPlan,
}

impl Model for MemSource {
    ghost use Rattle.std.specs.Prelude.{◌≤◌, drop, vec_len};
    ghost use Rattle.tm_base.specs.Memory.{SourceState};

    ghost Value = { SourceState };

    ghost view = { λ s. record { left = drop s.at s.bytes.items; cuts = drop s.used s.cuts.items; plan = s.plan } };

    ghost invariant = { λ s. (s.at ≤ vec_len s.bytes) × (s.used ≤ vec_len s.cuts) };
}

impl MemSource {
    /// A source of these bytes. Its k-th read that succeeds gives at most the greater of `cuts[k]` and 1, and past
    /// the list as many as there is room for. Its calls with a number in `failing`, counted from 0, fail. It takes no
    /// memory.
    pub fn new(bytes: Vec<u8>, cuts: Vec<usize>, failing: Vec<u64>) -> MemSource
        ensures { result ≡ record {
          left = bytes.items;
          cuts = cuts.items;
          plan = record { failing = failing.items; calls = 0; faults = 0 };
        } }
    {
        MemSource {
            bytes,
            at: 0,
            cuts,
            used: 0,
            plan: FaultPlan::new(failing),
        }
    }

    /// The bytes still to come.
    pub fn left(&self) -> &[u8]
        ensures { result.now ≡ self.now.left }
    {
        &self.bytes[self.at..]
    }

    /// The faults so far. The count stays at `u64::MAX`.
    pub fn faults(&self) -> u64
        ensures { result ≡ self.now.plan.faults }
    {
        self.plan.faults()
    }
}

impl Source for MemSource {
    ghost left = { λ s. Some s.left };

    ghost faults = { λ s. s.plan.faults };

    /// Its cost is that of the bytes given, and of a search in the list of failing calls.
    fn read(&mut self, into: &mut [u8]) -> Result<usize, Failed>
        ensures bound { IfOk result (λ n. n ≤ length into.new) }
        ensures bytes { IfOk result (λ n. Gives (Some self.old.left) (Some self.new.left) n into.new) }
        ensures end { IfOk result (λ n. n ≡ 0 → 0 < length into.old → IsEmptyWhereTold (Some self.old.left)) }
        ensures stays { OnErr result (Stays (Some self.old.left) (Some self.new.left)) }
        ensures cause { HasCause self.old.plan.faults self.new.plan.faults result }
        ensures no_fault { OnOk result (self.new.plan.faults ≡ self.old.plan.faults) }

        // What happens exactly.
        ensures fails { IsErr result ↔ Contains self.old.plan.failing self.old.plan.calls }
        ensures count { IfOk result (λ n. n ≡ given_by self.old (length into.old)) }
        ensures buffer { IfOk result (λ n. into.new ≡ take n self.old.left ++ drop n into.old) }
        ensures state { IfOk result (λ n. self.new ≡ after_read n self.old) }
        ensures buffer_stays { OnErr result (into.new ≡ into.old) }
        ensures failed { OnErr result (self.new ≡ record self.old { plan = after_fault (after_call self.old.plan) }) }
    {
        if self.plan.fails_next() {
            return Err(Failed);
        }
        let rest = &self.bytes[self.at..];
        let count = cut_to(&self.cuts[self.used..], into.len().min(rest.len()));
        into[..count].copy_from_slice(&rest[..count]);
        self.at += count;
        self.used = self.used.saturating_add(1).min(self.cuts.len());
        Ok(count)
    }
}

// Of this much room, what the first cut leaves.
fn cut_to(cuts: &[usize], room: usize) -> usize
    ensures { result ≡ within_cut cuts.now room }
{
    match cuts {
        [] => room,
        [cut, ..] => room.min((*cut).max(1)),
    }
}
