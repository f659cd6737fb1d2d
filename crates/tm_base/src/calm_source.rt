//! A source in memory that never fails.
ghost use Rattle.std.specs.Prelude.{◌≡◌, ℕ, ◌<◌, ◌≤◌, ◌++◌, Some, length, take, drop, min, IsOk, IfOk, OnOk, OnErr};
ghost use Rattle.tm_base.specs.Causes.{HasCause};
ghost use Rattle.tm_base.specs.Visible.{Stays, Gives, IsEmptyWhereTold};

use crate::failed::Failed;
use crate::source::Source;
use std::marker::Model;

/// A source that gives bytes from memory, each read as many as there is room for. It never fails, and code that is
/// generic in its source can tell so by its count of faults, which is 0.
#[derive(Debug, Drop)]
pub struct CalmSource {
    bytes: Vec<u8>,
    // How many bytes were read.
    at: usize,
}

impl Model for CalmSource {
    ghost use Rattle.std.specs.Prelude.{ℕ, List, ◌≤◌, drop, vec_len};

    ghost Value = { List ℕ };

    ghost view = { λ s. drop s.at s.bytes.items };

    ghost invariant = { λ s. s.at ≤ vec_len s.bytes };
}

impl CalmSource {
    /// A source of these bytes. It takes no memory.
    pub fn new(bytes: Vec<u8>) -> CalmSource
        ensures { result ≡ bytes.items }
    {
        CalmSource { bytes, at: 0 }
    }

    /// The bytes still to come.
    pub fn left(&self) -> &[u8]
        ensures { result.now ≡ self.now }
    {
        &self.bytes[self.at..]
    }
}

impl Source for CalmSource {
    ghost left = { λ s. Some s };

    ghost faults = { λ _. 0 };

    /// Its cost is that of the bytes given.
    fn read(&mut self, into: &mut [u8]) -> Result<usize, Failed>
        ensures bound { IfOk result (λ n. n ≤ length into.new) }
        ensures bytes { IfOk result (λ n. Gives (Some self.old) (Some self.new) n into.new) }
        ensures end { IfOk result (λ n. n ≡ 0 → 0 < length into.old → IsEmptyWhereTold (Some self.old)) }
        ensures stays { OnErr result (Stays (Some self.old) (Some self.new)) }
        ensures cause { HasCause 0 0 result }
        ensures no_fault { OnOk result (◌≡◌ {A = ℕ} 0 0) }

        // What happens exactly.
        ensures never_fails { IsOk result }
        ensures count { IfOk result (λ n. n ≡ min (length into.old) (length self.old)) }
        ensures buffer { IfOk result (λ n. into.new ≡ take n self.old ++ drop n into.old) }
        ensures state { IfOk result (λ n. self.new ≡ drop n self.old) }
    {
        let rest = &self.bytes[self.at..];
        let count = into.len().min(rest.len());
        into[..count].copy_from_slice(&rest[..count]);
        self.at += count;
        Ok(count)
    }
}
