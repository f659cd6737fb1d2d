//! A source over any reader of std.
ghost use Rattle.std.specs.Prelude.{◌≡◌, ℕ, ◌<◌, ◌≤◌, length, IfOk, OnOk, OnErr, IfSome, IfNone};
ghost use Rattle.tm_base.specs.Causes.{HasCause, one_fault_more};
ghost use Rattle.tm_base.specs.Visible.{Stays, Gives, IsEmptyWhereTold};

use crate::failed::Failed;
use crate::source::Source;
use std::io::{ErrorKind, Read};

/// A source over a reader of std. It tells the bytes still to come where the reader does.
#[derive(Debug, Drop)]
pub struct StdSource<R> {
    reader: R,
    faults: u64,
}

impl<R> StdSource<R> {
    ghost use Rattle.tm_base.specs.StdEdge.{reader_of, source_faults};

    /// A source that reads from this reader, with no fault so far.
    pub fn new(reader: R) -> StdSource<R>
        ensures reader { reader_of result ≡ reader }
        ensures faults { source_faults result ≡ 0 }
    {
        StdSource { reader, faults: 0 }
    }

    /// The faults so far. The count stays at `u64::MAX`.
    pub fn faults(&self) -> u64
        ensures { result ≡ source_faults self.now }
    {
        self.faults
    }

    /// The reader back.
    pub fn into_inner(self) -> R
        ensures { result ≡ reader_of self }
    {
        let StdSource { reader, faults: _ } = self;
        reader
    }
}

impl<R: Read> Source for StdSource<R> {
    ghost use Rattle.tm_base.specs.StdEdge.{reader_of, source_faults};

    ghost left = { λ s. R.remaining (reader_of s) };

    ghost faults = { source_faults };

    /// A read that a signal interrupts is tried again, as std's own helpers do, and is no fault.
    fn read(&mut self, into: &mut [u8]) -> Result<usize, Failed>
        ensures bound { IfOk result (λ n. n ≤ length into.new) }
        ensures bytes { IfOk result (λ n. Gives (R.remaining (reader_of self.old)) (R.remaining (reader_of self.new)) n into.new) }
        ensures end { IfOk result (λ n. n ≡ 0 → 0 < length into.old → IsEmptyWhereTold (R.remaining (reader_of self.old))) }
        ensures stays { OnErr result (Stays (R.remaining (reader_of self.old)) (R.remaining (reader_of self.new))) }
        ensures cause { HasCause (source_faults self.old) (source_faults self.new) result }
        ensures no_fault { OnOk result (source_faults self.new ≡ source_faults self.old) }

        // A call that fails counts one fault.
        ensures one_fault { OnErr result (source_faults self.new ≡ one_fault_more (source_faults self.old)) }
    {
        match read_retrying(&mut self.reader, into) {
            Some(count) => Ok(count),
            None => {
                self.faults = self.faults.saturating_add(1);
                Err(Failed)
            }
        }
    }
}

// One read, tried again where a signal interrupts it. `None` where it failed.
fn read_retrying<R: Read>(reader: &mut R, into: &mut [u8]) -> Option<usize>
    ensures bound { IfSome result (λ n. n ≤ length into.new) }
    ensures bytes { IfSome result (λ n. Gives (R.remaining reader.old) (R.remaining reader.new) n into.new) }
    ensures end { IfSome result (λ n. n ≡ 0 → 0 < length into.old → IsEmptyWhereTold (R.remaining reader.old)) }
    ensures stays { IfNone result (Stays (R.remaining reader.old) (R.remaining reader.new)) }
{
    for _ in 0..u64::MAX {
        match reader.read(into) {
            Ok(count) => return Some(count),
            Err(error) if error.kind() == ErrorKind::Interrupted => {}
            Err(_) => return None,
        }
    }
    None
}
