//! A sink over any writer of std.
ghost use Rattle.std.specs.Prelude.{◌≡◌, ℕ, ◌<◌, ◌≤◌, length, take, IfOk, OnOk, OnErr, IfSome, IfNone};
ghost use Rattle.tm_base.specs.Causes.{HasCause, one_fault_more};
ghost use Rattle.tm_base.specs.Visible.{Stays, Grows};

use crate::failed::Failed;
use crate::sink::Sink;
use std::io::{ErrorKind, Write};

/// A sink over a writer of std. It tells the bytes written where the writer does.
///
/// Over a writer with a buffer, as a `BufWriter`, a write may only fill the buffer. Such a sink is flushed before it
/// is let go, since a fault of the bytes left in the buffer is lost otherwise.
#[derive(Debug, Drop)]
pub struct StdSink<T> {
    writer: T,
    faults: u64,
}

impl<T> StdSink<T> {
    ghost use Rattle.tm_base.specs.StdEdge.{writer_of, sink_faults};

    /// A sink that writes to this writer, with no fault so far.
    pub fn new(writer: T) -> StdSink<T>
        ensures writer { writer_of result ≡ writer }
        ensures faults { sink_faults result ≡ 0 }
    {
        StdSink { writer, faults: 0 }
    }

    /// The faults so far. The count stays at `u64::MAX`.
    pub fn faults(&self) -> u64
        ensures { result ≡ sink_faults self.now }
    {
        self.faults
    }

    /// The writer back. It is not flushed.
    pub fn into_inner(self) -> T
        ensures { result ≡ writer_of self }
    {
        let StdSink { writer, faults: _ } = self;
        writer
    }
}

impl<T: Write> StdSink<T> {
    ghost use Rattle.tm_base.specs.StdEdge.{writer_of, sink_faults};

    /// Passes on what the writer keeps in a buffer. It is tried once, and a failure is a fault.
    pub fn flush(&mut self) -> Result<(), Failed>
        ensures stays { Stays (T.contents (writer_of self.old)) (T.contents (writer_of self.new)) }
        ensures cause { HasCause (sink_faults self.old) (sink_faults self.new) result }
        ensures no_fault { OnOk result (sink_faults self.new ≡ sink_faults self.old) }
        ensures one_fault { OnErr result (sink_faults self.new ≡ one_fault_more (sink_faults self.old)) }
    {
        match self.writer.flush() {
            Ok(()) => Ok(()),
            Err(_) => {
                self.faults = self.faults.saturating_add(1);
                Err(Failed)
            }
        }
    }
}

impl<T: Write> Sink for StdSink<T> {
    ghost use Rattle.tm_base.specs.StdEdge.{writer_of, sink_faults};

    ghost written = { λ s. T.contents (writer_of s) };

    ghost faults = { sink_faults };

    /// A write that a signal interrupts is tried again, as std's own helpers do, and is no fault. A writer that takes
    /// nothing of a piece that is not empty is one.
    fn write(&mut self, from: &[u8]) -> Result<usize, Failed>
        ensures bound { IfOk result (λ n. n ≤ length from.now) }
        ensures some { IfOk result (λ n. 0 < length from.now → 0 < n) }
        ensures bytes { IfOk result (λ n. Grows (T.contents (writer_of self.old)) (T.contents (writer_of self.new)) (take n from.now)) }
        ensures stays { OnErr result (Stays (T.contents (writer_of self.old)) (T.contents (writer_of self.new))) }
        ensures cause { HasCause (sink_faults self.old) (sink_faults self.new) result }
        ensures no_fault { OnOk result (sink_faults self.new ≡ sink_faults self.old) }

        // A call that fails counts one fault.
        ensures one_fault { OnErr result (sink_faults self.new ≡ one_fault_more (sink_faults self.old)) }
    {
        match write_retrying(&mut self.writer, from) {
            Some(count) => Ok(count),
            None => {
                self.faults = self.faults.saturating_add(1);
                Err(Failed)
            }
        }
    }
}

// One write, tried again where a signal interrupts it. `None` where it failed, or took nothing of a piece that is not
// empty.
fn write_retrying<T: Write>(writer: &mut T, from: &[u8]) -> Option<usize>
    ensures bound { IfSome result (λ n. n ≤ length from.now) }
    ensures some { IfSome result (λ n. 0 < length from.now → 0 < n) }
    ensures bytes { IfSome result (λ n. Grows (T.contents writer.old) (T.contents writer.new) (take n from.now)) }
    ensures stays { IfNone result (Stays (T.contents writer.old) (T.contents writer.new)) }
{
    for _ in 0..u64::MAX {
        match writer.write(from) {
            Ok(count) if count == 0 && !from.is_empty() => return None,
            Ok(count) => return Some(count),
            Err(error) if error.kind() == ErrorKind::Interrupted => {}
            Err(_) => return None,
        }
    }
    None
}
