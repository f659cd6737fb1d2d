//! What the sinks in memory gather.
ghost use Rattle.std.specs.Prelude.{◌≡◌, [], ◌++◌};
ghost use Rattle.std.specs.Bool.{OnTrue, OnFalse};
ghost use Rattle.tm_base.specs.Causes.{one_fault_more};

use std::alloc::Global;

/// Bytes that a sink in memory gathered, and how often it found no memory for more.
#[derive(Debug, Drop)]
pub(crate) struct Gathered {
    pub(crate) bytes: Vec<u8>,
    pub(crate) lacked: u64,
}

impl Gathered {
    /// Nothing. It takes no memory.
    pub(crate) fn new(alloc: Global) -> Gathered
        ensures bytes { result.bytes.items ≡ [] }
        ensures lacked { result.lacked ≡ 0 }
    {
        Gathered {
            bytes: Vec::new(alloc),
            lacked: 0,
        }
    }

    /// Appends a piece and returns `true`, or finds no memory for it and counts that.
    pub(crate) fn append(&mut self, piece: &[u8]) -> bool
        ensures taken { OnTrue result (self.new.bytes.items ≡ self.old.bytes.items ++ piece.now) }
        ensures stays { OnFalse result (self.new.bytes.items ≡ self.old.bytes.items) }
        ensures had_memory { OnTrue result (self.new.lacked ≡ self.old.lacked) }
        ensures lacked { OnFalse result (self.new.lacked ≡ one_fault_more self.old.lacked) }
    {
        match self.bytes.extend_from_slice(piece) {
            Ok(()) => true,
            Err(_) => {
                self.lacked = self.lacked.saturating_add(1);
                false
            }
        }
    }
}
