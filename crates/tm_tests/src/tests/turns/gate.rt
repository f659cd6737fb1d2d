//! A gate that counts.

use std::cell::Cell;
use tm_base::Gate;

/// Counts what passes, and tells whether each comes with trustee 1 and its own number.
#[derive(Drop)]
pub(super) struct CountingGate {
    passed: Cell<u64>,
    in_order: Cell<bool>,
}

impl CountingGate {
    /// A gate that nothing passed.
    pub(super) fn new() -> CountingGate {
        CountingGate {
            passed: Cell::new(0),
            in_order: Cell::new(true),
        }
    }

    /// How many passed.
    pub(super) fn passed(&self) -> u64 {
        self.passed.get()
    }

    /// Whether all came in order.
    pub(super) fn is_in_order(&self) -> bool {
        self.in_order.get()
    }
}

impl Gate for CountingGate {
    fn at(&self, trustee: u32, number: u64) {
        self.in_order.set(self.in_order.get() && trustee == 1 && number == self.passed.get());
        self.passed.set(self.passed.get().saturating_add(1));
    }
}
