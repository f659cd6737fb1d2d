//! The gate that counts.
use crate::gate::Gate;
use std::cell::Cell;

/// The gate that stands open and counts what passes it, for tests. It notes whether each pass was in order: by the one
/// trustee that it expects, which had run as many requests before as have passed. No contract speaks of what it counts.
#[derive(Drop)]
pub struct CountingGate {
    trustee: u32,
    passed: Cell<u64>,
    in_order: Cell<bool>,
}

impl CountingGate {
    /// A gate that nothing has passed, and that expects the trustee of this number.
    pub fn new(trustee: u32) -> CountingGate {
        CountingGate {
            trustee,
            passed: Cell::new(0),
            in_order: Cell::new(true),
        }
    }

    /// How many passed. The count stays at `u64::MAX`.
    pub fn passed(&self) -> u64 {
        self.passed.get()
    }

    /// Whether all came in order.
    pub fn is_in_order(&self) -> bool {
        self.in_order.get()
    }
}

impl Gate for CountingGate {
    fn at(&self, trustee: u32, number: u64) {
        let passed = self.passed.get();
        let in_order = trustee == self.trustee && number == passed;
        self.in_order.set(self.in_order.get() && in_order);
        self.passed.set(passed.saturating_add(1));
    }
}
