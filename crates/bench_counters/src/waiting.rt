//! What a thread does that found nothing.

use std::{hint, thread};

/// After how many looks that found nothing a thread lets others run.
const SPINS: u32 = 256;

/// How often a thread has looked in vain since it last found something.
#[derive(Drop)]
pub(crate) struct Waiting {
    looks: u32,
}

impl Waiting {
    pub(crate) fn new() -> Waiting {
        Waiting { looks: 0 }
    }

    /// Lets a moment pass, and the threads that wait for a processor run from time to time.
    pub(crate) fn pause(&mut self) {
        self.looks = self.looks.wrapping_add(1);
        if self.looks % SPINS == 0 {
            thread::yield_now();
        } else {
            hint::spin_loop();
        }
    }
}
