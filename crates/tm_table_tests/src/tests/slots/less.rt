//! A kind for these tests.
ghost use Rattle.std.proofs.Common.{lit<};
ghost use Rattle.tm_seq.specs.Kind.{IsResume};
ghost use Rattle.tm_table_tests.specs.Sample.{less_kind, less_laws};

use tm_batch::Fits;
use tm_seq::{Entrusted, Event, Next};

/// A number that is taken away from each number that is asked. It launches nothing, and `0` is its
/// reply for want of memory.
#[derive(Drop)]
pub struct Less {
    pub by: u64,
}

impl Entrusted for Less {
    type Op = u64;

    type Reply = u64;

    type Task = u64;

    ghost kind = { less_kind (λ v. v.by) };

    ghost laws = { less_laws (λ v. v.by) };

    fn run(&mut self, number: u64) -> u64 {
        number.saturating_sub(self.by)
    }

    fn resume(&mut self, task: u64, event: Event<u64>) -> Next<u64, u64, u64>
        ensures { IsResume (less_kind (λ v. v.by)) self.old task event self.new result }
    {
        let _ = (task, event);
        Next::Done { reply: 0 }
    }

    fn left(_task: &u64) -> u64 {
        0
    }

    fn no_memory() -> u64 {
        0
    }
}

impl Fits for Less {
    ghost fits = { lit< tt };

    ghost fits_batch = { lit< tt };

    ghost fits_held = { lit< tt };

    ghost fits_seen = { lit< tt };

    ghost fits_found = { lit< tt };

    ghost fits_place = { lit< tt };

    ghost fits_move = { lit< tt };

    ghost fits_content = { lit< tt };
}
