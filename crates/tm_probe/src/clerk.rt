//! A clerk, the second kind, which stands beside a shelf.
ghost use Rattle.std.specs.Prelude.{◌≡◌, refl};
ghost use Rattle.std.proofs.Common.{lit<};
ghost use Rattle.tm_seq.specs.Kind.{IsRun, IsResume};
ghost use Rattle.tm_probe.specs.Clerks.{clerk_kind, clerk_next};
ghost use Rattle.tm_probe.specs.Laws.{clerk_laws};
ghost use Rattle.tm_probe.specs.declared.shelf.ShelfReply.TheVariants.{NotHere};

use crate::shelf::{Shelf, ShelfOp, ShelfReply};
use tm_batch::FitsBeside;
use tm_seq::{Beside, Entrusted, Event, Next};

/// Whoever counts the books of a trustee's shelves. It holds nothing.
#[derive(Drop)]
pub struct Clerk;

/// Launched work of a clerk: it asks the shelves from the last to the first, and is done with the
/// sum.
#[derive(Drop)]
pub struct ClerkTask {
    /// The number of the trustee that holds the shelves.
    pub trustee: u32,
    /// How many are still to be asked.
    pub shelves: u32,
    /// How many books were found so far.
    pub books: u64,
}

/// Asks the next shelf, or is done.
fn go_on(task: ClerkTask) -> Next<ShelfOp, ClerkTask, ShelfReply>
    ensures { result ≡ clerk_next task }
{
    if task.shelves == 0 {
        return Next::Done {
            reply: ShelfReply::Books(task.books),
        };
    }
    let index = task.shelves - 1;
    Next::Ask {
        trustee: task.trustee,
        index,
        op: ShelfOp::Count,
        task: ClerkTask {
            shelves: index,
            ..task
        },
    }
}

impl Entrusted for Clerk {
    type Op = ShelfOp;

    type Reply = ShelfReply;

    type Task = ClerkTask;

    ghost kind = { clerk_kind };

    ghost laws = { clerk_laws };

    // A clerk takes no memory, so it says more than its kind.
    fn run(&mut self, _op: ShelfOp) -> ShelfReply
        ensures lawful { IsRun clerk_kind self.old _op self.new result }
        ensures exact { (self.new, result) ≡ clerk_kind.step self.old _op }
    {
        ShelfReply::NotHere
    }

    fn resume(
        &mut self,
        task: ClerkTask,
        event: Event<ShelfReply>,
    ) -> Next<ShelfOp, ClerkTask, ShelfReply>
        ensures lawful { IsResume clerk_kind self.old task event self.new result }
        ensures exact { (self.new, result) ≡ clerk_kind.advance self.old task event }
    {
        match event {
            Event::Begin => go_on(task),
            Event::Reply(ShelfReply::Books(more)) => go_on(ClerkTask {
                books: task.books.saturating_add(more),
                ..task
            }),
            Event::Reply(reply) => Next::Done { reply },
            Event::NotAbove | Event::NoObject => Next::Done {
                reply: ShelfReply::NotHere,
            },
        }
    }

    fn left(task: &ClerkTask) -> u64 {
        u64::from(task.shelves)
    }

    fn no_memory() -> ShelfReply {
        ShelfReply::NoMemory
    }
}

impl Beside<Shelf> for Clerk {
    ghost other_side = { NotHere };

    ghost same_no_memory = { refl };

    fn other() -> ShelfReply {
        ShelfReply::NotHere
    }
}

impl FitsBeside<Shelf> for Clerk {
    ghost fits_beside = { lit< tt };

    ghost fits_batch_beside = { lit< tt };

    ghost fits_held_beside = { lit< tt };

    ghost fits_seen_beside = { lit< tt };

    ghost fits_found_beside = { lit< tt };

    ghost fits_place_beside = { lit< tt };

    ghost fits_move_beside = { lit< tt };

    ghost fits_content_beside = { lit< tt };
}
