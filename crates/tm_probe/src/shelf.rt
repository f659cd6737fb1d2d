//! A shelf, the first kind.
ghost use Rattle.std.specs.Prelude.{◌≡◌};
ghost use Rattle.tm_seq.specs.Kind.{IsRun, IsResume};
ghost use Rattle.tm_probe.specs.Shelves.{shelf_kind};
ghost use Rattle.tm_probe.specs.Laws.{shelf_laws};

use tm_seq::{Entrusted, Event, Next};

/// A number of books.
#[derive(Drop)]
pub struct Shelf {
    /// How many there are.
    pub books: u32,
}

/// What may be asked of a shelf, and of a clerk.
#[derive(Drop)]
pub enum ShelfOp {
    /// Puts as many books there, in place of all that stood there.
    Put(u32),
    /// Answers the number of books.
    Count,
}

/// What a shelf answers, and a clerk.
#[derive(Drop)]
pub enum ShelfReply {
    /// So many books.
    Books(u64),
    /// Not here: no work is launched at a shelf, and no books stand with a clerk.
    NotHere,
    /// There was no memory.
    NoMemory,
}

/// Launched work on a shelf, of which there is none to be told.
#[derive(Drop)]
pub struct NoTask;

impl Entrusted for Shelf {
    type Op = ShelfOp;

    type Reply = ShelfReply;

    type Task = NoTask;

    ghost kind = { shelf_kind };

    ghost laws = { shelf_laws };

    // A shelf takes no memory, so it says more than its kind.
    fn run(&mut self, op: ShelfOp) -> ShelfReply
        ensures lawful { IsRun shelf_kind self.old op self.new result }
        ensures exact { (self.new, result) ≡ shelf_kind.step self.old op }
    {
        match op {
            ShelfOp::Put(books) => self.books = books,
            ShelfOp::Count => {}
        }
        ShelfReply::Books(u64::from(self.books))
    }

    fn resume(
        &mut self,
        task: NoTask,
        event: Event<ShelfReply>,
    ) -> Next<ShelfOp, NoTask, ShelfReply>
        ensures lawful { IsResume shelf_kind self.old task event self.new result }
        ensures exact { (self.new, result) ≡ shelf_kind.advance self.old task event }
    {
        let _ = (task, event);
        Next::Done {
            reply: ShelfReply::NotHere,
        }
    }

    fn left(_task: &NoTask) -> u64 {
        0
    }

    fn no_memory() -> ShelfReply {
        ShelfReply::NoMemory
    }
}
