//! Kinds whose batches of requests fit in memory.
ghost use Rattle.std.specs.Mem.{FitsInMemory};
ghost use denote.Builtin.{unit};
ghost use Rattle.std.specs.contracts.option.Option.{the_row as option_row};
ghost use Rattle.std.specs.contracts.result.Result.{the_row as result_row};
ghost use Rattle.tm_batch.specs.contracts.batch.Batch.{the_row as batch_row};
ghost use Rattle.tm_pair.specs.contracts.table.Held.{the_row as held_row};
ghost use Rattle.tm_pair.specs.contracts.table.Collected.{the_row as collected_row};

use tm_batch::{Fits, FitsAnswers};

/// A kind whose batches, of requests and of answers, fit in memory, and so does what the calls of a
/// table give of them. All code that passes them on asks for it.
pub trait FitsBatches: FitsAnswers {
    /// A batch of requests has fewer than 2^63 bytes.
    ghost fits_batch: { FitsInMemory (batch_row Self.row Self.Op.row Self.Reply.row Self.Task.row) };

    /// So has what a publish gives.
    ghost fits_held: { FitsInMemory (result_row unit (held_row Self.row Self.Op.row Self.Reply.row Self.Task.row)) };

    /// So has what a look of the trustee gives.
    ghost fits_seen: { FitsInMemory (option_row (batch_row Self.row Self.Op.row Self.Reply.row Self.Task.row)) };

    /// So has what a client finds.
    ghost fits_found: { FitsInMemory (collected_row Self.row Self.Op.row Self.Reply.row Self.Task.row) };
}

impl<S: Fits> FitsBatches for S {
    ghost fits_batch = { S.fits_batch };

    ghost fits_held = { S.fits_held };

    ghost fits_seen = { S.fits_seen };

    ghost fits_found = { S.fits_found };
}
