//! Kinds whose batches fit in memory, and so do the slots of a table that hold them.
ghost use Rattle.std.specs.Mem.{FitsInMemory};
ghost use Rattle.std.proofs.Common.{lit<};
ghost use denote.Builtin.{unit};
ghost use Rattle.std.specs.contracts.option.Option.{the_row as option_row};
ghost use Rattle.std.specs.contracts.result.Result.{the_row as result_row};
ghost use Rattle.tm_batch.specs.contracts.message.AnswerBatch.{the_row as answers_row};
ghost use Rattle.tm_batch.specs.contracts.batch.Batch.{the_row as batch_row};
ghost use Rattle.tm_batch.specs.contracts.slots.HeldShape.{the_row as held_row};
ghost use Rattle.tm_batch.specs.contracts.slots.FoundShape.{the_row as found_row};
ghost use Rattle.tm_batch.specs.contracts.slots.PlaceShape.{the_row as place_row};
ghost use Rattle.tm_batch.specs.contracts.slots.MoveShape.{the_row as move_row};
ghost use Rattle.tm_batch.specs.contracts.slots.SharedShape.{the_row as shared_row};
ghost use Rattle.tm_seq.specs.contracts.sum.Sum.{the_row as sum_row};

use tm_seq::{Beside, Counter, Entrusted, Sum};

/// A kind whose batches and slots fit in memory: each of these has fewer than 2^63 bytes.
///
/// This is the one trait that a kind implements, each member by `lit< tt`, since sizes are computed.
/// What generic code asks for, as [`FitsAnswers`], follows from it.
pub trait Fits: Entrusted {
    /// An answer batch.
    ghost fits: { FitsInMemory (answers_row Self.row Self.Op.row Self.Reply.row Self.Task.row) };

    /// A batch of requests.
    ghost fits_batch: { FitsInMemory (batch_row Self.row Self.Op.row Self.Reply.row Self.Task.row) };

    /// What a publish gives.
    ghost fits_held: { FitsInMemory (result_row unit (held_row Self.row Self.Op.row Self.Reply.row Self.Task.row)) };

    /// What a look of the trustee gives.
    ghost fits_seen: { FitsInMemory (option_row (batch_row Self.row Self.Op.row Self.Reply.row Self.Task.row)) };

    /// What a client finds.
    ghost fits_found: { FitsInMemory (found_row Self.row Self.Op.row Self.Reply.row Self.Task.row) };

    /// A place of a table in one thread.
    ghost fits_place: { FitsInMemory (place_row Self.row Self.Op.row Self.Reply.row Self.Task.row) };

    /// A call at a table, of which contracts speak.
    ghost fits_move: { FitsInMemory (move_row Self.row Self.Op.row Self.Reply.row Self.Task.row) };

    /// A slot of a table for many threads.
    ghost fits_content: { FitsInMemory (shared_row Self.row Self.Op.row Self.Reply.row Self.Task.row) };
}

impl Fits for Counter {
    ghost fits = { lit< tt };

    ghost fits_batch = { lit< tt };

    ghost fits_held = { lit< tt };

    ghost fits_seen = { lit< tt };

    ghost fits_found = { lit< tt };

    ghost fits_place = { lit< tt };

    ghost fits_move = { lit< tt };

    ghost fits_content = { lit< tt };
}

/// A kind that fits in memory in a sum after `A`: [`Fits`] of `Sum<A, Self>` follows.
///
/// It stands for an impl at the sum itself, which the crate of the second kind may not write, since
/// neither the trait nor the sum is its own.
pub trait FitsBeside<A: Entrusted>: Beside<A> {
    /// An answer batch.
    ghost fits_beside: { FitsInMemory (answers_row (sum_row A.row Self.row) A.Op.row A.Reply.row (sum_row A.Task.row Self.Task.row)) };

    /// A batch of requests.
    ghost fits_batch_beside: { FitsInMemory (batch_row (sum_row A.row Self.row) A.Op.row A.Reply.row (sum_row A.Task.row Self.Task.row)) };

    /// What a publish gives.
    ghost fits_held_beside: { FitsInMemory (result_row unit (held_row (sum_row A.row Self.row) A.Op.row A.Reply.row (sum_row A.Task.row Self.Task.row))) };

    /// What a look of the trustee gives.
    ghost fits_seen_beside: { FitsInMemory (option_row (batch_row (sum_row A.row Self.row) A.Op.row A.Reply.row (sum_row A.Task.row Self.Task.row))) };

    /// What a client finds.
    ghost fits_found_beside: { FitsInMemory (found_row (sum_row A.row Self.row) A.Op.row A.Reply.row (sum_row A.Task.row Self.Task.row)) };

    /// A place of a table in one thread.
    ghost fits_place_beside: { FitsInMemory (place_row (sum_row A.row Self.row) A.Op.row A.Reply.row (sum_row A.Task.row Self.Task.row)) };

    /// A call at a table, of which contracts speak.
    ghost fits_move_beside: { FitsInMemory (move_row (sum_row A.row Self.row) A.Op.row A.Reply.row (sum_row A.Task.row Self.Task.row)) };

    /// A slot of a table for many threads.
    ghost fits_content_beside: { FitsInMemory (shared_row (sum_row A.row Self.row) A.Op.row A.Reply.row (sum_row A.Task.row Self.Task.row)) };
}

impl FitsBeside<Counter> for Counter {
    ghost fits_beside = { lit< tt };

    ghost fits_batch_beside = { lit< tt };

    ghost fits_held_beside = { lit< tt };

    ghost fits_seen_beside = { lit< tt };

    ghost fits_found_beside = { lit< tt };

    ghost fits_place_beside = { lit< tt };

    ghost fits_move_beside = { lit< tt };

    ghost fits_content_beside = { lit< tt };
}

impl<A: Entrusted, B: FitsBeside<A>> Fits for Sum<A, B> {
    ghost fits = { B.fits_beside };

    ghost fits_batch = { B.fits_batch_beside };

    ghost fits_held = { B.fits_held_beside };

    ghost fits_seen = { B.fits_seen_beside };

    ghost fits_found = { B.fits_found_beside };

    ghost fits_place = { B.fits_place_beside };

    ghost fits_move = { B.fits_move_beside };

    ghost fits_content = { B.fits_content_beside };
}

/// A kind whose answer batches fit in memory, which all code that passes them on asks for.
pub trait FitsAnswers: Entrusted {
    /// An answer batch has fewer than 2^63 bytes.
    ghost fits: { FitsInMemory (answers_row Self.row Self.Op.row Self.Reply.row Self.Task.row) };
}

impl<S: Fits> FitsAnswers for S {
    ghost fits = { S.fits };
}
