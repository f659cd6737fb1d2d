//! Kinds whose places fit in memory.
ghost use Rattle.std.specs.Mem.{FitsInMemory};
ghost use Rattle.tm_pair.specs.contracts.place.Place.{the_row as place_row};
ghost use Rattle.tm_pair.specs.contracts.moves.Move.{the_row as move_row};

use crate::fits_batches::FitsBatches;
use tm_batch::Fits;

/// A kind of which a table in one thread can be made.
pub trait FitsTable: FitsBatches {
    /// A place of such a table has fewer than 2^63 bytes.
    ghost fits_place: { FitsInMemory (place_row Self.row Self.Op.row Self.Reply.row Self.Task.row) };

    /// So has a call at it, of which contracts speak.
    ghost fits_move: { FitsInMemory (move_row Self.row Self.Op.row Self.Reply.row Self.Task.row) };
}

impl<S: Fits> FitsTable for S {
    ghost fits_place = { S.fits_place };

    ghost fits_move = { S.fits_move };
}
