//! Kinds whose slots fit in memory.
ghost use Rattle.std.specs.Mem.{FitsInMemory};
ghost use Rattle.std.proofs.Common.{lit<};
ghost use Rattle.tm_toggle.specs.contracts.content.Content.{the_row as content_row};
ghost use Rattle.tm_toggle.specs.contracts.view.View.{the_row as view_row};

use tm_batch::Fits;
use tm_pair::FitsBatches;

/// A kind of which a table for many threads can be made.
pub trait Shareable: FitsBatches {
    /// A slot of such a table has fewer than 2^63 bytes.
    ghost fits_content: { FitsInMemory (content_row Self.row Self.Op.row Self.Reply.row Self.Task.row) };

    /// So has what a seat knows, of which contracts speak.
    ghost fits_view: { FitsInMemory (view_row Self.row Self.Op.row Self.Reply.row Self.Task.row) };
}

impl<S: Fits> Shareable for S {
    ghost fits_content = { S.fits_content };

    ghost fits_view = { lit< tt };
}
