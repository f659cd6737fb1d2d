//! Pieces of text, put behind one another.
ghost use Rattle.std.specs.Prelude.{◌≡◌, ◌++◌, length, take, OnOk, OnErr};
ghost use Rattle.std.specs.List.{flat_map};

use mc_item::Bytes;
use std::alloc::AllocError;

/// The end of a line.
pub(crate) const CRLF: &[u8] = b"\r\n";

/// Puts pieces behind the bytes, in their order. After an `Err` the old bytes stand in front of
/// what was put behind them by then.
pub(crate) fn extend_all(out: &mut Bytes, pieces: &[&[u8]]) -> Result<(), AllocError>
    ensures ok { OnOk result (out.new ≡ out.old ++ flat_map (λ piece. piece.now) pieces.now) }
    ensures err { OnErr result (take (length out.old) out.new ≡ out.old) }
{
    for piece in pieces {
        out.extend(piece)?;
    }
    Ok(())
}
