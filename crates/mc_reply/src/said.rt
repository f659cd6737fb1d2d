//! The lines that have no number in them.
ghost use Rattle.std.specs.Prelude.{◌≡◌};
ghost use Rattle.mc_model.specs.Rendering.{said_bytes};

use mc_model::Said;

/// The bytes of a line, with its end.
#[tactic(auto, unfolding(mc_model::specs::Rendering::said_bytes))]
pub(crate) fn text_of(said: Said) -> &'static [u8]
    ensures { result.now ≡ said_bytes said }
{
    match said {
        Said::Stored => b"STORED\r\n",
        Said::NotStored => b"NOT_STORED\r\n",
        Said::Exists => b"EXISTS\r\n",
        Said::NotFound => b"NOT_FOUND\r\n",
        Said::Deleted => b"DELETED\r\n",
        Said::Touched => b"TOUCHED\r\n",
        Said::Ok => b"OK\r\n",
        Said::Version => b"VERSION 1.0.0-trust\r\n",
        Said::Error => b"ERROR\r\n",
        Said::BadLine => b"CLIENT_ERROR bad command line format\r\n",
        Said::BadChunk => b"CLIENT_ERROR bad data chunk\r\n",
        Said::LineTooLong => b"CLIENT_ERROR line too long\r\n",
        Said::BadDelta => b"CLIENT_ERROR invalid numeric delta argument\r\n",
        Said::NonNumeric => b"CLIENT_ERROR cannot increment or decrement non-numeric value\r\n",
        Said::TooLarge => b"SERVER_ERROR object too large for cache\r\n",
        Said::NoMemory => b"SERVER_ERROR out of memory storing object\r\n",
        Said::OutOfCas => b"SERVER_ERROR out of cas numbers\r\n",
    }
}
