//! Writing a whole piece.
ghost use Rattle.std.specs.Prelude.{◌≡◌, OnOk, OnErr};
ghost use Rattle.tm_base.specs.Causes.{HasCause};
ghost use Rattle.tm_base.specs.Visible.{Grows, GrowsByFront};

use crate::failed::Failed;
use crate::sink::Sink;

/// Writes all of a piece, in as many writes as the sink needs. At the first failure it stops, and a front of the
/// piece is written then. It makes no call for an empty piece.
pub fn write_all<K: Sink>(sink: &mut K, from: &[u8]) -> Result<(), Failed>
    ensures ok { OnOk result (Grows (K.written sink.old) (K.written sink.new) from.now) }
    ensures err { OnErr result (GrowsByFront (K.written sink.old) (K.written sink.new) from.now) }

    // It gives up only where the sink failed, and passes no fault over.
    ensures cause { HasCause (K.faults sink.old) (K.faults sink.new) result }
    ensures no_fault { OnOk result (K.faults sink.new ≡ K.faults sink.old) }
{
    let mut at = 0;
    while at < from.len() {
        at += sink.write(&from[at..])?;
    }
    Ok(())
}
