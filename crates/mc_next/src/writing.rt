//! Writing what was gathered.
ghost use Rattle.std.specs.Prelude.{◌≡◌, [], OnOk, OnErr};
ghost use Rattle.tm_base.specs.Causes.{HasCause};
ghost use Rattle.tm_base.specs.Visible.{Grows, GrowsByFront};

use mc_item::Bytes;
use tm_base::{Failed, Sink, write_all};

/// Writes the gathered bytes, which are gone then. An `Err` has written a front of them, and not all.
pub(crate) fn write_out<B: Sink>(gathered: &mut Bytes, sink: &mut B) -> Result<(), Failed>
    ensures ok { OnOk result (Grows (B.written sink.old) (B.written sink.new) gathered.old) }
    ensures gone { OnOk result (gathered.new ≡ []) }
    ensures err { OnErr result (GrowsByFront (B.written sink.old) (B.written sink.new) gathered.old) }
    ensures kept { OnErr result (gathered.new ≡ gathered.old) }
    ensures cause { HasCause (B.faults sink.old) (B.faults sink.new) result }
    ensures no_fault { OnOk result (B.faults sink.new ≡ B.faults sink.old) }
{
    write_all(sink, gathered.get())?;
    gathered.clear();
    Ok(())
}
