//! One item of the reply to a `get` or `gat`.
ghost use Rattle.std.specs.Prelude.{◌≡◌, ◌++◌, length, take, OnOk, OnErr};
ghost use Rattle.mc_model.specs.Rendering.{cas_bytes, item_bytes};

use crate::pieces::{CRLF, extend_all};
use itoa::Buffer;
use mc_item::Bytes;
use mc_model::ShownItem;
use std::alloc::AllocError;

#[tactic(auto, unfolding(mc_model::specs::Rendering::cas_bytes))]
fn append_cas(cas: u64, with_cas: bool, out: &mut Bytes) -> Result<(), AllocError>
    ensures ok { OnOk result (out.new ≡ out.old ++ cas_bytes with_cas cas) }
    ensures err { OnErr result (take (length out.old) out.new ≡ out.old) }
{
    if !with_cas {
        return Ok(());
    }
    extend_all(out, &[b" ", Buffer::new().format(cas).as_bytes()])
}

/// Puts an item behind the bytes: its line, which has the cas number where `with_cas` is true, and
/// its value. After an `Err` the old bytes stand in front of what was put behind them by then.
#[tactic(auto, unfolding(mc_model::specs::Rendering::item_bytes))]
pub(crate) fn append_item(
    item: &ShownItem,
    with_cas: bool,
    out: &mut Bytes,
) -> Result<(), AllocError>
    ensures ok { OnOk result (out.new ≡ out.old ++ item_bytes with_cas item.now) }
    ensures err { OnErr result (take (length out.old) out.new ≡ out.old) }
{
    extend_all(
        out,
        &[
            b"VALUE ",
            item.key.get(),
            b" ",
            Buffer::new().format(item.flags).as_bytes(),
            b" ",
            Buffer::new().format(item.value.len()).as_bytes(),
        ],
    )?;
    append_cas(item.cas, with_cas, out)?;
    extend_all(out, &[CRLF, item.value.get(), CRLF])
}
