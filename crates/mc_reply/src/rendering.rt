//! The reply as bytes.
ghost use Rattle.std.specs.Prelude.{◌≡◌, ◌++◌, length, take, codes, OnOk, OnErr};
ghost use Rattle.std.specs.List.{flat_map};
ghost use Rattle.mc_model.specs.Rendering.{item_bytes, bytes_of};

use crate::item::append_item;
use crate::pieces::{CRLF, extend_all};
use crate::said::text_of;
use crate::size::size_of;
use itoa::Buffer;
use mc_item::Bytes;
use mc_model::{Shown, ShownItems};
use std::alloc::AllocError;

fn append_items(items: &ShownItems, with_cas: bool, out: &mut Bytes) -> Result<(), AllocError>
    ensures ok { OnOk result
        (out.new ≡ out.old ++ flat_map (item_bytes with_cas) items.now ++ codes "END\r\n") }
    ensures err { OnErr result (take (length out.old) out.new ≡ out.old) }
{
    for at in 0..items.len() {
        append_item(items.get(at), with_cas, out)?;
    }
    out.extend(b"END\r\n")
}

#[tactic(auto, unfolding(mc_model::specs::Rendering::bytes_of))]
fn append_stats(held: u64, stored: u64, out: &mut Bytes) -> Result<(), AllocError>
    ensures ok { OnOk result (out.new ≡ out.old ++ bytes_of (Shown.Stats held stored)) }
    ensures err { OnErr result (take (length out.old) out.new ≡ out.old) }
{
    extend_all(
        out,
        &[
            b"STAT curr_items ",
            Buffer::new().format(held).as_bytes(),
            CRLF,
            b"STAT total_items ",
            Buffer::new().format(stored).as_bytes(),
            CRLF,
            b"END\r\n",
        ],
    )
}

#[tactic(auto, unfolding(mc_model::specs::Rendering::bytes_of))]
fn append(shown: &Shown, out: &mut Bytes) -> Result<(), AllocError>
    ensures ok { OnOk result (out.new ≡ out.old ++ bytes_of shown.now) }
    ensures err { OnErr result (take (length out.old) out.new ≡ out.old) }
{
    match shown {
        Shown::Nothing => Ok(()),
        Shown::Line(said) => out.extend(text_of(*said)),
        Shown::Number(number) => extend_all(out, &[Buffer::new().format(*number).as_bytes(), CRLF]),
        Shown::Values { items, with_cas } => append_items(items, *with_cas, out),
        Shown::Stats { held, stored } => append_stats(*held, *stored, out),
    }
}

/// Puts the bytes of what is shown behind `out`, as memcached's protocol.txt words them. An `Err`
/// leaves `out` as it was. One allocation at most, and none where `out` has the room.
pub fn render(shown: &Shown, out: &mut Bytes) -> Result<(), AllocError>
    ensures ok { OnOk result (out.new ≡ out.old ++ bytes_of shown.now) }
    ensures err { OnErr result (out.new ≡ out.old) }
{
    out.reserve(size_of(shown))?;
    let start = out.len();
    let written = append(shown, out);
    if written.is_err() {
        out.truncate(start);
    }
    written
}
