//! How many bytes a reply has, told before it is written.
ghost use Rattle.std.specs.Prelude.{◌≡◌, ◌++◌, ◌≤◌, length, min, codes};
ghost use Rattle.std.specs.List.{flat_map};
ghost use Rattle.std.specs.Fmt.{decimal};
ghost use Rattle.mc_model.specs.Rendering.{cas_bytes, item_bytes, bytes_of};

use crate::said::text_of;
use itoa::Buffer;
use mc_model::{Shown, ShownItem, ShownItems};

fn digits(number: u64) -> usize
    ensures size { result ≡ length (decimal number) }
    ensures short { result ≤ 40 }
{
    Buffer::new().format(number).len()
}

#[tactic(auto, unfolding(mc_model::specs::Rendering::cas_bytes))]
fn cas_size(cas: u64, with_cas: bool) -> usize
    ensures size { result ≡ length (cas_bytes with_cas cas) }
    ensures short { result ≤ 41 }
{
    if with_cas { 1 + digits(cas) } else { 0 }
}

#[tactic(auto, using(crate::proofs::Sizes::of_items))]
fn item_size(item: &ShownItem, with_cas: bool) -> usize
    ensures { result ≡ min (length (item_bytes with_cas item.now)) usize.MAX }
{
    let numbers = digits(u64::from(item.flags)) + digits(item.value.len() as u64);
    let frame = b"VALUE   \r\n\r\n".len() + numbers + cas_size(item.cas, with_cas);
    frame
        .saturating_add(item.key.get().len())
        .saturating_add(item.value.len())
}

#[tactic(auto, using(crate::proofs::Sizes::of_items))]
fn items_size(items: &ShownItems, with_cas: bool) -> usize
    ensures { result ≡ min
        (length (flat_map (item_bytes with_cas) items.now ++ codes "END\r\n")) usize.MAX }
{
    let mut size = b"END\r\n".len();
    for at in 0..items.len() {
        size = size.saturating_add(item_size(items.get(at), with_cas));
    }
    size
}

/// How many bytes are shown, or `usize::MAX` where they are more than that.
#[tactic(auto, using(crate::proofs::Sizes::of_items), unfolding(mc_model::specs::Rendering::bytes_of))]
pub(crate) fn size_of(shown: &Shown) -> usize
    ensures { result ≡ min (length (bytes_of shown.now)) usize.MAX }
{
    match shown {
        Shown::Nothing => 0,
        Shown::Line(said) => text_of(*said).len(),
        Shown::Number(number) => digits(*number) + 2,
        Shown::Values { items, with_cas } => items_size(items, *with_cas),
        Shown::Stats { held, stored } => {
            let words = b"STAT curr_items \r\nSTAT total_items \r\nEND\r\n".len();
            words + digits(*held) + digits(*stored)
        }
    }
}
