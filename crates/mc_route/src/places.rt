//! Where the objects of the store stand at first, and who holds them.
ghost use Rattle.std.specs.Prelude.{◌≡◌, ◌≤◌, IfOk};
ghost use Rattle.std.specs.List.{range_with_len};
ghost use Rattle.mc_route.specs.Places.{trustee_of, index_of, store_first};

use crate::desk::Desk;
use mc_item::{CLASSES, MOST_ITEMS};
use mc_shard::Shard;
use std::alloc::{AllocError, Global};
use std::hash::RandomState;
use tm_batch::{FEWEST_TRUSTEES, First, Holders, MOST_CLIENTS};
use tm_seq::Sum;

/// A class of keys or the desk: what is entrusted to the trustees of a store.
pub type Store = Sum<Shard, Desk>;

/// The number of the trustee that a class stands on, of so many: the classes go round all but trustee 0.
pub fn trustee_of(class: u32, trustees: u32) -> u32
    requires { FEWEST_TRUSTEES ≤ trustees }
    ensures { result ≡ trustee_of class trustees }
{
    1 + class % (trustees - 1)
}

/// Which of the classes of its trustee a class is, from 0.
pub fn index_of(class: u32, trustees: u32) -> u32
    requires { FEWEST_TRUSTEES ≤ trustees }
    ensures { result ≡ index_of class trustees }
{
    class / (trustees - 1)
}

// The places below a number.
fn places_below(alloc: Global, end: u32) -> Result<Holders, AllocError>
    ensures { IfOk result (λ holders. holders ≡ range_with_len 0 end) }
{
    let mut places = Vec::new(alloc);
    for place in 0..end {
        places.push(place)?;
    }
    Ok(Holders::new(places))
}

/// What is entrusted before anything runs: the 64 classes in the order of their numbers, and then the desk. A class
/// has no items, and holds at most `bound` of them; its keys are found by `hasher`. Class `k` stands on trustee
/// `1 + k mod (trustees - 1)`, the desk on trustee 0. Each client holds all of them, and trustee 0, whose place is
/// number `clients`, holds the classes.
pub fn store_first(
    alloc: Global,
    clients: u32,
    trustees: u32,
    bound: u32,
    hasher: RandomState,
) -> Result<Vec<First<Store>>, AllocError>
    requires clients { clients ≤ MOST_CLIENTS }
    requires trustees { FEWEST_TRUSTEES ≤ trustees }
    requires some { 1 ≤ bound }
    requires most { bound ≤ MOST_ITEMS }
    ensures { IfOk result (λ first. first.items ≡ store_first clients trustees bound) }
{
    let mut first = Vec::new(alloc);
    for class in 0..CLASSES {
        let shard = Shard::new(alloc, class, 0, bound, hasher)?;
        first.push(First {
            trustee: trustee_of(class, trustees),
            value: Sum::First(shard),
            holders: places_below(alloc, clients + 1)?,
        })?;
    }
    first.push(First {
        trustee: 0,
        value: Sum::Second(Desk { done: 0 }),
        holders: places_below(alloc, clients)?,
    })?;
    Ok(first)
}
