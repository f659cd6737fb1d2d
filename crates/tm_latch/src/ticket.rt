//! The tickets that are known, for contracts alone.
ghost use Rattle.std.specs.Prelude.{◌≡◌, [], ◌∷◌, ◌++◌};
ghost use Rattle.tm_latch.specs.Tickets.{ticket_for, with_first, without_first};

use std::marker::Brand;
use tm_ghost::{GhostList, Items};

/// A ticket that runs or waits. No program makes one: contracts speak of lists of them.
#[derive(Drop)]
pub struct Ticket<K> {
    /// The object that it is for.
    pub id: u64,
    /// The ticket.
    pub number: u64,
    /// The task that it came with, or as which it goes on.
    pub task: K,
}

/// A ticket came, behind the others.
pub(crate) fn after_enter<K>(
    known: &GhostList<Ticket<K>>,
    id: u64,
    number: u64,
    task: &K,
) -> GhostList<Ticket<K>>
    ensures { result.items ≡ known.now.items ++ ticket_for id number task.now ∷ [] }
{
    pick_enter::<K, Brand>(known, id, number, task)
}

fn pick_enter<K, E: Items<Ticket<K>>>(
    _known: &GhostList<Ticket<K>>,
    _id: u64,
    _number: u64,
    _task: &K,
) -> GhostList<Ticket<K>>
    ensures { result.items ≡ E.items }
{
    GhostList::of::<E>()
}

/// The first ticket of an object has another task.
pub(crate) fn after_goes_on<K>(
    known: &GhostList<Ticket<K>>,
    id: u64,
    task: &K,
) -> GhostList<Ticket<K>>
    ensures { result.items ≡ with_first id task.now known.now.items }
{
    pick_goes_on::<K, Brand>(known, id, task)
}

fn pick_goes_on<K, E: Items<Ticket<K>>>(
    _known: &GhostList<Ticket<K>>,
    _id: u64,
    _task: &K,
) -> GhostList<Ticket<K>>
    ensures { result.items ≡ E.items }
{
    GhostList::of::<E>()
}

/// The first ticket of an object went.
pub(crate) fn after_leave<K>(known: &GhostList<Ticket<K>>, id: u64) -> GhostList<Ticket<K>>
    ensures { result.items ≡ without_first id known.now.items }
{
    pick_leave::<K, Brand>(known, id)
}

fn pick_leave<K, E: Items<Ticket<K>>>(
    _known: &GhostList<Ticket<K>>,
    _id: u64,
) -> GhostList<Ticket<K>>
    ensures { result.items ≡ E.items }
{
    GhostList::of::<E>()
}
