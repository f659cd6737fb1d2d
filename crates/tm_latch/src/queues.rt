//! The tickets that wait.
ghost use Rattle.std.specs.Prelude.{◌≡◌, ◌+◌, [], ◌∷◌, ◌++◌, ℕ, Some, option_map};
ghost use Rattle.slab.specs.Slab.{slab_len, HasRoomFor};
ghost use Rattle.tm_latch.specs.Tickets.{ticket_for};
ghost use Rattle.tm_latch.specs.Queues.{IsQueue, IsQueueOf, KeepsOthers};

use crate::lines::Ends;
use slab::Slab;

/// A ticket that waits, and the key of the next for the same object.
#[derive(Drop)]
pub struct Waiting<K> {
    pub id: u64,
    pub number: u64,
    pub task: K,
    pub next: Option<usize>,
}

/// Lets a ticket wait behind a queue.
pub fn append<K>(
    cells: &mut Slab<Waiting<K>>,
    queue: Option<Ends>,
    id: u64,
    number: u64,
    task: K,
) -> Ends
    requires room { HasRoomFor cells.old 1 }
    requires queue { IsQueueOf id cells.old queue }
    ensures own { (tickets : _) → IsQueue cells.old queue tickets → IsQueue cells.new (Some result) (tickets ++ ticket_for id number task ∷ []) }
    ensures others { KeepsOthers id cells.old cells.new }
    ensures len { slab_len cells.new ≡ slab_len cells.old + 1 }
    ensures capacity { cells.new.capacity ≡ cells.old.capacity }
{
    let key = cells.insert_reserved(Waiting {
        id,
        number,
        task,
        next: None,
    });
    match queue {
        Some(ends) => {
            cells[ends.last].next = Some(key);
            Ends {
                first: ends.first,
                last: key,
            }
        }
        None => Ends {
            first: key,
            last: key,
        },
    }
}

/// Takes the first ticket of a queue out, with the queue that is left.
pub fn take_first<K>(cells: &mut Slab<Waiting<K>>, ends: Ends) -> (u64, K, Option<Ends>)
    requires { (id : ℕ) × IsQueueOf id cells.old (Some ends) }
    ensures own { (t : _) (rest : _) → IsQueue cells.old (Some ends) (t ∷ rest) → (result.0 ≡ t.number) × (result.1 ≡ t.task) × IsQueue cells.new result.2 rest }
    ensures others { (id : ℕ) → IsQueueOf id cells.old (Some ends) → KeepsOthers id cells.old cells.new }
    ensures len { slab_len cells.new + 1 ≡ slab_len cells.old }
    ensures capacity { cells.new.capacity ≡ cells.old.capacity }
{
    let cell = cells.remove(ends.first);
    (cell.number, cell.task, queue_from(cell.next, ends.last))
}

// The queue from a cell to the last, if there is one.
fn queue_from(first: Option<usize>, last: usize) -> Option<Ends>
    ensures { result ≡ option_map (λ key. record { first = key; last = last }) first }
{
    match first {
        Some(key) => Some(Ends { first: key, last }),
        None => None,
    }
}
