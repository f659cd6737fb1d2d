//! How the runtime of these tests begins: one client, two trustees, and a counter of 0 on the greater of them.
ghost use Rattle.std.specs.Prelude.{◌≡◌, map, IfOk};
ghost use Rattle.tm_task_tests.specs.Playing.{IsBuilt, IsPlaying};

use super::play::Play;
use std::alloc::{AllocError, Global};
use tm_batch::{Config, First, Holders};
use tm_client::Trust;
use tm_seq::Counter;
use tm_task::Tasks;
use tm_turns::Turns;

fn small() -> Config
    ensures clients { result.clients ≡ 1 }
    ensures trustees { result.trustees ≡ 2 }
{
    Config {
        clients: 1,
        trustees: 2,
        objects: 1,
        trusts: 1,
        last_id: 1,
    }
}

fn one_counter(alloc: Global) -> Result<Vec<First<Counter>>, AllocError> {
    let holders = Holders::new(vec![in alloc; 0]?);
    let mut first = Vec::new(alloc);
    first.push(First {
        trustee: 1,
        value: Counter { value: 0 },
        holders,
    })?;
    Ok(first)
}

/// The runtime, and the trusts of its client.
type Built = (Turns<Counter, u64>, Vec<Vec<Trust>>);

fn built(alloc: Global) -> Result<Built, AllocError>
    ensures { IfOk result (λ r. IsBuilt r.0 (map (λ l. l.items) r.1.items)) }
{
    let first = one_counter(alloc)?;
    match Turns::build(alloc, small(), first) {
        Ok(built) => Ok(built),
        Err(_) => Err(AllocError),
    }
}

/// What there is at first: no tasks, with room for so many, which may ask the counter.
pub(super) fn start(alloc: Global, room: u32) -> Result<Play, AllocError>
    ensures { IfOk result (λ play. IsPlaying play.tasks play.turns) }
{
    let (turns, mut trusts) = built(alloc)?;
    let tasks = Tasks::new(alloc, trusts.remove(0), room)?;
    Ok(Play { tasks, turns })
}
