//! What a client publishes at a trustee.
ghost use Rattle.std.specs.Prelude.{◌≡◌, ◌≤◌, ℕ};
ghost use Rattle.std.specs.declared.option.Option.TheVariants.{None};
ghost use Rattle.tm_batch.specs.declared.limits.TheConstants.{MOST_ROOM};
ghost use Rattle.tm_pair.specs.Calls.{MaySend, Publishes};
ghost use Rattle.tm_pair.specs.Theory.{KeepsSides};
ghost use Rattle.tm_pair.specs.declared.moves.Move.TheVariants.{Publish};
ghost use Rattle.tm_client.specs.Lanes.{IsLane};
ghost use Rattle.tm_client.specs.Due.{NothingDue};
ghost use Rattle.tm_client.specs.Posting.{HasPosted, PostsDue};

use crate::lane::Lane;
use tm_batch::Batch;
use tm_pair::{FitsBatches, PairTable};

/// Publishes a batch at a lane that has nothing out.
fn post<S: FitsBatches, C: Drop, P: PairTable<S>>(
    table: &mut P,
    lane: &mut Lane<S, C, P::ClientSide>,
    batch: Batch<S>,
)
    requires mine { P.theory.HasClient table.old lane.old.side }
    requires free { (P.theory.client_view lane.old.side).out ≡ None }
    requires orderly { MaySend (P.theory.opening table.old) (P.theory.client_view lane.old.side) batch.requests.items }
    ensures publishes { Publishes batch.requests.items batch.room (P.theory.client_view lane.old.side) (P.theory.client_view lane.new.side) }
    ensures did { P.theory.Did (Publish (P.theory.client_view lane.old.side).place batch) table.old table.new }
    ensures keeps { KeepsSides P.theory table.old table.new lane.old.side lane.new.side }
    ensures rest { HasPosted batch.room lane.old lane.new }
{
    let room = batch.room();
    let _ = table.publish(&mut lane.side, batch);
    lane.out = true;
    lane.room = room;
    lane.fetching = false;
}

/// Publishes what is due at a lane that has nothing out, with room for so many gifts. How many requests went.
pub(crate) fn post_due<S: FitsBatches, C: Drop, P: PairTable<S>>(
    table: &mut P,
    lane: &mut Lane<S, C, P::ClientSide>,
    room: u32,
) -> u32
    requires mine { P.theory.HasClient table.old lane.old.side }
    requires free { (P.theory.client_view lane.old.side).out ≡ None }
    requires lane { (c n : ℕ) × IsLane P.theory.client_view (P.theory.opening table.old) c n lane.old }
    requires room { room ≤ MOST_ROOM }
    requires due { ¬ (NothingDue lane.old) }
    ensures { PostsDue P.theory room result table.old table.new lane.old lane.new }
{
    let Some(batch) = lane.take_due(room) else {
        return 0;
    };
    let count = batch.len() as u32;
    post(table, lane, batch);
    count
}
