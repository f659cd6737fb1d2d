//! A trustee's sides of the tables of greater trustees.
ghost use Rattle.std.specs.Prelude.{◌≡◌, ℕ, ◌+◌, ◌<◌, ◌≤◌, length, map, false, slice_get};
ghost use Rattle.std.specs.List.{AllByRecursion};
ghost use Rattle.std.specs.declared.option.Option.TheVariants.{None, Some};
ghost use Rattle.tm_model.specs.Holds.{has_bye};
ghost use Rattle.tm_model.specs.Orderly.{IsOfTrustee};
ghost use Rattle.tm_trustee.specs.Above.{IsAt, PublishesBye, SaysByeAt, all_moves_up};
ghost use Rattle.tm_trustee.specs.AboveAt.{MovesUp, MovesAt, EachLane, NeedAll, IsAbove};
ghost use Rattle.tm_trustee.specs.Steps.{MaySendAsks, SendsWaits, ExchangesLane, MaySayBye, SaysByeLane};
ghost use Rattle.tm_trustee.specs.Tables.{AreAmong, KeepsAbove};
ghost use Rattle.tm_trustee.specs.declared.lane.Lane.{Lane};

use crate::lane::Lane;
use crate::stage::Stage;
use tm_batch::{Batch, Request};
use tm_pair::{Collected, FitsBatches, PairTable};

/// What a trustee does at a side above, and at the table of that side.
pub(crate) trait Step<S: FitsBatches, P: PairTable<S>> {
    /// What it needs of the table, the side and the lane.
    ghost Needs: { P → P.ClientSide → Lane S S.Op S.Reply S.Task → Type 0 };

    /// What it does.
    ghost Goes: { P → P → P.ClientSide → P.ClientSide → Lane S S.Op S.Reply S.Task → Lane S S.Op S.Reply S.Task → Type 0 };

    /// Does it. Whether a batch was moved.
    fn go(table: &mut P, seat: &mut P::ClientSide, lane: &mut Lane<S>) -> bool
        requires mine { P.theory.HasClient table.old seat.old }
        requires asked { AllByRecursion IsOfTrustee (P.theory.client_view seat.old).sent }
        requires at { IsAt lane.old.stage (P.theory.client_view seat.old) }
        requires needs { Needs table.old seat.old lane.old }
        ensures { MovesUp P.theory Goes table.old table.new seat.old seat.new lane.old lane.new result };
}

/// Publishes the first asks that wait, if any do, where nothing is out. Whether it did.
fn send_asks<S: FitsBatches, P: PairTable<S>>(
    table: &mut P,
    seat: &mut P::ClientSide,
    lane: &mut Lane<S>,
) -> bool
    requires mine { P.theory.HasClient table.old seat.old }
    requires asked { AllByRecursion IsOfTrustee (P.theory.client_view seat.old).sent }
    requires free { (P.theory.client_view seat.old).out ≡ None }
    requires needs { MaySendAsks P.theory table.old seat.old lane.old }
    ensures { SendsWaits P.theory table.old table.new seat.old seat.new lane.old lane.new result }
{
    if lane.waits.is_empty() {
        return false;
    }
    let batch = lane.first_asks();
    // It is not refused: nothing is out.
    let _ = table.publish(seat, batch);
    true
}

/// Looking for answers where a batch is out, and else sending the first asks that wait.
pub(crate) struct Exchange;

impl<S: FitsBatches, P: PairTable<S>> Step<S, P> for Exchange {
    ghost Needs = { MaySendAsks P.theory };

    ghost Goes = { ExchangesLane P.theory };

    fn go(table: &mut P, seat: &mut P::ClientSide, lane: &mut Lane<S>) -> bool
        requires mine { P.theory.HasClient table.old seat.old }
        requires asked { AllByRecursion IsOfTrustee (P.theory.client_view seat.old).sent }
        requires at { IsAt lane.old.stage (P.theory.client_view seat.old) }
        requires needs { MaySendAsks P.theory table.old seat.old lane.old }
        ensures { MovesUp P.theory (ExchangesLane P.theory) table.old table.new seat.old seat.new lane.old lane.new result }
    {
        match table.collect(seat) {
            Collected::Answers(came) => {
                lane.take_in(came);
                true
            }
            Collected::Pending => false,
            Collected::Idle => send_asks(table, seat, lane),
        }
    }
}

/// Publishes a `Bye` alone, where nothing is out and none was said.
fn send_bye<S: FitsBatches, P: PairTable<S>>(table: &mut P, seat: &mut P::ClientSide)
    requires mine { P.theory.HasClient table.old seat.old }
    requires asked { AllByRecursion IsOfTrustee (P.theory.client_view seat.old).sent }
    requires unsaid { has_bye (P.theory.client_view seat.old).sent ≡ false }
    requires free { (P.theory.client_view seat.old).out ≡ None }
    ensures { PublishesBye P.theory table.old table.new seat.old seat.new }
{
    let mut batch = Batch::new(0);
    // Neither is refused: the batch is empty, and nothing is out.
    let _ = batch.push(Request::Bye);
    let _ = table.publish(seat, batch);
}

/// Saying `Bye`, unless that was done.
pub(crate) struct SayBye;

impl<S: FitsBatches, P: PairTable<S>> Step<S, P> for SayBye {
    ghost Needs = { MaySayBye P.theory };

    ghost Goes = { SaysByeLane P.theory };

    fn go(table: &mut P, seat: &mut P::ClientSide, lane: &mut Lane<S>) -> bool
        requires mine { P.theory.HasClient table.old seat.old }
        requires asked { AllByRecursion IsOfTrustee (P.theory.client_view seat.old).sent }
        requires at { IsAt lane.old.stage (P.theory.client_view seat.old) }
        requires needs { MaySayBye P.theory table.old seat.old lane.old }
        ensures { MovesUp P.theory (SaysByeLane P.theory) table.old table.new seat.old seat.new lane.old lane.new result }
    {
        if lane.stage != Stage::Before {
            return false;
        }
        send_bye(table, seat);
        lane.stage = Stage::Out;
        true
    }
}

/// Takes a step at side `i` above. Whether a batch was moved.
fn step_at<S: FitsBatches, P: PairTable<S>, W: Step<S, P>>(
    tables: &mut [P],
    from: u32,
    above: &mut Vec<P::ClientSide>,
    lanes: &mut Vec<Lane<S>>,
    i: usize,
) -> bool
    requires index { i < length above.old.items }
    requires above { (place : ℕ) × IsAbove place lanes.old.items (map P.theory.client_view above.old.items) }
    requires among { AreAmong P.theory tables.old from above.old.items }
    requires needs { (table : P) (seat : P.ClientSide) (lane : Lane S S.Op S.Reply S.Task) → slice_get tables.old (from + i) ≡ Some table → slice_get above.old.items i ≡ Some seat → slice_get lanes.old.items i ≡ Some lane → W.Needs table seat lane }
    ensures { MovesAt P.theory W.Goes (from + i) i tables.old tables.new lanes.old.items lanes.new.items above.old.items above.new.items result }
{
    W::go(&mut tables[from as usize + i], &mut above[i], &mut lanes[i])
}

/// Takes a step at each side above, in order. How many batches were moved.
pub(crate) fn go_above<S: FitsBatches, P: PairTable<S>, W: Step<S, P>>(
    tables: &mut [P],
    from: u32,
    above: &mut Vec<P::ClientSide>,
    lanes: &mut Vec<Lane<S>>,
) -> u64
    requires above { (place : ℕ) × IsAbove place lanes.old.items (map P.theory.client_view above.old.items) }
    requires among { AreAmong P.theory tables.old from above.old.items }
    requires needs { NeedAll W.Needs from tables.old above.old.items lanes.old.items }
    ensures goes { EachLane W.Goes from tables.old tables.new above.old.items above.new.items lanes.old.items lanes.new.items }
    ensures as_many { length above.new.items ≡ length above.old.items }
    ensures lanes { length lanes.new.items ≡ length lanes.old.items }
    ensures above { (place : ℕ) → IsAbove place lanes.old.items (map P.theory.client_view above.old.items) → IsAbove place lanes.new.items (map P.theory.client_view above.new.items) }
    ensures among { AreAmong P.theory tables.new from above.new.items }
    ensures moved { result ≡ all_moves_up (map P.theory.client_view above.old.items) (map P.theory.client_view above.new.items) }
    ensures most { result ≤ length above.old.items }
    ensures tables { (place : ℕ) → IsAbove place lanes.old.items (map P.theory.client_view above.old.items) → KeepsAbove P.theory tables.old tables.new from place }
{
    let mut moved = 0;
    let seats = above.len();
    for i in 0..seats {
        moved += u64::from(step_at::<S, P, W>(tables, from, above, lanes, i));
    }
    moved
}
