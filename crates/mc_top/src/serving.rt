//! A new store answers one input.
ghost use Rattle.std.specs.Prelude.{◌≡◌, ◌≢◌, ℕ, List, length, map, slice_get, Some, IfOk};
ghost use Rattle.tm_base.specs.Causes.{Rose};
ghost use Rattle.tm_client.specs.declared.trust.Trust.{Trust};
ghost use Rattle.tm_turns.specs.Whole.{AreTurns};
ghost use Rattle.tm_turns.specs.Making.{HasBuilt};
ghost use Rattle.mc_route.specs.Places.{store_first};
ghost use Rattle.mc_next.specs.Parts.{store_kind};
ghost use Rattle.mc_next.specs.declared.ended.Ended.TheVariants as ended;
ghost use Rattle.mc_solo.specs.Serving.{MayServe, store_config};
ghost use Rattle.mc_words.specs.RunWords.{IsRunInRange};
ghost use Rattle.mc_top.specs.Statuses.{status_of};
ghost use Rattle.mc_top.specs.Runs.{views, HasAnswered};

use crate::status::Status;
use mc_alone::one_client_meets_one_store;
use mc_next::Ended;
use mc_route::Store;
use mc_solo::{open_store, serve_in_turns};
use mc_words::Run;
use std::alloc::{AllocError, Global};
use std::hash::RandomState;
use tm_base::{Clock, Gate, Sink, Source};
use tm_client::Trust;
use tm_turns::Turns;

/// How a session's end is told as a status.
pub(crate) fn status_by(ended: Ended) -> Status
    ensures { result ≡ status_of ended }
{
    match ended {
        Ended::AtEnd | Ended::Quit => Status::Ended,
        Ended::Inside => Status::EndedInside,
        Ended::ReadFault => Status::ReadFault,
        Ended::WriteFault => Status::WriteFault,
        Ended::TooMuch => Status::TooMuch,
        Ended::NoMemory => Status::NoMemory,
    }
}

// A new store with one client, of as many trustees, and of as many items in each class, as the words say.
fn open(
    alloc: Global,
    run: Run,
    hasher: RandomState,
) -> Result<(Turns<Store, u64>, Vec<Vec<Trust>>), AllocError>
    requires { IsRunInRange run }
    ensures built { IfOk result (λ r. HasBuilt store_kind (store_config 1 run.trustees) (store_first 1 run.trustees run.items) r.0 (map (λ l. l.items) r.1.items)) }
    ensures are { IfOk result (λ r. AreTurns store_kind r.0) }
    ensures one { IfOk result (λ r. length r.1.items ≡ 1) }
    ensures may { IfOk result (λ r. (c : ℕ) (trusts : List Trust) → slice_get (map (λ l. l.items) r.1.items) c ≡ Some trusts → MayServe c trusts r.0) }
{
    open_store(alloc, 1, run.trustees, run.items, hasher)
}

/// Answers an input by the one client of a new store, with trustees, items and bytes as the words say.
pub(crate) fn answer_all<A: Source, B: Sink, W: Clock, G: Gate>(
    alloc: Global,
    run: Run,
    input: &mut A,
    output: &mut B,
    clock: &mut W,
    gate: &G,
    hasher: RandomState,
) -> Ended
    requires { IsRunInRange run }
    ensures answered { HasAnswered run.items run.max_bytes result
        (views (A.left input.old) (W.readings clock.old) (B.written output.old))
        (views (A.left input.new) (W.readings clock.new) (B.written output.new)) }
    ensures read_cause { result ≡ ended.ReadFault → Rose (A.faults input.old) (A.faults input.new) }
    ensures write_cause { result ≡ ended.WriteFault → Rose (B.faults output.old) (B.faults output.new) }
    ensures no_read_fault { result ≢ ended.ReadFault → A.faults input.new ≡ A.faults input.old }
    ensures no_write_fault { result ≢ ended.WriteFault → B.faults output.new ≡ B.faults output.old }
{
    let Ok((mut turns, trusts)) = open(alloc, run, hasher) else {
        return Ended::NoMemory;
    };
    one_client_meets_one_store();
    serve_in_turns(
        alloc,
        &mut turns,
        0,
        &trusts[0],
        input,
        output,
        clock,
        run.max_bytes,
        gate,
    )
}
