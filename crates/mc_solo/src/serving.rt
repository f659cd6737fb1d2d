//! One session, its client and all trustees take turns on one thread.
ghost use Rattle.std.specs.Prelude.{◌≡◌, ◌≢◌, ◌↔◌, ℕ, ◌<◌, List, Option, None, Some, length, slice_get};
ghost use Rattle.tm_base.specs.Causes.{Rose};
ghost use Rattle.tm_client.specs.declared.trust.Trust.{Trust};
ghost use Rattle.tm_turns.specs.Whole.{AreTurns, Keeps};
ghost use Rattle.mc_next.specs.declared.ended.Ended.{Ended};
ghost use Rattle.mc_next.specs.declared.ended.Ended.TheVariants as ended;
ghost use Rattle.mc_next.specs.Parts.{store_kind};
ghost use Rattle.mc_next.specs.Runs.{Setting, SessionView};
ghost use Rattle.mc_next.specs.Sessions.{IsFresh, IsOf, seen};
ghost use Rattle.mc_next.specs.Steps.{IsCaused};
ghost use Rattle.mc_solo.specs.Serving.{StoreTurns, StoreClient, store_view, MayServe, HasServed, HasServedInTurn, KeepsOthers};
ghost use Rattle.mc_solo.specs.Driving.{IsDriven, HasStopped, HasStepped, HasGoneOn, position};

use mc_next::{Ended, Session, Stepped, sessions_begin};
use mc_route::Store;
use std::alloc::Global;
use tm_base::{Clock, Gate, Sink, Source};
use tm_client::Trust;
use tm_turns::{Turns, calls_keep, deeds_keep, driving_ends};

// Makes one step of the session, with the client of that place.
fn step_at<A: Source, B: Sink, W: Clock>(
    session: &mut Session,
    turns: &mut Turns<Store, u64>,
    place: u32,
    trusts: &[Trust],
    source: &mut A,
    sink: &mut B,
    clock: &mut W,
) -> Stepped
    requires stands { (s : Setting) × (first : SessionView) × (start : StoreTurns) × IsDriven s first start place trusts.now session.old turns.old (A.left source.old) (W.readings clock.old) (B.written sink.old) }
    requires going { session.old.over ≡ None }
    ensures stands { (s : Setting) (first : SessionView) (start : StoreTurns) → IsDriven s first start place trusts.now session.old turns.old (A.left source.old) (W.readings clock.old) (B.written sink.old)
        → IsDriven s first start place trusts.now session.new turns.new (A.left source.new) (W.readings clock.new) (B.written sink.new) }
    ensures over { (ended : Ended) → (result ≡ Stepped.Over ended) ↔ (session.new.over ≡ Some ended) }
    ensures stopped { (ended : Ended) → session.new.over ≡ Some ended → HasStopped ended session.new }
    ensures keeps { Keeps store_kind turns.old turns.new }
    ensures others { KeepsOthers place turns.old turns.new }
    ensures steps { HasStepped place result session.old session.new turns.old turns.new }
    ensures cause { (reads writes : ℕ) → IsCaused session.old.stopped reads (A.faults source.old) writes (B.faults sink.old)
        → IsCaused session.new.stopped reads (A.faults source.new) writes (B.faults sink.new) }
{
    calls_keep::<Store, u64>();
    deeds_keep::<Store, u64>();
    driving_ends::<Store, u64>();
    let client = &mut turns.clients[place as usize];
    session.step(
        client,
        turns.tables.as_mut_slice(),
        trusts,
        source,
        sink,
        clock,
    )
}

// Makes one step, and where it waits, a serving turn of each trustee. How the session ended, if it is over.
fn step_once<A: Source, B: Sink, W: Clock, G: Gate>(
    session: &mut Session,
    turns: &mut Turns<Store, u64>,
    place: u32,
    trusts: &[Trust],
    source: &mut A,
    sink: &mut B,
    clock: &mut W,
    gate: &G,
) -> Option<Ended>
    requires stands { (s : Setting) × (first : SessionView) × (start : StoreTurns) × IsDriven s first start place trusts.now session.old turns.old (A.left source.old) (W.readings clock.old) (B.written sink.old) }
    requires going { session.old.over ≡ None }
    ensures stands { (s : Setting) (first : SessionView) (start : StoreTurns) → IsDriven s first start place trusts.now session.old turns.old (A.left source.old) (W.readings clock.old) (B.written sink.old)
        → IsDriven s first start place trusts.now session.new turns.new (A.left source.new) (W.readings clock.new) (B.written sink.new) }
    ensures over { session.new.over ≡ result }
    ensures stopped { (ended : Ended) → result ≡ Some ended → HasStopped ended session.new }
    ensures keeps { Keeps store_kind turns.old turns.new }
    ensures others { KeepsOthers place turns.old turns.new }
    ensures goes_on { result ≡ None → HasGoneOn place session.old session.new turns.old turns.new }
    ensures cause { (reads writes : ℕ) → IsCaused session.old.stopped reads (A.faults source.old) writes (B.faults sink.old)
        → IsCaused session.new.stopped reads (A.faults source.new) writes (B.faults sink.new) }
{
    match step_at(session, turns, place, trusts, source, sink, clock) {
        Stepped::Over(ended) => Some(ended),
        Stepped::Moved => None,
        Stepped::Waiting => {
            turns.serve_all(gate);
            None
        }
    }
}

// Makes steps until less is before the session, or it is over. How it ended, if it is.
fn step_on<A: Source, B: Sink, W: Clock, G: Gate>(
    session: &mut Session,
    turns: &mut Turns<Store, u64>,
    place: u32,
    trusts: &[Trust],
    source: &mut A,
    sink: &mut B,
    clock: &mut W,
    gate: &G,
) -> Option<Ended>
    requires stands { (s : Setting) × (first : SessionView) × (start : StoreTurns) × IsDriven s first start place trusts.now session.old turns.old (A.left source.old) (W.readings clock.old) (B.written sink.old) }
    requires going { session.old.over ≡ None }
    ensures stands { (s : Setting) (first : SessionView) (start : StoreTurns) → IsDriven s first start place trusts.now session.old turns.old (A.left source.old) (W.readings clock.old) (B.written sink.old)
        → IsDriven s first start place trusts.now session.new turns.new (A.left source.new) (W.readings clock.new) (B.written sink.new) }
    ensures over { session.new.over ≡ result }
    ensures stopped { (ended : Ended) → result ≡ Some ended → HasStopped ended session.new }
    ensures keeps { Keeps store_kind turns.old turns.new }
    ensures others { KeepsOthers place turns.old turns.new }
    ensures nearer { result ≡ None → position session.new < position session.old }
    ensures cause { (reads writes : ℕ) → IsCaused session.old.stopped reads (A.faults source.old) writes (B.faults sink.old)
        → IsCaused session.new.stopped reads (A.faults source.new) writes (B.faults sink.new) }
{
    let before = session.ahead();
    loop {
        if let Some(ended) = step_once(session, turns, place, trusts, source, sink, clock, gate) {
            return Some(ended);
        }
        if !session.ahead().is_as(&before) {
            return None;
        }
    }
}

// A session that begins with the client of that place.
fn begin(session: &Session, turns: &Turns<Store, u64>, place: u32, trusts: &[Trust])
    requires fresh { (limit : ℕ) × IsFresh limit session.now }
    requires are { AreTurns store_kind turns.now }
    requires may { MayServe place trusts.now turns.now }
    ensures { (s : Setting) (client : StoreClient) (left readings written : Option (List ℕ)) → s.limit ≡ session.now.limit → IsOf s trusts.now (length turns.now.tables.items)
        → slice_get turns.now.clients.items place ≡ Some client
        → IsDriven s (seen store_view client.books left readings written) turns.now place trusts.now session.now turns.now left readings written }
{
    let _ = trusts;
    sessions_begin(
        session,
        &turns.clients[place as usize],
        turns.tables.as_slice(),
    );
}

/// Answers an input by one client of a runtime over the store, at most its first `limit` bytes, to its end or to a `quit`. It
/// makes the steps of a session ([`Session::step`]); at each step that waits, every trustee makes one serving turn. It always
/// returns, and may be called again, for this client or another one.
///
/// `place` is the client's number, and `trusts` are its trusts of the 64 classes and then of the desk, in the order of
/// [`store_first`](mc_route::store_first). No request of the client counts, and it was closed for no trustee. Want of memory for
/// the session is [`Ended::NoMemory`], and nothing was done then.
pub fn serve_in_turns<A: Source, B: Sink, W: Clock, G: Gate>(
    alloc: Global,
    turns: &mut Turns<Store, u64>,
    place: u32,
    trusts: &[Trust],
    source: &mut A,
    sink: &mut B,
    clock: &mut W,
    limit: u64,
    gate: &G,
) -> Ended
    requires are { AreTurns store_kind turns.old }
    requires may { MayServe place trusts.now turns.old }
    // What was asked of each trustee, what came back, and what was read and written, are those of a session's run.
    ensures run { HasServed result place trusts.now limit turns.old turns.new (A.left source.old) (A.left source.new)
        (W.readings clock.old) (W.readings clock.new) (B.written sink.old) (B.written sink.new) }
    // Its commands were asked and answered one after another, while the logs of the trustees only grew.
    ensures in_turn { HasServedInTurn result place trusts.now limit turns.old turns.new (A.left source.old) (A.left source.new)
        (W.readings clock.old) (W.readings clock.new) (B.written sink.old) (B.written sink.new) }
    // No request of the client counts afterwards, so it may serve again.
    ensures again { MayServe place trusts.now turns.new }
    // So may each other client that might before.
    ensures others_may { (c : ℕ) (its : List Trust) → c ≢ place → MayServe c its turns.old → MayServe c its turns.new }
    ensures keeps { Keeps store_kind turns.old turns.new }
    ensures others { KeepsOthers place turns.old turns.new }
    ensures read_cause { result ≡ ended.ReadFault → Rose (A.faults source.old) (A.faults source.new) }
    ensures write_cause { result ≡ ended.WriteFault → Rose (B.faults sink.old) (B.faults sink.new) }
    ensures no_read_fault { result ≢ ended.ReadFault → A.faults source.new ≡ A.faults source.old }
    ensures no_write_fault { result ≢ ended.WriteFault → B.faults sink.new ≡ B.faults sink.old }
{
    let Ok(mut session) = Session::new(alloc, limit) else {
        return Ended::NoMemory;
    };
    begin(&session, turns, place, trusts);
    loop {
        if let Some(ended) = step_on(
            &mut session,
            turns,
            place,
            trusts,
            source,
            sink,
            clock,
            gate,
        ) {
            return ended;
        }
    }
}
