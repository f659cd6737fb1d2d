//! A trustee and its turns.
ghost use Rattle.std.specs.Prelude.{◌≡◌, ◌+◌, ◌≤◌, ◌↔◌, IsTrue, All, IfOk, IfErr, length, slice_get, List};
ghost use Rattle.std.specs.declared.option.Option.TheVariants.{Some};
ghost use Rattle.tm_state.specs.Asking.{TellsEnd};
ghost use Rattle.tm_trustee.specs.Above.{SaysByeAt, all_moves_up};
ghost use Rattle.tm_trustee.specs.AboveAt.{EachAt};
ghost use Rattle.tm_trustee.specs.Begun.{IsBeginnable, HasBegun, IsNewHome, IsNewSeat};
ghost use Rattle.tm_trustee.specs.Places.{ServesAll, found_below};
ghost use Rattle.tm_trustee.specs.Serving.{GoesOn, TellsRun, done_by, ups_of};
ghost use Rattle.tm_trustee.specs.Tables.{IsReady, IsMidway, KeepsAbove, KeepsOwn, KeepsTables};
ghost use Rattle.tm_trustee.specs.Turn.{ExchangesAll, HasGoneUp, HasResumed, HasTurned, KeepsParts, Tells};
ghost use Rattle.tm_trustee.specs.declared.stage.Stage.TheVariants.{Over};

use crate::above::{Exchange, SayBye, go_above};
use crate::lane::{Lane, held_by, new_lanes};
use crate::places::serve_places;
use crate::served::Served;
use crate::stage::Stage;
use crate::tasks::resume_lanes;
use std::alloc::{AllocError, Global};
use tm_base::Gate;
use tm_batch::{Config, First, Name};
use tm_ghost::GhostList;
use tm_model::Entry;
use tm_pair::{FitsBatches, PairTable};
use tm_state::TrusteeState;

/// A trustee, with its side of its own table and its sides of the tables of greater trustees. Contracts say
/// in which state it opened, and that the tables are those of its sides.
#[derive(Drop)]
pub struct Trustee<S: FitsBatches, P: PairTable<S>> {
    pub(crate) number: u32,
    pub(crate) clients: u32,
    pub(crate) state: TrusteeState<S>,
    pub(crate) side: P::TrusteeSide,
    // For contracts alone, what was resumed since its last answer.
    pub(crate) since: GhostList<Entry<S>>,
    // Its sides at the trustees `number + 1` and on, and what it keeps of each.
    pub(crate) above: Vec<P::ClientSide>,
    pub(crate) lanes: Vec<Lane<S>>,
    // The objects that it holds above, by their trustees' numbers, in the order of the build.
    pub(crate) nested: Vec<(u32, Name)>,
    // By trustees' numbers, how many objects it holds at each.
    pub(crate) held: Vec<u32>,
    // What its last turn moved, or `u64::MAX` where that is more.
    pub(crate) moved: u64,
}

/// There was no memory for a trustee: all that was passed comes back.
#[derive(Drop)]
pub struct TrusteeRefused<S: FitsBatches, P: PairTable<S>> {
    /// The objects placed on it.
    pub first: Vec<First<S>>,
    /// Its own side.
    pub side: P::TrusteeSide,
    /// Its sides at greater trustees.
    pub above: Vec<P::ClientSide>,
    /// The objects that it holds at greater trustees.
    pub nested: Vec<(u32, Name)>,
}

/// Whether a `Bye` is over at each of some lanes.
fn are_over<S: FitsBatches>(lanes: &[Lane<S>]) -> bool
    ensures { IsTrue result ↔ All (λ lane. lane.stage ≡ Over) lanes.now }
{
    lanes.iter().all(|lane| lane.stage == Stage::Over)
}

/// Whether two things hold.
// A function of its own, so that the turn has no branch.
fn is_both(one: bool, other: bool) -> bool
    ensures { IsTrue result ↔ IsTrue one × IsTrue other }
{
    one && other
}

/// What a turn says that moved so much, by whether the trustee has ended.
fn outcome(ended: bool, moved: u64) -> Served
    ensures { Tells result (IsTrue ended) moved }
{
    if ended {
        Served::Ended
    } else if moved == 0 {
        Served::Quiet
    } else {
        Served::Moved(moved)
    }
}

impl<S: FitsBatches, P: PairTable<S>> Trustee<S, P> {
    /// Trustee `number` of a runtime built from a config and a list of objects. `first` are those of them that
    /// are placed on it, in order; `side` is its side of its own table, `above` are its sides at the trustees
    /// `number + 1` and on, and `nested` are the objects that it holds at them, by their trustees' numbers, in the
    /// order of the build. Each side must still be as its table's `new` gave it. All room is reserved, that of
    /// [`TrusteeState::new`]. An error is want of memory, and hands all back.
    pub fn new(
        alloc: Global,
        number: u32,
        config: Config,
        first: Vec<First<S>>,
        side: P::TrusteeSide,
        above: Vec<P::ClientSide>,
        nested: Vec<(u32, Name)>,
    ) -> Result<Trustee<S, P>, TrusteeRefused<S, P>>
        requires begins { IsBeginnable S S.Op S.Reply S.Task number config first.items nested.items (length above.items) }
        requires home { IsNewHome (P.theory.trustee_view side) }
        requires seats { All (λ seat. IsNewSeat (config.clients + number) (P.theory.client_view seat)) above.items }
        ensures begun { IfOk result (λ t. HasBegun P.theory S.kind number config first.items t) }
        ensures side { IfOk result (λ t. t.side ≡ side) }
        ensures above { IfOk result (λ t. t.above.items ≡ above.items) }
        ensures nested { IfOk result (λ t. t.nested.items ≡ nested.items) }
        ensures moved { IfOk result (λ t. t.moved ≡ 0) }
        ensures first_back { IfErr result (λ back. back.first.items ≡ first.items) }
        ensures side_back { IfErr result (λ back. back.side ≡ side) }
        ensures above_back { IfErr result (λ back. back.above.items ≡ above.items) }
        ensures nested_back { IfErr result (λ back. back.nested.items ≡ nested.items) }
    {
        let Ok(lanes) = new_lanes(alloc, number + 1, above.len(), config.objects, &nested) else {
            return Err(TrusteeRefused {
                first,
                side,
                above,
                nested,
            });
        };
        let Ok(held) = held_by(alloc, number, &lanes) else {
            return Err(TrusteeRefused {
                first,
                side,
                above,
                nested,
            });
        };
        match TrusteeState::new(alloc, number, config, first) {
            Ok(state) => Ok(Trustee {
                number,
                clients: config.clients,
                state,
                side,
                since: GhostList::new(),
                above,
                lanes,
                nested,
                held,
                moved: 0,
            }),
            Err(first) => Err(TrusteeRefused {
                first,
                side,
                above,
                nested,
            }),
        }
    }

    /// What its last turn moved, 0 before the first: the batches that it published, collected and answered, and the
    /// launched work that it resumed, together, or `u64::MAX` where that is more. It tells this of a turn that
    /// ended the trustee too. It takes constant time, as the next does.
    pub fn moved(&self) -> u64
        ensures { result ≡ self.now.moved }
    {
        self.moved
    }

    /// How many requests are in its log, or `u64::MAX` where that is more.
    pub fn requests_run(&self) -> u64
        ensures { TellsRun P.theory S.kind self.now result }
    {
        self.state.requests_run()
    }

    /// At each side above, in order: looks for answers where a batch is out, else sends the first asks that wait. How
    /// many batches were moved.
    fn exchange_above(&mut self, tables: &mut [P]) -> u64
        requires { IsReady P.theory S.kind tables.old self.old }
        ensures ready { IsMidway P.theory S.kind tables.new self.new }
        ensures exchanges { (was : P) → slice_get tables.old self.old.number ≡ Some was → ExchangesAll P.theory (P.theory.opening was) tables.old tables.new self.old self.new }
        ensures as_many { length self.new.above.items ≡ length self.old.above.items }
        ensures moved { result ≡ all_moves_up (ups_of P.theory self.old) (ups_of P.theory self.new) }
        ensures most { result ≤ length self.old.above.items }
        ensures tables { KeepsAbove P.theory tables.old tables.new (self.old.number + 1) (self.old.clients + self.old.number) }
        ensures only { self.new ≡ record self.old { above = self.new.above; lanes = self.new.lanes } }
    {
        go_above::<S, P, Exchange>(tables, self.number + 1, &mut self.above, &mut self.lanes)
    }

    /// Serves each place of its own table once, in order. At how many of them it found a batch.
    fn serve_table<G: Gate>(&mut self, tables: &mut [P], gate: &G) -> u64
        requires { IsReady P.theory S.kind tables.old self.old }
        ensures ready { IsReady P.theory S.kind tables.new self.new }
        ensures serves { (was now : P) → slice_get tables.old self.old.number ≡ Some was → slice_get tables.new self.old.number ≡ Some now → ServesAll P.theory S.kind was now self.old.side self.new.side }
        ensures goes_on { GoesOn (done_by P.theory self.old) (done_by P.theory self.new) }
        ensures found { result ≡ found_below (self.old.clients + self.old.number) (P.theory.trustee_view self.new.side) }
        ensures most { result ≤ self.old.clients + self.old.number }
        ensures tables { KeepsOwn P.theory tables.old tables.new self.old.number }
        ensures only { self.new ≡ record self.old { side = self.new.side; state = self.new.state; since = self.new.since } }
    {
        let places = self.clients + self.number;
        let number = self.number as usize;
        let table = &mut tables[number];
        serve_places(
            table,
            &mut self.side,
            &mut self.state,
            &mut self.since,
            places,
            gate,
        )
    }

    /// Says `Bye` at each side above where that was not done, if `all` below have. How many were said.
    fn say_byes(&mut self, tables: &mut [P], all: bool) -> u64
        requires ready { IsReady P.theory S.kind tables.old self.old }
        requires told { TellsEnd S.kind self.old.state all }
        ensures ready { IsReady P.theory S.kind tables.new self.new }
        ensures says { EachAt (λ n was now before after. SaysByeAt P.theory (IsTrue all) was now before after) (self.old.number + 1) tables.old tables.new self.old.above.items self.new.above.items }
        ensures as_many { length self.new.above.items ≡ length self.old.above.items }
        ensures moved { result ≡ all_moves_up (ups_of P.theory self.old) (ups_of P.theory self.new) }
        ensures most { result ≤ length self.old.above.items }
        ensures tables { KeepsAbove P.theory tables.old tables.new (self.old.number + 1) (self.old.clients + self.old.number) }
        ensures only { self.new ≡ record self.old { above = self.new.above; lanes = self.new.lanes } }
    {
        let from = self.number + 1;
        if all {
            go_above::<S, P, SayBye>(tables, from, &mut self.above, &mut self.lanes)
        } else {
            0
        }
    }

    /// Tells each reply that came to the work that asked, in order, and begins each launch that is the first of its
    /// object; each goes on until it asks above or ends. How many resumes were made, or `u64::MAX` where that is more.
    fn resume_all(&mut self) -> u64
        requires { (tables : List P) × IsMidway P.theory S.kind tables self.old }
        ensures ready { (tables : List P) → IsMidway P.theory S.kind tables self.old → IsReady P.theory S.kind tables self.new }
        ensures resumed { HasResumed P.theory S.kind self.old self.new result }
        ensures only { self.new ≡ record self.old { state = self.new.state; since = self.new.since; lanes = self.new.lanes } }
    {
        resume_lanes(
            &mut self.state,
            self.number,
            &self.held,
            &mut self.since,
            &mut self.lanes,
        )
    }

    /// Makes one turn. At each greater trustee it looks for answers if a batch is out, and else sends the first asks that
    /// wait, at most 16. Then it goes on with launched work: each reply that came is told to the work that asked,
    /// and each launch that is the first of its object begins, until it asks above or ends. Then it looks once at each
    /// place of its own table, in order, runs each batch that it finds, each request once it has passed the gate, and
    /// answers it. Where every place below has said `Bye`, it says `Bye` above.
    ///
    /// `tables[t]` is trustee `t`'s table. Beside what the operations, the tasks and the gate do it never waits and never
    /// allocates. Its time is a look for each place and each greater trustee, the requests that it runs, and a
    /// constant for each resume.
    pub fn serve_turn<G: Gate>(&mut self, tables: &mut [P], gate: &G) -> Served
        requires ready { IsReady P.theory S.kind tables.old self.old }
        ensures ready { IsReady P.theory S.kind tables.new self.new }
        ensures turned { (was now : P) → slice_get tables.old self.old.number ≡ Some was → slice_get tables.new self.old.number ≡ Some now → HasTurned P.theory S.kind was now self.old self.new result }
        ensures above { HasGoneUp P.theory tables.old tables.new self.old self.new }
        ensures tables { KeepsTables P.theory tables.old tables.new self.old.number (self.old.clients + self.old.number) }
        ensures parts { KeepsParts self.old self.new }
    {
        let exchanged = self.exchange_above(tables);
        let resumed = self.resume_all();
        let found = self.serve_table(tables, gate);
        let all = self.state.is_closed();
        let said = self.say_byes(tables, all);
        let over = are_over(self.lanes.as_slice());
        let answered = exchanged + found;
        let moved = resumed.saturating_add(answered + said);
        self.moved = moved;
        outcome(is_both(all, over), moved)
    }
}
