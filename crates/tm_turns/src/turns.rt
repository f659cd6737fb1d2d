//! Clients and trustees on one thread.
ghost use Rattle.std.specs.Prelude.{◌≡◌, ℕ, ◌+◌, ◌<◌, ◌≤◌, length, nat_lt, ◌||◌};
ghost use Rattle.tm_turns.specs.Whole.{AreTurns, Keeps, OneGoodCoreEach, CallsKeep};
ghost use Rattle.tm_turns.specs.Going.{TurnsAt, TurnsBelow, ServesAt, Serves, Goes, AllGo, GoesRound, HasRun, has_moved};
ghost use Rattle.tm_turns.specs.Resting.{AreAtRest};
ghost use Rattle.tm_turns.specs.Driving.{DeedsKeep, DrivingEnds, ServesEach};

use tm_base::Gate;
use tm_client::{Client, Turn};
use tm_pair::{FitsTable, PlainTable};
use tm_trustee::{Served, Trustee};

/// Everything of one build, on one thread. The condition of each call is that the three lists are those of
/// one `build`, in its order.
#[derive(Drop)]
pub struct Turns<S: FitsTable, C> {
    /// The clients, in order.
    pub clients: Vec<Client<S, C, PlainTable<S>>>,
    /// The trustees' tables, in order.
    pub tables: Vec<PlainTable<S>>,
    /// The trustees, in order.
    pub trustees: Vec<Trustee<S, PlainTable<S>>>,
    // What `close` answers, for which room is reserved.
    pub(crate) counts: Vec<u64>,
}

/// All that stands on one thread shows, for each trustee, one good core: its log and its slots, of which each client
/// and each lower trustee sees its own.
pub fn one_good_core<S: FitsTable, C: Drop>(turns: &Turns<S, C>)
    requires { AreTurns S.kind turns.now }
    ensures { OneGoodCoreEach S.kind turns.now }
{
    let _ = turns;
}

/// What a client asks, takes and notes by itself, as `apply_then`, `next` or `close`, leaves everything that of one build:
/// so that turns may be made after it.
pub fn calls_keep<S: FitsTable, C: Drop>()
    ensures { CallsKeep C S.kind }
{}

/// A turn that a client makes at its trustee's table by itself, and not by a call of [`Turns`], leaves everything that of one
/// build: so that a client may be driven from outside.
pub fn deeds_keep<S: FitsTable, C: Drop>()
    ensures { DeedsKeep C S.kind }
{}

/// Who drives a client comes to an end: there is a number that what the client takes leaves, that each of its turns which
/// moves something lessens, and so do the serving turns of all trustees where it awaits answers.
pub fn driving_ends<S: FitsTable, C: Drop>()
    ensures { DrivingEnds C S.kind }
{}

/// Whether one of two things holds.
// A function of its own, so that the loop has no branch.
fn is_either(one: bool, other: bool) -> bool
    ensures { result ≡ (one || other) }
{
    one || other
}

/// Whether a client's turn at a trustee moved something.
fn is_move(answer: Turn) -> bool
    ensures { result ≡ has_moved answer }
{
    match answer {
        Turn::Sent(_) | Turn::Got(_) => true,
        Turn::Pending | Turn::Idle => false,
    }
}

impl<S: FitsTable, C: Drop> Turns<S, C> {
    /// Makes one serving turn of a trustee ([`Trustee::serve_turn`]).
    pub fn serve<G: Gate>(&mut self, trustee: u32, gate: &G) -> Served
        requires are { AreTurns S.kind self.old }
        requires trustee { trustee < length self.old.trustees.items }
        ensures serves { ServesAt S.kind trustee result self.old self.new }
        ensures keeps { Keeps S.kind self.old self.new }
    {
        let trustee = &mut self.trustees[trustee as usize];
        trustee.serve_turn(self.tables.as_mut_slice(), gate)
    }

    /// Makes a client's turn at one trustee.
    fn turn_at(&mut self, client: usize, trustee: usize) -> Turn
        requires are { AreTurns S.kind self.old }
        requires client { client < length self.old.clients.items }
        requires trustee { trustee < length self.old.tables.items }
        ensures { TurnsAt S.kind client trustee result self.old self.new }
    {
        let table = &mut self.tables[trustee];
        self.clients[client].turn(table, trustee as u32)
    }

    /// Makes a client's turn at every trustee, in order. Whether one of them moved something.
    fn turn_all(&mut self, client: usize) -> bool
        requires are { AreTurns S.kind self.old }
        requires client { client < length self.old.clients.items }
        ensures { TurnsBelow S.kind client (length self.old.tables.items) result self.old self.new }
    {
        let mut moved = false;
        let trustees = self.tables.len();
        for trustee in 0..trustees {
            let answer = self.turn_at(client, trustee);
            let more = is_move(answer);
            moved = is_either(moved, more);
        }
        moved
    }

    /// Makes a trustee's serving turn. Whether it moved something.
    fn serve_one<G: Gate>(&mut self, trustee: usize, gate: &G) -> bool
        requires are { AreTurns S.kind self.old }
        requires trustee { trustee < length self.old.trustees.items }
        ensures { Serves S.kind trustee result self.old self.new }
    {
        self.serve(trustee as u32, gate);
        self.trustees[trustee].moved() > 0
    }

    /// Makes one serving turn of each trustee, in order. How many of them moved something.
    pub fn serve_all<G: Gate>(&mut self, gate: &G) -> u64
        requires are { AreTurns S.kind self.old }
        ensures serves { ServesEach S.kind result self.old self.new }
        // No client changes.
        ensures clients { self.new.clients ≡ self.old.clients }
        ensures keeps { Keeps S.kind self.old self.new }
    {
        let mut moved = 0;
        for trustee in 0..self.trustees.len() {
            moved += u64::from(self.serve_one(trustee, gate));
        }
        moved
    }

    /// Makes the turn of a number. Whether it moved something.
    fn go<G: Gate>(&mut self, number: usize, gate: &G) -> bool
        requires are { AreTurns S.kind self.old }
        ensures { Goes S.kind number result self.old self.new }
    {
        let clients = self.clients.len();
        if number < clients {
            return self.turn_all(number);
        }
        let trustee = number - clients;
        if trustee < self.trustees.len() {
            return self.serve_one(trustee, gate);
        }
        false
    }

    /// Makes the turns of some numbers, in order. How many of them moved something.
    fn go_each<G: Gate>(&mut self, order: &[u32], gate: &G) -> u64
        requires are { AreTurns S.kind self.old }
        ensures { AllGo S.kind order.now result self.old self.new }
    {
        let mut moved = 0;
        for number in order {
            moved += u64::from(self.go(*number as usize, gate));
        }
        moved
    }

    /// Makes one turn of each client and each trustee, in order. How many of them moved something.
    fn go_round<G: Gate>(&mut self, gate: &G) -> u64
        requires are { AreTurns S.kind self.old }
        ensures { GoesRound S.kind result self.old self.new }
    {
        let mut moved = 0;
        let all = self.clients.len() + self.trustees.len();
        for number in 0..all {
            moved += u64::from(self.go(number, gate));
        }
        moved
    }

    /// Makes turns until nothing more moves: first those of the numbers of a list, in order, then those of all clients and
    /// all trustees, round after round, until a whole round moves nothing. A number below the clients' is that client's
    /// turn at every trustee; `clients + t` is trustee `t`'s serving turn; a greater one does nothing. It always returns,
    /// with the number of turns that moved something, or `u64::MAX` where that is greater.
    ///
    /// Then nothing waits to be published at any client, nothing is out, no launch is unfinished, and each trustee whose
    /// places have all said `Bye` has ended.
    pub fn run<G: Gate>(&mut self, order: &[u32], gate: &G) -> u64
        requires are { AreTurns S.kind self.old }
        ensures run { HasRun S.kind order.now result self.old self.new }
        ensures rest { AreAtRest S.kind self.new }
        ensures keeps { Keeps S.kind self.old self.new }
    {
        let mut moved = self.go_each(order, gate);
        let mut more = self.go_round(gate);
        while more > 0 {
            moved = moved.saturating_add(more);
            more = self.go_round(gate);
        }
        moved
    }
}
