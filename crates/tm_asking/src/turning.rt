//! The turns of a client at the trustees where a request counts.
ghost use Rattle.std.specs.Prelude.{◌≡◌, ℕ, ◌<◌, List, length};
ghost use Rattle.tm_model.specs.State.{State};
ghost use Rattle.tm_pair.specs.Views.{ClientView};
ghost use Rattle.tm_asking.specs.Asking.{IsAsking};
ghost use Rattle.tm_asking.specs.Questions.{Question};
ghost use Rattle.tm_asking.specs.Turning.{told_of, told_with, IsAtTables, TurnsWhereCounting, TurnsBelow};

use tm_client::{Client, Turn};
use tm_pair::{FitsBatches, PairTable};

/// What the turns at some trustees did.
#[derive(Debug, Clone, Copy, PartialEq, Eq)]
pub enum Turned {
    /// No request counts at one of them, so there was no turn.
    Nothing,
    /// Each turn looked for answers and found none.
    Pending,
    /// No turn sent a batch or got answers, and at one of them all had arrived, and waits to be taken.
    Arrived,
    /// A turn sent a batch or got answers. While a launch lacks its completion an empty batch is sent where none is out.
    Moved,
}

impl Turned {
    /// What a turn did.
    fn of(turn: Turn) -> Turned
        ensures { result ≡ told_of turn }
    {
        match turn {
            Turn::Pending => Turned::Pending,
            Turn::Idle => Turned::Arrived,
            Turn::Sent(_) | Turn::Got(_) => Turned::Moved,
        }
    }

    /// What turns did of which the first did this and the last that.
    fn with(self, last: Turned) -> Turned
        ensures { result ≡ told_with self last }
    {
        match (self, last) {
            (Turned::Nothing, told) => told,
            (Turned::Pending, Turned::Nothing) => Turned::Pending,
            (Turned::Pending, told) => told,
            (Turned::Arrived, Turned::Moved) => Turned::Moved,
            (Turned::Arrived, _) => Turned::Arrived,
            (Turned::Moved, _) => Turned::Moved,
        }
    }
}

/// Makes one turn at a trustee, where a request counts there.
fn turn_at<S: FitsBatches, P: PairTable<S>>(
    client: &mut Client<S, u64, P>,
    tables: &mut [P],
    trustee: usize,
) -> Turned
    requires home { (openings : ℕ → State S S.Op S.Reply S.Task) × IsAtTables P.theory openings tables.old client.old.books }
    requires trustee { trustee < length tables.old }
    ensures turned { TurnsWhereCounting P.theory S.kind trustee result tables.old client.old.books tables.new client.new.books }
    ensures home { (openings : ℕ → State S S.Op S.Reply S.Task) → IsAtTables P.theory openings tables.old client.old.books → IsAtTables P.theory openings tables.new client.new.books }
    ensures asks { (missing : S.Reply) (was : ℕ → ClientView S S.Op S.Reply S.Task) (asked : List (Question S S.Op S.Reply S.Task)) (replies : List S.Reply)
        → IsAsking P.theory.client_view missing was asked replies client.old.books → IsAsking P.theory.client_view missing was asked replies client.new.books }
    ensures held { client.new.books.held ≡ client.old.books.held }
{
    if client.counting(trustee as u32) == 0 {
        return Turned::Nothing;
    }
    Turned::of(client.turn(&mut tables[trustee], trustee as u32))
}

/// Makes one turn at each trustee where a request counts, in the order of their numbers, and no other. `tables` are the
/// tables of all trustees. Takes no memory, and never waits.
pub fn turn_where_counting<S: FitsBatches, P: PairTable<S>>(
    client: &mut Client<S, u64, P>,
    tables: &mut [P],
) -> Turned
    requires home { (openings : ℕ → State S S.Op S.Reply S.Task) × IsAtTables P.theory openings tables.old client.old.books }
    ensures turned { TurnsBelow P.theory S.kind (length tables.old) result tables.old client.old.books tables.new client.new.books }
    ensures home { (openings : ℕ → State S S.Op S.Reply S.Task) → IsAtTables P.theory openings tables.old client.old.books → IsAtTables P.theory openings tables.new client.new.books }
    ensures asks { (missing : S.Reply) (was : ℕ → ClientView S S.Op S.Reply S.Task) (asked : List (Question S S.Op S.Reply S.Task)) (replies : List S.Reply)
        → IsAsking P.theory.client_view missing was asked replies client.old.books → IsAsking P.theory.client_view missing was asked replies client.new.books }
    ensures held { client.new.books.held ≡ client.old.books.held }
{
    let mut told = Turned::Nothing;
    for trustee in 0..tables.len() {
        let here = turn_at(client, tables, trustee);
        told = told.with(here);
    }
    told
}
