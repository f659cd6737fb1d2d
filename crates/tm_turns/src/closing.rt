//! Everything is closed: what was asked is served, and every trustee ends.
ghost use Rattle.std.specs.Prelude.{◌≡◌, ◌≤◌, ℕ, [], length, vec_capacity};
ghost use Rattle.tm_model.specs.State.{State};
ghost use Rattle.tm_pair.specs.Plain.{plain_theory};
ghost use Rattle.tm_client.specs.Clients.{IsClient};
ghost use Rattle.tm_turns.specs.Whole.{AreTurns, Keeps};
ghost use Rattle.tm_turns.specs.Closing.{HasShut, TakesOne, HasTakenAll, AreRuns, ClientsShut, ClientsTake, Closes};

use crate::turns::Turns;
use tm_base::Gate;
use tm_client::Client;
use tm_pair::{FitsTable, PlainTable};
use tm_trustee::Trustee;

/// Closes a client at each of so many trustees.
fn shut<S: FitsTable, C: Drop>(client: &mut Client<S, C, PlainTable<S>>, trustees: u32)
    requires { trustees ≡ length client.old.books.lanes.items }
    ensures shut { HasShut client.old.books client.new.books }
    ensures client { (openings : ℕ → State S S.Op S.Reply S.Task) → IsClient (plain_theory S.kind).client_view openings client.old.books → IsClient (plain_theory S.kind).client_view openings client.new.books }
{
    for trustee in 0..trustees {
        client.close(trustee);
    }
}

/// Takes the first of what arrived at a client, and drops it. Whether something was there.
// A function of its own, so that the loop drops nothing.
fn take_one<S: FitsTable, C: Drop>(client: &mut Client<S, C, PlainTable<S>>) -> bool
    requires client { (openings : ℕ → State S S.Op S.Reply S.Task) × IsClient (plain_theory S.kind).client_view openings client.old.books }
    ensures takes { TakesOne result client.old.books client.new.books }
    ensures client { (openings : ℕ → State S S.Op S.Reply S.Task) → IsClient (plain_theory S.kind).client_view openings client.old.books → IsClient (plain_theory S.kind).client_view openings client.new.books }
{
    client.next().is_some()
}

/// Takes what arrived at a client, and drops it.
fn take_all<S: FitsTable, C: Drop>(client: &mut Client<S, C, PlainTable<S>>)
    requires client { (openings : ℕ → State S S.Op S.Reply S.Task) × IsClient (plain_theory S.kind).client_view openings client.old.books }
    ensures taken { HasTakenAll client.old.books client.new.books }
    ensures client { (openings : ℕ → State S S.Op S.Reply S.Task) → IsClient (plain_theory S.kind).client_view openings client.old.books → IsClient (plain_theory S.kind).client_view openings client.new.books }
{
    while take_one(client) {}
}

/// How many requests each trustee has run, in a list with room for them.
fn count_all<S: FitsTable>(trustees: &[Trustee<S, PlainTable<S>>], counts: Vec<u64>) -> Vec<u64>
    requires none { counts.items ≡ [] }
    requires room { length trustees.now ≤ vec_capacity counts }
    ensures { AreRuns S.kind trustees.now result.items }
{
    let mut counts = counts;
    for trustee in trustees {
        counts.push_reserved(trustee.requests_run());
    }
    counts
}

impl<S: FitsTable, C: Drop> Turns<S, C> {
    /// Closes each client at each trustee.
    fn shut_clients(&mut self)
        requires are { AreTurns S.kind self.old }
        ensures shut { ClientsShut self.old self.new }
        ensures keeps { Keeps S.kind self.old self.new }
    {
        let trustees = self.tables.len() as u32;
        let clients = self.clients.len();
        for client in 0..clients {
            shut(&mut self.clients[client], trustees);
        }
    }

    /// Takes what arrived at each client, and drops it.
    fn take_answers(&mut self)
        requires are { AreTurns S.kind self.old }
        ensures takes { ClientsTake self.old self.new }
        ensures keeps { Keeps S.kind self.old self.new }
    {
        let clients = self.clients.len();
        for client in 0..clients {
            take_all(&mut self.clients[client]);
        }
    }

    /// Closes each client at each trustee, makes turns until nothing moves, takes and drops the answers that came, and makes
    /// turns until nothing moves again. Then all that was asked has been served, and every trustee has ended. How many
    /// requests each has run since it was built, in their order, or `u64::MAX` where that is more; each client's `Bye` at it
    /// counts too, and that of each lower trustee. It takes no memory, and always returns.
    pub fn close<G: Gate>(self, gate: &G) -> Vec<u64>
        requires are { AreTurns S.kind self }
        ensures { Closes S.kind self result.items }
    {
        let mut turns = self;
        turns.shut_clients();
        turns.run(&[], gate);
        turns.take_answers();
        turns.run(&[], gate);
        let Turns {
            clients: _,
            tables: _,
            trustees,
            counts,
        } = turns;
        count_all(trustees.as_slice(), counts)
    }
}
