//! A turn of a client at one trustee.
ghost use Rattle.std.specs.Prelude.{◌≡◌, ◌≢◌, ℕ, ◌<◌, false, length, IsTrue};
ghost use Rattle.std.specs.declared.option.Option.TheVariants.{None};
ghost use Rattle.tm_model.specs.State.{State};
ghost use Rattle.tm_client.specs.Asking.{At};
ghost use Rattle.tm_client.specs.Clients.{IsClient};
ghost use Rattle.tm_client.specs.Turns.{HasTurned};

use crate::answers::Turn;
use crate::client::Client;
use crate::post::post_due;
use crate::turning::{room_of, take_in};
use tm_pair::{Collected, FitsBatches, PairTable};

impl<S: FitsBatches, C: Drop, P: PairTable<S>> Client<S, C, P> {
    /// Makes one turn at a trustee, of which `table` is the table. Where a batch is out, it looks for the answers,
    /// and takes in those that it finds. Else it publishes what is due: the first of the requests that wait, at most
    /// 16; where none waits, the `Bye`, where `close` was called, none was sent and nothing counts; else an empty
    /// batch, where no `Bye` was sent and `fetch` was called since the last batch or a launch lacks its completion.
    /// With a batch goes room for as many gifts as trusts are free, at most 16.
    ///
    /// It says what it did: that answers came, that none did, that a batch went, or that nothing was out and
    /// nothing due. It takes a constant time and what the batch costs, allocates nothing and never waits. A
    /// completion costs a constant time where it is that of the launch whose ticket came first of those that lack
    /// theirs, else a pass over these, at most 64.
    pub fn turn(&mut self, table: &mut P, trustee: u32) -> Turn
        requires trustee { trustee < length self.old.books.lanes.items }
        requires mine { At self.old.books trustee (λ lane. P.theory.HasClient table.old lane.side) }
        requires client { (openings : ℕ → State S S.Op S.Reply S.Task) × (openings trustee ≡ P.theory.opening table.old) × IsClient P.theory.client_view openings self.old.books }
        ensures turned { HasTurned P.theory S.kind trustee result table.old table.new self.old.books self.new.books }
        ensures client { (openings : ℕ → State S S.Op S.Reply S.Task) → openings trustee ≡ P.theory.opening table.old → IsClient P.theory.client_view openings self.old.books → IsClient P.theory.client_view openings self.new.books }
    {
        if self.is_out(trustee) {
            self.look(table, trustee)
        } else {
            self.send(table, trustee)
        }
    }

    /// Whether a batch is out at a trustee.
    fn is_out(&self, trustee: u32) -> bool
        requires trustee { trustee < length self.now.books.lanes.items }
        requires client { (openings : ℕ → State S S.Op S.Reply S.Task) × IsClient P.theory.client_view openings self.now.books }
        ensures out { IsTrue result → At self.now.books trustee (λ lane. (P.theory.client_view lane.side).out ≢ None) }
        ensures free { (result ≡ false) → At self.now.books trustee (λ lane. (P.theory.client_view lane.side).out ≡ None) }
    {
        self.books.lanes[trustee as usize].out
    }

    /// Looks for the answers to the batch that is out at a trustee, and takes in what came.
    pub(crate) fn look(&mut self, table: &mut P, trustee: u32) -> Turn
        requires trustee { trustee < length self.old.books.lanes.items }
        requires out { At self.old.books trustee (λ lane. (P.theory.client_view lane.side).out ≢ None) }
        requires mine { At self.old.books trustee (λ lane. P.theory.HasClient table.old lane.side) }
        requires client { (openings : ℕ → State S S.Op S.Reply S.Task) × (openings trustee ≡ P.theory.opening table.old) × IsClient P.theory.client_view openings self.old.books }
        ensures turned { HasTurned P.theory S.kind trustee result table.old table.new self.old.books self.new.books }
        ensures client { (openings : ℕ → State S S.Op S.Reply S.Task) → openings trustee ≡ P.theory.opening table.old → IsClient P.theory.client_view openings self.old.books → IsClient P.theory.client_view openings self.new.books }
    {
        let books = &mut self.books;
        match table.collect(&mut books.lanes[trustee as usize].side) {
            Collected::Answers(answers) => Turn::Got(take_in(books, trustee, answers)),
            Collected::Pending => Turn::Pending,
            Collected::Idle => unreachable!(),
        }
    }

    /// Publishes what is due at a trustee where nothing is out, with room for as many gifts as trusts are free, at
    /// most 16.
    pub(crate) fn send(&mut self, table: &mut P, trustee: u32) -> Turn
        requires trustee { trustee < length self.old.books.lanes.items }
        requires free { At self.old.books trustee (λ lane. (P.theory.client_view lane.side).out ≡ None) }
        requires mine { At self.old.books trustee (λ lane. P.theory.HasClient table.old lane.side) }
        requires client { (openings : ℕ → State S S.Op S.Reply S.Task) × (openings trustee ≡ P.theory.opening table.old) × IsClient P.theory.client_view openings self.old.books }
        ensures turned { HasTurned P.theory S.kind trustee result table.old table.new self.old.books self.new.books }
        ensures client { (openings : ℕ → State S S.Op S.Reply S.Task) → openings trustee ≡ P.theory.opening table.old → IsClient P.theory.client_view openings self.old.books → IsClient P.theory.client_view openings self.new.books }
    {
        let books = &mut self.books;
        if books.lanes[trustee as usize].is_idle() {
            return Turn::Idle;
        }
        let room = room_of(books.most, books.held.len(), books.coming);
        let count = post_due(table, &mut books.lanes[trustee as usize], room);
        books.coming += room;
        Turn::Sent(count)
    }
}
