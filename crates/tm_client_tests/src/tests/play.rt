//! Two clients with the greater trustee and the tables, and the calls of the tests at them.
ghost use Rattle.std.specs.Prelude.{◌<◌};
ghost use Rattle.tm_client_tests.specs.Playing.{IsPlaying};

use tm_base::Gate;
use tm_client::{Client, Got, Refused, Trust, Turn};
use tm_pair::{FitsBatches, PairTable};
use tm_trustee::{Served, Trustee};

/// Two clients by their numbers, the tables of both trustees, and the greater of these, of which all calls ask.
#[derive(Drop)]
pub(super) struct Play<S: FitsBatches, P: PairTable<S>> {
    pub(super) clients: Vec<Client<S, u32, P>>,
    pub(super) tables: Vec<P>,
    pub(super) trustee: Trustee<S, P>,
}

impl<S: FitsBatches, P: PairTable<S>> Play<S, P> {
    /// Client `who` asks for an operation by a trust.
    pub(super) fn apply(
        &mut self,
        who: usize,
        trust: &Trust,
        op: S::Op,
        after: u32,
    ) -> Result<(), Refused<(S::Op, u32)>>
        requires plays { IsPlaying P.theory S.kind self.old.tables.items self.old.trustee self.old.clients.items }
        requires who { who < 2 }
        ensures { IsPlaying P.theory S.kind self.new.tables.items self.new.trustee self.new.clients.items }
    {
        self.clients[who].apply_then(trust, op, after)
    }

    /// It launches work by a trust.
    pub(super) fn launch(
        &mut self,
        who: usize,
        trust: &Trust,
        task: S::Task,
        after: u32,
    ) -> Result<(), Refused<(S::Task, u32)>>
        requires plays { IsPlaying P.theory S.kind self.old.tables.items self.old.trustee self.old.clients.items }
        requires who { who < 2 }
        ensures { IsPlaying P.theory S.kind self.new.tables.items self.new.trustee self.new.clients.items }
    {
        self.clients[who].launch(trust, task, after)
    }

    /// It entrusts a value.
    pub(super) fn entrust(
        &mut self,
        who: usize,
        value: S,
        after: u32,
    ) -> Result<(), Refused<(S, u32)>>
        requires plays { IsPlaying P.theory S.kind self.old.tables.items self.old.trustee self.old.clients.items }
        requires who { who < 2 }
        ensures { IsPlaying P.theory S.kind self.new.tables.items self.new.trustee self.new.clients.items }
    {
        self.clients[who].entrust(1, value, after)
    }

    /// It grants a client one more hold.
    pub(super) fn grant(
        &mut self,
        who: usize,
        trust: &Trust,
        to: u32,
        after: u32,
    ) -> Result<(), Refused<u32>>
        requires plays { IsPlaying P.theory S.kind self.old.tables.items self.old.trustee self.old.clients.items }
        requires who { who < 2 }
        ensures { IsPlaying P.theory S.kind self.new.tables.items self.new.trustee self.new.clients.items }
    {
        self.clients[who].grant(trust, to, after)
    }

    /// It gives a hold up.
    pub(super) fn release(
        &mut self,
        who: usize,
        trust: Trust,
        after: u32,
    ) -> Result<(), Refused<(Trust, u32)>>
        requires plays { IsPlaying P.theory S.kind self.old.tables.items self.old.trustee self.old.clients.items }
        requires who { who < 2 }
        ensures { IsPlaying P.theory S.kind self.new.tables.items self.new.trustee self.new.clients.items }
    {
        self.clients[who].release(trust, after)
    }

    /// It asks for the value of an object back.
    pub(super) fn reclaim(
        &mut self,
        who: usize,
        trust: Trust,
        after: u32,
    ) -> Result<(), Refused<(Trust, u32)>>
        requires plays { IsPlaying P.theory S.kind self.old.tables.items self.old.trustee self.old.clients.items }
        requires who { who < 2 }
        ensures { IsPlaying P.theory S.kind self.new.tables.items self.new.trustee self.new.clients.items }
    {
        self.clients[who].reclaim(trust, after)
    }

    /// Its next turn fetches gifts.
    pub(super) fn fetch(&mut self, who: usize)
        requires plays { IsPlaying P.theory S.kind self.old.tables.items self.old.trustee self.old.clients.items }
        requires who { who < 2 }
        ensures { IsPlaying P.theory S.kind self.new.tables.items self.new.trustee self.new.clients.items }
    {
        self.clients[who].fetch(1);
    }

    /// It asks nothing more.
    pub(super) fn close(&mut self, who: usize)
        requires plays { IsPlaying P.theory S.kind self.old.tables.items self.old.trustee self.old.clients.items }
        requires who { who < 2 }
        ensures { IsPlaying P.theory S.kind self.new.tables.items self.new.trustee self.new.clients.items }
    {
        self.clients[who].close(1);
    }

    /// Its turn.
    pub(super) fn turn(&mut self, who: usize) -> Turn
        requires plays { IsPlaying P.theory S.kind self.old.tables.items self.old.trustee self.old.clients.items }
        requires who { who < 2 }
        ensures { IsPlaying P.theory S.kind self.new.tables.items self.new.trustee self.new.clients.items }
    {
        self.clients[who].turn(&mut self.tables[1], 1)
    }

    /// Its next answer.
    pub(super) fn next(&mut self, who: usize) -> Option<(u32, Got<S>)>
        requires plays { IsPlaying P.theory S.kind self.old.tables.items self.old.trustee self.old.clients.items }
        requires who { who < 2 }
        ensures { IsPlaying P.theory S.kind self.new.tables.items self.new.trustee self.new.clients.items }
    {
        self.clients[who].next()
    }

    /// Its next gift.
    pub(super) fn take_gift(&mut self, who: usize) -> Option<Trust>
        requires plays { IsPlaying P.theory S.kind self.old.tables.items self.old.trustee self.old.clients.items }
        requires who { who < 2 }
        ensures { IsPlaying P.theory S.kind self.new.tables.items self.new.trustee self.new.clients.items }
    {
        self.clients[who].take_gift()
    }

    /// Whether the answer to its `Bye` came.
    pub(super) fn is_closed(&self, who: usize) -> bool
        requires plays { IsPlaying P.theory S.kind self.now.tables.items self.now.trustee self.now.clients.items }
        requires who { who < 2 }
    {
        self.clients[who].is_closed(1)
    }

    /// How many of its requests count.
    pub(super) fn counting(&self, who: usize) -> u32
        requires plays { IsPlaying P.theory S.kind self.now.tables.items self.now.trustee self.now.clients.items }
        requires who { who < 2 }
    {
        self.clients[who].counting(1)
    }

    /// The trustee's turn.
    pub(super) fn serve<G: Gate>(&mut self, gate: &G) -> Served
        requires { IsPlaying P.theory S.kind self.old.tables.items self.old.trustee self.old.clients.items }
        ensures { IsPlaying P.theory S.kind self.new.tables.items self.new.trustee self.new.clients.items }
    {
        self.trustee.serve_turn(&mut self.tables, gate)
    }
}
