//! A table whose sides are all in one thread.
ghost use Rattle.std.specs.Prelude.{◌≡◌, ◌<◌, IsOk, OnOk, OnErr, IfErr, ◌↔◌};
ghost use Rattle.std.specs.declared.option.Option.TheVariants.{None};
ghost use Rattle.tm_model.specs.State.{place_count};
ghost use Rattle.tm_pair.specs.Views.{hand_of};
ghost use Rattle.tm_pair.specs.Calls.{MaySend, Publishes, Collects, OnLook, Sees, MayAnswer, HasAnswered};
ghost use Rattle.tm_pair.specs.Moves.{answer_of};
ghost use Rattle.tm_pair.specs.Theory.{KeepsSides, KeepsClients};
ghost use Rattle.tm_pair.specs.declared.moves.Move.TheVariants.{Publish, See, Collect};
ghost use Rattle.tm_pair.specs.Plain.{opening_at, client_at, trustee_at, IsClientOf, IsTrusteeOf, HasDone, plain_theory};
ghost use Rattle.tm_pair.specs.Plain.{plain_laws};

use crate::fits_table::FitsTable;
use crate::moves::{Move, again, answered, collected, is_bounded, published, seen};
use crate::place::Place;
use crate::table::{Collected, Held, PairTable, Since};
use tm_batch::{AnswerBatch, Batch, Config, First};
use tm_ghost::GhostList;
use tm_seq::Entrusted;

/// A trustee's table in one thread. For contracts alone it keeps its number, the config and the list
/// of the build, and what was done at it, which tells the slots and the log that it stands for.
pub struct PlainTable<S: FitsTable> {
    pub(crate) places: Vec<Place<S>>,
    pub(crate) number: u32,
    pub(crate) config: Config,
    pub(crate) first: GhostList<First<S>>,
    pub(crate) past: GhostList<Move<S>>,
}

/// As a derived one, but proved here: a derived one is proved in each crate that drops a table.
impl<S: FitsTable> Drop for PlainTable<S> {
    fn drop(self) {
        let PlainTable {
            places: _,
            number: _,
            config: _,
            first: _,
            past: _,
        } = self;
    }
}

/// A client's side of a [`PlainTable`]. For contracts alone it keeps what was done at the table by
/// its last call.
#[derive(Drop)]
pub struct PlainClient<S: Entrusted> {
    pub(crate) place: u32,
    pub(crate) past: GhostList<Move<S>>,
}

/// The trustee's side of a [`PlainTable`]. For contracts alone it keeps what was done at the table
/// by its last call.
#[derive(Drop)]
pub struct PlainTrustee<S: Entrusted> {
    pub(crate) past: GhostList<Move<S>>,
}

impl<S: FitsTable> PairTable<S> for PlainTable<S> {
    type ClientSide = PlainClient<S>;

    type TrusteeSide = PlainTrustee<S>;

    ghost theory = { plain_theory S.kind };

    /// `did` tells the words, boxes, floors and looks exactly; with `Held` they are as before.
    fn publish(&mut self, side: &mut PlainClient<S>, batch: Batch<S>) -> Result<(), Held<S>>
        requires mine { IsClientOf S.kind self.old side.old }
        requires orderly { MaySend (opening_at self.old) (client_at side.old) batch.requests.items }
        ensures free { IsOk result ↔ ((client_at side.old).out ≡ None) }
        ensures ok { OnOk result (Publishes batch.requests.items batch.room (client_at side.old) (client_at side.new)) }
        ensures err { OnErr result (client_at side.new ≡ client_at side.old) }
        ensures back { IfErr result (λ held. held.0 ≡ batch) }
        ensures did { OnOk result (HasDone (Publish (client_at side.old).place batch) self.old self.new) }
        ensures stays { OnErr result (self.new ≡ self.old) }
        ensures keeps { KeepsSides (plain_theory S.kind) self.old self.new side.old side.new }
    {
        let place = side.place as usize;
        if !self.places[place].is_free() {
            return Err(Held(batch));
        }
        is_bounded(&batch);
        self.past = published(&self.past, side.place, &batch);
        side.past = again(&self.past);
        self.places[place].publish(batch);
        Ok(())
    }

    /// `did` tells the words, boxes, floors and looks exactly, and what stood in the box; with `Idle`
    /// they are as before.
    fn collect(&mut self, side: &mut PlainClient<S>) -> Collected<S>
        requires mine { IsClientOf S.kind self.old side.old }
        ensures collects { Collects (client_at side.old) (client_at side.new) result }
        ensures did { OnLook result (self.new ≡ self.old) (λ found. HasDone (Collect (client_at side.old).place found) self.old self.new) }
        ensures keeps { KeepsSides (plain_theory S.kind) self.old self.new side.old side.new }
    {
        let place = side.place as usize;
        if self.places[place].is_free() {
            return Collected::Idle;
        }
        let found = self.places[place].collect();
        self.past = collected(&self.past, side.place, &found);
        side.past = again(&self.past);
        found
    }

    /// `did` tells the words, boxes, floors and looks exactly, and what stood in the box: a batch is found
    /// exactly where one was asked.
    fn see(&mut self, side: &mut PlainTrustee<S>, client: u32) -> Option<Batch<S>>
        requires mine { IsTrusteeOf S.kind self.old side.old }
        requires in_range { client < place_count (opening_at self.old).setup }
        requires free { hand_of (trustee_at side.old) client ≡ None }
        ensures sees { Sees S.kind (opening_at self.old) client result (trustee_at side.old) (trustee_at side.new) }
        ensures did { HasDone (See client result) self.old self.new }
        ensures keeps { KeepsClients (plain_theory S.kind) self.old self.new side.new }
    {
        let given = self.places[client as usize].see();
        self.past = seen(&self.past, client, &given);
        side.past = again(&self.past);
        given
    }

    /// `did` tells the words, boxes, floors and looks exactly.
    fn answer<E: Since<S, S::Op, S::Reply, S::Task>>(
        &mut self,
        side: &mut PlainTrustee<S>,
        client: u32,
        answers: AnswerBatch<S>,
    )
        requires mine { IsTrusteeOf S.kind self.old side.old }
        requires may { MayAnswer S.kind (opening_at self.old) client E.resumes answers (trustee_at side.old) }
        ensures answers { HasAnswered client E.resumes answers (trustee_at side.old) (trustee_at side.new) }
        ensures did { HasDone (answer_of client E.resumes answers) self.old self.new }
        ensures keeps { KeepsClients (plain_theory S.kind) self.old self.new side.new }
    {
        self.past = answered::<S, E>(&self.past, client, &answers);
        side.past = again(&self.past);
        self.places[client as usize].answer(answers);
    }

    ghost laws = { plain_laws S.kind };
}
