//! The command at work.
ghost use Rattle.std.specs.Prelude.{◌≡◌, ℕ, ◌+◌, ◌<◌, ◌≤◌, ◌^◌, ◌↔◌, ◌≢◌, true, false, None, List, [], ◌∷◌, ◌++◌, length, IfOk};
ghost use Rattle.std.specs.List.{AllByRecursion};
ghost use Rattle.tm_model.specs.State.{State};
ghost use Rattle.tm_client.specs.Clients.{IsClient};
ghost use Rattle.tm_seq.specs.declared.sum.Sum.TheVariants as sum;
ghost use Rattle.tm_asking.specs.Asking.{IsAsking, NoneCounts, sides_of, AreReplied};
ghost use Rattle.mc_model.specs.declared.reply.ShardReply.{ShardReply};
ghost use Rattle.mc_model.specs.declared.reply.ShardReply.TheVariants.{Missing};
ghost use Rattle.mc_model.specs.Showing.{shown_of};
ghost use Rattle.mc_next.specs.Parts.{Named, StoreView, StoreQuestion};
ghost use Rattle.mc_next.specs.Works.{left_of, StoreState, IsOfStore, IsWork, MayAskFor, HasAskedPieces, HasTakenReplies, HasTried, IsFullFor};
ghost use Rattle.mc_next.specs.Steps.{HasTakenSome};
ghost use Rattle.mc_item.specs.declared.limits.TheConstants.{CLASSES};
ghost use Rattle.mc_next.specs.declared.piece.Piece.{Piece};
ghost use Rattle.mc_next.specs.declared.piece.Piece.TheVariants as piece;
ghost use Rattle.mc_route.specs.Plans.{frame_of};
ghost use Rattle.mc_route.specs.declared.desk.DeskTask.{DeskTask};
ghost use Rattle.mc_model.specs.declared.message.Command.{Command};

use crate::piece::Piece;
use crate::todo::{Todo, count_of};
use mc_item::CLASSES;
use mc_model::{Command, ShardReply, Shown};
use mc_route::{DeskTask, Frame, Planned, ShardPart, Store, join, plan};
use mc_shard::NoTask;
use std::alloc::{AllocError, Global};
use tm_asking::{Asking, none_counts};
use tm_client::{Client, Trust};
use tm_pair::PairTable;
use tm_seq::Sum;

/// A command that was taken: what is still to be asked for it, the replies that came, and what is kept to show them.
#[derive(Drop)]
pub(crate) struct Work {
    pub(crate) frame: Frame,
    pub(crate) todo: Todo,
    pub(crate) asking: Asking<Store>,
}

// The work that is the desk's.
fn of_desk(task: Sum<NoTask, DeskTask>) -> DeskTask
    requires { (work : DeskTask) × (task ≡ sum.Second work) }
    ensures { task ≡ sum.Second result }
{
    match task {
        Sum::Second(work) => work,
        Sum::First(_) => unreachable!(),
    }
}

impl Work {
    /// A command, planned at a moment for so many trustees, of which nothing is asked. An `Err`, for want of memory, drops
    /// the command.
    pub(crate) fn of(
        alloc: Global,
        command: Command,
        moment: u64,
        trustees: u32,
    ) -> Result<Work, AllocError>
        ensures { IfOk result (λ w. (named : Named) → IsWork named trustees command moment [] w) }
    {
        let Planned { ask, frame } = plan(alloc, command, moment, trustees)?;
        let asking = Asking::new(alloc, count_of(&ask))?;
        let todo = Todo::of(alloc, ask);
        Ok(Work {
            frame,
            todo,
            asking,
        })
    }

    /// Whether all was asked.
    pub(crate) fn is_asked(&self) -> bool
        ensures { (result ≡ true) ↔ (left_of self.now.todo ≡ []) }
    {
        self.todo.is_empty()
    }

    /// Whether all was asked, and no request counts any more.
    pub(crate) fn is_replied<P: PairTable<Store>>(
        &self,
        client: &Client<Store, u64, P>,
        trustees: usize,
    ) -> bool
        requires many { trustees ≡ length client.now.books.lanes.items }
        requires few { trustees < 2 ^ 32 }
        ensures asked { (result ≡ true) → left_of self.now.todo ≡ [] }
        ensures none { (result ≡ true) → NoneCounts client.now.books }
        ensures counts { (result ≡ false) → left_of self.now.todo ≡ [] → ¬ (NoneCounts client.now.books) }
    {
        if !self.is_asked() {
            return false;
        }
        none_counts(client, trustees)
    }

    // Asks an operation of a class, which was taken out. Where its trustee's window is full, it is put back.
    fn ask_part<P: PairTable<Store>>(
        &mut self,
        client: &mut Client<Store, u64, P>,
        trusts: &[Trust],
        part: ShardPart,
    ) -> bool
        requires may { MayAskFor P.theory.client_view trusts.now self.old client.old.books }
        requires free { self.old.todo.first ≡ None }
        requires room { self.old.asking.asked < length self.old.asking.replies.items }
        requires class { part.class < CLASSES }
        ensures { HasTried P.theory.client_view trusts.now (piece.Part part) result self.old self.new client.old.books client.new.books }
    {
        let ShardPart { class, op } = part;
        match self.asking.ask(client, &trusts[class as usize], op) {
            Ok(()) => true,
            Err(op) => {
                self.todo.put_back(Piece::Part(ShardPart { class, op }));
                false
            }
        }
    }

    // Asks work of the desk, likewise.
    fn ask_launch<P: PairTable<Store>>(
        &mut self,
        client: &mut Client<Store, u64, P>,
        trusts: &[Trust],
        task: DeskTask,
    ) -> bool
        requires may { MayAskFor P.theory.client_view trusts.now self.old client.old.books }
        requires free { self.old.todo.first ≡ None }
        requires room { self.old.asking.asked < length self.old.asking.replies.items }
        ensures { HasTried P.theory.client_view trusts.now (piece.Launch task) result self.old self.new client.old.books client.new.books }
    {
        match self
            .asking
            .launch(client, &trusts[CLASSES as usize], Sum::Second(task))
        {
            Ok(()) => true,
            Err(back) => {
                self.todo.put_back(Piece::Launch(of_desk(back)));
                false
            }
        }
    }

    // Asks one question, likewise.
    fn ask_one<P: PairTable<Store>>(
        &mut self,
        client: &mut Client<Store, u64, P>,
        trusts: &[Trust],
        piece: Piece,
    ) -> bool
        requires may { MayAskFor P.theory.client_view trusts.now self.old client.old.books }
        requires free { self.old.todo.first ≡ None }
        requires room { self.old.asking.asked < length self.old.asking.replies.items }
        requires class { IsOfStore piece }
        ensures { HasTried P.theory.client_view trusts.now piece result self.old self.new client.old.books client.new.books }
    {
        match piece {
            Piece::Part(part) => self.ask_part(client, trusts, part),
            Piece::Launch(task) => self.ask_launch(client, trusts, task),
        }
    }

    /// Asks what is still to be asked, in order, as far as the windows of the trustees allow. Whether something was asked.
    pub(crate) fn ask_on<P: PairTable<Store>>(
        &mut self,
        client: &mut Client<Store, u64, P>,
        trusts: &[Trust],
    ) -> bool
        requires may { MayAskFor P.theory.client_view trusts.now self.old client.old.books }
        requires room { self.old.asking.asked + length (left_of self.old.todo) ≤ length self.old.asking.replies.items }
        requires classes { AllByRecursion IsOfStore (left_of self.old.todo) }
        ensures asked { (pieces : List Piece) × (left_of self.old.todo ≡ pieces ++ left_of self.new.todo)
            × ((result ≡ true) ↔ (pieces ≢ []))
            × HasAskedPieces P.theory.client_view trusts.now pieces self.old self.new client.old.books client.new.books }
        ensures full { (piece : Piece) (others : List Piece) → left_of self.new.todo ≡ piece ∷ others → IsFullFor (length client.old.books.lanes.items) piece client.new.books }
        ensures stays { (result ≡ false) → (client.new ≡ client.old) × (left_of self.new.todo ≡ left_of self.old.todo) }
    {
        let mut asked = false;
        'pieces: while let Some(piece) = self.todo.take() {
            if !self.ask_one(client, trusts, piece) {
                return asked;
            }
            asked = true;
        }
        asked
    }

    /// Takes in the replies that came. Whether there was one.
    pub(crate) fn take_all<P: PairTable<Store>>(
        &mut self,
        client: &mut Client<Store, u64, P>,
    ) -> bool
        requires client { (openings : ℕ → StoreState) × IsClient P.theory.client_view openings client.old.books }
        requires asking { (was : ℕ → StoreView) × (asked : List StoreQuestion) × IsAsking P.theory.client_view Missing was asked self.old.asking.replies.items client.old.books }
        ensures taken { HasTakenReplies P.theory.client_view self.old self.new client.old.books client.new.books }
        ensures none { client.new.books.arrived.items ≡ [] }
        ensures took { (result ≡ true) → HasTakenSome client.old.books client.new.books }
        ensures stays { (result ≡ false) → (client.new ≡ client.old) × (self.new ≡ self.old) }
    {
        let mut took = false;
        'replies: while let Some(_) = self.asking.take(client, ShardReply::Missing) {
            took = true;
        }
        took
    }

    /// What the command shows, where all was asked and all replies are there. An `Err`, for want of memory, drops them.
    pub(crate) fn show<P: PairTable<Store>>(
        self,
        alloc: Global,
        client: &Client<Store, u64, P>,
    ) -> Result<Shown, AllocError>
        requires all { self.asking.asked ≡ length self.asking.replies.items }
        requires none { NoneCounts client.now.books }
        requires client { (openings : ℕ → StoreState) × IsClient P.theory.client_view openings client.now.books }
        ensures { (replies : List ShardReply)
            × ((was : ℕ → StoreView) (asked : List StoreQuestion) → length asked ≡ self.asking.asked → IsAsking P.theory.client_view Missing was asked self.asking.replies.items client.now.books
            → AreReplied P.theory.client_view Missing was asked replies client.now.books
            × ((more : List ShardReply) → IsAsking P.theory.client_view Missing (sides_of P.theory.client_view client.now.books) [] more client.now.books))
            × IfOk result (λ shown. (command : Command) → self.frame ≡ frame_of command → shown ≡ shown_of command replies) }
    {
        let Work {
            frame,
            todo: _,
            asking,
        } = self;
        let replies = asking.into_replies(client);
        join(alloc, frame, replies)
    }
}
