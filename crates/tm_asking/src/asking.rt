//! What one message asks of a client, and the replies that came.
ghost use Rattle.std.specs.Prelude.{◌≡◌, ℕ, ◌+◌, ◌<◌, ◌++◌, ◌∷◌, [], length, List, IfOk, OnOk, OnErr, IfErr, MatchOption};
ghost use Rattle.tm_batch.specs.declared.message.Request.TheVariants.{Apply, Launch};
ghost use Rattle.tm_model.specs.State.{State};
ghost use Rattle.tm_pair.specs.Views.{ClientView};
ghost use Rattle.tm_client.specs.Asking.{HasAsked, HasRoom, IsFull};
ghost use Rattle.tm_client.specs.Clients.{IsClient};
ghost use Rattle.tm_asking.specs.Questions.{Question};
ghost use Rattle.tm_asking.specs.Turning.{IsAtTables};
ghost use Rattle.tm_asking.specs.Asking.{operation, launched, sides_of, IsAsking, AreReplied, AreBegun, AllOpen, NoneCounts, MayAskBy};
ghost use Rattle.tm_asking.specs.Noting.{GivesReply, reply_by, Says, HasNoted};

use std::alloc::{AllocError, Global};
use tm_client::{Client, Got, Trust};
use tm_pair::{FitsBatches, PairTable};
use tm_seq::Entrusted;

/// What one message asks: a place for the reply to each question, and how many questions were asked.
///
/// A question is an operation on the object of a trust, or work that is launched on it. The questions are asked in order,
/// each of the trustee of its trust. Their replies are put into their places as they come: those of operations come in the
/// order of the questions at each trustee, that of a launch once its work has ended.
#[derive(Drop)]
pub struct Asking<S: Entrusted> {
    // A place holds `S::no_memory()` until its reply was taken.
    pub(crate) replies: Vec<S::Reply>,
    pub(crate) asked: usize,
}

/// What was taken of a client.
#[derive(Drop)]
pub enum Taken<S: Entrusted> {
    /// A reply, which stands in its place.
    Reply,
    /// No ticket was left for a launch: the number of its question, counted from 0, and the task.
    TicketsSpent(usize, S::Task),
}

/// The reply by what a client handed out, and what is said of it.
fn noted<S: Entrusted>(place: usize, got: Got<S>, missing: S::Reply) -> (S::Reply, Taken<S>)
    requires { GivesReply got }
    ensures reply { result.0 ≡ reply_by missing got }
    ensures says { Says result.1 place got }
{
    match got {
        Got::Replied(reply) | Got::Finished(reply) => (reply, Taken::Reply),
        Got::TicketsSpent(task) => (missing, Taken::TicketsSpent(place, task)),
        _ => unreachable!(),
    }
}

impl<S: FitsBatches> Asking<S> {
    /// Room for the replies to so many questions, none of which was asked. An `Err` is want of memory.
    pub fn new(alloc: Global, count: usize) -> Result<Asking<S>, AllocError>
        ensures count { IfOk result (λ a. length a.replies.items ≡ count) }
        ensures asked { IfOk result (λ a. a.asked ≡ 0) }
    {
        let mut replies = Vec::new(alloc);
        for _ in 0..count {
            replies.push(S::no_memory())?;
        }
        Ok(Asking { replies, asked: 0 })
    }

    /// Asks the next question: an operation on the object of a trust. An `Err` hands the operation back, where as many
    /// requests count at its trustee as may, and nothing has changed. Takes a constant time and no memory.
    pub fn ask<P: PairTable<S>>(
        &mut self,
        client: &mut Client<S, u64, P>,
        trust: &Trust,
        op: S::Op,
    ) -> Result<(), S::Op>
        requires left { self.old.asked < length self.old.replies.items }
        requires client { (openings : ℕ → State S S.Op S.Reply S.Task) × IsClient P.theory.client_view openings client.old.books }
        requires may { MayAskBy client.old.books trust.now }
        ensures asked { OnOk result (self.new.asked ≡ self.old.asked + 1) }
        ensures asks { OnOk result ((missing : S.Reply) (was : ℕ → ClientView S S.Op S.Reply S.Task) (asked : List (Question S S.Op S.Reply S.Task)) → length asked ≡ self.old.asked
            → IsAsking P.theory.client_view missing was asked self.old.replies.items client.old.books
            → IsAsking P.theory.client_view missing was (asked ++ operation trust.now op ∷ []) self.new.replies.items client.new.books) }
        ensures replies { self.new.replies ≡ self.old.replies }
        ensures room { OnOk result (HasRoom client.old.books trust.now.trustee) }
        ensures full { OnErr result (IsFull client.old.books trust.now.trustee) }
        ensures back { IfErr result (λ back. back ≡ op) }
        ensures stays { OnErr result ((self.new ≡ self.old) × (client.new ≡ client.old)) }
        ensures does { OnOk result (HasAsked trust.now.trustee (Apply trust.now.name op) self.old.asked 0 client.old.books client.new.books) }
        ensures client { (openings : ℕ → State S S.Op S.Reply S.Task) → IsClient P.theory.client_view openings client.old.books → IsClient P.theory.client_view openings client.new.books }
    {
        match client.apply_then(trust, op, self.asked as u64) {
            Ok(()) => {
                self.asked += 1;
                Ok(())
            }
            Err(refused) => Err(refused.back.0),
        }
    }

    /// Asks the next question: work that is launched on the object of a trust, whose reply is the one with which the work
    /// ends. Until that was taken the launch counts at its trustee. An `Err` hands the task back, where as many requests
    /// count there as may, and nothing has changed. Takes a constant time and no memory.
    pub fn launch<P: PairTable<S>>(
        &mut self,
        client: &mut Client<S, u64, P>,
        trust: &Trust,
        task: S::Task,
    ) -> Result<(), S::Task>
        requires left { self.old.asked < length self.old.replies.items }
        requires client { (openings : ℕ → State S S.Op S.Reply S.Task) × IsClient P.theory.client_view openings client.old.books }
        requires may { MayAskBy client.old.books trust.now }
        ensures asked { OnOk result (self.new.asked ≡ self.old.asked + 1) }
        ensures asks { OnOk result ((missing : S.Reply) (was : ℕ → ClientView S S.Op S.Reply S.Task) (asked : List (Question S S.Op S.Reply S.Task)) → length asked ≡ self.old.asked
            → IsAsking P.theory.client_view missing was asked self.old.replies.items client.old.books
            → IsAsking P.theory.client_view missing was (asked ++ launched trust.now task ∷ []) self.new.replies.items client.new.books) }
        ensures replies { self.new.replies ≡ self.old.replies }
        ensures room { OnOk result (HasRoom client.old.books trust.now.trustee) }
        ensures full { OnErr result (IsFull client.old.books trust.now.trustee) }
        ensures back { IfErr result (λ back. back ≡ task) }
        ensures stays { OnErr result ((self.new ≡ self.old) × (client.new ≡ client.old)) }
        ensures does { OnOk result (HasAsked trust.now.trustee (Launch trust.now.name task) self.old.asked 0 client.old.books client.new.books) }
        ensures client { (openings : ℕ → State S S.Op S.Reply S.Task) → IsClient P.theory.client_view openings client.old.books → IsClient P.theory.client_view openings client.new.books }
    {
        match client.launch(trust, task, self.asked as u64) {
            Ok(()) => {
                self.asked += 1;
                Ok(())
            }
            Err(refused) => Err(refused.back.0),
        }
    }

    /// Takes what came first and was not taken, and puts its reply into its place: that of an operation, or the one with
    /// which launched work ended. Where no ticket was left for a launch, `missing` is put there, and its task comes back.
    /// `None` where nothing came, and then nothing has changed. Takes a constant time and no memory.
    pub fn take<P: PairTable<S>>(
        &mut self,
        client: &mut Client<S, u64, P>,
        missing: S::Reply,
    ) -> Option<Taken<S>>
        requires client { (openings : ℕ → State S S.Op S.Reply S.Task) × IsClient P.theory.client_view openings client.old.books }
        requires asking { (was : ℕ → ClientView S S.Op S.Reply S.Task) × (asked : List (Question S S.Op S.Reply S.Task)) × IsAsking P.theory.client_view missing was asked self.old.replies.items client.old.books }
        ensures asks { (was : ℕ → ClientView S S.Op S.Reply S.Task) (asked : List (Question S S.Op S.Reply S.Task))
            → IsAsking P.theory.client_view missing was asked self.old.replies.items client.old.books
            → IsAsking P.theory.client_view missing was asked self.new.replies.items client.new.books }
        ensures took { MatchOption result ((client.old.books.arrived.items ≡ []) × (client.new ≡ client.old) × (self.new ≡ self.old))
            (λ taken. HasNoted missing taken self.old.replies.items self.new.replies.items client.old.books client.new.books) }
        ensures count { length self.new.replies.items ≡ length self.old.replies.items }
        ensures asked { self.new.asked ≡ self.old.asked }
        ensures held { client.new.books.held ≡ client.old.books.held }
        ensures client { (openings : ℕ → State S S.Op S.Reply S.Task) → IsClient P.theory.client_view openings client.old.books → IsClient P.theory.client_view openings client.new.books }
    {
        let Some((number, got)) = client.next() else {
            return None;
        };
        let place = number as usize;
        let (reply, taken) = noted(place, got, missing);
        self.replies[place] = reply;
        Some(taken)
    }

    /// What the client's sides tell before all replies are there: at each trustee the first of the questions were sent.
    ///
    /// Nothing here runs: it says what holds of a message that is given up.
    pub fn so_far<P: PairTable<S>>(&self, client: &Client<S, u64, P>)
        ensures { (missing : S.Reply) (was : ℕ → ClientView S S.Op S.Reply S.Task) (asked : List (Question S S.Op S.Reply S.Task))
            → IsAsking P.theory.client_view missing was asked self.now.replies.items client.now.books
            → AreBegun P.theory.client_view was asked client.now.books }
    {
        let _ = client;
    }

    /// The replies, in the order of the questions, where all were asked and none counts any more.
    pub fn into_replies<P: PairTable<S>>(self, client: &Client<S, u64, P>) -> Vec<S::Reply>
        requires all { self.asked ≡ length self.replies.items }
        requires none { NoneCounts client.now.books }
        requires client { (openings : ℕ → State S S.Op S.Reply S.Task) × IsClient P.theory.client_view openings client.now.books }
        ensures replied { (missing : S.Reply) (was : ℕ → ClientView S S.Op S.Reply S.Task) (asked : List (Question S S.Op S.Reply S.Task)) → length asked ≡ self.asked
            → IsAsking P.theory.client_view missing was asked self.replies.items client.now.books
            → AreReplied P.theory.client_view missing was asked result.items client.now.books }
        // The next message may begin.
        ensures begins { (missing : S.Reply) (was : ℕ → ClientView S S.Op S.Reply S.Task) (asked : List (Question S S.Op S.Reply S.Task)) (other : S.Reply) (more : List S.Reply)
            → IsAsking P.theory.client_view missing was asked self.replies.items client.now.books
            → IsAsking P.theory.client_view other (sides_of P.theory.client_view client.now.books) [] more client.now.books }
    {
        let _ = client;
        let Asking { replies, asked: _ } = self;
        replies
    }
}

/// A client at which no request counts, and that was closed for no trustee, may begin its first message.
///
/// Nothing here runs: it says what holds of such a client at the tables of its trustees.
pub fn may_begin<S: FitsBatches, P: PairTable<S>>(client: &Client<S, u64, P>, tables: &[P])
    requires home { (openings : ℕ → State S S.Op S.Reply S.Task) × IsAtTables P.theory openings tables.now client.now.books }
    requires none { NoneCounts client.now.books }
    requires open { AllOpen client.now.books }
    ensures { (missing : S.Reply) (replies : List S.Reply) → IsAsking P.theory.client_view missing (sides_of P.theory.client_view client.now.books) [] replies client.now.books }
{
    let _ = client;
    let _ = tables;
}
