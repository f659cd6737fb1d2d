//! The turns of tasks.
ghost use Rattle.std.specs.Prelude.{◌≡◌, ◌<◌, ◌||◌, [], length};
ghost use Rattle.tm_task.specs.Going.{AreInRange, HasGoneOnAt, HasResumed, HasStarted, HaveAnswered, HaveGoneOn, HaveMadeTurns, IsFreshAt, IsWaitingAt, MayAsk, MayStart, ProgressOf, has_gone};
ghost use Rattle.tm_task.specs.Ours.{AreOfClient, AreTheirs, HoldsOpen, IsOne, KeepsTables, StaysOne};
ghost use Rattle.tm_task.specs.Progressing.{HaveTurned, busy_at, busy_below};
ghost use Rattle.tm_task.specs.Stages.{AreTasks, stage_of};

use crate::deed::{answer_of, asked, resumed, started, turned};
use crate::stage::Stage;
use crate::task::{Move, Task};
use crate::tasks::Tasks;
use std::mem::replace;
use tm_client::{Client, Got, Turn};
use tm_pair::{FitsBatches, PairTable};
use tm_seq::Entrusted;

/// What a turn of tasks did.
#[derive(Debug, Clone, Copy, PartialEq, Eq)]
pub enum Progress {
    /// Not all tasks have ended, and a task was started or resumed, or a turn of the client sent a batch or got answers.
    Moved,
    /// Not all tasks have ended. None was started or resumed, and the client made a turn at each trustee where a request
    /// counts, of which there is one, and each was pending.
    Pending,
    /// Every task that was added has ended.
    AllEnded,
}

/// Whether one of two things holds.
// A function of its own, so that the turn has no branch.
fn is_either(one: bool, other: bool) -> bool
    ensures { result ≡ (one || other) }
{
    one || other
}

/// Whether a turn of the client sent a batch or got answers.
fn has_gone(turn: Turn) -> bool
    ensures { result ≡ has_gone turn }
{
    match turn {
        Turn::Sent(_) | Turn::Got(_) => true,
        Turn::Pending | Turn::Idle => false,
    }
}

/// What a turn says, by whether all have ended and whether something moved.
fn progress_of(ended: bool, moved: bool) -> Progress
    ensures { ProgressOf ended moved result }
{
    if ended {
        Progress::AllEnded
    } else if moved {
        Progress::Moved
    } else {
        Progress::Pending
    }
}

/// What a task is at after a move, where there are so many trusts.
fn stage_of<S: Entrusted, T: Drop, O: Drop>(count: usize, next: Move<S, T, O>) -> Stage<S, T, O>
    ensures { result ≡ stage_of count next }
{
    match next {
        Move::Apply { trust, op, task } => {
            if (trust as usize) < count {
                Stage::Asks { trust, op, task }
            } else {
                Stage::Ended(None)
            }
        }
        Move::Done(out) => Stage::Ended(Some(out)),
    }
}

impl<S: FitsBatches, T: Task<S>> Tasks<S, T> {
    /// Makes a turn of all tasks, through the client that holds their trusts. `tables` are the tables of its trustees, in
    /// order. First each answer that came resumes its task, in the order in which they came. Then, in the order of their
    /// numbers, each task that was not started is, and what a task asks is asked of the client, unless the window of its
    /// trustee is full: then it waits for a later turn. Last the client makes its turn at each trustee where a request
    /// counts, in their order.
    ///
    /// It looks at each task, allocates nothing and never waits, besides what the tasks themselves do.
    pub fn turn<P: PairTable<S>>(
        &mut self,
        client: &mut Client<S, u64, P>,
        tables: &mut [P],
    ) -> Progress
        requires tasks { AreTasks T.rules self.old }
        requires theirs { AreTheirs self.old.trusts.items self.old.stages.items client.old.books }
        requires holds { HoldsOpen client.old.books self.old.trusts.items }
        requires client { AreOfClient P.theory client.old.books tables.old }
        ensures turned { HaveTurned P.theory S.kind T.rules result self.old self.new client.old.books client.new.books tables.old tables.new }
        ensures tasks { AreTasks T.rules self.new }
        ensures theirs { AreTheirs self.new.trusts.items self.new.stages.items client.new.books }
        ensures holds { HoldsOpen client.new.books self.new.trusts.items }
        ensures client { KeepsTables P.theory client.old.books client.new.books tables.old tables.new }
    {
        let resumed = self.take_answers(client);
        let started = self.go_on(client);
        let went = self.turn_all(client, tables);
        let ended = self.have_ended();
        let moved = is_either(resumed, started);
        progress_of(ended, is_either(moved, went))
    }

    /// Resumes the tasks whose answers came, in their order. Whether there was one.
    fn take_answers<P: PairTable<S>>(&mut self, client: &mut Client<S, u64, P>) -> bool
        requires tasks { AreTasks T.rules self.old }
        requires theirs { AreTheirs self.old.trusts.items self.old.stages.items client.old.books }
        requires client { IsOne P.theory.client_view client.old.books }
        ensures moved { HaveAnswered P.theory S.kind T.rules result self.old self.new client.old.books client.new.books }
        ensures none { client.new.books.arrived.items ≡ [] }
        ensures client { StaysOne P.theory.client_view client.old.books client.new.books }
    {
        let mut moved = false;
        'answers: while let Some((number, got)) = client.next() {
            self.resume(number, got);
            moved = true;
        }
        moved
    }

    /// Lets a task go on with the answer for which it waits.
    fn resume(&mut self, number: u64, got: Got<S>)
        requires { IsWaitingAt number self.old }
        ensures { HasResumed T.rules number got self.old self.new }
    {
        let stage = replace(&mut self.stages[number as usize], Stage::Ended(None));
        let Stage::Waits { task, .. } = stage else {
            unreachable!()
        };
        let answer = answer_of(&got);
        let next = task.resume(got);
        self.told = resumed(&self.told, number, &answer, &next);
        self.stages[number as usize] = stage_of(self.trusts.len(), next);
    }

    /// Starts a task.
    fn start(&mut self, number: usize)
        requires { IsFreshAt number self.old }
        ensures { HasStarted T.rules number self.old self.new }
    {
        let stage = replace(&mut self.stages[number], Stage::Ended(None));
        let Stage::Fresh(task) = stage else {
            unreachable!()
        };
        let next = task.start();
        self.told = started(&self.told, number as u64, &next);
        self.stages[number] = stage_of(self.trusts.len(), next);
    }

    /// Starts a task if it was not started. Whether it did.
    fn start_fresh(&mut self, number: usize) -> bool
        requires { number < length self.old.stages.items }
        ensures { MayStart T.rules number result self.old self.new }
    {
        if !self.stages[number].is_fresh() {
            return false;
        }
        self.start(number);
        true
    }

    /// Asks of the client what a task is to ask, if it is, unless the window of the trustee is full.
    fn ask<P: PairTable<S>>(&mut self, client: &mut Client<S, u64, P>, number: usize)
        requires number { number < length self.old.stages.items }
        requires in_range { AreInRange (length self.old.trusts.items) self.old.stages.items }
        requires holds { HoldsOpen client.old.books self.old.trusts.items }
        requires client { IsOne P.theory.client_view client.old.books }
        ensures may { MayAsk number self.old self.new client.old.books client.new.books }
        ensures client { StaysOne P.theory.client_view client.old.books client.new.books }
    {
        if !self.stages[number].is_asking() {
            return;
        }
        let stage = replace(&mut self.stages[number], Stage::Ended(None));
        let Stage::Asks { trust, op, task } = stage else {
            unreachable!()
        };
        let told = asked(&self.told, number as u64, trust, &op);
        match client.apply_then(&self.trusts[trust as usize], op, number as u64) {
            Ok(()) => {
                self.told = told;
                self.stages[number] = Stage::Waits { trust, task };
            }
            Err(refused) => {
                let (op, _) = refused.back;
                self.stages[number] = Stage::Asks { trust, op, task };
            }
        }
    }

    /// Starts a task that was not started, and asks what it is to ask. Whether it was started.
    fn go_on_at<P: PairTable<S>>(&mut self, client: &mut Client<S, u64, P>, number: usize) -> bool
        requires number { number < length self.old.stages.items }
        requires in_range { AreInRange (length self.old.trusts.items) self.old.stages.items }
        requires holds { HoldsOpen client.old.books self.old.trusts.items }
        requires client { IsOne P.theory.client_view client.old.books }
        ensures at { HasGoneOnAt P.theory S.kind T.rules number result self.old self.new client.old.books client.new.books }
        ensures client { StaysOne P.theory.client_view client.old.books client.new.books }
    {
        let fresh = self.start_fresh(number);
        self.ask(client, number);
        fresh
    }

    /// Does so for each task, in the order of the numbers. Whether one was started.
    fn go_on<P: PairTable<S>>(&mut self, client: &mut Client<S, u64, P>) -> bool
        requires in_range { AreInRange (length self.old.trusts.items) self.old.stages.items }
        requires holds { HoldsOpen client.old.books self.old.trusts.items }
        requires client { IsOne P.theory.client_view client.old.books }
        ensures all { HaveGoneOn P.theory S.kind T.rules (length self.old.stages.items) result self.old self.new client.old.books client.new.books }
        ensures client { StaysOne P.theory.client_view client.old.books client.new.books }
    {
        let mut started = false;
        let count = self.stages.len();
        for number in 0..count {
            let fresh = self.go_on_at(client, number);
            started = is_either(started, fresh);
        }
        started
    }

    /// Lets the client make its turn at a trustee, if a request counts there. Whether that sent a batch or got answers.
    fn turn_at<P: PairTable<S>>(
        &mut self,
        client: &mut Client<S, u64, P>,
        tables: &mut [P],
        trustee: usize,
    ) -> bool
        requires trustee { trustee < length tables.old }
        requires client { AreOfClient P.theory client.old.books tables.old }
        ensures turns { HaveMadeTurns P.theory S.kind T.rules (busy_at client.old.books trustee) result self.old self.new client.old.books client.new.books tables.old tables.new }
        ensures client { KeepsTables P.theory client.old.books client.new.books tables.old tables.new }
    {
        if client.counting(trustee as u32) == 0 {
            return false;
        }
        let turn = client.turn(&mut tables[trustee], trustee as u32);
        self.told = turned(&self.told, trustee as u32, turn);
        has_gone(turn)
    }

    /// Does so at each trustee, in order. Whether a turn sent a batch or got answers.
    fn turn_all<P: PairTable<S>>(
        &mut self,
        client: &mut Client<S, u64, P>,
        tables: &mut [P],
    ) -> bool
        requires client { AreOfClient P.theory client.old.books tables.old }
        ensures turns { HaveMadeTurns P.theory S.kind T.rules (busy_below client.old.books (length tables.old)) result self.old self.new client.old.books client.new.books tables.old tables.new }
        ensures client { KeepsTables P.theory client.old.books client.new.books tables.old tables.new }
    {
        let mut went = false;
        let count = tables.len();
        for trustee in 0..count {
            let more = self.turn_at(client, tables, trustee);
            went = is_either(went, more);
        }
        went
    }
}
