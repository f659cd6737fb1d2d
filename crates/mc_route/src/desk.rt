//! The desk, the second kind of the store: launched work that goes over all classes.
ghost use Rattle.std.specs.Prelude.{◌≡◌, ◌≤◌, true, refl, IfSome};
ghost use Rattle.std.proofs.Common.{lit<};
ghost use Rattle.tm_seq.specs.Kind.{IsRun, IsResume};
ghost use Rattle.tm_seq.specs.declared.kind.Event.TheVariants.{Begin, Reply};
ghost use Rattle.tm_seq.specs.declared.kind.Next.TheVariants.{Done};
ghost use Rattle.mc_model.specs.declared.reply.ShardReply.TheVariants.{Missing};
ghost use Rattle.mc_route.specs.Desks.{asked_for, told_by, is_lawful, with_reply, awaits_begin, awaits_reply, asks_next, goes_on, desk_told, desk_kind};
ghost use Rattle.mc_route.specs.DeskLaws.{desk_laws};

use crate::places::{index_of, trustee_of};
use mc_item::CLASSES;
use mc_model::ShardReply;
use mc_reply::lacks_memory;
use mc_shard::{Shard, ShardOp};
use tm_batch::{FEWEST_TRUSTEES, FitsBeside};
use tm_seq::{Beside, Entrusted, Event, Next};

/// Where work over all classes is launched. It has no items.
#[derive(Drop)]
pub struct Desk {
    /// How many launches were finished. The number stands still at `u64::MAX`.
    pub done: u64,
}

/// What is asked of each class. A `moment` is in seconds of Unix time.
#[derive(Clone, Copy, Debug, PartialEq, Eq)]
pub enum DeskWork {
    /// `flush_all`: a flush of each class. `delay` is in seconds.
    Flush { delay: u32, moment: u64 },
    /// `stats`: a count of the items and the stores of each class.
    Count { moment: u64 },
}

/// Launched work of the desk. It asks the classes in the order of their numbers, each once its predecessor has
/// replied, and ends after the last one, or at the first for which memory is wanting.
#[derive(Drop)]
pub struct DeskTask {
    /// What each class is asked.
    pub work: DeskWork,
    /// How many trustees there are. With fewer than two, nothing is asked.
    pub trustees: u32,
    /// How many classes were asked so far, from class 0 on.
    pub class: u32,
    /// How many items the classes so far have, where they are counted. The sum stands still at `u64::MAX`.
    pub held: u64,
    /// How many stores the classes so far had, likewise.
    pub stored: u64,
}

// The work ends with this reply.
fn ended(reply: ShardReply) -> Next<ShardOp, DeskTask, ShardReply>
    ensures { result ≡ Done reply }
{
    Next::Done { reply }
}

impl DeskWork {
    // What each class is asked.
    fn op(self) -> ShardOp
        ensures { result ≡ asked_for self }
    {
        match self {
            DeskWork::Flush { delay, moment } => ShardOp::Flush { delay, moment },
            DeskWork::Count { moment } => ShardOp::Count { moment },
        }
    }

    // What the work ends with, by the sums over all classes.
    fn told(self, held: u64, stored: u64) -> ShardReply
        ensures { result ≡ told_by self held stored }
    {
        match self {
            DeskWork::Flush { .. } => ShardReply::Flushed,
            DeskWork::Count { .. } => ShardReply::Counts { held, stored },
        }
    }
}

impl DeskTask {
    // Whether there are trustees to ask, and no more was asked than all classes.
    fn is_lawful(&self) -> bool
        ensures lawful { result ≡ is_lawful self.now }
        ensures trustees { result ≡ true → FEWEST_TRUSTEES ≤ self.now.trustees }
    {
        self.trustees >= FEWEST_TRUSTEES && self.class <= CLASSES
    }

    // Whether it is to be told that it begins.
    fn awaits_begin(&self) -> bool
        ensures awaits { result ≡ awaits_begin self.now }
        ensures trustees { result ≡ true → FEWEST_TRUSTEES ≤ self.now.trustees }
    {
        self.is_lawful() && self.class == 0
    }

    // Whether it is to be told a reply.
    fn awaits_reply(&self) -> bool
        ensures awaits { result ≡ awaits_reply self.now }
        ensures trustees { result ≡ true → FEWEST_TRUSTEES ≤ self.now.trustees }
    {
        self.is_lawful() && self.class > 0
    }

    // The task with a reply that is its work's own.
    fn with_reply(self, reply: ShardReply) -> Option<DeskTask>
        ensures reply { result ≡ with_reply self self.work reply }
        ensures trustees { IfSome result (λ task. task.trustees ≡ self.trustees) }
    {
        match (self.work, reply) {
            (DeskWork::Flush { .. }, ShardReply::Flushed) => Some(self),
            (DeskWork::Count { .. }, ShardReply::Counts { held, stored }) => Some(DeskTask {
                held: self.held.saturating_add(held),
                stored: self.stored.saturating_add(stored),
                ..self
            }),
            _ => None,
        }
    }

    // The next class is asked.
    fn ask_next(self) -> Next<ShardOp, DeskTask, ShardReply>
        requires trustees { FEWEST_TRUSTEES ≤ self.trustees }
        requires class { self.class ≤ CLASSES }
        ensures { result ≡ asks_next self }
    {
        Next::Ask {
            trustee: trustee_of(self.class, self.trustees),
            index: index_of(self.class, self.trustees),
            op: self.work.op(),
            task: DeskTask {
                class: self.class + 1,
                ..self
            },
        }
    }
}

impl Desk {
    // The next class is asked, or after the last one the work is finished.
    fn go_on(&mut self, task: DeskTask) -> Next<ShardOp, DeskTask, ShardReply>
        requires trustees { FEWEST_TRUSTEES ≤ task.trustees }
        ensures { (self.new, result) ≡ goes_on self.old task }
    {
        if task.class < CLASSES {
            return task.ask_next();
        }
        self.done = self.done.saturating_add(1);
        ended(task.work.told(task.held, task.stored))
    }

    // A task is told that it begins.
    fn begin(&mut self, task: DeskTask) -> Next<ShardOp, DeskTask, ShardReply>
        ensures { (self.new, result) ≡ desk_told self.old task Begin }
    {
        if task.awaits_begin() {
            self.go_on(task)
        } else {
            ended(ShardReply::Missing)
        }
    }

    // A task is told a reply.
    fn take(&mut self, task: DeskTask, reply: ShardReply) -> Next<ShardOp, DeskTask, ShardReply>
        ensures { (self.new, result) ≡ desk_told self.old task (Reply reply) }
    {
        if lacks_memory(&reply) {
            return ended(ShardReply::NoMemory);
        }
        if !task.awaits_reply() {
            return ended(ShardReply::Missing);
        }
        match task.with_reply(reply) {
            Some(task) => self.go_on(task),
            None => ended(ShardReply::Missing),
        }
    }
}

impl Entrusted for Desk {
    type Op = ShardOp;

    type Reply = ShardReply;

    type Task = DeskTask;

    ghost kind = { desk_kind };

    ghost laws = { desk_laws };

    /// `Count` answers the number of launches that were finished, every other operation `Missing`. It takes no memory,
    /// so it says more than its kind.
    fn run(&mut self, op: ShardOp) -> ShardReply
        ensures lawful { IsRun desk_kind self.old op self.new result }
        ensures exact { (self.new, result) ≡ desk_kind.step self.old op }
    {
        match op {
            ShardOp::Count { .. } => ShardReply::Number(self.done),
            _ => ShardReply::Missing,
        }
    }

    /// Asks the next class, or ends: with `Flushed` or the sums after the last one, with `NoMemory` where memory was
    /// wanting for one, and with `Missing` at any event that the task does not await. It takes no memory.
    fn resume(
        &mut self,
        task: DeskTask,
        event: Event<ShardReply>,
    ) -> Next<ShardOp, DeskTask, ShardReply>
        ensures lawful { IsResume desk_kind self.old task event self.new result }
        ensures exact { (self.new, result) ≡ desk_kind.advance self.old task event }
    {
        match event {
            Event::Begin => self.begin(task),
            Event::Reply(reply) => self.take(task, reply),
            Event::NotAbove | Event::NoObject => ended(ShardReply::Missing),
        }
    }

    /// How many classes are still to be asked.
    fn left(task: &DeskTask) -> u64 {
        u64::from(CLASSES.saturating_sub(task.class))
    }

    fn no_memory() -> ShardReply {
        ShardReply::NoMemory
    }
}

/// A class and the desk as one kind: no work is launched on a class.
impl Beside<Shard> for Desk {
    ghost other_side = { Missing };

    ghost same_no_memory = { refl };

    fn other() -> ShardReply {
        ShardReply::Missing
    }
}

impl FitsBeside<Shard> for Desk {
    ghost fits_beside = { lit< tt };

    ghost fits_batch_beside = { lit< tt };

    ghost fits_held_beside = { lit< tt };

    ghost fits_seen_beside = { lit< tt };

    ghost fits_found_beside = { lit< tt };

    ghost fits_place_beside = { lit< tt };

    ghost fits_move_beside = { lit< tt };

    ghost fits_content_beside = { lit< tt };
}
