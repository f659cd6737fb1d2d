//! Many tasks that share a client.
ghost use Rattle.std.specs.Prelude.{◌≡◌, ◌≢◌, ℕ, ◌↔◌, false, length, map, slice_get, IsErr, IsTrue, OnOk, OnErr, IfOk, IfErr};
ghost use Rattle.tm_task.specs.Ours.{awaits};
ghost use Rattle.tm_task.specs.Stages.{AreTasks, HaveBegun, HasAdded, ended_in, out_of};

use crate::deed::{Deed, added};
use crate::stage::Stage;
use crate::task::Task;
use std::alloc::{AllocError, Global};
use tm_client::Trust;
use tm_ghost::GhostList;
use tm_seq::Entrusted;

/// Tasks that ask their requests through one client, whose continuations are the tasks' numbers.
///
/// All but `new` take no memory, and none waits.
#[derive(Drop)]
pub struct Tasks<S: Entrusted, T: Task<S>> {
    // What the tasks may ask, by the index that they name.
    pub(crate) trusts: Vec<Trust>,
    // How many tasks may be added.
    pub(crate) room: u32,
    // What each task is at, by its number.
    pub(crate) stages: Vec<Stage<S, T, T::Out>>,
    // The outputs that `close` hands out, of which none is there yet: its room is reserved.
    pub(crate) outs: Vec<Option<T::Out>>,
    // For contracts alone, all that was done.
    pub(crate) told: GhostList<Deed<S, T, T::Out>>,
}

/// What a task ended with.
fn out_of<S: Entrusted, T: Task<S>>(stage: Stage<S, T, T::Out>) -> Option<T::Out>
    ensures { result ≡ out_of stage }
{
    match stage {
        Stage::Ended(out) => out,
        _ => None,
    }
}

impl<S: Entrusted, T: Task<S>> Tasks<S, T> {
    /// No tasks yet, with room for so many. `trusts` are what they may ask, by index. An error is want of memory;
    /// the trusts are dropped then, and the client still holds them.
    pub fn new(alloc: Global, trusts: Vec<Trust>, room: u32) -> Result<Tasks<S, T>, AllocError>
        ensures begun { IfOk result (λ tasks. HaveBegun trusts.items room tasks) }
        ensures tasks { IfOk result (λ tasks. AreTasks T.rules tasks) }
    {
        let stages = Vec::with_capacity(alloc, room as usize)?;
        let outs = Vec::with_capacity(alloc, room as usize)?;
        Ok(Tasks {
            trusts,
            room,
            stages,
            outs,
            told: GhostList::new(),
        })
    }

    /// Adds a task, which the next turn starts. Its number, counted from 0; the task comes back exactly where as many
    /// were added as there is room for.
    pub fn add(&mut self, task: T) -> Result<u64, T>
        requires { AreTasks T.rules self.old }
        ensures full { IsErr result ↔ (length self.old.stages.items ≡ self.old.room) }
        ensures number { IfOk result (λ number. number ≡ length self.old.stages.items) }
        ensures added { OnOk result (HasAdded task self.old self.new) }
        ensures back { IfErr result (λ back. back ≡ task) }
        ensures err { OnErr result (self.new ≡ self.old) }
        ensures awaits { (n t id : ℕ) → awaits self.new.trusts.items t id (slice_get self.new.stages.items n) ≡ awaits self.old.trusts.items t id (slice_get self.old.stages.items n) }
        ensures tasks { AreTasks T.rules self.new }
    {
        let number = self.stages.len();
        if number == self.room as usize {
            return Err(task);
        }
        self.told = added(&self.told, &task);
        let _ = self.stages.push(Stage::Fresh(task));
        Ok(number as u64)
    }

    /// How many tasks have ended. It looks at each.
    pub fn ended(&self) -> u32
        requires { AreTasks T.rules self.now }
        ensures { result ≡ ended_in self.now.stages.items }
    {
        let _room = self.room;
        self.count_ended() as u32
    }

    fn count_ended(&self) -> usize
        ensures { result ≡ ended_in self.now.stages.items }
    {
        self.stages.iter().filter(|stage| stage.is_ended()).count()
    }

    /// Whether all that were added have ended.
    pub(crate) fn have_ended(&self) -> bool
        ensures all { IsTrue result → ended_in self.now.stages.items ≡ length self.now.stages.items }
        ensures some { (result ≡ false) → ended_in self.now.stages.items ≢ length self.now.stages.items }
    {
        self.count_ended() == self.stages.len()
    }

    /// The trusts, and one output for each task, in the order of the numbers: `None` exactly for a task that has not
    /// ended, or named a trust past the last.
    pub fn close(self) -> (Vec<Trust>, Vec<Option<T::Out>>)
        requires { AreTasks T.rules self }
        ensures trusts { result.0.items ≡ self.trusts.items }
        ensures outs { result.1.items ≡ map out_of self.stages.items }
    {
        let Tasks {
            trusts,
            stages,
            mut outs,
            ..
        } = self;
        for stage in stages {
            let _ = outs.push(out_of(stage));
        }
        (trusts, outs)
    }
}
