//! The slots over numbers, as a machine that runs.
ghost use Rattle.std.specs.Prelude.{◌≡◌, ◌≢◌, ◌↔◌, ◌<◌, ◌≤◌, length, IsTrue, IfOk, OnOk, OnErr, IfErr};
ghost use Rattle.tm_model.specs.Slots.{slot_of, first_core};
ghost use Rattle.tm_core.specs.Numbers.{ran};
ghost use Rattle.tm_core.specs.Steps.{IsAllowed, after_step, IsRefusal, AreGood};

use crate::cell::Cell;
use crate::cells::{allows, go, new_cells, records};
use crate::step::{Step, StepRefused};
use std::alloc::{AllocError, Global};
use std::marker::Model;
use tm_ghost::GhostList;

/// The slots between some clients and a trustee. Contracts see them with the log, and with what each side has got
/// and seen.
#[derive(Drop)]
pub struct Core {
    cells: Vec<Cell>,
    past: GhostList<Step>,
}

impl Model for Core {
    ghost use Rattle.std.specs.Prelude.{vec_len};
    ghost use Rattle.tm_core.specs.Numbers.{NumberCore};

    ghost Value = { NumberCore };

    ghost use Rattle.tm_core.specs.Steps.{core_after};
    ghost use Rattle.tm_core.specs.Shown.{AreAfter};

    ghost view = { λ m. core_after (vec_len m.cells) m.past.items };

    ghost invariant = { λ m. AreAfter m.cells.items (vec_len m.cells) m.past.items };
}

impl Core {
    /// So many places, at least 1: all words equal, and all lists empty.
    pub fn new(alloc: Global, places: u32) -> Result<Core, AllocError>
        requires { 1 ≤ places }
        ensures first { IfOk result (λ core. core ≡ first_core places) }
        ensures places { IfOk result (λ core. length core.slots ≡ places) }
        ensures good { IfOk result AreGood }
    {
        let cells = new_cells(alloc, places)?;
        Ok(Core {
            cells,
            past: GhostList::new(),
        })
    }

    /// Makes a step, if it is allowed. It costs what the batch of the step costs.
    pub fn step(&mut self, step: Step) -> Result<(), StepRefused>
        ensures allowed { OnOk result (IsAllowed self.old step) }
        ensures ok { OnOk result (self.new ≡ after_step step self.old) }
        ensures err { OnErr result (self.new ≡ self.old) }
        ensures cause { IfErr result (IsRefusal self.old step) }
        ensures places { length self.new.slots ≡ length self.old.slots }
        ensures good { AreGood self.new }
    {
        if !allows(self.cells.as_slice(), &step) {
            return Err(StepRefused::NotAllowed(step));
        }
        let past = records(&self.past, &step);
        if let Err(step) = go(self.cells.as_mut_slice(), step) {
            return Err(StepRefused::NoMemory(step));
        }
        self.past = past;
        Ok(())
    }

    /// Whether the two words of a place differ: a batch was published and not yet answered.
    pub fn asked(&self, client: u32) -> bool
        requires { client < length self.now.slots }
        ensures { IsTrue result
            ↔ ((slot_of self.now client).request_word ≢ (slot_of self.now client).response_word) }
    {
        let cell = &self.cells[client as usize];
        cell.request_word != cell.response_word
    }

    /// All the requests that a place sent, in order.
    pub fn sent(&self, client: u32) -> &[u64]
        requires { client < length self.now.slots }
        ensures { result.now ≡ (slot_of self.now client).sent }
    {
        let cell = &self.cells[client as usize];
        cell.sent.as_slice()
    }

    /// All the requests that were run for a place, in order.
    pub fn ran(&self, client: u32) -> &[u64]
        requires { client < length self.now.slots }
        ensures { result.now ≡ ran client self.now.log }
    {
        let cell = &self.cells[client as usize];
        cell.ran.as_slice()
    }
}
