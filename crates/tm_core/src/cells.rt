//! The places of the machine, and what a step does to them.
ghost use Rattle.std.specs.Prelude.{◌≡◌, ◌<◌, [], ◌∷◌, ◌++◌, length, vec_len, IfOk, OnOk, OnErr, IfErr};
ghost use Rattle.tm_core.specs.declared.step.Step.TheVariants.{Publish, See, Answer, Collect};
ghost use Rattle.tm_core.specs.Steps.{IsAllowed, TakesMemory, client_of};
ghost use Rattle.tm_core.specs.Shown.{AreNew, Tells, CellsGo, CellsStay};

use crate::cell::Cell;
use crate::step::Step;
use std::alloc::{AllocError, Global};
use std::marker::Brand;
use tm_batch::MOST_REQUESTS;
use tm_ghost::{GhostList, Items};

/// So many places at first.
pub(crate) fn new_cells(alloc: Global, places: u32) -> Result<Vec<Cell>, AllocError>
    ensures count { IfOk result (λ cells. vec_len cells ≡ places) }
    ensures new { IfOk result (λ cells. AreNew cells.items) }
{
    let mut cells = Vec::new(alloc);
    for _ in 0..places {
        cells.push(Cell::new(alloc))?;
    }
    Ok(cells)
}

/// Whether a step is allowed.
pub(crate) fn allows(cells: &[Cell], step: &Step) -> bool
    ensures { Tells cells.now step.now result }
{
    match step {
        Step::Publish { client, requests } => may_publish(cells, *client, requests),
        Step::See { client } => may_see(cells, *client),
        Step::Answer { client, answers } => may_answer(cells, *client, answers),
        Step::Collect { client } => may_collect(cells, *client),
    }
}

fn may_publish(cells: &[Cell], client: u32, requests: &Vec<u64>) -> bool
    ensures { Tells cells.now (Publish client requests.now) result }
{
    if client as usize >= cells.len() {
        return false;
    }
    let cell = &cells[client as usize];
    cell.is_free() && requests.len() <= MOST_REQUESTS
}

fn may_see(cells: &[Cell], client: u32) -> bool
    ensures { Tells cells.now (See client) result }
{
    (client as usize) < cells.len()
}

fn may_answer(cells: &[Cell], client: u32, answers: &Vec<u64>) -> bool
    ensures { Tells cells.now (Answer client answers.now) result }
{
    if client as usize >= cells.len() {
        return false;
    }
    let cell = &cells[client as usize];
    cell.has_in_hand(answers.len())
}

fn may_collect(cells: &[Cell], client: u32) -> bool
    ensures { Tells cells.now (Collect client) result }
{
    (client as usize) < cells.len()
}

/// Makes a step that is allowed, or hands it back for want of memory.
pub(crate) fn go(cells: &mut [Cell], step: Step) -> Result<(), Step>
    requires { client_of step < length cells.old }
    ensures ok { OnOk result (CellsGo cells.old step cells.new) }
    ensures err { OnErr result (CellsStay cells.old cells.new) }
    ensures back { IfErr result (λ s. (s ≡ step) × TakesMemory s) }
{
    match step {
        Step::Publish { client, requests } => publish(cells, client, requests),
        Step::See { client } => {
            see(cells, client);
            Ok(())
        }
        Step::Answer { client, answers } => answer(cells, client, answers),
        Step::Collect { client } => {
            collect(cells, client);
            Ok(())
        }
    }
}

fn publish(cells: &mut [Cell], client: u32, requests: Vec<u64>) -> Result<(), Step>
    requires { client < length cells.old }
    ensures ok { OnOk result (CellsGo cells.old (Publish client requests) cells.new) }
    ensures err { OnErr result (CellsStay cells.old cells.new) }
    ensures back { IfErr result (λ s. s ≡ Publish client requests) }
{
    let cell = &mut cells[client as usize];
    match cell.publish(requests) {
        Ok(()) => Ok(()),
        Err(requests) => Err(Step::Publish { client, requests }),
    }
}

fn see(cells: &mut [Cell], client: u32)
    requires { client < length cells.old }
    ensures { CellsGo cells.old (See client) cells.new }
{
    let cell = &mut cells[client as usize];
    cell.see();
}

fn answer(cells: &mut [Cell], client: u32, answers: Vec<u64>) -> Result<(), Step>
    requires { client < length cells.old }
    ensures ok { OnOk result (CellsGo cells.old (Answer client answers) cells.new) }
    ensures err { OnErr result (CellsStay cells.old cells.new) }
    ensures back { IfErr result (λ s. s ≡ Answer client answers) }
{
    let cell = &mut cells[client as usize];
    match cell.answer(answers) {
        Ok(()) => Ok(()),
        Err(answers) => Err(Step::Answer { client, answers }),
    }
}

fn collect(cells: &mut [Cell], client: u32)
    requires { client < length cells.old }
    ensures { CellsGo cells.old (Collect client) cells.new }
{
    let cell = &mut cells[client as usize];
    cell.collect();
}

/// The steps so far, with one more.
pub(crate) fn records(past: &GhostList<Step>, step: &Step) -> GhostList<Step>
    ensures { result.items ≡ past.now.items ++ step.now ∷ [] }
{
    pick::<Brand>(past, step)
}

// The list that the caller's proof picks, from these values.
fn pick<E: Items<Step>>(_past: &GhostList<Step>, _step: &Step) -> GhostList<Step>
    ensures { result.items ≡ E.items }
{
    GhostList::of::<E>()
}
