//! The latches of one trustee.
ghost use Rattle.std.specs.Prelude.{◌≡◌, ◌<◌, ◌≤◌, [], ◌∷◌, ◌++◌, length, None, IsSome, IfOk, option_map};
ghost use Rattle.tm_latch.specs.Tickets.{ticket_for, first_of, with_first, without_first};
ghost use Rattle.tm_latch.specs.declared.entered.Entered.TheVariants.{Running, Queued};

use crate::entered::Entered;
use crate::lines::{Line, Lines};
use crate::queues::{Waiting, append, take_first};
use crate::ticket::{Ticket, after_enter, after_goes_on, after_leave};
use slab::Slab;
use std::alloc::{AllocError, Global};
use std::marker::Model;
use tm_ghost::GhostList;

/// For each object the ticket that runs, and in order of entry the tickets that wait, with their tasks.
///
/// A contract sees the list of all these tickets in the order in which they entered, each with the
/// task that it came with: the first of an object is the one that runs. All room is reserved when
/// the latches are made, and no later call takes memory. A call takes constant time, and a look at
/// each object on which a ticket runs whose id leaves the same as its own when it is divided by one
/// more than the room. Where the ids in use lie no further apart than the room there is none. No
/// call looks at the tickets that wait but the first and the last of its object.
#[derive(Drop)]
pub struct Latches<K> {
    lines: Lines,
    cells: Slab<Waiting<K>>,
    room: u32,
    known: GhostList<Ticket<K>>,
}

impl<K> Model for Latches<K> {
    ghost use Rattle.tm_latch.specs.Tickets.{Known, known_code};
    ghost use Rattle.tm_latch.specs.Sound.{IsSound};

    ghost Value = { Known K };

    ghost coded = { known_code K.code };

    ghost view = { λ a. record { tickets = a.known.items; room = a.room } };

    ghost invariant = { λ a. IsSound a.lines.firsts.items a.lines.nodes a.cells a.known.items a.room };
}

impl<K: Drop> Latches<K> {
    /// No ticket is known, and there is room for `room` of them: 80 bytes and a task with 40 bytes
    /// for each. Want of memory is the one error.
    pub fn new(alloc: Global, room: u32) -> Result<Latches<K>, AllocError>
        ensures { IfOk result (λ a. a ≡ record { tickets = []; room = room }) }
    {
        Ok(Latches {
            lines: Lines::new(alloc, room)?,
            cells: Slab::with_capacity(alloc, room as usize)?,
            room,
            known: GhostList::new(),
        })
    }

    /// How many tickets run or wait.
    pub fn known(&self) -> u32
        ensures count { result ≡ length self.now.tickets }
        ensures most { result ≤ self.now.room }
    {
        let most = self.room;
        let known = (self.lines.len() + self.cells.len()) as u32;
        prove!(known <= most);
        known
    }

    /// The ticket that runs on an object, if one does.
    pub fn holder(&self, id: u64) -> Option<u64>
        ensures { result ≡ option_map (λ t. t.number) (first_of id self.now.tickets) }
    {
        match self.lines.line_of(id) {
            Some(line) => Some(line.ticket),
            None => None,
        }
    }

    /// A ticket comes for an object: it runs where no other does, and else waits behind all others.
    pub fn enter(&mut self, id: u64, ticket: u64, task: K) -> Entered<K>
        requires { length self.old.tickets < self.old.room }
        ensures runs { first_of id self.old.tickets ≡ None → result ≡ Running task }
        ensures waits { IsSome (first_of id self.old.tickets) → result ≡ Queued }
        ensures entered { self.new ≡ record self.old { tickets = self.old.tickets ++ ticket_for id ticket task ∷ [] } }
    {
        let known = after_enter(&self.known, id, ticket, &task);
        match self.lines.line_of(id) {
            None => {
                let line = Line {
                    ticket,
                    queue: None,
                };
                self.lines.add(id, line);
                self.known = known;
                Entered::Running(task)
            }
            Some(line) => {
                let ends = append(&mut self.cells, line.queue, id, ticket, task);
                let line = Line {
                    ticket: line.ticket,
                    queue: Some(ends),
                };
                self.lines.set(id, line);
                self.known = known;
                Entered::Queued
            }
        }
    }

    /// The ticket that runs on an object goes on as another task. It is told for contracts alone, since
    /// that task is in the caller's hands: nothing runs.
    pub fn goes_on(&mut self, id: u64, task: &K)
        requires { IsSome (first_of id self.old.tickets) }
        ensures { self.new ≡ record self.old { tickets = with_first id task.now self.old.tickets } }
    {
        self.known = after_goes_on(&self.known, id, task);
    }

    /// The ticket that runs on an object ends. The one that waits longest, if one waits, runs from now
    /// on, and is handed out with its task.
    pub fn leave(&mut self, id: u64) -> Option<(u64, K)>
        requires { IsSome (first_of id self.old.tickets) }
        ensures next { result ≡ option_map (λ t. (t.number, t.task)) (first_of id self.new.tickets) }
        ensures left { self.new ≡ record self.old { tickets = without_first id self.old.tickets } }
    {
        self.known = after_leave(&self.known, id);
        let Some(line) = self.lines.line_of(id) else {
            unreachable!()
        };
        let Some(ends) = line.queue else {
            self.lines.remove(id);
            return None;
        };
        let (ticket, task, queue) = take_first(&mut self.cells, ends);
        self.lines.set(id, Line { ticket, queue });
        Some((ticket, task))
    }
}
