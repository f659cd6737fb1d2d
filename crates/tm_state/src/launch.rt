//! A launch that has not ended.
ghost use Rattle.std.specs.Prelude.{◌≡◌};
ghost use Rattle.tm_model.specs.State.{Start, AskOf};

use std::marker::Model;
use tm_batch::Name;
use tm_seq::Entrusted;

/// What launched work awaits.
#[derive(Drop)]
pub(crate) enum Until {
    /// Its begin.
    Begin,
    /// What it is told of an ask.
    Reply {
        /// The trustee that it asked.
        trustee: u32,
        /// Which of the objects that its own trustee holds there, from 0.
        index: u32,
    },
}

/// A launch without the id of its object and without its ticket.
#[derive(Drop)]
pub(crate) struct Waiting<S: Entrusted> {
    // Where the trustee keeps the object.
    pub(crate) kept_at: u32,
    // Who launched it.
    pub(crate) place: u32,
    pub(crate) until: Until,
    pub(crate) task: S::Task,
}

impl<S: Entrusted> Model for Waiting<S> {
    ghost use Rattle.tm_state.specs.Launches.{Pending, pending_code, awaits_of};

    ghost Value = { Pending S.Task };

    ghost coded = { pending_code S.Task.code };

    ghost view = { λ a. record { place = a.place; task = a.task; awaits = awaits_of a.until } };
}

impl<S: Entrusted> Waiting<S> {
    /// The task that goes on.
    pub(crate) fn into_task(self) -> S::Task
        ensures { result ≡ self.task }
    {
        self.task
    }
}

/// A launch that has not ended, with the task that goes on.
///
/// A [`TrusteeState`](crate::TrusteeState) hands one out with each ask, and takes it back with the reply.
#[derive(Drop)]
pub struct Launch<S: Entrusted> {
    pub(crate) id: u64,
    pub(crate) ticket: u64,
    pub(crate) waiting: Waiting<S>,
}

impl<S: Entrusted> Model for Launch<S> {
    ghost use Rattle.tm_latch.specs.declared.ticket.Ticket.{Ticket};
    ghost use Rattle.tm_latch.specs.Tickets.{ticket_code};
    ghost use Rattle.tm_state.specs.Launches.{Pending, pending_code};

    ghost Value = { Ticket (Pending S.Task) };

    ghost coded = { ticket_code (pending_code S.Task.code) };

    ghost view = { λ a. record { id = a.id; number = a.ticket; task = a.waiting } };
}

/// A launch that has not begun.
pub(crate) fn to_begin<S: Entrusted>(
    name: Name,
    ticket: u64,
    place: u32,
    task: S::Task,
) -> Launch<S>
    ensures { result ≡ record { id = name.id; number = ticket; task = record { place = place; task = task; awaits = Start } } }
{
    Launch {
        id: name.id,
        ticket,
        waiting: Waiting {
            kept_at: name.place,
            place,
            until: Until::Begin,
            task,
        },
    }
}

/// What of a launch stays as it is while it goes on.
#[derive(Clone, Copy)]
pub(crate) struct Mark {
    /// Its object.
    pub(crate) name: Name,
    /// Its ticket.
    pub(crate) ticket: u64,
    /// Who launched it.
    pub(crate) place: u32,
}

impl<S: Entrusted> Launch<S> {
    /// Its ticket.
    pub fn ticket(&self) -> u64
        ensures { result ≡ self.now.number }
    {
        self.ticket
    }

    // What stays as it is.
    pub(crate) fn mark(&self) -> Mark
        ensures id { result.name.id ≡ self.now.id }
        ensures ticket { result.ticket ≡ self.now.number }
        ensures place { result.place ≡ self.now.task.place }
    {
        Mark {
            name: Name {
                id: self.id,
                place: self.waiting.kept_at,
            },
            ticket: self.ticket,
            place: self.waiting.place,
        }
    }
}

impl Mark {
    /// The launch, where it goes on as a task when it is told of its ask.
    pub(crate) fn asking<S: Entrusted>(self, trustee: u32, index: u32, task: S::Task) -> Launch<S>
        ensures { result ≡ record { id = self.name.id; number = self.ticket; task = record { place = self.place; task = task; awaits = AskOf trustee index } } }
    {
        Launch {
            id: self.name.id,
            ticket: self.ticket,
            waiting: Waiting {
                kept_at: self.name.place,
                place: self.place,
                until: Until::Reply { trustee, index },
                task,
            },
        }
    }
}
