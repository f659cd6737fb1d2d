//! An unfinished launch.
ghost use Rattle.std.specs.Prelude.{◌≡◌};
ghost use Rattle.tm_model.specs.State.{Start, AskOf};

use std::marker::Model;
use tm_seq::Entrusted;

/// What launched work waits for.
#[derive(Clone, Copy)]
pub(crate) enum Awaited {
    /// Its begin.
    Begin,
    /// What it is told of its ask.
    Told {
        /// The number of the trustee that it asked.
        trustee: u32,
        /// Which of the objects held there, from 0.
        index: u32,
    },
}

/// An unfinished launch: who launched it, under which ticket, the task that goes on, and what it
/// awaits.
#[derive(Drop)]
pub(crate) struct ReferenceWork<S: Entrusted> {
    pub(crate) place: u32,
    pub(crate) ticket: u64,
    pub(crate) task: S::Task,
    pub(crate) awaited: Awaited,
}

impl<S: Entrusted> Model for ReferenceWork<S> {
    ghost use Rattle.tm_model.specs.State.{Work};
    ghost use Rattle.tm_reference.specs.Parts.{awaits_of};

    ghost Value = { Work S.Task };

    ghost view = { λ w. record { place = w.place; ticket = w.ticket; task = w.task; awaits = awaits_of w.awaited } };
}

impl<S: Entrusted> ReferenceWork<S> {
    /// Work that has not begun.
    pub(crate) fn new(place: u32, ticket: u64, task: S::Task) -> ReferenceWork<S>
        ensures { result ≡ record { place = place; ticket = ticket; task = task; awaits = Start } }
    {
        ReferenceWork {
            place,
            ticket,
            task,
            awaited: Awaited::Begin,
        }
    }
}
