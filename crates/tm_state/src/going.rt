//! A task goes on.
ghost use Rattle.std.specs.Prelude.{◌≡◌, ◌+◌, ◌-◌, ◌^◌, [], ◌∷◌, ◌++◌, List, length, min, slice_index_or};
ghost use Rattle.tm_model.specs.declared.entry.Entry.{Entry};
ghost use Rattle.tm_model.specs.declared.entry.Entry.TheVariants.{Resume};
ghost use Rattle.tm_seq.specs.Kind.{IsResume};
ghost use Rattle.tm_state.specs.Resuming.{Continues, Makes, IsToldAtOnce, entry_of};

use crate::launch::Launch;
use crate::made::Made;
use std::marker::Brand;
use tm_ghost::{GhostList, Items};
use tm_model::Entry;
use tm_seq::{Entrusted, Event, Next};

/// Lets the task of a launch go on at the value of its object, until it asks an object that its trustee, of
/// number `number`, holds above, or ends. `held` says how many objects the trustee holds at each. The entries are
/// added to those that were made, and counted in `entries` too.
pub(crate) fn go_on<S: Entrusted>(
    value: &mut S,
    number: u32,
    held: &[u32],
    launch: Launch<S>,
    event: Event<S::Reply>,
    made: &mut Made<S>,
    entries: &mut u64,
) -> Next<S::Op, S::Task, S::Reply>
    ensures { (es : List (Entry S S.Op S.Reply S.Task)) × Makes es made.old made.new × (entries.new ≡ min (entries.old + length es) (2 ^ 64 - 1)) × Continues S.kind number held.now launch.id launch.number value.old launch.task.task event es value.new result }
{
    let Launch {
        id,
        ticket,
        waiting,
    } = launch;
    let mut task = waiting.into_task();
    let mut event = event;
    loop {
        match resume_once(value, id, ticket, task, event, made, entries) {
            Next::Done { reply } => return Next::Done { reply },
            Next::Ask {
                trustee,
                index,
                op,
                task: after,
            } => match told_at_once(number, held, trustee, index) {
                None => {
                    return Next::Ask {
                        trustee,
                        index,
                        op,
                        task: after,
                    };
                }
                Some(told) => {
                    task = after;
                    event = told;
                }
            },
        }
    }
}

// Tells a task an event, and notes what it did.
fn resume_once<S: Entrusted>(
    value: &mut S,
    id: u64,
    ticket: u64,
    task: S::Task,
    event: Event<S::Reply>,
    made: &mut Made<S>,
    entries: &mut u64,
) -> Next<S::Op, S::Task, S::Reply>
    ensures lawful { IsResume S.kind value.old task event value.new result }
    ensures made { Makes (Resume id ticket event result ∷ []) made.old made.new }
    ensures entries { entries.new ≡ min (entries.old + 1) (2 ^ 64 - 1) }
{
    let told = note(&event);
    let next = value.resume(task, event);
    made.entries = after_resume(&made.entries, id, ticket, &told, &next);
    made.count = made.count.saturating_add(1);
    *entries = entries.saturating_add(1);
    next
}

// What a task is told at once of its ask, if it does not ask an object that is held above.
fn told_at_once<R>(number: u32, held: &[u32], trustee: u32, index: u32) -> Option<Event<R>>
    ensures { IsToldAtOnce number held.now trustee index result }
{
    if trustee <= number {
        Some(Event::NotAbove)
    } else if index >= held_at(held, trustee) {
        Some(Event::NoObject)
    } else {
        None
    }
}

// How many objects are held at a trustee.
fn held_at(held: &[u32], trustee: u32) -> u32
    ensures { result ≡ slice_index_or held.now trustee 0 }
{
    held.get(trustee as usize).copied().unwrap_or(0)
}

// What is told, for contracts alone.
fn note<R>(event: &Event<R>) -> GhostList<Event<R>>
    ensures { result.items ≡ event.now ∷ [] }
{
    pick_note::<R, Brand>(event)
}

fn pick_note<R, E: Items<Event<R>>>(_event: &Event<R>) -> GhostList<Event<R>>
    ensures { result.items ≡ E.items }
{
    GhostList::of::<E>()
}

// A task was told this, and did that.
fn after_resume<S: Entrusted>(
    made: &GhostList<Entry<S>>,
    id: u64,
    ticket: u64,
    told: &GhostList<Event<S::Reply>>,
    next: &Next<S::Op, S::Task, S::Reply>,
) -> GhostList<Entry<S>>
    ensures { result.items ≡ made.now.items ++ entry_of id ticket told.now.items next.now }
{
    pick_resume::<S, Brand>(made, id, ticket, told, next)
}

fn pick_resume<S: Entrusted, E: Items<Entry<S>>>(
    _made: &GhostList<Entry<S>>,
    _id: u64,
    _ticket: u64,
    _told: &GhostList<Event<S::Reply>>,
    _next: &Next<S::Op, S::Task, S::Reply>,
) -> GhostList<Entry<S>>
    ensures { result.items ≡ E.items }
{
    GhostList::of::<E>()
}
