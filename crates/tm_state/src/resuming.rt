//! Launched work goes on.
ghost use Rattle.std.specs.Prelude.{◌≡◌, ◌+◌, ◌<◌, ◌≤◌, [], List, length, None, Some, IsSome, IfSome, IfNone, slice_index_or};
ghost use Rattle.tm_batch.specs.declared.limits.TheConstants.{WINDOW};
ghost use Rattle.tm_latch.specs.declared.ticket.Ticket.{Ticket};
ghost use Rattle.tm_latch.specs.Tickets.{first_of};
ghost use Rattle.tm_model.specs.declared.entry.Entry.{Entry};
ghost use Rattle.tm_model.specs.State.{Start};
ghost use Rattle.tm_objects.specs.Live.{HasLive};
ghost use Rattle.tm_seq.specs.declared.kind.Event.TheVariants.{Begin, Reply};
ghost use Rattle.tm_state.specs.Launches.{Pending, BeginsBut, Begins, to_begin};
ghost use Rattle.tm_state.specs.Resuming.{HasGoneOn, IsResumable, KeepsOn, AllAwait, Settles, Finishes, Makes};

use crate::going::go_on;
use crate::launch::{Launch, Mark};
use crate::launches::Launches;
use crate::made::Made;
use crate::ready::Ready;
use crate::resumed::Resumed;
use crate::state::TrusteeState;
use tm_batch::Completion;
use tm_objects::Objects;
use tm_seq::{Entrusted, Event, Next};

impl<S: Entrusted> TrusteeState<S> {
    /// Lets a launch begin that may: the first of its object, which has not begun. It goes on until it asks an
    /// object that is held above, or ends. None where there is no such launch: then each launch that is the first
    /// of its object awaits a reply. `held` says how many objects this trustee holds at each trustee, by their
    /// numbers. The entries that are made are added to `made`. Beside what the task does it
    /// takes constant time, and a look at each ask; it allocates nothing.
    pub fn resume(&mut self, held: &[u32], made: &mut Made<S>) -> Option<Resumed<S>>
        requires { IsResumable S.kind held.now made.old.entries.items self.old }
        ensures none { IfNone result (AllAwait S.kind self.old) }
        ensures same { IfNone result (self.new ≡ self.old) }
        ensures unmade { IfNone result (made.new ≡ made.old) }
        ensures goes { IfSome result (λ r. (l : Ticket (Pending S.Task)) × (es : List (Entry S S.Op S.Reply S.Task)) × (first_of l.id self.old.launched ≡ Some l) × (l.task.awaits ≡ Start) × Makes es made.old made.new × HasGoneOn S.kind held.now l Begin es r self.old self.new) }
        ensures fewer { IfSome result (λ _. to_begin self.new.launched + 1 ≡ to_begin self.old.launched) }
        ensures keeps { KeepsOn S.kind held.now made.old.entries.items made.new.entries.items self.old self.new }
    {
        let launch = self.launches.next()?;
        let mark = launch.mark();
        let next = go_on(
            self.objects.value_mut(mark.name),
            self.number,
            held,
            launch,
            Event::Begin,
            made,
            &mut self.entries,
        );
        Some(settle(
            &mut self.objects,
            &mut self.launches,
            &mut self.ready,
            mark,
            next,
        ))
    }

    /// Tells a launch that was handed out the reply to its ask, and lets it go on until it asks an object that is
    /// held above, or ends. The rest is as in [`resume`](TrusteeState::resume).
    pub fn reply(
        &mut self,
        held: &[u32],
        launch: Launch<S>,
        reply: S::Reply,
        made: &mut Made<S>,
    ) -> Resumed<S>
        requires may { IsResumable S.kind held.now made.old.entries.items self.old }
        requires first { first_of launch.id self.old.launched ≡ Some launch }
        requires begun { launch.task.awaits ≡ Start → ⊥ }
        ensures goes { (es : List (Entry S S.Op S.Reply S.Task)) × Makes es made.old made.new × HasGoneOn S.kind held.now launch (Reply reply) es result self.old self.new }
        ensures keeps { KeepsOn S.kind held.now made.old.entries.items made.new.entries.items self.old self.new }
    {
        self.launches.known(&launch);
        let mark = launch.mark();
        let next = go_on(
            self.objects.value_mut(mark.name),
            self.number,
            held,
            launch,
            Event::Reply(reply),
            made,
            &mut self.entries,
        );
        settle(
            &mut self.objects,
            &mut self.launches,
            &mut self.ready,
            mark,
            next,
        )
    }
}

// Notes what a launch did last: it is handed out with its ask, or its completion is ready.
fn settle<S: Entrusted>(
    objects: &mut Objects<S>,
    launches: &mut Launches<S>,
    ready: &mut Ready<S>,
    mark: Mark,
    next: Next<S::Op, S::Task, S::Reply>,
) -> Resumed<S>
    requires object { HasLive objects.old.live mark.name.id (λ o. 1 ≤ o.launches) }
    requires first { IsSome (first_of mark.name.id launches.old.launched) }
    requires gone { first_of mark.name.id launches.old.begins ≡ None }
    requires place { mark.place < length ready.old }
    requires room { length (slice_index_or ready.old mark.place []) < WINDOW }
    ensures settled { Settles mark.name.id mark.ticket mark.place next result launches.old.launched launches.new.launched ready.old ready.new }
    ensures objects { Finishes mark.name.id next objects.old objects.new }
    ensures room { launches.new.room ≡ launches.old.room }
    ensures begins { BeginsBut mark.name.id launches.old.launched launches.old.begins → Begins launches.new.launched launches.new.begins }
{
    match next {
        Next::Ask {
            trustee,
            index,
            op,
            task,
        } => {
            let launch = mark.asking(trustee, index, task);
            launches.goes_on(&launch);
            Resumed::Asked {
                trustee,
                index,
                op,
                launch,
            }
        }
        Next::Done { reply } => {
            launches.end(mark.name.id);
            ready.push(
                mark.place,
                Completion {
                    ticket: mark.ticket,
                    reply,
                },
            );
            objects.finish(mark.name);
            Resumed::Ended
        }
    }
}
