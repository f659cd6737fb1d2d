//! A trustee goes on with launched work.
ghost use Rattle.std.specs.Prelude.{◌≡◌, ◌<◌, length, IfNone, IfSome};
ghost use Rattle.tm_state.specs.Resuming.{AllAwait};
ghost use Rattle.tm_trustee.specs.Serving.{AreTold};
ghost use Rattle.tm_trustee.specs.Tasks.{MayNote, Notes, HasAskers, IsToldAt, TakesAt, IsGoingOn, GoesOnWith, SameCame, MadeMore, ResumesMade};

use crate::lane::Lane;
use std::mem;
use tm_ghost::GhostList;
use tm_model::Entry;
use tm_pair::FitsBatches;
use tm_state::{Launch, Made, Resumed, TrusteeState};

/// Notes what a launch did last: an ask waits at its trustee's lane, and the launch for its reply.
fn note<S: FitsBatches>(lanes: &mut Vec<Lane<S>>, number: u32, resumed: Resumed<S>)
    requires { MayNote number resumed lanes.old.items }
    ensures { Notes number resumed lanes.old.items lanes.new.items }
{
    if let Resumed::Asked {
        trustee,
        index,
        op,
        launch,
    } = resumed
    {
        let lane = (trustee - number - 1) as usize;
        lanes[lane].ask(index, op, launch);
    }
}

/// Takes the first reply that came at a lane and was not told, with the launch that asked.
fn next_at<S: FitsBatches>(lanes: &mut Vec<Lane<S>>, i: usize) -> Option<(Launch<S>, S::Reply)>
    requires index { i < length lanes.old.items }
    requires askers { HasAskers i lanes.old.items }
    ensures none { IfNone result (IsToldAt i lanes.old.items) }
    ensures same { IfNone result (lanes.new.items ≡ lanes.old.items) }
    ensures takes { IfSome result (λ r. TakesAt i r.0 r.1 lanes.old.items lanes.new.items) }
{
    lanes[i].next_reply()
}

/// Tells the replies that came at a lane, in order, each to the launch that asked.
fn tell_lane<S: FitsBatches>(
    state: &mut TrusteeState<S>,
    number: u32,
    held: &[u32],
    lanes: &mut Vec<Lane<S>>,
    made: &mut Made<S>,
    i: usize,
)
    requires going { IsGoingOn S S.Op S.Reply S.Task S.kind number held.now made.old.entries.items state.old lanes.old.items }
    requires index { i < length lanes.old.items }
    ensures goes { GoesOnWith S.kind number held.now made.old.entries.items made.new.entries.items state.old state.new lanes.old.items lanes.new.items }
    ensures made { MadeMore made.old made.new }
    ensures as_many { length lanes.new.items ≡ length lanes.old.items }
    ensures told { IsToldAt i lanes.new.items }
    ensures others { SameCame i lanes.old.items lanes.new.items }
{
    while let Some((launch, reply)) = next_at(lanes, i) {
        let resumed = state.reply(held, launch, reply, made);
        note(lanes, number, resumed);
    }
}

/// Tells the replies that came, each to the launch that asked.
fn tell_all<S: FitsBatches>(
    state: &mut TrusteeState<S>,
    number: u32,
    held: &[u32],
    lanes: &mut Vec<Lane<S>>,
    made: &mut Made<S>,
)
    requires going { IsGoingOn S S.Op S.Reply S.Task S.kind number held.now made.old.entries.items state.old lanes.old.items }
    ensures goes { GoesOnWith S.kind number held.now made.old.entries.items made.new.entries.items state.old state.new lanes.old.items lanes.new.items }
    ensures made { MadeMore made.old made.new }
    ensures told { AreTold lanes.new.items }
{
    let count = lanes.len();
    for i in 0..count {
        tell_lane(state, number, held, lanes, made, i);
    }
}

/// Begins each launch that is the first of its object.
fn begin_all<S: FitsBatches>(
    state: &mut TrusteeState<S>,
    number: u32,
    held: &[u32],
    lanes: &mut Vec<Lane<S>>,
    made: &mut Made<S>,
)
    requires going { IsGoingOn S S.Op S.Reply S.Task S.kind number held.now made.old.entries.items state.old lanes.old.items }
    requires told { AreTold lanes.old.items }
    ensures goes { GoesOnWith S.kind number held.now made.old.entries.items made.new.entries.items state.old state.new lanes.old.items lanes.new.items }
    ensures made { MadeMore made.old made.new }
    ensures told { AreTold lanes.new.items }
    ensures all { AllAwait S.kind state.new }
{
    while let Some(resumed) = state.resume(held, made) {
        note(lanes, number, resumed);
    }
}

/// Tells each reply that came to the launch that asked, and begins each launch that is the first of its object; each
/// goes on until it asks above or ends. How many resumes were made, or `u64::MAX` where that is more.
pub(crate) fn resume_lanes<S: FitsBatches>(
    state: &mut TrusteeState<S>,
    number: u32,
    held: &[u32],
    since: &mut GhostList<Entry<S>>,
    lanes: &mut Vec<Lane<S>>,
) -> u64
    requires { IsGoingOn S S.Op S.Reply S.Task S.kind number held.now since.old.items state.old lanes.old.items }
    ensures goes { GoesOnWith S.kind number held.now since.old.items since.new.items state.old state.new lanes.old.items lanes.new.items }
    ensures told { AreTold lanes.new.items }
    ensures all { AllAwait S.kind state.new }
    ensures count { ResumesMade since.old.items since.new.items result }
{
    let mut made = Made {
        entries: mem::replace(since, GhostList::new()),
        count: 0,
    };
    tell_all(state, number, held, lanes, &mut made);
    begin_all(state, number, held, lanes, &mut made);
    let Made { entries, count } = made;
    *since = entries;
    count
}
