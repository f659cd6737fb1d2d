//! What holds of all legal logs of a trustee and of the states that they leave, for every kind of object.
//!
//! Nothing here runs: each function states a law.
ghost use Rattle.tm_model.specs.Laws.{StatesAreSound, HistoriesTellValues, LaunchesAreLatched, BatchesArePromised, LongerLogsAdd, IdsNeverReturn, CompletionsAreOfLaunches, RepliesAreOfHistories, ResumesAreOfHistories, ReclaimsAreOfHistories, HeldAreLive, SeenLogsAgree};

use tm_seq::Entrusted;

/// A legal log leaves a sound state: ids and tickets are given out once, up to the last; each live
/// object has a hold or unfinished work; no place has more holds on one object than a `u32` counts,
/// and no more than [`MOST_GIFTS`](tm_batch::MOST_GIFTS) gifts wait for it.
pub fn states_are_sound<S: Entrusted>()
    ensures { StatesAreSound S.kind }
{}

/// The value and the unfinished tasks of a live object are what its history leaves, by the kind's
/// `step` and `advance` alone, of the value with which it was entrusted.
pub fn histories_tell_values<S: Entrusted>()
    ensures { HistoriesTellValues S.kind }
{}

/// Launched work on one object runs one at a time, in the order of its launches, each ended before
/// the next begins.
pub fn launches_are_latched<S: Entrusted>()
    ensures { LaunchesAreLatched S.kind }
{}

/// A good core tells of each batch that is asked or taken, whatever is resumed first and answered to
/// its earlier requests: each id that a request names is live and held by its place; unfinished
/// launches, ready completions and launches of the batch are together at most
/// [`WINDOW`](tm_batch::WINDOW); a Bye stands alone, and nothing follows one.
pub fn batches_are_promised<S: Entrusted>()
    ensures { BatchesArePromised S.kind }
{}

/// A longer log only adds: what ran for a place, its answers and its answer batches go on.
pub fn longer_logs_add<S: Entrusted>()
    ensures { LongerLogsAdd S.kind }
{}

/// Ids and tickets are given out in order, each once, and an id that was given out and is not live
/// is never live again.
pub fn ids_never_return<S: Entrusted>()
    ensures { IdsNeverReturn S.kind }
{}

/// The completions that left for a place, and then those that are ready, are those of the launches
/// of the place that ended, in the order of their ends, and no two have one ticket.
pub fn completions_are_of_launches<S: Entrusted>()
    ensures { CompletionsAreOfLaunches S.kind }
{}

/// Each reply of an apply in a legal log is lawful on the value that the history before it leaves:
/// that of the kind's `step`, or one for want of memory.
pub fn replies_are_of_histories<S: Entrusted>()
    ensures { RepliesAreOfHistories S.kind }
{}

/// Each resume in a legal log is of the first unfinished task that the history before it leaves, and
/// is lawful on its value: it does what the kind's `advance` says, or ends for want of memory.
pub fn resumes_are_of_histories<S: Entrusted>()
    ensures { ResumesAreOfHistories S.kind }
{}

/// A value that is taken back is the one that its history leaves, with no task unfinished, and its
/// id is never live again.
pub fn reclaims_are_of_histories<S: Entrusted>()
    ensures { ReclaimsAreOfHistories S.kind }
{}

/// In a good core an id that a place holds by what it sent and got, before its Bye, is live and held
/// by it.
pub fn held_are_live<S: Entrusted>()
    ensures { HeldAreLive S.kind }
{}

/// In a good core one of what two places have seen begins the other, and what was run of a place in
/// what another has seen begins what that place sent.
pub fn seen_logs_agree<S: Entrusted>()
    ensures { SeenLogsAgree S.kind }
{}
