//! What one place can tell of a legal log by what it has seen of it, for every kind of object.
//!
//! Nothing here runs: each function states a law. A log is cut for a place where it ends with the
//! leaving of the last answer batch that the place has by it, or is empty where it has none.
ghost use Rattle.tm_model.specs.ClientLaws.{AnswersAreAsMany, AnswersFit, OpeningsGive, LogsTellHolds, BatchesLeaveAtFronts, TicketsComeFirst, FrontsAgree};

use tm_seq::Entrusted;

/// By a log that is cut for a place, as many answers came to the place as requests of it were run,
/// and they are the answers to these.
pub fn answers_are_as_many<S: Entrusted>()
    ensures { AnswersAreAsMany S.kind }
{}

/// By a legal log that is cut for a place, the answer of each position is one to the request of
/// that position: a value or a task that was not taken comes back.
pub fn answers_fit<S: Entrusted>()
    ensures { AnswersFit S.kind }
{}

/// A trustee's opening gives a place one hold on each object that the build places on the trustee
/// with the place among its holders, and no other hold. The objects are numbered from 1.
pub fn openings_give<S: Entrusted>()
    ensures { OpeningsGive S.kind }
{}

/// A legal log that is cut for a place and has no Bye of it tells what the place holds: what came
/// to it, less what it gave away, and what waits as a gift. It holds no more by its own count than
/// the state holds for it.
pub fn logs_tell_holds<S: Entrusted>()
    ensures { LogsTellHolds S.kind }
{}

/// Each answer batch left by the last entry of a front of the log, whose length it tells, and what
/// left by that front are the answer batches up to it.
pub fn batches_leave_at_fronts<S: Entrusted>()
    ensures { BatchesLeaveAtFronts S.kind }
{}

/// The ticket of each completion stands among the answers up to those of its own batch.
pub fn tickets_come_first<S: Entrusted>()
    ensures { TicketsComeFirst S.kind }
{}

/// Of two fronts of the log of a good core one begins the other. A front is legal, and what it ran
/// for a place begins what the place sent. What a place has seen is a front.
pub fn fronts_agree<S: Entrusted>()
    ensures { FrontsAgree S.kind }
{}
