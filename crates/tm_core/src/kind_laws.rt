//! What holds of all logs, states and cores of a trustee, for every kind of object.
//!
//! Nothing here runs: each function states a law.
ghost use Rattle.tm_model.specs.Laws.{RequestsAreNumbered, LegalLogsJoin, BatchesHaveAllAnswers, GrowingAdds, FirstIsGood, PublishKeepsGood, SeeKeepsGood, AnswerKeepsGood, CollectKeepsGood};
ghost use Rattle.tm_model.specs.Leaving.{BatchesJoin};

use tm_seq::Entrusted;

/// A legal log that is joined of two is a legal log, and then one that is legal behind it.
pub fn legal_logs_join<S: Entrusted>()
    ensures { LegalLogsJoin S.kind }
{}

/// The requests of a place are numbered from 0 in a legal log, and its state counts them.
pub fn requests_are_numbered<S: Entrusted>()
    ensures { RequestsAreNumbered S.kind }
{}

/// The answers of the batches that left for a place, and those that have not left, are the answers to its requests.
pub fn batches_have_all_answers<S: Entrusted>()
    ensures { BatchesHaveAllAnswers S.kind }
{}

/// What leaves for a place by a log that is joined of two is what leaves by the first, and then what
/// leaves by the second behind it.
pub fn batches_join<S: Entrusted>()
    ensures { BatchesJoin S.kind }
{}

/// The first core is good.
pub fn first_is_good<S: Entrusted>()
    ensures { FirstIsGood S.kind }
{}

/// A look of the trustee keeps the core good.
pub fn see_keeps_good<S: Entrusted>()
    ensures { SeeKeepsGood S.kind }
{}

/// An orderly publish keeps the core good.
pub fn publish_keeps_good<S: Entrusted>()
    ensures { PublishKeepsGood S.kind }
{}

/// An answer by legal entries keeps the core good, with what each place holds and is owed.
pub fn answer_keeps_good<S: Entrusted>()
    ensures { AnswerKeepsGood S.kind }
{}

/// A look of a client keeps the core good.
pub fn collect_keeps_good<S: Entrusted>()
    ensures { CollectKeepsGood S.kind }
{}

/// A log that may grow by a batch grows by it in the eyes of the slots.
pub fn growing_adds<S: Entrusted>()
    ensures { GrowingAdds S.kind }
{}
