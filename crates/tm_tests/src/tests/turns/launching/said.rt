//! What an answer batch says, in short.

use tm_batch::{Answer, AnswerBatch, Completion};
use tm_seq::{Counter, CounterReply};

/// An answer, or what a launch ended with.
#[derive(Debug, Clone, Copy, PartialEq, Eq)]
pub(super) enum Said {
    /// The ticket of a launch.
    Launched(u64),
    /// The number of a counter.
    Is(u64),
    /// A task was told what it did not await.
    Refused,
    /// Something else.
    Other,
}

fn of_reply(reply: &CounterReply) -> Said {
    match reply {
        CounterReply::Is(number) => Said::Is(*number),
        CounterReply::Refused => Said::Refused,
        CounterReply::NoMemory => Said::Other,
    }
}

fn of_answer(answer: &Answer<Counter>) -> Said {
    match answer {
        Answer::Replied(reply) => of_reply(reply),
        Answer::Launched(ticket) => Said::Launched(*ticket),
        _ => Said::Other,
    }
}

/// Whether a completion is of that ticket, and says that.
fn is_end(completion: &Completion<Counter>, ended: &(u64, Said)) -> bool {
    completion.ticket == ended.0 && of_reply(&completion.reply) == ended.1
}

/// Whether these answers came, in order, with these completions, and no gift.
pub(super) fn shows(came: &AnswerBatch<Counter>, answers: &[Said], ended: &[(u64, Said)]) -> bool {
    let as_many = came.answers.len() == answers.len() && came.completions.len() == ended.len();
    let same = came
        .answers
        .iter()
        .zip(answers)
        .all(|(a, s)| of_answer(a) == *s);
    let same_ends = came
        .completions
        .iter()
        .zip(ended)
        .all(|(c, e)| is_end(c, e));
    as_many && same && same_ends && came.gifts.is_empty()
}
