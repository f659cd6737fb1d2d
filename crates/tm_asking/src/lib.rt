//! What one message asks of a client, and what comes back.
//!
//! [`Asking`] has a place for the reply to each question of a message. It asks the questions in order, each of its own
//! trustee, as far as the client's windows allow, and takes the replies as they come. Between the two
//! [`turn_where_counting`] makes the client's turns.
//!
//! What questions and replies are by what the client's sides tell stands in specs/Questions.antt: the sent list of each side
//! grew by the questions to its trustee, and each reply is that of its question's own entry in the log that the side has seen;
//! that of a launch is the one with which the work of its ticket ended in that log.
#![tactic(auto)]

mod asking;
mod counting;
mod laws;
mod turning;

pub use asking::{Asking, Taken, may_begin};
pub use counting::none_counts;
pub use laws::{all_are_some, all_join, questions_join, some_are_all, some_join};
pub use turning::{Turned, turn_where_counting};
