//! What one reply to an operation says. A reply that the operation never has says an error.
ghost use Rattle.std.specs.Prelude.{◌≡◌};
ghost use Rattle.mc_model.specs.Showing.{is_no_memory, store_says, delete_says, touch_says, change_shows, flush_says, stats_shows, shown_of_fault, unless_quiet};

use mc_model::{Fault, How, Said, ShardReply, Shown};

/// Whether memory was wanting.
pub fn lacks_memory(reply: &ShardReply) -> bool
    ensures { result ≡ is_no_memory reply.now }
{
    matches!(reply, ShardReply::NoMemory)
}

/// The line for the reply to a storage command.
pub fn store_says(how: How, reply: &ShardReply) -> Said
    ensures { result ≡ store_says how reply.now }
{
    match (how, reply) {
        (_, ShardReply::Stored) => Said::Stored,
        (_, ShardReply::TooLarge) => Said::TooLarge,
        (_, ShardReply::OutOfCas) => Said::OutOfCas,
        (How::Add | How::Replace | How::Append | How::Prepend, ShardReply::NotStored) => {
            Said::NotStored
        }
        (How::Cas(_), ShardReply::NotFound) => Said::NotFound,
        (How::Cas(_), ShardReply::Exists) => Said::Exists,
        _ => Said::Error,
    }
}

/// The line for the reply to a `delete`.
pub fn delete_says(reply: &ShardReply) -> Said
    ensures { result ≡ delete_says reply.now }
{
    match reply {
        ShardReply::Deleted => Said::Deleted,
        ShardReply::NotFound => Said::NotFound,
        _ => Said::Error,
    }
}

/// The line for the reply to a `touch`.
pub fn touch_says(reply: &ShardReply) -> Said
    ensures { result ≡ touch_says reply.now }
{
    match reply {
        ShardReply::Touched => Said::Touched,
        ShardReply::NotFound => Said::NotFound,
        _ => Said::Error,
    }
}

/// What the reply to an `incr` or `decr` shows.
pub fn change_shows(reply: &ShardReply) -> Shown
    ensures { result ≡ change_shows reply.now }
{
    Shown::Line(match reply {
        ShardReply::Number(number) => return Shown::Number(*number),
        ShardReply::NotFound => Said::NotFound,
        ShardReply::NonNumeric => Said::NonNumeric,
        ShardReply::OutOfCas => Said::OutOfCas,
        _ => Said::Error,
    })
}

/// The line for the reply to a `flush_all`.
pub fn flush_says(reply: &ShardReply) -> Said
    ensures { result ≡ flush_says reply.now }
{
    match reply {
        ShardReply::Flushed => Said::Ok,
        _ => Said::Error,
    }
}

/// What the reply to `stats` shows.
pub fn stats_shows(reply: &ShardReply) -> Shown
    ensures { result ≡ stats_shows reply.now }
{
    match reply {
        ShardReply::Counts { held, stored } => Shown::Stats {
            held: *held,
            stored: *stored,
        },
        _ => Shown::Line(Said::Error),
    }
}

/// A line, or nothing where the command or the fault is quiet.
pub fn line_unless(quiet: bool, said: Said) -> Shown
    ensures { result ≡ unless_quiet quiet said }
{
    if quiet {
        Shown::Nothing
    } else {
        Shown::Line(said)
    }
}

/// What a fault shows.
pub fn fault_shows(fault: Fault) -> Shown
    ensures { result ≡ shown_of_fault fault }
{
    match fault {
        Fault::Unknown => Shown::Line(Said::Error),
        Fault::BadLine => Shown::Line(Said::BadLine),
        Fault::BadDelta => Shown::Line(Said::BadDelta),
        Fault::LineTooLong => Shown::Line(Said::LineTooLong),
        Fault::BadChunk { quiet } => line_unless(quiet, Said::BadChunk),
        Fault::TooLarge { quiet } => line_unless(quiet, Said::TooLarge),
    }
}
