//! The commands on the store as a whole.
ghost use Rattle.std.specs.Prelude.{◌≡◌, [], map};
ghost use Rattle.mc_model.specs.Commands as spec;

use crate::saying::{asks, bad};
use crate::token::{is_noreply, quiet_of, small_number};
use mc_model::{Command, Saying};

fn flush(delay: Option<u32>, quiet: Option<bool>) -> Saying
    ensures { result ≡ spec.flush delay quiet }
{
    match (delay, quiet) {
        (Some(delay), Some(quiet)) => asks(Command::FlushAll { delay, quiet }),
        _ => bad(),
    }
}

/// `flush_all`: [delay] [noreply].
pub(crate) fn flush_row(tokens: &[&[u8]]) -> Saying
    ensures { result ≡ spec.flush_row (map (λ t. t.now) tokens.now) }
{
    match tokens {
        [] => flush(Some(0), Some(false)),
        [only] => {
            if is_noreply(only) {
                flush(Some(0), Some(true))
            } else {
                flush(small_number(only, u32::MAX), Some(false))
            }
        }
        [delay, end @ ..] => flush(small_number(delay, u32::MAX), quiet_of(end)),
    }
}

fn verbosity(level: Option<u32>, quiet: Option<bool>) -> Saying
    ensures { result ≡ spec.verbosity level quiet }
{
    match (level, quiet) {
        (Some(_), Some(quiet)) => asks(Command::Verbosity { quiet }),
        _ => bad(),
    }
}

/// `verbosity`: level [noreply].
pub(crate) fn verbosity_row(tokens: &[&[u8]]) -> Saying
    ensures { result ≡ spec.verbosity_row (map (λ t. t.now) tokens.now) }
{
    match tokens {
        [level, end @ ..] => verbosity(small_number(level, u32::MAX), quiet_of(end)),
        [] => bad(),
    }
}

/// `stats`, `version` and `quit`: nothing behind the name.
pub(crate) fn plain_row(command: Command, tokens: &[&[u8]]) -> Saying
    ensures { result ≡ spec.plain_row command (map (λ t. t.now) tokens.now) }
{
    if tokens.is_empty() {
        asks(command)
    } else {
        bad()
    }
}
