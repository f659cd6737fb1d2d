//! The storage commands.
ghost use Rattle.std.specs.Prelude.{◌≡◌, map, IfOk};
ghost use Rattle.mc_model.specs.Commands as spec;

use crate::saying::bad;
use crate::token::{key_of, quiet_of, small_number};
use mc_item::number::{exptime, number};
use mc_model::{Header, How, Saying};
use std::alloc::{AllocError, Global};

/// The most bytes that a line may declare for its block.
pub const MOST_DECLARED: u32 = 2_147_483_647;

// The block that a line announces, if all its parts are lawful.
fn announced(
    alloc: Global,
    how: How,
    key: &[u8],
    flags: Option<u32>,
    exptime: Option<i64>,
    size: Option<u32>,
    quiet: Option<bool>,
) -> Result<Saying, AllocError>
    ensures { IfOk result (λ s. s ≡ spec.announced how key.now flags exptime size quiet) }
{
    if let (Some(flags), Some(exptime), Some(size), Some(quiet)) = (flags, exptime, size, quiet)
        && let Some(key) = key_of(alloc, key)?
    {
        return Ok(Saying::Awaits(Header {
            how,
            key,
            flags,
            exptime,
            size,
            quiet,
        }));
    }
    Ok(bad())
}

/// `set` and its like: key flags exptime bytes [noreply].
pub(crate) fn store_row(alloc: Global, how: How, tokens: &[&[u8]]) -> Result<Saying, AllocError>
    ensures { IfOk result (λ s. s ≡ spec.store_row how (map (λ t. t.now) tokens.now)) }
{
    match tokens {
        [key, flags, seconds, size, end @ ..] => announced(
            alloc,
            how,
            key,
            small_number(flags, u32::MAX),
            exptime(seconds),
            small_number(size, MOST_DECLARED),
            quiet_of(end),
        ),
        [] => Ok(bad()),
        [_] => Ok(bad()),
        [_, _] => Ok(bad()),
        [_, _, _] => Ok(bad()),
    }
}

fn cas(
    alloc: Global,
    key: &[u8],
    flags: Option<u32>,
    exptime: Option<i64>,
    size: Option<u32>,
    unique: Option<u64>,
    quiet: Option<bool>,
) -> Result<Saying, AllocError>
    ensures { IfOk result (λ s. s ≡ spec.cas key.now flags exptime size unique quiet) }
{
    match unique {
        Some(unique) => announced(alloc, How::Cas(unique), key, flags, exptime, size, quiet),
        None => Ok(bad()),
    }
}

/// `cas`: key flags exptime bytes unique [noreply].
pub(crate) fn cas_row(alloc: Global, tokens: &[&[u8]]) -> Result<Saying, AllocError>
    ensures { IfOk result (λ s. s ≡ spec.cas_row (map (λ t. t.now) tokens.now)) }
{
    match tokens {
        [key, flags, seconds, size, unique, end @ ..] => cas(
            alloc,
            key,
            small_number(flags, u32::MAX),
            exptime(seconds),
            small_number(size, MOST_DECLARED),
            number(unique, u64::MAX),
            quiet_of(end),
        ),
        [] => Ok(bad()),
        [_] => Ok(bad()),
        [_, _] => Ok(bad()),
        [_, _, _] => Ok(bad()),
        [_, _, _, _] => Ok(bad()),
    }
}
