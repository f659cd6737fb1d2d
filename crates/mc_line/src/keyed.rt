//! The commands on keys that have no block.
ghost use Rattle.std.specs.Prelude.{◌≡◌, map, IfOk, Some, None, if◌then◌else◌};
ghost use Rattle.mc_model.specs.Commands as spec;

use crate::saying::{asks, bad, fails};
use crate::token::{is_zero, key_of, quiet_of};
use mc_item::MOST_KEYS;
use mc_item::number::{exptime, number};
use mc_model::{Command, Fault, Keys, Saying};
use std::alloc::{AllocError, Global};

// Copies of tokens, where 1 to `MOST_KEYS` of them are there and all are keys.
fn keys_of(alloc: Global, tokens: &[&[u8]]) -> Result<Option<Keys>, AllocError>
    ensures { let keys = map (λ t. t.now) tokens.now in
        IfOk result (λ found. found ≡ (if spec.are_keys keys then Some keys else None)) }
{
    if tokens.is_empty() || tokens.len() > MOST_KEYS {
        return Ok(None);
    }
    let mut keys = Keys::new(alloc);
    for token in tokens {
        match key_of(alloc, token)? {
            Some(key) => keys.push(key)?,
            None => return Ok(None),
        }
    }
    Ok(Some(keys))
}

/// `get` and `gets`: 1 to [`MOST_KEYS`] keys.
pub(crate) fn get_row(alloc: Global, with_cas: bool, tokens: &[&[u8]]) -> Result<Saying, AllocError>
    ensures { IfOk result (λ s. s ≡ spec.get_row with_cas (map (λ t. t.now) tokens.now)) }
{
    match keys_of(alloc, tokens)? {
        Some(keys) => Ok(asks(Command::Get { keys, with_cas })),
        None => Ok(bad()),
    }
}

fn get_touch(
    alloc: Global,
    with_cas: bool,
    exptime: Option<i64>,
    tokens: &[&[u8]],
) -> Result<Saying, AllocError>
    ensures { IfOk result (λ s. s ≡ spec.get_touch with_cas exptime (map (λ t. t.now) tokens.now)) }
{
    let Some(exptime) = exptime else {
        return Ok(bad());
    };
    match keys_of(alloc, tokens)? {
        Some(keys) => Ok(asks(Command::GetTouch {
            exptime,
            keys,
            with_cas,
        })),
        None => Ok(bad()),
    }
}

/// `gat` and `gats`: exptime, and 1 to [`MOST_KEYS`] keys.
pub(crate) fn get_touch_row(
    alloc: Global,
    with_cas: bool,
    tokens: &[&[u8]],
) -> Result<Saying, AllocError>
    ensures { IfOk result (λ s. s ≡ spec.get_touch_row with_cas (map (λ t. t.now) tokens.now)) }
{
    match tokens {
        [seconds, keys @ ..] => get_touch(alloc, with_cas, exptime(seconds), keys),
        [] => Ok(bad()),
    }
}

// What stands behind a `0`, if there is one.
fn without_zero<'a, 'b>(end: &'a [&'b [u8]]) -> &'a [&'b [u8]]
    ensures { map (λ t. t.now) result.now ≡ spec.without_zero (map (λ t. t.now) end.now) }
{
    match end {
        [] => end,
        [first, rest @ ..] => { if is_zero(first) { rest } else { end } }
    }
}

fn delete(alloc: Global, key: &[u8], quiet: Option<bool>) -> Result<Saying, AllocError>
    ensures { IfOk result (λ s. s ≡ spec.delete key.now quiet) }
{
    if let Some(quiet) = quiet
        && let Some(key) = key_of(alloc, key)?
    {
        return Ok(asks(Command::Delete { key, quiet }));
    }
    Ok(bad())
}

/// `delete`: key [0] [noreply].
pub(crate) fn delete_row(alloc: Global, tokens: &[&[u8]]) -> Result<Saying, AllocError>
    ensures { IfOk result (λ s. s ≡ spec.delete_row (map (λ t. t.now) tokens.now)) }
{
    match tokens {
        [key, end @ ..] => delete(alloc, key, quiet_of(without_zero(end))),
        [] => Ok(bad()),
    }
}

fn change(
    alloc: Global,
    up: bool,
    key: &[u8],
    amount: Option<u64>,
    quiet: Option<bool>,
) -> Result<Saying, AllocError>
    ensures { IfOk result (λ s. s ≡ spec.change up key.now amount quiet) }
{
    if let Some(quiet) = quiet
        && let Some(key) = key_of(alloc, key)?
    {
        return Ok(match amount {
            Some(by) => asks(Command::Change { up, key, by, quiet }),
            None => fails(Fault::BadDelta),
        });
    }
    Ok(bad())
}

/// `incr` (`up`) and `decr`: key amount [noreply].
pub(crate) fn change_row(alloc: Global, up: bool, tokens: &[&[u8]]) -> Result<Saying, AllocError>
    ensures { IfOk result (λ s. s ≡ spec.change_row up (map (λ t. t.now) tokens.now)) }
{
    match tokens {
        [key, amount, end @ ..] => {
            change(alloc, up, key, number(amount, u64::MAX), quiet_of(end))
        }
        [] => Ok(bad()),
        [_] => Ok(bad()),
    }
}

fn touch(
    alloc: Global,
    key: &[u8],
    exptime: Option<i64>,
    quiet: Option<bool>,
) -> Result<Saying, AllocError>
    ensures { IfOk result (λ s. s ≡ spec.touch key.now exptime quiet) }
{
    if let (Some(exptime), Some(quiet)) = (exptime, quiet)
        && let Some(key) = key_of(alloc, key)?
    {
        return Ok(asks(Command::Touch {
            key,
            exptime,
            quiet,
        }));
    }
    Ok(bad())
}

/// `touch`: key exptime [noreply].
pub(crate) fn touch_row(alloc: Global, tokens: &[&[u8]]) -> Result<Saying, AllocError>
    ensures { IfOk result (λ s. s ≡ spec.touch_row (map (λ t. t.now) tokens.now)) }
{
    match tokens {
        [key, seconds, end @ ..] => touch(alloc, key, exptime(seconds), quiet_of(end)),
        [] => Ok(bad()),
        [_] => Ok(bad()),
    }
}
