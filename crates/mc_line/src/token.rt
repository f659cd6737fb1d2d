//! The tokens of a line.
ghost use Rattle.std.specs.Prelude.{◌≡◌, ◌+◌, map, IfOk, Some, None, if◌then◌else◌};
ghost use Rattle.mc_item.specs.Keys.{is_key};
ghost use Rattle.mc_item.specs.Numbers.{number_below};
ghost use Rattle.mc_model.specs.Commands as spec;
ghost use Rattle.mc_model.specs.Line as line_spec;

use mc_item::number::number;
use mc_item::{Key, KeyRefused};
use std::alloc::{AllocError, Global};

// The bytes of a line before its end.
pub(crate) fn body(line: &[u8]) -> &[u8]
    ensures { result.now ≡ line_spec.body line.now }
{
    if line.is_empty() {
        return line;
    }
    let front = &line[..line.len() - 1];
    if !front.is_empty() && front[front.len() - 1] == b'\r' {
        &front[..front.len() - 1]
    } else {
        front
    }
}

// The longest runs of bytes that are no space.
pub(crate) fn tokens(alloc: Global, bytes: &[u8]) -> Result<Vec<&[u8]>, AllocError>
    ensures { IfOk result (λ v. map (λ t. t.now) v.items ≡ line_spec.tokens bytes.now) }
{
    bytes
        .split(|b| *b == b' ')
        .filter(|t| !t.is_empty())
        .collect(alloc)
}

pub(crate) fn is_noreply(token: &[u8]) -> bool
    ensures { result ≡ spec.is_noreply token.now }
{
    token == b"noreply".as_slice()
}

pub(crate) fn is_zero(token: &[u8]) -> bool
    ensures { result ≡ spec.is_zero token.now }
{
    token == b"0".as_slice()
}

// Whether `noreply` stands at the end of a line, where nothing else does.
pub(crate) fn quiet_of(end: &[&[u8]]) -> Option<bool>
    ensures { result ≡ spec.quiet_of (map (λ t. t.now) end.now) }
{
    match end {
        [] => Some(false),
        [last] => is_noreply(last).then_some(true),
        [_, _, ..] => None,
    }
}

// A key, or nothing where the bytes are none.
pub(crate) fn key_of(alloc: Global, from: &[u8]) -> Result<Option<Key>, AllocError>
    ensures { IfOk result (λ key. key ≡ (if is_key from.now then Some from.now else None)) }
{
    match Key::of(alloc, from) {
        Ok(key) => Ok(Some(key)),
        Err(KeyRefused::BadKey) => Ok(None),
        Err(KeyRefused::NoMemory) => Err(AllocError),
    }
}

// A number of at most `most`.
pub(crate) fn small_number(text: &[u8], most: u32) -> Option<u32>
    ensures { result ≡ number_below (most + 1) text.now }
{
    let value = number(text, u64::from(most))?;
    Some(value as u32)
}
