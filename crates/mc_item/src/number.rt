//! Numbers as memcached's protocol.txt writes them.
ghost use Rattle.std.specs.Prelude.{◌≡◌, ◌+◌, ◌≤◌, pos, option_map, IfSome};
ghost use Rattle.mc_item.specs.Numbers.{digits_below, number_below, magnitude, exptime_of};

use crate::limits::{LONGEST_EXPTIME, LONGEST_NUMBER};

#[tactic(auto, unfolding(crate::specs::Numbers::digits_below))]
fn digits(text: &[u8], longest: usize, most: u64) -> Option<u64>
    ensures value { result ≡ digits_below longest (most + 1) text.now }
    ensures most { IfSome result (λ value. value ≤ most) }
{
    if text.is_empty() || longest < text.len() {
        return None;
    }
    let mut value: u64 = 0;
    for byte in text {
        if !byte.is_ascii_digit() {
            return None;
        }
        value = value.checked_mul(10)?.checked_add(u64::from(*byte - b'0'))?;
    }
    (value <= most).then_some(value)
}

/// The number that a text of 1 to 20 digits spells, at most `most`. Zeros may lead. Each byte is
/// looked at once.
#[tactic(auto, unfolding(crate::specs::Numbers::number_below))]
pub fn number(text: &[u8], most: u64) -> Option<u64>
    ensures value { result ≡ number_below (most + 1) text.now }
    ensures most { IfSome result (λ value. value ≤ most) }
{
    digits(text, LONGEST_NUMBER, most)
}

/// The exptime that a text spells: maybe a `-`, then 1 to 19 digits, for an absolute value of at
/// most 9,223,372,036,854,775,807. Zeros may lead. Each byte is looked at once.
#[tactic(auto, unfolding(crate::specs::Numbers::exptime_of))]
pub fn exptime(text: &[u8]) -> Option<i64>
    ensures { result ≡ exptime_of text.now }
{
    match text {
        [] => None,
        [first, rest @ ..] => {
            if *first == b'-' {
                Some(-magnitude(rest)?)
            } else {
                magnitude(text)
            }
        }
    }
}

fn magnitude(text: &[u8]) -> Option<i64>
    ensures { result ≡ option_map pos (magnitude text.now) }
{
    let value = digits(text, LONGEST_EXPTIME, i64::MAX as u64)?;
    Some(value as i64)
}
