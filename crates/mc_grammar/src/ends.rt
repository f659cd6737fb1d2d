//! Where lines end.
ghost use Rattle.std.specs.Prelude.{◌<◌, ◌≤◌, length, take, MatchOption};
ghost use Rattle.mc_model.specs.Line.{IsLine, HasNoEnd};

use memchr::memchr;

// How many bytes the first line has, its line feed included.
pub(crate) fn end_of_line(bytes: &[u8]) -> Option<usize>
    ensures within { MatchOption result (HasNoEnd bytes.now) (λ n. (0 < n) × (n ≤ length bytes.now) × IsLine (take n bytes.now)) }
{
    match memchr(b'\n', bytes) {
        None => None,
        Some(at) => Some(at + 1),
    }
}
