//! The error of a device.
ghost use Rattle.std.specs.Prelude.{codes, Some};

use std::error::Error;
use std::fmt;

/// A device failed: its count of faults rose in the call, or stands at `u64::MAX`.
#[derive(Clone, Copy, Debug, PartialEq, Eq, Hash)]
pub struct Failed;

impl fmt::Display for Failed {
    ghost output = { λ _. Some (codes "a device failed") };

    fn fmt<W: fmt::Write>(&self, f: &mut fmt::Formatter<W>) -> fmt::Result {
        f.write_str("a device failed")
    }
}

impl Error for Failed {}
