//! What the time is read from.
ghost use Rattle.std.specs.Prelude.{ℕ, List, [], ◌∷◌, Option};
ghost use Rattle.tm_base.specs.Visible.{Grows};

/// What the time is read from.
pub trait Clock {
    /// The readings so far, where the clock tells them. A clock that tells goes on telling.
    ghost readings: { Self → Option (List ℕ) };

    /// Reads the clock, in seconds since 1970 (Unix time). A reading may be below an earlier one.
    fn now(&mut self) -> u64
        ensures { Grows (readings self.old) (readings self.new) (result ∷ []) };
}
