//! What a turn did.

/// What a turn of a trustee did.
#[derive(Debug, Clone, Copy, PartialEq, Eq)]
pub enum Served {
    /// So many batches were answered, published and collected, and tasks resumed, at least one, or `u64::MAX` where
    /// that is more.
    Moved(u64),
    /// It has not ended, every look found nothing, and nothing was published or resumed.
    Quiet,
    /// Every place has said `Bye`, and every greater trustee's answer to the `Bye` of this one was collected,
    /// whatever this turn moved.
    Ended,
}
