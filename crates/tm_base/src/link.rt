//! What a listener hands out.

/// A connection: what is read from it, what is written to it, and the clock that its commands are timed by.
#[derive(Debug, Drop)]
pub struct Link<I, O, W> {
    pub source: I,
    pub sink: O,
    pub clock: W,
}
