//! Whether an object goes on.

/// What a hold that was taken away leaves of an object.
#[derive(Debug, Clone, Copy, PartialEq, Eq)]
pub enum Left {
    /// A hold on it is left, or a launch.
    More,
    /// No hold was left, and the value was dropped.
    Dropped,
}
