//! How far a trustee is with a greater one.

/// How far a trustee is with its `Bye` at a greater one.
#[derive(Debug, Clone, Copy, PartialEq, Eq)]
pub(crate) enum Stage {
    /// It has not said it.
    Before,
    /// It has, and the answer was not collected.
    Out,
    /// The answer was collected.
    Over,
}
