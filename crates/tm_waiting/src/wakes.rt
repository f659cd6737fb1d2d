//! Whose calls wake threads.

use crate::waker::Waker;

/// A table whose calls wake the threads that wait for them.
pub trait Wakes {
    /// What the thread at this place sleeps on, where the table's calls wake it. A place below the clients' number is a
    /// client's, and behind them stand the trustees'.
    fn waker(&self, place: u32) -> Option<&Waker>;
}
