//! What a ticket finds.

/// What a ticket finds at an object.
#[derive(Drop)]
pub enum Entered<K> {
    /// No other ticket runs on the object: this one does, and its task comes back to be run.
    Running(K),
    /// Another ticket runs on the object: this one waits.
    Queued,
}
