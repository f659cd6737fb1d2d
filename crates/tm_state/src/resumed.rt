//! What came of a launch that went on.

use crate::launch::Launch;
use tm_seq::Entrusted;

/// What came of a launch that went on.
#[derive(Drop)]
pub enum Resumed<S: Entrusted> {
    /// It asks an object that its trustee holds at a greater one, and waits for the reply.
    Asked {
        /// The number of the trustee that is asked.
        trustee: u32,
        /// Which of the objects that its own trustee holds there, from 0.
        index: u32,
        /// The operation.
        op: S::Op,
        /// The launch, to be handed back with the reply.
        launch: Launch<S>,
    },
    /// It has ended, and its completion is ready.
    Ended,
}
