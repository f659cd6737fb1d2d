//! All that a client keeps.

use crate::answers::Arrival;
use crate::holds::Holds;
use crate::lane::Lane;
use crate::trust::Trust;
use circular_buffer::HeapCircularBuffer;
use tm_pair::FitsBatches;

/// All that a client keeps, for contracts to speak of.
#[derive(Drop)]
pub struct Books<S: FitsBatches, C, D> {
    // Its number, the number of clients, and how many trusts it may have.
    pub(crate) number: u32,
    pub(crate) clients: u32,
    pub(crate) most: u32,
    // One for each trustee, in order.
    pub(crate) lanes: Vec<Lane<S, C, D>>,
    // The trusts that it holds.
    pub(crate) held: Holds,
    // The answers, the completions and the gifts that came and were not taken.
    pub(crate) arrived: HeapCircularBuffer<Arrival<S, C>>,
    pub(crate) gifts: HeapCircularBuffer<Trust>,
    // How many trusts may still come: entrusts and reclaims whose answers were not taken, gifts that were not taken, and the rooms of
    // batches that are out.
    pub(crate) coming: u32,
}
