//! What of a message has come.

use crate::held::{Filling, Front};
use mc_item::Bytes;
use mc_model::{Fault, Header, Message};

/// What of a message has come.
#[derive(Drop)]
pub enum Progress {
    /// The line so far. Its end was sought in all of it.
    Line(Front),
    /// The block so far, and then nothing of its tail.
    Block(Header, Filling),
    /// A whole block, and a carriage return behind it.
    Returned(Header, Bytes),
    /// A fault that is certain. So many bytes, and then those through a line end, are passed over.
    Pass(Fault, usize),
    /// The message is whole.
    Ready(Message),
}
