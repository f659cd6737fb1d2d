//! The reader of memcached's text protocol: messages out of a stream that comes in pieces.
#![tactic(auto)]

mod blocks;
mod ends;
mod held;
mod laws;
mod lines;
mod pieces;
mod plain;
mod progress;
mod reader;

pub use held::{Filling, Front};
pub use laws::{each_text_reads, one_reading, one_spelling, reads_extend};
pub use pieces::{Reading, read_pieces};
pub use plain::read_plainly;
pub use progress::Progress;
pub use reader::{Next, Reader};
